// The call of the board's C program that finds the shortest schedule, as C finds it: it hands its arguments on to the function of its name
// in `shortest_calls`, whose contract it has. It stands apart from the other calls, so that a restore has one place in each object of the
// archive and is compiled into it. It may not know how a call goes.
#![tactic(auto)]

ghost use Rattle.upd546.specs.TwoRunners.{chip};
ghost use Rattle.shortest_calls.specs.Call.{Called};

// THE CALL: 1 of a short buffer, 71, the image's refusals, the run's, 81, 82; k in the first 8 bytes of `found`.
#[unsafe(no_mangle)]
pub extern "C" fn wharfnettle_shortest(
    image: &[u8],
    rom: &[u8],
    schedule: &[u8],
    n: u64,
    log: &mut [u8],
    found: &mut [u8],
    rom_bytes: u64,
    rows: u64,
    levels: u64,
) -> u8
    ensures { Called (chip (record { rom = rom_bytes; rows = rows; levels = levels })) image.now rom.now schedule.now n log.old found.old result log.new found.new }
{
    shortest_calls::wharfnettle_shortest(
        image, rom, schedule, n, log, found, rom_bytes, rows, levels,
    )
}
