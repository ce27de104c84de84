// The call of the board's C program that finds the shortest schedule that still stops: request R-12. It stands apart from the other
// calls, so that a restore and a run have one place in each object of the archive and are compiled into it.
// It may not know how a restore or a run goes, what a trial is, nor the image's layout.
#![tactic(auto)]

ghost use Rattle.std.specs.Prelude.{◌≡◌};
ghost use Rattle.upd546.specs.TwoRunners.{chip};
ghost use Rattle.shortest.specs.Search.{found_of};
ghost use Rattle.shortest_calls.specs.Call.{Called, FoundIn};

use runs::MachineCycles;
use shortest::{Shortest, Unfound};
use upd546::Sheet;

// The bytes of k.
const FOUND_LENGTH: usize = 8;

// What is found from the state of an image: refused where a restore refuses the sheet or the image, version 2 being due.
fn find_in(
    image: &[u8],
    rom: &[u8],
    schedule: &[u8],
    n: u64,
    log: &mut [u8],
    sheet: Sheet,
) -> Result<Shortest, Unfound>
    ensures { FoundIn (chip sheet) image.now rom.now schedule.now n log.old (found_of result) log.new }
{
    let restored = restore::restore_current(image, sheet);
    restored.outcome?;
    shortest::find(rom, schedule, restored.state, MachineCycles(n), log, sheet)
}

// THE CALL: 1 of a short buffer, 71, the image's refusals, the run's, 81, 82; k in the first 8 bytes of `found`. Its parameters are
// those of its function in C.
pub fn wharfnettle_shortest(
    image: &[u8],
    rom: &[u8],
    schedule: &[u8],
    n: u64,
    log: &mut [u8],
    found: &mut [u8],
    rom_bytes: u64,
    rows: u64,
    levels: u64,
) -> u8
    ensures { Called (chip (record { rom = rom_bytes; rows = rows; levels = levels })) image.now rom.now schedule.now n log.old found.old result log.new found.new }
{
    if found.len() < FOUND_LENGTH {
        return 1;
    }
    let sheet = Sheet {
        rom: rom_bytes,
        rows,
        levels,
    };
    let a = find_in(image, rom, schedule, n, log, sheet);
    big_endian::put_number::<FOUND_LENGTH>(found, shortest::records_of(a) as u64);
    shortest::number_of(a)
}
