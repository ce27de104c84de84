// The calls of the board's C program, as C finds them: each hands its arguments on to the function of its name in `board`, whose contract
// it has. It stands apart from the other calls, so that a restore has one place in each object of the archive and is compiled into it. It
// may not know how a call goes.
#![tactic(auto)]

ghost use Rattle.std.specs.Prelude.{◌≡◌};
ghost use Rattle.runs.specs.declared.Version.TheVariants.{Two};
ghost use Rattle.runs.specs.TwoRunners.{save_answer};
ghost use Rattle.upd546.specs.TheMachine.{fresh};
ghost use Rattle.upd546.specs.TwoRunners.{upd546, chip};
ghost use Rattle.calls.specs.Call.{board_answer};

// THE BOARD'S CALL: 1 of a short report, 71, the image's refusals, the run's; then the image is saved over.
#[unsafe(no_mangle)]
pub extern "C" fn wharfnettle_call(
    image: &mut [u8],
    rom: &[u8],
    schedule: &[u8],
    log: &mut [u8],
    n: u64,
    runner: u64,
    report: &mut [u8],
    rom_bytes: u64,
    rows: u64,
    levels: u64,
) -> u8
    ensures { record { number = result; image = image.new; log = log.new; report = report.new } ≡ board_answer chip (record { image = image.old; rom = rom.now; sched = schedule.now; log = log.old; n = n; runner = runner; report = report.old; sheet = record { rom = rom_bytes; rows = rows; levels = levels } }) }
{
    board::wharfnettle_call(
        image, rom, schedule, log, n, runner, report, rom_bytes, rows, levels,
    )
}

// The image of the fresh state, saved into a buffer as version 2. It is the same under every sheet.
#[unsafe(no_mangle)]
pub extern "C" fn wharfnettle_fresh(image: &mut [u8]) -> u8
    ensures { record { number = result; buffer = image.new } ≡ save_answer upd546 Two fresh image.old }
{
    board::wharfnettle_fresh(image)
}
