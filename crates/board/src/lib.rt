// The calls of the board's C program: restore, run and save in one, and the image of a fresh state; for programs in Rattle, what a
// call's number tells. It may not know how a restore, a run or a save goes, nor the image's layout.
#![tactic(auto)]

ghost use Rattle.std.specs.Prelude.{◌≡◌, ◌++◌, ◌+◌, ◌≤◌, length, take, drop};
ghost use Rattle.runs.specs.declared.Version.TheVariants.{Two};
ghost use Rattle.runs.specs.TwoRunners.{save_answer};
ghost use Rattle.upd546.specs.Bytes.{bytes_of};
ghost use Rattle.upd546.specs.TheMachine.{fresh};
ghost use Rattle.upd546.specs.TwoRunners.{upd546, chip, answer_of};
ghost use Rattle.calls.specs.Call.{kind_of, report_length, count_bytes, reported, image_run, board_answer};
ghost use Rattle.calls.specs.EveryCall.{ran_by};

use runs::{MachineCycles, RunEnd, Version};
use upd546::{RunAnswer, Sheet};

// The bytes of a report.
pub const REPORT_LENGTH: usize = 32;

// A count's eight bytes, from a place on.
fn put_count(report: &mut [u8], at: usize, n: u64)
    requires { at + 8 ≤ length report.old }
    ensures { report.new ≡ take at report.old ++ bytes_of 8 n ++ drop (at + 8) report.old }
{
    big_endian::put_number::<8>(&mut report[at..], n);
}

// The four counts of a run, in the first bytes of the report. The report is bytes that C lends, and no struct, so each
// count is put at its place, as `count_bytes` has them.
fn put_counts(report: &mut [u8], cycles: MachineCycles, begun: u64, written: usize, steps: u64)
    requires { report_length ≤ length report.old }
    ensures { report.new ≡ reported (count_bytes cycles.0 begun written steps) report.old }
{
    put_count(report, 0, cycles.0);
    put_count(report, 8, begun);
    put_count(report, 16, written as u64);
    put_count(report, 24, steps);
}

// The run of an image: refused where a restore refuses the sheet or the image, version 2 being due, else what the runner answers. `runner`
// stays the number that C hands in, as `kind_of` reads it: 0 is the plain one, and every other the timer-skipping one.
fn run_image(
    image: &[u8],
    rom: &[u8],
    schedule: &[u8],
    log: &mut [u8],
    n: u64,
    runner: u64,
    sheet: Sheet,
) -> RunAnswer
    ensures { answer_of result log.new ≡ image_run (chip sheet) (kind_of runner) image.now rom.now schedule.now log.old n }
{
    let restored = restore::restore_current(image, sheet);
    let state = restored.state;
    if let Err(why) = restored.outcome {
        return runner::refused(why, state);
    }
    if runner == 0 {
        return runner::run_plain(rom, schedule, state, log, MachineCycles(n), sheet);
    }
    runner::run_skipping(rom, schedule, state, log, MachineCycles(n), sheet)
}

// THE BOARD'S CALL: 1 of a short report, 71, the image's refusals, the run's; then the image is saved over. Its parameters are those of its
// function in C.
pub fn wharfnettle_call(
    image: &mut [u8],
    rom: &[u8],
    schedule: &[u8],
    log: &mut [u8],
    n: u64,
    runner: u64,
    report: &mut [u8],
    rom_bytes: u64,
    rows: u64,
    levels: u64,
) -> u8
    ensures { record { number = result; image = image.new; log = log.new; report = report.new } ≡ board_answer chip (record { image = image.old; rom = rom.now; sched = schedule.now; log = log.old; n = n; runner = runner; report = report.old; sheet = record { rom = rom_bytes; rows = rows; levels = levels } }) }
{
    if report.len() < REPORT_LENGTH {
        return 1;
    }
    let sheet = Sheet {
        rom: rom_bytes,
        rows,
        levels,
    };
    let a = run_image(image, rom, schedule, log, n, runner, sheet);
    let end = a.end;
    let cycles = a.cycles;
    let state = a.state;
    put_counts(report, cycles, a.begun, a.written, a.steps);
    if let RunEnd::Refused(why) = end {
        return runs::refusal_number(why);
    }
    // The image had its 82 bytes and its sheet was taken, so this save isn't refused.
    let _ = save::save(state, Version::Two, image, sheet);
    runs::end_number(end)
}

// The image of the fresh state, saved into a buffer as version 2. It is the same under every sheet.
pub fn wharfnettle_fresh(image: &mut [u8]) -> u8
    ensures { record { number = result; buffer = image.new } ≡ save_answer upd546 Two fresh image.old }
{
    let sheet = upd546::upd546_sheet();
    runs::outcome_number(save::save(upd546::fresh_state(), Version::Two, image, sheet))
}

// Whether the number of a call is that of a finish or a stop, and no refusal's.
pub fn ran(number: u8) -> bool
    ensures { result ≡ ran_by number }
{
    (number == 0) | ((number == 3) | (number == 22) | (number == 23))
}
