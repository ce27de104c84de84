// How another crate uses the libraries: a board keeps a machine and a day's log. The machine is lent for a run of three cycles, and is kept
// as an image of version 1, as old boards keep it. After a switch-off it goes on from that, by the other runner, on the part of the log
// that is still empty, and is kept as an image of version 2; then that is damaged.
// The ROM is document 01's example: OCD A5, LI 3, OE, and then a code that is none.
#![tactic(auto)]

ghost use Rattle.std.specs.Prelude.{◌≡◌, length};
ghost use Rattle.runs.specs.Lists.{run_answer};
ghost use Rattle.upd546.specs.TwoRunners.{chip};
ghost use Rattle.driver.specs.Lending.{runner_kind, brought_to};

use driver::{DriveAnswer, KeptMachine, Report, Runner};
use runs::{MachineCycles, Refusal, Version};
use std::io::{Write, writer};
use streams::{Cut, Failure, Output};
use upd546::layout::{COUNT_AT, IMAGE_LENGTH, IMAGE_LENGTH_ONE};
use upd546::{CYCLE_BYTES, LOG_RECORD, ROM_LENGTH, Sheet};

// 10 cycles in two runs: each run of n cycles has 16n bytes of it.
const LOG_LENGTH: usize = 16 * 10;

fn main(rt: HostRuntime) {
    let mut out = Output::new(writer(&rt));
    let done = evening_and_morning(&mut out).map_err(Failure::Cut);
    streams::end(&rt, b"example", out, done);
}

fn evening_and_morning<W: Write>(out: &mut Output<W>) -> Result<(), Cut> {
    let mut rom = [0; ROM_LENGTH];
    rom[..5].copy_from_slice(&[0x1E, 0xA5, 0x93, 0x44, 0x1C]);
    let mut log = [0; LOG_LENGTH];
    let mut old = [0; IMAGE_LENGTH_ONE];
    let mut image = [0; IMAGE_LENGTH];
    let written = evening(out, &rom, &mut log, &mut old)?;
    morning(out, &rom, &mut log, written, &old, &mut image)?;
    image[COUNT_AT] = 5;
    damaged(out, &image)
}

// Three cycles from the fresh state by the plain runner, and a save of version 1. Where RES was high in the last cycle, that would be
// refused with 54: version 1 has no place for the count. The place from which on the log is empty.
fn evening<W: Write>(
    out: &mut Output<W>,
    rom: &[u8],
    log: &mut [u8],
    old: &mut [u8],
) -> Result<usize, Cut> {
    let sheet = upd546::upd546_sheet();
    let state = upd546::fresh_state();
    let answer = lend(
        KeptMachine { state },
        Runner::Plain,
        rom,
        &[],
        log,
        MachineCycles(3),
        sheet,
    );
    show(out, answer.report, log)?;
    let saved = save::save(answer.machine.state, Version::One, old, sheet);
    tell(out, b"saved as version 1", saved)?;
    Ok(answer.report.written)
}

// The machine stands in a local, and is lent for the run. `driver::advance` says the same with the machine by value.
fn lend(
    start: KeptMachine,
    kind: Runner,
    rom: &[u8],
    schedule: &[u8],
    log: &mut [u8],
    n: MachineCycles,
    sheet: Sheet,
) -> DriveAnswer
    ensures { brought_to result.report result.machine log.new ≡ run_answer (chip sheet) (runner_kind kind) rom.now schedule.now start.state log.old n.0 }
{
    let mut machine = start;
    let report = driver::drive(&mut machine, kind, rom, schedule, log, n, sheet);
    DriveAnswer { machine, report }
}

// An image of either version is restored; of version 1 the count is 0. The panel goes on by the timer-skipping runner, stops at the code
// that is none, with number 23, and is saved as version 2.
fn morning<W: Write>(
    out: &mut Output<W>,
    rom: &[u8],
    log: &mut [u8],
    at: usize,
    old: &[u8],
    image: &mut [u8],
) -> Result<(), Cut> {
    let sheet = upd546::upd546_sheet();
    let kept = restore::restore(old, sheet);
    tell(out, b"restored", kept.outcome)?;
    let answer = driver::advance_from(
        KeptMachine { state: kept.state },
        Runner::Skipping,
        rom,
        &[],
        log,
        at,
        MachineCycles(7),
        sheet,
    );
    show(out, answer.report, &log[at.min(log.len())..])?;
    let saved = save::save(answer.machine.state, Version::Two, image, sheet);
    tell(out, b"saved as version 2", saved)
}

// No count is above 4, so the image is refused with 34. The answer's state is the fresh one.
fn damaged<W: Write>(out: &mut Output<W>, image: &[u8]) -> Result<(), Cut> {
    let kept = restore::restore(image, upd546::upd546_sheet());
    tell(out, b"damaged", kept.outcome)
}

// The records that a run wrote, at the front of its part of the log; its cycles and instructions, and its number.
fn show<W: Write>(out: &mut Output<W>, report: Report, log: &[u8]) -> Result<(), Cut> {
    let written = &log[..report.written.min(log.len())];
    for record in written.chunks_exact(LOG_RECORD) {
        write_record(out, record)?;
    }
    out.write(b"end ")?;
    out.write_number(report.cycles.0, b' ')?;
    out.write_number(report.begun, b' ')?;
    out.write_number(u64::from(runs::end_number(report.end)), b'\n')
}

// A record: the cycle, the port and its latch after the write.
fn write_record<W: Write>(out: &mut Output<W>, bytes: &[u8]) -> Result<(), Cut>
    requires { length bytes.now ≡ 8 }
{
    out.write(b"record ")?;
    out.write_number(big_endian::number_at(bytes, 0, CYCLE_BYTES), b' ')?;
    out.write_number(u64::from(bytes[6]), b' ')?;
    out.write_number(u64::from(bytes[7]), b'\n')
}

fn tell<W: Write>(
    out: &mut Output<W>,
    what: &[u8],
    outcome: Result<(), Refusal>,
) -> Result<(), Cut> {
    out.write(what)?;
    out.write(b" ")?;
    out.write_number(u64::from(runs::outcome_number(outcome)), b'\n')
}
