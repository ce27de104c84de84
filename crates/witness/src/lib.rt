// Uses the theorems, so that no clause of theirs can be lost unseen: in specs/ lists of calls, one of them with sheets that differ, a
// list of slices, an image and a log with what the theorems have to say of them, a figure or a plain fact for each clause; the theorems
// a second time, at variables, so that none can hold of fewer arguments or sheets; and a function that makes the calls of two slices,
// and ends as one unbroken run.
// It may not know how a run, a save or a restore goes, nor how a theorem is proved: only definitions, contracts and theorems.
#![tactic(auto)]

ghost use Rattle.driver.specs.Lending.{runner_kind};
ghost use Rattle.witness.specs.Day.{OneSlice, TwoSlices};

use driver::{KeptMachine, Report, Runner};
use runs::{MachineCycles, Refusal, Version};
use upd546::layout::IMAGE_LENGTH;
use upd546::{Sheet, State};

// How a slice ended: what each of its calls answers.
#[derive(Clone, Copy)]
pub struct SliceEnd {
    pub report: Report,
    pub saved: Result<(), Refusal>,
    pub restored: Result<(), Refusal>,
    pub state: State,
}

// How two slices ended.
#[derive(Clone, Copy)]
pub struct DayEnd {
    pub first: SliceEnd,
    pub second: SliceEnd,
}

// A slice on the part of a log from a place on. All three calls are made, also after a refusal.
fn one_slice(
    s: State,
    kind: Runner,
    rom: &[u8],
    sched: &[u8],
    log: &mut [u8],
    at: usize,
    n: MachineCycles,
    sheet: Sheet,
) -> SliceEnd
    ensures { OneSlice sheet (runner_kind kind) rom.now sched.now s log.old at n.0 result log.new }
{
    let answer = driver::advance_from(
        KeptMachine { state: s },
        kind,
        rom,
        sched,
        log,
        at,
        n,
        sheet,
    );
    let machine = answer.machine;
    let report = answer.report;
    let mut bytes = [0u8; IMAGE_LENGTH];
    let saved = save::save(machine.state, Version::Two, &mut bytes, sheet);
    let back = restore::restore(&bytes, sheet);
    SliceEnd {
        report,
        saved,
        restored: back.outcome,
        state: back.state,
    }
}

// Two slices on one day's log, by the plain and by the timer-skipping runner.
pub fn two_slices(
    rom: &[u8],
    sched: &[u8],
    s: State,
    log: &mut [u8],
    n: MachineCycles,
    m: MachineCycles,
    sheet: Sheet,
) -> DayEnd
    ensures { TwoSlices sheet rom.now sched.now s log.old n.0 m.0 result log.new }
{
    let first = one_slice(s, Runner::Plain, rom, sched, log, 0, n, sheet);
    let report = first.report;
    let at = report.written;
    let second = one_slice(first.state, Runner::Skipping, rom, sched, log, at, m, sheet);
    DayEnd { first, second }
}
