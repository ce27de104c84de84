// The board's driver: the board keeps one machine, and lends it for a run, which brings it forward; and a day's log in one buffer.
// It may not know how a run goes, only what its runner answers.
#![tactic(auto)]

ghost use Rattle.std.specs.Prelude.{◌≡◌, List, ℕ, drop};
ghost use Rattle.runs.specs.Lists.{run_answer};
ghost use Rattle.upd546.specs.TwoRunners.{chip, answer_of};
ghost use Rattle.driver.specs.Lending.{runner_kind, brought_to, kept_before};

use runner::{run_plain, run_skipping};
use runs::{ClockCycles, MachineCycles, RunEnd};
use upd546::{RunAnswer, Sheet, State};

// The machine that the board keeps.
#[derive(Clone, Copy)]
pub struct KeptMachine {
    pub state: State,
}

// Which of the two runners a run goes by.
#[derive(Clone, Copy, PartialEq, Eq)]
pub enum Runner {
    Plain,
    Skipping,
}

// What a run answers besides the state. The log that it was lent holds `written` bytes of records.
#[derive(Clone, Copy)]
pub struct Report {
    pub end: RunEnd,
    pub cycles: MachineCycles,
    pub clocks: ClockCycles,
    pub begun: u64,
    pub written: usize,
    pub steps: u64,
}

// The machine after a run, and the run's report.
#[derive(Clone, Copy)]
pub struct DriveAnswer {
    pub machine: KeptMachine,
    pub report: Report,
}

// The state that a run answers is the machine's, and the rest is its report.
fn told(a: RunAnswer) -> DriveAnswer
    ensures { (log : List ℕ) → brought_to result.report result.machine log ≡ answer_of a log }
{
    DriveAnswer {
        machine: KeptMachine { state: a.state },
        report: Report {
            end: a.end,
            cycles: a.cycles,
            clocks: a.clocks,
            begun: a.begun,
            written: a.written,
            steps: a.steps,
        },
    }
}

// A run of n cycles by this runner brings the machine forward; a refused one leaves it as it was. The machine goes in by value and
// comes back by value. The parameters of this and the two below are what docs/LIBRARIES.md has callers write, so they are no struct.
pub fn advance(
    machine: KeptMachine,
    kind: Runner,
    rom: &[u8],
    sched: &[u8],
    log: &mut [u8],
    n: MachineCycles,
    sheet: Sheet,
) -> DriveAnswer
    ensures { brought_to result.report result.machine log.new ≡ run_answer (chip sheet) (runner_kind kind) rom.now sched.now machine.state log.old n.0 }
{
    let s = machine.state;
    match kind {
        Runner::Plain => told(run_plain(rom, sched, s, log, n, sheet)),
        Runner::Skipping => told(run_skipping(rom, sched, s, log, n, sheet)),
    }
}

// The same on the part of a log that is still empty, from the place `at` on: a day's log is one buffer. Behind the log's end that part
// is empty.
pub fn advance_from(
    machine: KeptMachine,
    kind: Runner,
    rom: &[u8],
    sched: &[u8],
    log: &mut [u8],
    at: usize,
    n: MachineCycles,
    sheet: Sheet,
) -> DriveAnswer
    ensures { brought_to result.report result.machine log.new ≡ kept_before at log.old (run_answer (chip sheet) (runner_kind kind) rom.now sched.now machine.state (drop at log.old) n.0) }
{
    let from = at.min(log.len());
    advance(machine, kind, rom, sched, &mut log[from..], n, sheet)
}

// A run of n cycles by this runner brings the lent machine forward; a refused one leaves it as it was.
pub fn drive(
    machine: &mut KeptMachine,
    kind: Runner,
    rom: &[u8],
    sched: &[u8],
    log: &mut [u8],
    n: MachineCycles,
    sheet: Sheet,
) -> Report
    ensures { brought_to result machine.new log.new ≡ run_answer (chip sheet) (runner_kind kind) rom.now sched.now machine.old.state log.old n.0 }
{
    let a = advance(*machine, kind, rom, sched, log, n, sheet);
    *machine = a.machine;
    a.report
}
