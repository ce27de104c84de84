// The two runners: what refuses a run, and then the one loop that both go through. It may not know how the loop goes.
#![tactic(auto)]

ghost use Rattle.std.specs.Prelude.{◌≡◌, List, ℕ};
ghost use Rattle.runs.specs.Numbers.{outcome_number, refusal_number};
ghost use Rattle.runs.specs.TwoRunners.{refused_run, run_number, plain, skipping};
ghost use Rattle.upd546.specs.TwoRunners.{chip, answer_of};
ghost use Rattle.turns.specs.Either.{run_by};

use runs::{ClockCycles, MachineCycles, Refusal, RunEnd};
use turns::Panel;
use upd546::{RunAnswer, Sheet, State};

// What refuses a run: 71, then 21, then the schedule, then the state, then 2.
fn refusal(
    rom: &[u8],
    sched: &[u8],
    s: State,
    n: MachineCycles,
    sheet: Sheet,
) -> Result<(), Refusal>
    ensures { outcome_number result ≡ run_number (chip sheet) rom.now sched.now s n.0 }
{
    fields::check_sheet(sheet)?;
    if rom.len() as u64 != sheet.rom {
        return Err(Refusal::RomLength);
    }
    schedule::check(sched)?;
    fields::check(s, sheet)?;
    let cycle = s.cycle;
    if fields::within_limit(cycle, n) {
        return Ok(());
    }
    Err(Refusal::CycleLimit)
}

// The cycles of a run that isn't refused, by either runner. The tables are made once in a run.
fn run_accepted(
    rom: &[u8],
    sched: &[u8],
    s: State,
    log: &mut [u8],
    n: u64,
    skips: bool,
    sheet: Sheet,
) -> RunAnswer
    requires { run_number (chip sheet) rom.now sched.now s n ≡ 0 }
    ensures { answer_of result log.new ≡ run_by skips sheet rom.now sched.now s log.old n }
{
    let table = tables::instruction_table();
    let rows = tables::row_table(sheet.rows as u8);
    let positions = tables::position_table();
    let registers = tables::register_table();
    let first = schedule::start(sched, s.cycle);
    let panel = Panel {
        rom,
        sched,
        table: &table,
        rows: &rows,
        positions: &positions,
        registers: &registers,
        skips,
        sheet,
    };
    turns::run_loop(panel, s, first, log, n)
}

// The answer of a refused run: the state given, and all counts 0.
pub fn refused(why: Refusal, s: State) -> RunAnswer
    ensures { (log : List ℕ) → answer_of result log ≡ refused_run (refusal_number why) s log }
{
    RunAnswer {
        end: RunEnd::Refused(why),
        state: s,
        cycles: MachineCycles(0),
        clocks: ClockCycles(0),
        begun: 0,
        written: 0,
        steps: 0,
    }
}

// Either runner: refused, or run. The two below stay two functions, as README and docs/ name them and document 01 has them; so do their
// parameters, which are what callers write. `skips` stays a bool, and no enum or type parameter: one loop serves both runners, as a
// second place where the cycle is compiled in would make both slower (docs/DECISIONS.md), and `run_by` takes it so.
fn run(
    rom: &[u8],
    sched: &[u8],
    s: State,
    log: &mut [u8],
    n: MachineCycles,
    skips: bool,
    sheet: Sheet,
) -> RunAnswer
    ensures { answer_of result log.new ≡ run_by skips sheet rom.now sched.now s log.old n.0 }
{
    if let Err(why) = refusal(rom, sched, s, n, sheet) {
        return refused(why, s);
    }
    run_accepted(rom, sched, s, log, n.0, skips, sheet)
}

// THE PLAIN RUNNER.
pub fn run_plain(
    rom: &[u8],
    sched: &[u8],
    s: State,
    log: &mut [u8],
    n: MachineCycles,
    sheet: Sheet,
) -> RunAnswer
    ensures { answer_of result log.new ≡ plain (chip sheet) rom.now sched.now s log.old n.0 }
{
    run(rom, sched, s, log, n, false, sheet)
}

// THE TIMER-SKIPPING RUNNER.
pub fn run_skipping(
    rom: &[u8],
    sched: &[u8],
    s: State,
    log: &mut [u8],
    n: MachineCycles,
    sheet: Sheet,
) -> RunAnswer
    ensures { answer_of result log.new ≡ skipping (chip sheet) rom.now sched.now s log.old n.0 }
{
    run(rom, sched, s, log, n, true, sheet)
}
