// The loop of both runners: turn after turn, or a jump, from a state on. The state goes in by value and comes back by value; inside
// the loop the core is a local and RAM, latches, log and tables are lent.
// It may not know what a turn does, only that it answers what its definition says, nor where a jump is taken, nor what refuses a run.
#![tactic(auto)]

ghost use Rattle.std.specs.Prelude.{◌≡◌, ◌-◌, ◌*◌, ◌≤◌};
ghost use Rattle.runs.specs.Laws.{Bytes};
ghost use Rattle.runs.specs.Refusals.{cycle_limit};
ghost use Rattle.runs.specs.Reports.{clocks_per_cycle, clocks_of};
ghost use Rattle.upd546.specs.TwoRunners.{answer_of};
ghost use Rattle.upd546.specs.Parts.{with_count, state_of};
ghost use Rattle.laws.specs.Valid.{Scalars};
ghost use Rattle.turns.specs.Either.{Set, run_by};

// What a run lends each turn: `runner` makes one, and may not know `burst`.
pub use burst::Panel;
use runs::{ClockCycles, MachineCycles, RunEnd, Stop};
use schedule::Cursor;
use upd546::{Core, LAST_MARK, LATCHES, RAM_WORDS, RunAnswer, State};

// The core as it is: nothing in a run's core is wider than in the chip. LLVM can't know that, so it doesn't hold bytes of the core in
// vectors throughout the loop, which would take 15 to 27 machine instructions more for each cycle (docs/MEASUREMENTS.md).
fn within_widths(c: Core) -> Core
    ensures { Scalars c → result ≡ c }
{
    let mut core = c;
    core.registers.dph = c.registers.dph.min(7);
    core.interrupt.level = c.interrupt.level.min(1);
    core.mark = c.mark.min(LAST_MARK);
    core
}

fn state_of(core: Core, ram: [u8; RAM_WORDS], ports: [u8; LATCHES], count: u8, n: u64) -> State
    ensures { result ≡ with_count count (state_of core ram ports n) }
{
    State {
        core,
        ports,
        ram,
        count,
        cycle: MachineCycles(n),
    }
}

// The one conversion between the two counts. No run counts past the cycle limit.
fn clocks(m: MachineCycles) -> ClockCycles
    requires { m.0 ≤ cycle_limit }
    ensures { result ≡ clocks_of m }
{
    ClockCycles(4 * m.0)
}

// What a run answers that did so many cycles.
fn answer(
    end: RunEnd,
    state: State,
    done: u64,
    begun: u64,
    written: usize,
    spared: u64,
) -> RunAnswer
    requires { (done ≤ cycle_limit) × (spared ≤ done) }
    ensures { result ≡ record { end = end; state = state; cycles = record { 0 = done }; clocks = record { 0 = clocks_per_cycle * done }; begun = begun; written = written; steps = done - spared } }
{
    RunAnswer {
        end,
        state,
        cycles: MachineCycles(done),
        clocks: clocks(MachineCycles(done)),
        begun,
        written,
        steps: done - spared,
    }
}

// What the types of ROM and schedule say: the check knows it of slices that are parameters, and not of slices within a struct.
fn bytes_alone(rom: &[u8], sched: &[u8])
    ensures { Bytes rom.now × Bytes sched.now }
{}

// The loop of both runners, from the state s on with its cursor. `spared` counts the cycles that took no step of their own.
pub fn run_loop(panel: Panel, s: State, first: Cursor, log: &mut [u8], n: u64) -> RunAnswer
    requires { Set panel.sheet panel.rom.now panel.sched.now panel.table.now panel.rows.now panel.positions.now panel.registers.now s first n }
    ensures { answer_of result log.new ≡ run_by panel.entry.skips panel.entry.sheet panel.entry.rom.now panel.entry.sched.now s log.old n }
{
    let rom = panel.rom;
    let sched = panel.sched;
    let positions = panel.positions;
    bytes_alone(rom, sched);
    let start = s.cycle.0;
    let end = start + n;
    let mut core = s.core;
    let mut ram = s.ram;
    let mut ports = s.ports;
    let mut cursor = first;
    let mut at: usize = 0;
    let mut number = start;
    let mut begun: u64 = 0;
    let mut spared: u64 = 0;
    let mut count = s.count;
    while number < end {
        let lines = cursor.lines;
        let mut limit = end.min(cursor.next);
        let before = count;
        if (lines.res != 0) | (count != 0) {
            let r = match reset::look(core, &mut ports, log, at, lines, number, limit, before) {
                Some(r) => r,
                None => {
                    let full = RunEnd::Stopped(Stop::LogFull);
                    let same = state_of(within_widths(core), ram, ports, before, number);
                    return answer(full, same, number - start, begun, at, spared);
                }
            };
            core = r.core;
            at = r.at;
            number = r.number;
            limit = r.limit;
            count = r.count;
        }
        while number < limit {
            let j = jump::jump_length(
                rom,
                positions,
                panel.skips,
                core.flow.pc,
                core.owed,
                core.interrupt,
                core.timer,
                lines.int,
                limit - number,
            );
            if j != 0 {
                core = jump::core_after_jump(positions, panel.registers, core, j);
                begun = begun + j;
                spared = spared + (j - 1);
                number = number + j;
            } else {
                let o = burst::turn(
                    panel, core, &mut ram, &mut ports, log, at, lines, number, limit, begun,
                );
                if let Some(stop) = o.stop {
                    let state = state_of(within_widths(core), ram, ports, before, number);
                    return answer(
                        RunEnd::Stopped(stop),
                        state,
                        number - start,
                        begun,
                        at,
                        spared,
                    );
                }
                core = o.core;
                at = o.at;
                begun = o.begun;
                number = o.cycle;
            }
        }
        cursor = schedule::moved(sched, cursor, MachineCycles(number - 1));
    }
    let state = state_of(within_widths(core), ram, ports, count, number);
    answer(RunEnd::Finished, state, number - start, begun, at, spared)
}
