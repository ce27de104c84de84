// An instruction in code, up to the step of the timer, on a core by value and RAM, latches and log as they are lent.
// Every stop is decided before anything lent is changed. It may not know of schedules, interrupts and the timer's steps, nor how
// a run goes.
#![tactic(auto)]

ghost use Rattle.std.specs.Prelude.{◌≡◌, ◌+◌, ◌≤◌, length};
ghost use Rattle.upd546.specs.declared.Sheet.{Sheet};
ghost use Rattle.laws.specs.Burst.{unticked};
ghost use Rattle.upd546.specs.Parts.{state_of};
ghost use Rattle.effect.specs.Answer.{answer_on, start_of, told};
ghost use Rattle.effect.specs.Endings.{Fits};
ghost use Rattle.cycle.specs.Ready.{Ready};

use effect::{Chip, Started};
use instructions::Inputs;
use runs::Stop;
use upd546::{Core, LATCHES, Lines, RAM_WORDS};

// The instruction at PC, with the lines taken, begun in cycle `number`, with the log empty from `at` on. The log is lent whole, so
// that instructions that write no port needn't work out its rest.
pub fn execute(
    chip: Chip,
    c: Core,
    ram: &mut [u8; RAM_WORDS],
    ports: &mut [u8; LATCHES],
    log: &mut [u8],
    at: usize,
    lines: Lines,
    number: u64,
) -> Result<Started, Stop>
    requires { Ready chip.rom.now chip.table.now chip.rows.now chip.levels lines (state_of c ram.old ports.old number) × (at ≤ length log.old) }
    ensures { (sheet : Sheet) → Fits sheet chip.entry.rom.now chip.entry.rows.now chip.entry.levels → start_of (told c at result) ram.new ports.new log.new ≡ answer_on at (unticked sheet chip.entry.rom.now lines (state_of c ram.old ports.old number) c) (state_of c ram.old ports.old number) log.old }
{
    let f = fetch::fetch_at(chip.rom, chip.table, c.flow.pc)?;
    // `Fetched` isn't handed on whole: its cycles are for the ends alone, and the groups don't read them.
    let g = Inputs {
        core: c,
        after: f.after,
        code: f.code,
        second: f.second,
        lines,
    };
    effect::outcome(chip, g, f.cycles, ram, ports, log, at, number)
}
