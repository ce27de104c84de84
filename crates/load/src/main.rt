// Program `load`: reads a line of text from standard input, `rom SEED` or `schedule SEED M`, and writes the ROM or the schedule of that
// seed, as bytes; a refusal as its number; of any other line nothing, and says on standard error what was expected. It may not know how
// a line is read, nor how a load is made.
#![tactic(auto)]

ghost use Rattle.std.specs.Prelude.{◌≡◌, ◌*◌, option_map};
ghost use Rattle.upd546.specs.TheMachine.{rom_length};
ghost use Rattle.upd546.specs.TheLineSchedule.{record_length};
ghost use Rattle.generator.specs.Loads.{rom_made, schedule_made};
ghost use Rattle.load_line.specs.Commands.{command_of};
ghost use Rattle.load.specs.Answers.{by_number, made_of, load_of};

use generator::Unmade;
use load_line::Command;
use std::io::{Write, writer};
use std::rt::Runtime;
use streams::{Failure, Output};
use upd546::ROM_LENGTH;

// The bytes of a schedule's record.
const RECORD_LENGTH: usize = 10;

const EXPECTED: &str =
    "load: expected one line on standard input, `rom SEED` or `schedule SEED M`, with decimal numbers: SEED from 0 to 4294967295, M from 0 to 4096\n";

fn main(rt: HostRuntime) {
    let mut out = Output::new(writer(&rt));
    let done = run(&rt, &mut out);
    streams::end(&rt, b"load", out, done);
}

// A line that fills the buffer is neither of the two. The space holds every load.
fn run(rt: &impl Runtime, out: &mut Output<impl Write>) -> Result<(), Failure> {
    let mut line = io::buffer();
    let got = streams::fill(&mut rt.reader(), &mut line).map_err(Failure::Unread)?;
    if got == line.len() {
        return Err(Failure::Mistake(EXPECTED));
    }
    let mut space = io::large_buffer();
    let made = make(&line[..got], &mut space).ok_or(Failure::Mistake(EXPECTED))?;
    let bytes = made.map_err(|why| Failure::Refused(generator::made_number(Err(why))))?;
    out.write_first(&space, bytes)?;
    Ok(())
}

// THE LOAD THAT A LINE ASKS FOR, at the front of a space: how many bytes. None where the line asks for none.
#[tactic(auto, unfolding(crate::specs::Answers::load_of))]
fn make(line: &[u8], space: &mut [u8]) -> Option<Result<usize, Unmade>>
    ensures { record { load = option_map by_number result; space = space.new } ≡ load_of (command_of line.now) space.old }
{
    match load_line::asked(line)? {
        Command::Rom(seed) => Some(make_rom(seed, space)),
        Command::Schedule(seed, m) => Some(make_schedule(seed, m, space)),
    }
}

fn make_rom(seed: u32, space: &mut [u8]) -> Result<usize, Unmade>
    ensures { record { load = Some (by_number result); space = space.new } ≡ made_of rom_length (rom_made seed space.old) }
{
    generator::make_rom(seed, space)?;
    Ok(ROM_LENGTH)
}

// A schedule that isn't refused has at most 4,096 records.
fn make_schedule(seed: u32, m: u64, space: &mut [u8]) -> Result<usize, Unmade>
    ensures { record { load = Some (by_number result); space = space.new } ≡ made_of (record_length * m) (schedule_made seed m space.old) }
{
    generator::make_schedule(seed, m, space)?;
    Ok(RECORD_LENGTH * m as usize)
}
