// Program `walk`: reads two cycle numbers and a panel, and writes what the panel does in each machine cycle from the first number on up to
// the second, a line for each, and why it stops there; a refusal as its number. It may not know how a run goes, nor what a line tells.
#![tactic(auto)]

use runs::{MachineCycles, RunEnd, Stop};
use std::io::{Write, writer};
use std::rt::Runtime;
use streams::{Cut, Failure, Output};
use upd546::{ROM_LENGTH, State};
use walk_text::{Halt, LINE_LENGTH};

// The numbers of cycles of the input, 8 bytes each, and the panel's n.
const CYCLE_LENGTH: usize = 8;

const N_LENGTH: usize = 4;

// The cycles of a slice on the way to the first one. Its log has 16 bytes for each.
const SLICE_CYCLES: u64 = 4096;

// No instruction owes more: that of a cycle was begun at most so many cycles before.
const MOST_OWED: u64 = 3;

// The first cycle of the walk and the one before which it ends; and the panel, with its n.
#[derive(Clone, Copy)]
struct Walk<'a> {
    from: u64,
    to: u64,
    n: u64,
    rom: &'a [u8],
    sched: &'a [u8],
}

// Where the run stands, and how it ended where it doesn't go on.
#[derive(Clone, Copy)]
struct Stand {
    state: State,
    end: RunEnd,
}

fn main(rt: HostRuntime) {
    let mut out = Output::new(writer(&rt));
    let done = run(&rt, &mut out);
    streams::end(&rt, b"walk", out, done);
}

// The way to the first cycle; the heading, the lines from there on, and the end. The buffer holds more than every input that isn't refused,
// so what is behind it need not be read. "under 2,004 bytes being 21", as `trace` has it.
fn run(rt: &impl Runtime, out: &mut Output<impl Write>) -> Result<(), Failure> {
    let mut input = io::large_buffer();
    let got = streams::fill(&mut rt.reader(), &mut input).map_err(Failure::Unread)?;
    let walk = Walk::of(&input[..got]).ok_or(Failure::Refused(21))?;
    let start = walk.from.saturating_sub(MOST_OWED);
    let there = walk.reach(start);
    if let RunEnd::Refused(why) = there.end {
        return Err(Failure::Refused(runs::refusal_number(why)));
    }
    out.write(b"     cycle at  does     Acc C DP M INT INTE mark  owed timer\n")?;
    let cycles = walk.from.max(walk.to).saturating_sub(start);
    let end = walk.write_lines(out, there, cycles)?;
    walk.write_end(out, end)?;
    Ok(())
}

impl<'a> Walk<'a> {
    // The parts of the input. No cycle is behind the panel's last.
    fn of(input: &'a [u8]) -> Option<Walk<'a>> {
        let (from, rest) = input.split_first_chunk::<CYCLE_LENGTH>()?;
        let (to, panel) = rest.split_first_chunk::<CYCLE_LENGTH>()?;
        let (n, rest) = panel.split_first_chunk::<N_LENGTH>()?;
        let (rom, sched) = rest.split_at_checked(ROM_LENGTH)?;
        let n = u64::from(u32::from_be_bytes(*n));
        Some(Walk {
            from: u64::from_be_bytes(*from).min(n),
            to: u64::from_be_bytes(*to).min(n),
            n,
            rom,
            sched,
        })
    }

    // The run up to a cycle by the timer-skipping runner; one slice at least, so that a refusal is told. Of any but 2 it comes with the first,
    // and from the fresh state no n of four bytes is refused with 2.
    fn reach(&self, cycles: u64) -> Stand {
        let sheet = upd546::upd546_sheet();
        let mut state = upd546::fresh_state();
        let mut left = cycles;
        loop {
            let asked = left.min(SLICE_CYCLES);
            let mut log = io::large_buffer();
            let cycles = MachineCycles(asked);
            let ran = runner::run_skipping(self.rom, self.sched, state, &mut log, cycles, sheet);
            state = ran.state;
            left -= asked;
            let end = ran.end;
            if end != RunEnd::Finished || left == 0 {
                return Stand { state, end };
            }
        }
    }

    // So many cycles, and the lines of those from the first one on. After a stop there are none.
    fn write_lines(
        &self,
        out: &mut Output<impl Write>,
        there: Stand,
        cycles: u64,
    ) -> Result<Stand, Cut> {
        if there.end != RunEnd::Finished {
            return Ok(there);
        }
        let mut state = there.state;
        let mut over = 0;
        for _ in 0..cycles {
            let cycle = state.cycle.0;
            let mut line = [0u8; LINE_LENGTH];
            match walk_text::step(self.rom, self.sched, state, over, &mut line) {
                Ok(done) => {
                    if self.from <= cycle {
                        out.write_first(&line, done.size)?;
                    }
                    state = done.state;
                    over = done.over;
                }
                Err(Halt { end, state }) => return Ok(Stand { state, end }),
            }
        }
        let end = RunEnd::Finished;
        Ok(Stand { state, end })
    }

    // Why the walk ends, in words.
    fn write_end(&self, out: &mut Output<impl Write>, there: Stand) -> Result<(), Cut> {
        let Stand { state, end } = there;
        let cycle = state.cycle.0;
        if end != RunEnd::Finished {
            out.write(b"stop ")?;
            out.write_number(runs::end_number(end).into(), b' ')?;
            out.write(b"at cycle ")?;
            out.write_number(cycle, b':')?;
            return self.write_stop(out, state.core.flow.pc, end);
        }
        out.write(b"end at cycle ")?;
        out.write_number(cycle, b' ')?;
        out.write(b"of ")?;
        out.write_number(self.n, b':')?;
        if cycle == self.n {
            return out.write(b" the panel's cycles are done\n");
        }
        out.write(b" the walk ends here\n")
    }

    // A stop: 22 or 23. Each comes from whoever read the ROM.
    fn write_stop(&self, out: &mut Output<impl Write>, pc: u16, end: RunEnd) -> Result<(), Cut> {
        let address = pc % 4096;
        if end == RunEnd::Stopped(Stop::NoInstruction) {
            let code = fetch::byte_at(self.rom, pc);
            out.write(b" the byte due at ")?;
            out.write_short(format_args!("{address:03X}"))?;
            out.write(b" is ")?;
            out.write_short(format_args!("{code:02X}"))?;
            return out.write(b", which is no instruction; it comes from whoever read the ROM\n");
        }
        out.write(b" the instruction due at ")?;
        out.write_short(format_args!("{address:03X}"))?;
        out.write(b" needs a byte above 7CF; it comes from whoever read the ROM\n")
    }
}
