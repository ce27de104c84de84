// Program `list`: reads a ROM, or a panel with its ROM, and writes the listing. It may not know how a listing is laid out.
#![tactic(auto)]

use listing::TEXT_LENGTH;
use std::io::{Write, writer};
use std::rt::Runtime;
use streams::{Failure, Output};
use upd546::ROM_LENGTH;

// Of a panel the ROM stands behind n, and the schedule behind the ROM.
const N_LENGTH: usize = 4;

const SCHEDULE_AT: usize = N_LENGTH + ROM_LENGTH;

fn main(rt: HostRuntime) {
    let mut out = Output::new(writer(&rt));
    let done = run(&rt, &mut out);
    streams::end(&rt, b"list", out, done);
}

// The buffer holds more than every input that isn't refused, so what is behind it need not be read.
fn run(rt: &impl Runtime, out: &mut Output<impl Write>) -> Result<(), Failure> {
    let mut input = io::large_buffer();
    let got = streams::fill(&mut rt.reader(), &mut input).map_err(Failure::Unread)?;
    let rom = rom(&input[..got]).ok_or(Failure::Refused(21))?;
    let mut text = [0u8; TEXT_LENGTH];
    let size = listing::list(rom, &mut text);
    out.write(&text[..size])?;
    Ok(())
}

// The ROM of the input: 0, and all behind it is a ROM, else a panel. "under 2,004 bytes being 21", as `trace` has it, of a panel; a ROM has at
// most 2,000.
fn rom(input: &[u8]) -> Option<&[u8]> {
    let (kind, part) = input.split_first()?;
    let rom = if *kind == 0 {
        part
    } else {
        part.get(N_LENGTH..SCHEDULE_AT)?
    };
    if rom.len() <= ROM_LENGTH {
        Some(rom)
    } else {
        None
    }
}
