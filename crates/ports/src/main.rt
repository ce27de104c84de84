// Program `ports`: reads a panel as `trace` does, and writes the bytes of its port log, of all its cycles, from the fresh state. A refusal
// is told as `trace` tells it. It may not know how a run goes, nor what an image holds.
#![tactic(auto)]

use std::io::{Write, writer};
use std::rt::Runtime;
use streams::{Failure, Output};
use upd546::ROM_LENGTH;
use upd546::layout::IMAGE_LENGTH;

// "n (4 bytes, big-endian), ROM and schedule, under 2,004 bytes being 21"
const COUNT_LENGTH: usize = 4;

fn main(rt: HostRuntime) {
    let mut out = Output::new(writer(&rt));
    let done = run(&rt, &mut out);
    streams::end(&rt, b"ports", out, done);
}

// The buffer holds more than every input that isn't refused, so what is behind it need not be read. A refusal comes before anything is
// written, and its 11 bytes are no log: `waits` refuses them with 41. From the fresh state n of four bytes is never refused with 2.
fn run(rt: &impl Runtime, out: &mut Output<impl Write>) -> Result<(), Failure> {
    let mut input = io::large_buffer();
    let got = streams::fill(&mut rt.reader(), &mut input).map_err(Failure::Unread)?;
    let (count, panel) = input[..got]
        .split_first_chunk::<COUNT_LENGTH>()
        .ok_or(Failure::Refused(21))?;
    let (rom, sched) = panel
        .split_at_checked(ROM_LENGTH)
        .ok_or(Failure::Refused(21))?;
    let n = u32::from_be_bytes(*count);
    let mut image = [0u8; IMAGE_LENGTH];
    board::wharfnettle_fresh(&mut image);
    slices::write_log(out, &mut image, rom, sched, n.into())?;
    Ok(())
}
