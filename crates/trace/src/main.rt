// Program `trace`: reads n, ROM and schedule from standard input, and writes what the panel does. It may not know how an input is
// split, how a run goes, nor how its text is laid out.
#![tactic(auto)]

use std::io::Error;
use std::rt::Runtime;
use trace_text::TEXT_LENGTH;

fn main(rt: HostRuntime) {
    let mut text = io::large_buffer();
    let told = run(&rt, &mut text);
    streams::end_text(&rt, b"trace", told);
}

// The text of a panel, at the front of a buffer. The buffer of the input holds more than every input that isn't refused, so what is behind
// it need not be read.
fn run<'a>(rt: &impl Runtime, text: &'a mut [u8; TEXT_LENGTH]) -> Result<&'a [u8], Error> {
    let mut input = io::large_buffer();
    let got = streams::fill(&mut rt.reader(), &mut input)?;
    let size = trace_text::trace(&input[..got], text);
    Ok(&text[..size])
}
