// Program `waits`: reads a port log from standard input, of any length, and writes its waiting times. It may not know how a log is
// read, nor how its text is laid out.
#![tactic(auto)]

use std::io::{Error, ErrorKind};
use std::rt::Runtime;
use waits_text::TEXT_LENGTH;

// So many parts are 2^62 bytes, more than any input has; up to 2^63 bytes the parts give the report of the whole log.
const PARTS: u64 = 0x4000_0000_0000;

fn main(rt: HostRuntime) {
    let mut text = io::buffer();
    let told = run(&rt, &mut text);
    streams::end_text(&rt, b"waits", told);
}

// The text of a log, at the front of a buffer. The buffer of a part holds whole records, and is full but for the last part, so no record lies
// across two parts. A part that is refused with 42 doesn't end it: 41 comes before 42, and the log's length is known at its end.
fn run<'a>(rt: &impl Runtime, text: &'a mut [u8; TEXT_LENGTH]) -> Result<&'a [u8], Error> {
    let mut from = rt.reader();
    let mut part = io::large_buffer();
    let mut reading = waits_text::no_parts();
    for _ in 0..PARTS {
        let got = streams::fill(&mut from, &mut part)?;
        reading = waits_text::part_read(reading, &part[..got]);
        if got < part.len() {
            let size = waits_text::waits(reading, text);
            return Ok(&text[..size]);
        }
    }
    Err(Error::from(ErrorKind::FileTooLarge))
}
