// Program `recalling`: reads a name and a store from standard input, and writes the image that the store keeps under the name; a refusal as
// its number. The input is that of `storing` without an image. It may not know how a store is judged, nor what an entry is.
#![tactic(auto)]

use std::io::{Write, writer};
use std::rt::Runtime;
use store::NAME_LENGTH;
use streams::{Failure, Output};

// The bytes of the store's length.
const COUNT_LENGTH: usize = 4;

// The longest store that is taken: 700 entries, as `storing` takes them. It doesn't fill the buffer.
const MOST_BYTES: usize = 63000;

const EXPECTED: &str =
    "recalling: expected on standard input a name of 8 bytes, the length of a store in 4 bytes, 63000 at most, and the store\n";

fn main(rt: HostRuntime) {
    let mut out = Output::new(writer(&rt));
    let done = run(&rt, &mut out);
    streams::end(&rt, b"recalling", out, done);
}

// An input that fills the buffer has too long a store.
fn run(rt: &impl Runtime, out: &mut Output<impl Write>) -> Result<(), Failure> {
    let mut input = io::large_buffer();
    let got = streams::fill(&mut rt.reader(), &mut input).map_err(Failure::Unread)?;
    let (name, kept) = parts(&input[..got]).ok_or(Failure::Mistake(EXPECTED))?;
    let sheet = upd546::upd546_sheet();
    store::recall_check(kept, name, sheet).map_err(|why| Failure::Refused(runs::refusal_number(
        why,
    )))?;
    out.write(store::recall(kept, name, sheet))?;
    Ok(())
}

// The input: the name, the store's length, the store, and nothing behind it.
fn parts(input: &[u8]) -> Option<(&[u8; NAME_LENGTH], &[u8])> {
    let (name, rest) = input.split_first_chunk::<NAME_LENGTH>()?;
    let (count, kept) = rest.split_first_chunk::<COUNT_LENGTH>()?;
    let bytes = u32::from_be_bytes(*count) as usize;
    if MOST_BYTES < bytes || kept.len() != bytes {
        return None;
    }
    Some((name, kept))
}
