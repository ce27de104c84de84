// Program `storing`: reads a name, a store and an image from standard input, and writes the store that keeps the image under the name; a
// refusal as its number. Length and parts stand one behind the other, so that the front door can make such an input of files. It may not
// know how a store is judged, nor what an entry is.
#![tactic(auto)]

use std::io::{Write, writer};
use std::rt::Runtime;
use store::NAME_LENGTH;
use streams::{Failure, Output};

// The bytes of the store's length.
const COUNT_LENGTH: usize = 4;

// The longest store that is taken: 700 entries. The buffer then holds more of an image than any that isn't refused.
const MOST_BYTES: usize = 63000;

const EXPECTED: &str =
    "storing: expected on standard input a name of 8 bytes, the length of a store in 4 bytes, 63000 at most, the store and an image\n";

// The store is kept where it was read.
struct Asked<'a> {
    name: &'a [u8; NAME_LENGTH],
    store: &'a mut [u8],
    image: &'a [u8],
}

fn main(rt: HostRuntime) {
    let mut out = Output::new(writer(&rt));
    let done = run(&rt, &mut out);
    streams::end(&rt, b"storing", out, done);
}

// What is behind the buffer need not be read: either the store is too long, or the image.
fn run(rt: &impl Runtime, out: &mut Output<impl Write>) -> Result<(), Failure> {
    let mut input = io::large_buffer();
    let got = streams::fill(&mut rt.reader(), &mut input).map_err(Failure::Unread)?;
    let Asked { name, store, image } = Asked::of(&mut input[..got]).ok_or(Failure::Mistake(
        EXPECTED,
    ))?;
    store::keep(store, name, image, upd546::upd546_sheet()).map_err(|why| Failure::Refused(
        runs::refusal_number(why),
    ))?;
    out.write(store)?;
    Ok(())
}

impl<'a> Asked<'a> {
    // The input: the name, the store's length, the store; all behind it is the image.
    fn of(input: &'a mut [u8]) -> Option<Asked<'a>> {
        let (name, rest) = input.split_first_chunk_mut::<NAME_LENGTH>()?;
        let (count, rest) = rest.split_first_chunk_mut::<COUNT_LENGTH>()?;
        let bytes = u32::from_be_bytes(*count) as usize;
        if MOST_BYTES < bytes {
            return None;
        }
        let (store, image) = rest.split_at_mut_checked(bytes)?;
        Some(Asked { name, store, image })
    }
}
