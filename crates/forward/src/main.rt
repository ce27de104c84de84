// Program `forward`: reads a number of cycles, an image or none, and a panel from standard input; brings the panel forward from the image,
// or from the fresh state, and writes its port log, then the image that it has then, then the number of its end, one byte; a refusal as its
// number. The panel's own number of cycles isn't looked at. It may not know how a run goes, nor what an image holds.
#![tactic(auto)]

use runs::MachineCycles;
use std::io::{Write, writer};
use std::rt::Runtime;
use streams::{Failure, Output};
use upd546::ROM_LENGTH;
use upd546::layout::IMAGE_LENGTH;

// The bytes of the number of cycles, of the image's length, and of a panel's own n.
const CYCLES_LENGTH: usize = 8;

const COUNT_LENGTH: usize = 4;

const N_LENGTH: usize = 4;

// The number of cycles, the image that the panel is brought forward from, and the panel.
#[derive(Clone, Copy)]
struct Asked<'a> {
    n: u64,
    image: [u8; IMAGE_LENGTH],
    panel: &'a [u8],
}

fn main(rt: HostRuntime) {
    let mut out = Output::new(writer(&rt));
    let done = run(&rt, &mut out);
    streams::end(&rt, b"forward", out, done);
}

// The buffer holds more than every input that isn't refused, so what is behind it need not be read. A panel that is too short has no ROM:
// the call refuses that with 21, after what it finds wrong with the image. 2 is the last refusal, and a later slice would tell it: so what
// passes the limit is asked for no cycles, which tells every other one.
fn run(rt: &impl Runtime, out: &mut Output<impl Write>) -> Result<(), Failure> {
    let mut input = io::large_buffer();
    let got = streams::fill(&mut rt.reader(), &mut input).map_err(Failure::Unread)?;
    let Asked {
        n,
        mut image,
        panel,
    } = Asked::of(&input[..got]).ok_or(Failure::Refused(31))?;
    let (rom, sched) = parts(panel).unwrap_or((&[], &[]));
    let within = is_within(&image, n);
    let cycles = if within { n } else { 0 };
    let number = slices::write_log(out, &mut image, rom, sched, cycles)?;
    if !within {
        return Err(Failure::Refused(2));
    }
    out.write(&image)?;
    out.write(&[number])?;
    Ok(())
}

impl<'a> Asked<'a> {
    // The input: 0 for the fresh state, else 1; the number of cycles; the image's length; the image. All behind it is the panel. An input that
    // ends before its image does is none, as one with an image of another length is.
    fn of(input: &'a [u8]) -> Option<Asked<'a>> {
        let (kind, rest) = input.split_first()?;
        let (n, rest) = rest.split_first_chunk::<CYCLES_LENGTH>()?;
        let (count, rest) = rest.split_first_chunk::<COUNT_LENGTH>()?;
        let n = u64::from_be_bytes(*n);
        if *kind == 0 {
            let mut image = [0u8; IMAGE_LENGTH];
            board::wharfnettle_fresh(&mut image);
            return Some(Asked {
                n,
                image,
                panel: rest,
            });
        }
        if u32::from_be_bytes(*count) as usize != IMAGE_LENGTH {
            return None;
        }
        let (image, panel) = rest.split_first_chunk::<IMAGE_LENGTH>()?;
        let image = *image;
        Some(Asked { n, image, panel })
    }
}

// The ROM and the schedule of a panel.
fn parts(panel: &[u8]) -> Option<(&[u8], &[u8])> {
    let (_, rest) = panel.split_at_checked(N_LENGTH)?;
    rest.split_at_checked(ROM_LENGTH)
}

// Whether the image's cycle number and n don't pass the limit; of an image that a restore refuses it says nothing.
fn is_within(image: &[u8], n: u64) -> bool {
    let restored = restore::restore_current(image, upd546::upd546_sheet());
    fields::within_limit(restored.state.cycle, MachineCycles(n))
}
