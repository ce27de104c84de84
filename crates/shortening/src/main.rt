// Program `shortening`, of the front door's command shortest: reads a panel, finds how few of its first records still stop it as all of them
// do, and writes that and where the stop is, or the panel with those records alone; a refusal as its number. It may not know how a run
// goes, nor how the records are found.
#![tactic(auto)]

use runs::MachineCycles;
use shortest::Shortest;
use std::io::{Write, writer};
use std::rt::Runtime;
use streams::{Cut, Failure, Output};
use upd546::{CYCLE_BYTES, ROM_LENGTH, State};

const N_LENGTH: usize = 4;

// "a log of 16n bytes", of 400,000 cycles: what a stack of eight megabytes bears. A longer panel is refused with 81.
const LOG_LENGTH: usize = 16 * 400000;

const RECORD_LENGTH: usize = 10;

// So many of the records that are enough are shown, the last of them.
const SHOWN: usize = 8;

// Whether the shortened panel is wanted and not the text; and the panel: the bytes of its n, its ROM, its schedule.
#[derive(Clone, Copy)]
struct Asked<'a> {
    shortened: bool,
    n: &'a [u8; N_LENGTH],
    rom: &'a [u8],
    sched: &'a [u8],
}

fn main(rt: HostRuntime) {
    let mut out = Output::new(writer(&rt));
    let done = run(&rt, &mut out);
    streams::end(&rt, b"shortening", out, done);
}

// The buffer holds more than every input that isn't refused, so what is behind it need not be read. "under 2,004 bytes being 21", as `trace`
// has it.
fn run(rt: &impl Runtime, out: &mut Output<impl Write>) -> Result<(), Failure> {
    let mut input = io::large_buffer();
    let got = streams::fill(&mut rt.reader(), &mut input).map_err(Failure::Unread)?;
    let asked = Asked::of(&input[..got]).ok_or(Failure::Refused(21))?;
    lend(out, asked)
}

// The log for the trials.
fn lend(out: &mut Output<impl Write>, asked: Asked) -> Result<(), Failure> {
    let mut log = [0u8; LOG_LENGTH];
    answer(out, asked, &mut log)
}

// The panel from the fresh state.
fn answer(out: &mut Output<impl Write>, asked: Asked, log: &mut [u8]) -> Result<(), Failure> {
    let Asked {
        shortened,
        n,
        rom,
        sched,
    } = asked;
    let cycles = MachineCycles(u32::from_be_bytes(*n).into());
    let sheet = upd546::upd546_sheet();
    let state = upd546::fresh_state();
    let found = shortest::find(rom, sched, state, cycles, log, sheet);
    let number = shortest::number_of(found);
    let Ok(Shortest { records, .. }) = found else {
        return Err(Failure::Refused(number));
    };
    // What is found are at most the records that there are.
    let kept = sched
        .get(..records.saturating_mul(RECORD_LENGTH))
        .unwrap_or(sched);
    if shortened {
        // A panel that `trace` reads, with the records kept.
        out.write(n)?;
        out.write(rom)?;
        out.write(kept)?;
        return Ok(());
    }
    let ran = runner::run_skipping(rom, kept, state, log, cycles, sheet);
    write_stop(out, number, ran.state)?;
    let (records, _) = kept.as_chunks::<RECORD_LENGTH>();
    write_records(out, records, sched.len() / RECORD_LENGTH)?;
    Ok(())
}

impl<'a> Asked<'a> {
    // The input: 0 for the text, else the shortened panel is wanted; n; the ROM; all behind it is the schedule.
    fn of(input: &'a [u8]) -> Option<Asked<'a>> {
        let (kind, panel) = input.split_first()?;
        let (n, rest) = panel.split_first_chunk::<N_LENGTH>()?;
        let (rom, sched) = rest.split_at_checked(ROM_LENGTH)?;
        Some(Asked {
            shortened: *kind != 0,
            n,
            rom,
            sched,
        })
    }
}

// The stop of the shortened panel.
fn write_stop(out: &mut Output<impl Write>, number: u8, stopped: State) -> Result<(), Cut> {
    out.write(b"stop ")?;
    out.write_number(number.into(), b' ')?;
    out.write(b"cycle ")?;
    out.write_number(stopped.cycle.0, b' ')?;
    out.write(b"address ")?;
    let address = stopped.core.flow.pc % 4096;
    out.write_short(format_args!("{address:03X}\n"))
}

// How many records the shortened panel has, of how many, and the last of them, oldest first, each with its place, counted from 1.
fn write_records(
    out: &mut Output<impl Write>,
    records: &[[u8; RECORD_LENGTH]],
    all: usize,
) -> Result<(), Cut> {
    out.write(b"records ")?;
    out.write_number(records.len() as u64, b' ')?;
    out.write(b"of ")?;
    out.write_number(all as u64, b'\n')?;
    out.write(b"record cycle A B C D INT RES\n")?;
    let hidden = records.len().saturating_sub(SHOWN);
    for (i, record) in records.iter().enumerate().skip(hidden) {
        out.write_number(i as u64 + 1, b' ')?;
        write_record(out, record)?;
    }
    Ok(())
}

// The cycle of a record, and the lines from there on.
fn write_record(out: &mut Output<impl Write>, record: &[u8; RECORD_LENGTH]) -> Result<(), Cut> {
    out.write_number(big_endian::number_at(record, 0, CYCLE_BYTES), b' ')?;
    let [.., ab, cd, int, res] = *record;
    let (a, b, c, d) = (ab / 16, ab % 16, cd / 16, cd % 16);
    out.write_short(format_args!("{a:X} {b:X} {c:X} {d:X} "))?;
    out.write_short(format_args!("{:X} {:X}\n", int % 16, res % 16))
}
