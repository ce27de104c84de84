// A panel's cycles in slices, each a call of the board on a log that has room for all its records, which is written to standard output
// before the next slice. The logs, one behind the other, are the log of one unbroken run (demand 3), so it is as long as it may be and no
// buffer holds it whole. It may not know how a run goes, nor what an image holds.
#![tactic(auto)]

ghost use Rattle.std.specs.Prelude.{◌≡◌, true, IfOk};
ghost use Rattle.calls.specs.EveryCall.{ran_by};

use board::REPORT_LENGTH;
use std::io::Write;
use streams::{Failure, Output};
use upd546::layout::IMAGE_LENGTH;

// A slice of n cycles appends at most 16n bytes.
const SLICE_CYCLES: u64 = 1024;

const LOG_LENGTH: usize = 16384;

// The place and the bytes of the count of log bytes in a report.
const WRITTEN_AT: usize = 16;

const COUNT_BYTES: usize = 8;

// ALL CYCLES, the image brought forward and the log written; one slice at least, so that a refusal is told for n = 0 too. The number of the
// end, as the board has it. A refusal of any but 2 comes with the first slice, before anything is written.
pub fn write_log(
    out: &mut Output<impl Write>,
    image: &mut [u8; IMAGE_LENGTH],
    rom: &[u8],
    sched: &[u8],
    n: u64,
) -> Result<u8, Failure> {
    let mut left = n;
    loop {
        let asked = left.min(SLICE_CYCLES);
        let number = slice(out, image, rom, sched, asked)?;
        left -= asked;
        if number != 0 || left == 0 {
            return Ok(number);
        }
    }
}

// One slice: a call of the board, its log bytes written to standard output. The number of a call that ran; a refused one is a failure.
fn slice(
    out: &mut Output<impl Write>,
    image: &mut [u8; IMAGE_LENGTH],
    rom: &[u8],
    sched: &[u8],
    cycles: u64,
) -> Result<u8, Failure>
    ensures { IfOk result (λ number. ran_by number ≡ true) }
{
    let mut log = [0u8; LOG_LENGTH];
    let mut report = [0u8; REPORT_LENGTH];
    let sheet = upd546::upd546_sheet();
    let number = board::wharfnettle_call(
        image,
        rom,
        sched,
        &mut log,
        cycles,
        1,
        &mut report,
        sheet.rom,
        sheet.rows,
        sheet.levels,
    );
    let written = big_endian::number_at(&report, WRITTEN_AT, COUNT_BYTES) as usize;
    out.write_first(&log, written)?;
    if !board::ran(number) {
        return Err(Failure::Refused(number));
    }
    Ok(number)
}
