// A round of a bank of panels, for the board's C program: request R-9 on a bank of bytes. It stands apart from the other calls, so that a
// run has one place in each object of the archive and is compiled into it.
// It may not know how grants and places are made, how the board's call goes, nor the image's layout.
#![tactic(auto)]

ghost use Rattle.std.specs.Prelude.{◌≡◌, [], ◌∷◌, ◌++◌, ◌*◌, ◌≤◌, length, take};
ghost use Rattle.upd546.specs.TwoRunners.{chip};
ghost use Rattle.panels.specs.Courses.{note_all, after_of};
ghost use Rattle.calls.specs.Call.{report_length};
ghost use Rattle.bank_calls.specs.Entries.{report_at, entry_length, entries_of, entry_needs, needs_in, own_answer, entry_after};
ghost use Rattle.bank_calls.specs.Round.{bank_answer};
ghost use Rattle.bank_calls.specs.InTurn.{Within, turn_answer, turn_logs, in_turn};

use board::REPORT_LENGTH;
use panels::{Course, Needs};
use runs::MachineCycles;
use upd546::Sheet;
use upd546::layout::IMAGE_LENGTH;

// The bytes of a wish and of a length.
const COUNT_BYTES: usize = 8;

// Where the parts of an entry begin: an image, a wish and three lengths, a report, a number.
const WISH_AT: usize = IMAGE_LENGTH;

const REPORT_AT: usize = WISH_AT + 4 * COUNT_BYTES;

const NUMBER_AT: usize = REPORT_AT + REPORT_LENGTH;

pub const ENTRY_LENGTH: usize = NUMBER_AT + 1;

// What a call tells, in the entry: its report and its number. Here and below an entry is a slice of 147 bytes, and no array: the bank is
// bytes that C lends, of which std gives an array only in an `Option`, and none of these calls has what to do with a `None`.
fn put_told(entry: &mut [u8], report: &[u8], number: u8)
    requires { (length entry.old ≡ entry_length) × (length report.now ≡ report_length) }
    ensures { entry.new ≡ take report_at entry.old ++ report.now ++ number ∷ [] }
{
    copying::copy(report, &mut entry[REPORT_AT..]);
    entry[NUMBER_AT] = number;
}

// One panel's turn: the board's call on the image of its entry, and what it tells, in the entry.
fn turn(entry: &mut [u8], rom: &[u8], schedule: &[u8], log: &mut [u8], n: u64, sheet: Sheet)
    requires { length entry.old ≡ entry_length }
    ensures after { entry.new ≡ entry_after entry.old (own_answer chip sheet entry.old rom.now schedule.now log.old n) }
    ensures log_after { log.new ≡ (own_answer chip sheet entry.old rom.now schedule.now log.old n).log }
{
    let mut report = [0u8; REPORT_LENGTH];
    let number = board::wharfnettle_call(
        &mut entry[..IMAGE_LENGTH],
        rom,
        schedule,
        log,
        n,
        1,
        &mut report,
        sheet.rom,
        sheet.rows,
        sheet.levels,
    );
    put_told(entry, &report, number);
}

// What the panel of an entry needs.
fn needs_of(entry: &[u8]) -> Needs
    requires { length entry.now ≡ entry_length }
    ensures { result ≡ entry_needs entry.now }
{
    Needs {
        wish: MachineCycles(big_endian::number_at(entry, WISH_AT, COUNT_BYTES)),
        rom: big_endian::number_at(entry, WISH_AT + COUNT_BYTES, COUNT_BYTES) as usize,
        schedule: big_endian::number_at(entry, WISH_AT + 2 * COUNT_BYTES, COUNT_BYTES) as usize,
        log: big_endian::number_at(entry, WISH_AT + 3 * COUNT_BYTES, COUNT_BYTES) as usize,
    }
}

// The entries that are gone through are noted, one after another, by their places, as `serve` goes through them.
fn noted_all(bank: &[u8], begun: Course) -> Course
    requires { entry_length * begun.count ≤ length bank.now }
    ensures { result ≡ note_all begun (needs_in (entries_of begun.count bank.now)) }
{
    let mut course = begun;
    for i in 0..begun.count {
        let at = ENTRY_LENGTH * i;
        let needs = needs_of(&bank[at..at + ENTRY_LENGTH]);
        course = panels::noted(course, needs);
    }
    course
}

// The turn of an entry with what the round carries, on its parts of the buffers; and what the round carries on.
fn serve_one(
    entry: &mut [u8],
    roms: &[u8],
    schedules: &[u8],
    logs: &mut [u8],
    c: Course,
    sheet: Sheet,
) -> Course
    requires { (length entry.old ≡ entry_length) × Within c roms.now schedules.now logs.old }
    ensures after { entry.new ≡ entry_after entry.old (turn_answer chip sheet roms.now schedules.now logs.old entry.old c) }
    ensures logs_after { logs.new ≡ turn_logs chip sheet roms.now schedules.now logs.old entry.old c }
    ensures value { result ≡ after_of c (entry_needs entry.old) }
{
    let needs = needs_of(entry);
    let lot = panels::lot_of(c, needs);
    let next = panels::after(c, needs);
    turn(
        entry,
        &roms[c.at.rom..next.at.rom],
        &schedules[c.at.schedule..next.at.schedule],
        &mut logs[c.at.log..next.at.log],
        lot.grant.0,
        sheet,
    );
    next
}

// The entries have their turns, one after another. They are lent by their places: of what a bank ends as behind `chunks_exact_mut` or
// `as_chunks_mut` std promises nothing, and the contract equates the whole bank.
fn serve(
    bank: &mut [u8],
    roms: &[u8],
    schedules: &[u8],
    logs: &mut [u8],
    planned: Course,
    sheet: Sheet,
)
    requires { (entry_length * planned.count ≡ length bank.old) × Within planned roms.now schedules.now logs.old }
    ensures { record { bank = bank.new; logs = logs.new } ≡ in_turn chip sheet roms.now schedules.now logs.old planned (entries_of planned.count bank.old) }
{
    let mut course = planned;
    for i in 0..planned.count {
        let at = ENTRY_LENGTH * i;
        course = serve_one(
            &mut bank[at..at + ENTRY_LENGTH],
            roms,
            schedules,
            logs,
            course,
            sheet,
        );
    }
}

// A ROUND of t cycles for all panels of a bank of some entries of 147 bytes, under a sheet: 71, 61, 62, 63. Its parameters are those of
// its function in C.
pub fn wharfnettle_round(
    bank: &mut [u8],
    roms: &[u8],
    schedules: &[u8],
    logs: &mut [u8],
    t: u64,
    rom_bytes: u64,
    rows: u64,
    levels: u64,
) -> u8
    ensures { record { number = result; bank = bank.new; logs = logs.new } ≡ bank_answer chip (record { rom = rom_bytes; rows = rows; levels = levels }) bank.old roms.now schedules.now logs.old t }
{
    let sheet = Sheet {
        rom: rom_bytes,
        rows,
        levels,
    };
    let whole = bank.len() / ENTRY_LENGTH;
    let begun = panels::begin(
        whole,
        roms.len(),
        schedules.len(),
        logs.len(),
        MachineCycles(t),
        sheet,
    );
    let course = panels::planned(noted_all(bank, begun));
    if course.number != 0 {
        return course.number;
    }
    if bank.len() % ENTRY_LENGTH != 0 {
        return 63;
    }
    serve(bank, roms, schedules, logs, course, sheet);
    0
}
