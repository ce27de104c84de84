// A caller for each function that is for callers and of which no other proof needs the whole contract: what it promises, of every argument
// of its own, follows only from that whole contract, so one that says less is refused here. `tests/callers` has the list.
// It may not know how any of these functions goes, only definitions and contracts.
#![tactic(auto)]

ghost use Rattle.std.specs.Prelude.{◌≡◌, ◌∷◌, [], ◌++◌, ◌+◌, length};
ghost use Rattle.runs.specs.TwoRunners.{number_of_end, plain, save_answer, restore_answer};
ghost use Rattle.runs.specs.Versions.{convert_answer};
ghost use Rattle.upd546.specs.TwoRunners.{chip};
ghost use Rattle.upd546.specs.Reports.{decimal, trace_text};
ghost use Rattle.waiting.specs.WaitingTimes.{start_of_day, waiting_times};
ghost use Rattle.waits_text.specs.Parts.{part_read};
ghost use Rattle.waits_text.specs.Texts.{waits_text};
ghost use Rattle.streams.specs.Streams.{Wrote, told};
ghost use Rattle.store.specs.Answers.{store_answer, recall_number};
ghost use Rattle.store_calls.specs.Copy.{copy_answer};
ghost use Rattle.callers.specs.Uses.{FirstCall, TwoCalls, Fronts};

use runs::{MachineCycles, Version};
use std::io::Write;
use streams::{Cut, Output};
use trace_text::TEXT_LENGTH as PANEL_TEXT;
use upd546::{Sheet, State};
use waiting::Reading;
use waits_text::TEXT_LENGTH as WAITS_TEXT;

// The numbers of two calls, conversions or calls on a store, one after the other.
#[derive(Clone, Copy)]
pub struct Numbers {
    pub first: u8,
    pub second: u8,
}

// The image of a panel that was never run, and a call on it. Its parameters are those of `wharfnettle_call`, one by one, as C passes them;
// so are those of the other functions here that call what C calls.
pub fn first_call(
    image: &mut [u8],
    rom: &[u8],
    schedule: &[u8],
    log: &mut [u8],
    n: u64,
    runner: u64,
    report: &mut [u8],
    rom_bytes: u64,
    rows: u64,
    levels: u64,
) -> Numbers
    ensures { FirstCall (record { image = image.old; rom = rom.now; sched = schedule.now; log = log.old; n = n; runner = runner; report = report.old; sheet = record { rom = rom_bytes; rows = rows; levels = levels } }) result.first (record { number = result.second; image = image.new; log = log.new; report = report.new }) }
{
    let first = board::wharfnettle_fresh(image);
    let second = board::wharfnettle_call(
        image, rom, schedule, log, n, runner, report, rom_bytes, rows, levels,
    );
    Numbers { first, second }
}

// Two calls on one image, the second on what the first has written.
pub fn two_calls(
    image: &mut [u8],
    rom: &[u8],
    schedule: &[u8],
    log: &mut [u8],
    n: u64,
    runner: u64,
    report: &mut [u8],
    rom_bytes: u64,
    rows: u64,
    levels: u64,
) -> Numbers
    ensures { TwoCalls (record { image = image.old; rom = rom.now; sched = schedule.now; log = log.old; n = n; runner = runner; report = report.old; sheet = record { rom = rom_bytes; rows = rows; levels = levels } }) result.first (record { number = result.second; image = image.new; log = log.new; report = report.new }) }
{
    let first = board::wharfnettle_call(
        image, rom, schedule, log, n, runner, report, rom_bytes, rows, levels,
    );
    let second = board::wharfnettle_call(
        image, rom, schedule, log, n, runner, report, rom_bytes, rows, levels,
    );
    Numbers { first, second }
}

// The number of a run.
pub fn run_number(
    rom: &[u8],
    schedule: &[u8],
    s: State,
    log: &mut [u8],
    n: MachineCycles,
    sheet: Sheet,
) -> u8
    ensures { result ≡ number_of_end (plain (chip sheet) rom.now schedule.now s log.old n.0).end }
{
    runs::end_number(runner::run_plain(rom, schedule, s, log, n, sheet).end)
}

// The number of a save; the number of a restore of what it leaves, and the state.
#[derive(Clone, Copy)]
pub struct SwitchedOff {
    pub saved: u8,
    pub restored: u8,
    pub state: State,
}

// A state saved into a buffer as the version wanted, and the whole buffer restored, each under a sheet of its own.
pub fn switch_off(
    s: State,
    version: Version,
    buffer: &mut [u8],
    evening: Sheet,
    morning: Sheet,
) -> SwitchedOff
    ensures { (record { number = result.saved; buffer = buffer.new } ≡ save_answer (chip evening) version s buffer.old) × (record { number = result.restored; state = result.state } ≡ restore_answer (chip morning) buffer.new) }
{
    let saved = runs::outcome_number(save::save(s, version, buffer, evening));
    let back = restore::restore(buffer, morning);
    SwitchedOff {
        saved,
        restored: runs::outcome_number(back.outcome),
        state: back.state,
    }
}

// An image taken to one version, and what that left to another.
pub fn two_conversions(
    from: &[u8],
    between: &mut [u8],
    to: &mut [u8],
    one: u64,
    other: u64,
    rom_bytes: u64,
    rows: u64,
    levels: u64,
) -> Numbers
    ensures { (record { number = result.first; buffer = between.new } ≡ convert_answer (chip (record { rom = rom_bytes; rows = rows; levels = levels })) from.now between.old one) × (record { number = result.second; buffer = to.new } ≡ convert_answer (chip (record { rom = rom_bytes; rows = rows; levels = levels })) between.new to.old other) }
{
    let first = conversion::wharfnettle_convert(from, between, one, rom_bytes, rows, levels);
    let second = conversion::wharfnettle_convert(between, to, other, rom_bytes, rows, levels);
    Numbers { first, second }
}

// The number of a recall.
pub fn recall_number(store: &[u8], name: &[u8], sheet: Sheet) -> u8
    ensures { result ≡ recall_number (chip sheet) store.now name.now }
{
    runs::outcome_number(store::recall_check(store, name, sheet))
}

// An image stored under a name, and what is then kept under another, copied.
pub fn stored_and_recalled(
    store: &mut [u8],
    name: &[u8],
    image: &[u8],
    other: &[u8],
    buffer: &mut [u8],
    rom_bytes: u64,
    rows: u64,
    levels: u64,
) -> Numbers
    ensures { (record { number = result.first; store = store.new } ≡ store_answer (chip (record { rom = rom_bytes; rows = rows; levels = levels })) store.old name.now image.now) × (record { number = result.second; buffer = buffer.new } ≡ copy_answer (chip (record { rom = rom_bytes; rows = rows; levels = levels })) store.new other.now buffer.old) }
{
    let first = store_calls::wharfnettle_store(store, name, image, rom_bytes, rows, levels);
    let second = store_calls::wharfnettle_recall(store, other, buffer, rom_bytes, rows, levels);
    Numbers { first, second }
}

// The text of a panel's run, and behind it what was there.
pub fn panel_text(input: &[u8], out: &mut [u8; PANEL_TEXT]) -> usize
    ensures { Fronts (trace_text input.now) out.old out.new result }
{
    trace_text::trace(input, out)
}

// The first part of a log is read as a log of its own.
pub fn first_part(part: &[u8]) -> Reading
    ensures { result ≡ waiting_times part.now start_of_day }
{
    waits_text::part_read(waits_text::no_parts(), part)
}

// The text for a log with its last part, and behind it what was there.
pub fn last_part(before: Reading, part: &[u8], out: &mut [u8; WAITS_TEXT]) -> usize
    ensures { Fronts (waits_text (part_read before part.now)) out.old out.new result }
{
    waits_text::waits(waits_text::part_read(before, part), out)
}

// The first bytes, so many, and a number with one byte behind it.
pub fn bytes_and_number<W: Write>(
    out: &mut Output<W>,
    bytes: &[u8],
    count: usize,
    n: u64,
    after: u8,
) -> Result<(), Cut>
    ensures wrote { Wrote out.old.so_far (count + length (decimal n ++ (after ∷ []))) out.new.so_far }
    ensures told { result ≡ told out.new.so_far }
{
    out.write_first(bytes, count)?;
    out.write_number(n, after)
}
