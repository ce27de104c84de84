// The panels of a bank, one by one and by value: request R-9. What a panel keeps, what a round carries from panel to panel, and one
// panel's turn. It may not know how a run goes, only what the timer-skipping runner answers; nor how the row of panels is kept.
#![tactic(auto)]

ghost use Rattle.std.specs.Prelude.{◌≡◌, ℕ, ◌-◌, min, List, [], ◌∷◌, cond, eqb, leb, ltb};
ghost use Rattle.runs.specs.Refusals.{first_of, unless};
ghost use Rattle.upd546.specs.TheSheet.{sheet_number};
ghost use Rattle.upd546.specs.TwoRunners.{chip, answer_of};
ghost use Rattle.panels.specs.Grants.{more_of, grant_of, share_of};
ghost use Rattle.panels.specs.Places.{most_panels};
ghost use Rattle.panels.specs.Courses.{begin_of, past_of, past_all, short_of, note_of, plan_of, lot_of, after_of};
ghost use Rattle.panels.specs.Round.{own_run, with_part, last_of, panel_after, turn_run, turn_logs};

use runner::run_skipping;
use runs::MachineCycles;
use upd546::{RunAnswer, Sheet, State};

// More panels than this are refused.
pub const MOST_PANELS: usize = 16;

// What a panel wishes, and how long its parts of the three buffers are. A round leaves it as it is.
#[derive(Clone, Copy)]
pub struct Needs {
    pub wish: MachineCycles,
    pub rom: usize,
    pub schedule: usize,
    pub log: usize,
}

// What a panel's run of the last round answered: its counts, and its number.
#[derive(Clone, Copy)]
pub struct Last {
    pub cycles: MachineCycles,
    pub begun: u64,
    pub written: usize,
    pub steps: u64,
    // A number and no `RunEnd`: `last_of` says so, and it is what the bank of the board's C program holds.
    pub number: u8,
}

// A panel of the bank: its machine, what it needs, and what the last round left.
#[derive(Clone, Copy)]
pub struct Panel {
    pub state: State,
    pub needs: Needs,
    pub last: Last,
}

// A place in each of the three buffers.
#[derive(Clone, Copy)]
pub struct Places {
    pub rom: usize,
    pub schedule: usize,
    pub log: usize,
}

// Where the buffers begin.
const FIRST: Places = Places {
    rom: 0,
    schedule: 0,
    log: 0,
};

// What a round carries from panel to panel: how many are gone through, the share of each and what is left of T, where the next parts
// begin, where the buffers end, and the round's number.
#[derive(Clone, Copy)]
pub struct Course {
    pub count: usize,
    pub share: u64,
    pub left: u64,
    pub at: Places,
    pub ends: Places,
    // A number and no `Result`: so `begin_of`, `note_of` and `plan_of` carry it, and so a round and its call in C answer it.
    pub number: u8,
}

// What a panel has for a round: its grant, and where its parts begin.
#[derive(Clone, Copy)]
pub struct Lot {
    pub grant: MachineCycles,
    pub at: Places,
}

// A panel after its turn, and what the round carries on.
#[derive(Clone, Copy)]
pub struct Turned {
    pub panel: Panel,
    pub course: Course,
}

// T divided by m, rounded down.
fn share_of(t: u64, m: usize) -> u64
    ensures { result ≡ share_of t m }
{
    t.checked_div(m as u64).unwrap_or(0)
}

// 71, then 61.
fn first_number(m: usize, sheet: Sheet) -> u8
    ensures { result ≡ first_of (sheet_number sheet ∷ unless (leb m most_panels) 61 ∷ []) }
{
    if let Err(why) = fields::check_sheet(sheet) {
        return runs::refusal_number(why);
    }
    if m <= MOST_PANELS { 0 } else { 61 }
}

// With a number no panel is gone through.
fn counted(number: u8, m: usize) -> usize
    ensures { result ≡ cond (eqb number 0) m 0 }
{
    if number == 0 { m } else { 0 }
}

// The start of a round of m panels with t cycles for all, where the buffers have so many bytes.
#[tactic(auto, unfolding(crate::specs::Courses::begin_of))]
pub fn begin(
    m: usize,
    roms: usize,
    schedules: usize,
    logs: usize,
    t: MachineCycles,
    sheet: Sheet,
) -> Course
    ensures { result ≡ begin_of (sheet_number sheet) m (record { rom = roms; schedule = schedules; log = logs }) t.0 }
{
    let number = first_number(m, sheet);
    Course {
        count: counted(number, m),
        share: share_of(t.0, m),
        left: t.0,
        at: FIRST,
        ends: Places {
            rom: roms,
            schedule: schedules,
            log: logs,
        },
        number,
    }
}

// A place moved on by so many bytes, but not past the end.
fn past(at: usize, length: usize, end: usize) -> usize
    ensures { result ≡ past_of at length end }
{
    at.saturating_add(length).min(end)
}

fn past_all(at: Places, ends: Places, n: Needs) -> Places
    ensures { result ≡ past_all at ends n }
{
    Places {
        rom: past(at.rom, n.rom, ends.rom),
        schedule: past(at.schedule, n.schedule, ends.schedule),
        log: past(at.log, n.log, ends.log),
    }
}

// Fewer bytes than `length` are left of a buffer.
fn is_short(at: usize, length: usize, end: usize) -> bool
    ensures { result ≡ ltb (end - at) length }
{
    end.saturating_sub(at) < length
}

// 62 where a panel's parts don't fit.
fn number_after(at: Places, ends: Places, n: Needs, number: u8) -> u8
    ensures { result ≡ cond (short_of at ends n) 62 number }
{
    let rom = is_short(at.rom, n.rom, ends.rom);
    let schedule = is_short(at.schedule, n.schedule, ends.schedule);
    let log = is_short(at.log, n.log, ends.log);
    if rom | schedule | log { 62 } else { number }
}

// A panel is noted before the first turn: its first share and its parts of the buffers.
#[tactic(auto, unfolding(crate::specs::Courses::note_of))]
pub fn noted(c: Course, n: Needs) -> Course
    ensures { result ≡ note_of c n }
{
    let first = n.wish.0.min(c.share);
    Course {
        left: c.left.saturating_sub(first),
        at: past_all(c.at, c.ends, n),
        number: number_after(c.at, c.ends, n, c.number),
        ..c
    }
}

// The same of a whole panel.
pub fn panel_noted(c: Course, p: Panel) -> Course
    ensures { result ≡ note_of c p.needs }
{
    noted(c, p.needs)
}

// All panels are noted: with a number none has a turn.
#[tactic(auto, unfolding(crate::specs::Courses::plan_of))]
pub fn planned(c: Course) -> Course
    ensures { result ≡ plan_of c }
{
    Course {
        count: counted(c.number, c.count),
        at: FIRST,
        ..c
    }
}

// What a wish lacks beyond the first share, as far as the rest lasts.
fn more(wish: u64, share: u64, left: u64) -> u64
    ensures { result ≡ more_of share left wish }
{
    left.min(wish.saturating_sub(share))
}

// The sum is at most the wish.
fn grant(wish: u64, share: u64, left: u64) -> u64
    ensures { result ≡ grant_of share left wish }
{
    wish.min(share) + more(wish, share, left)
}

// What the panel whose turn it is has: its grant, and where its parts begin.
#[tactic(auto, unfolding(crate::specs::Courses::lot_of))]
pub fn lot_of(c: Course, n: Needs) -> Lot
    ensures { result ≡ lot_of c n }
{
    Lot {
        grant: MachineCycles(grant(n.wish.0, c.share, c.left)),
        at: c.at,
    }
}

// What the round carries on behind it, however its run ends.
#[tactic(auto, unfolding(crate::specs::Courses::after_of))]
pub fn after(c: Course, n: Needs) -> Course
    ensures { result ≡ after_of c n }
{
    let taken = more(n.wish.0, c.share, c.left);
    Course {
        left: c.left.saturating_sub(taken),
        at: past_all(c.at, c.ends, n),
        ..c
    }
}

// A panel's own timer-skipping run for its grant, on its parts of the buffers. What of them lies past a buffer's end isn't there.
pub fn run_lot(
    s: State,
    n: Needs,
    lot: Lot,
    roms: &[u8],
    schedules: &[u8],
    logs: &mut [u8],
    sheet: Sheet,
) -> RunAnswer
    ensures { (answer_of result (own_run (chip sheet) roms.now schedules.now logs.old n lot s).log ≡ own_run (chip sheet) roms.now schedules.now logs.old n lot s) × (logs.new ≡ with_part logs.old lot.at.log n.log (own_run (chip sheet) roms.now schedules.now logs.old n lot s).log) }
{
    let r0 = past(lot.at.rom, 0, roms.len());
    let r1 = past(lot.at.rom, n.rom, roms.len());
    let s0 = past(lot.at.schedule, 0, schedules.len());
    let s1 = past(lot.at.schedule, n.schedule, schedules.len());
    let l0 = past(lot.at.log, 0, logs.len());
    let l1 = past(lot.at.log, n.log, logs.len());
    run_skipping(
        &roms[r0..r1],
        &schedules[s0..s1],
        s,
        &mut logs[l0..l1],
        lot.grant,
        sheet,
    )
}

// The counts and the number of a run.
pub fn last_of(a: RunAnswer) -> Last
    ensures { (log : List ℕ) → result ≡ last_of (answer_of a log) }
{
    Last {
        cycles: a.cycles,
        begun: a.begun,
        written: a.written,
        steps: a.steps,
        number: runs::end_number(a.end),
    }
}

// A panel after its run: its wish and lengths stay.
fn kept(p: Panel, a: RunAnswer) -> Panel
    ensures { (log : List ℕ) → result ≡ panel_after p (answer_of a log) }
{
    Panel {
        state: a.state,
        needs: p.needs,
        last: last_of(a),
    }
}

// One panel's turn. The buffers stay parameters, here and above: docs/DECISIONS.md has it as a function of values and slices.
pub fn turn(
    p: Panel,
    roms: &[u8],
    schedules: &[u8],
    logs: &mut [u8],
    c: Course,
    sheet: Sheet,
) -> Turned
    ensures { (result.panel ≡ panel_after p (turn_run (chip sheet) roms.now schedules.now logs.old p c)) × ((result.course ≡ after_of c p.needs) × (logs.new ≡ turn_logs (chip sheet) roms.now schedules.now logs.old p c)) }
{
    let lot = lot_of(c, p.needs);
    let a = run_lot(p.state, p.needs, lot, roms, schedules, logs, sheet);
    Turned {
        panel: kept(p, a),
        course: after(c, p.needs),
    }
}
