// The bank: a row of panels that is lent for a round, over the turns of single panels: request R-9. It may not know what a turn does.
#![tactic(auto)]

ghost use Rattle.std.specs.Prelude.{◌≡◌, ◌≤◌, ◌++◌, take, drop};
ghost use Rattle.upd546.specs.TwoRunners.{chip};
ghost use Rattle.panels.specs.Round.{round_answer};
ghost use Rattle.bank.specs.Row.{row_answer};

use panels::{MOST_PANELS, Panel, begin, panel_noted, planned, turn};
use runs::MachineCycles;
use upd546::Sheet;

// A round of t cycles for all panels of the row: 0, or the number of its refusal, which changes nothing. Its parameters are what docs/ has
// callers write.
pub fn round(
    bank: &mut [Panel],
    roms: &[u8],
    schedules: &[u8],
    logs: &mut [u8],
    t: MachineCycles,
    sheet: Sheet,
) -> u8
    ensures { (bank.new ≡ (round_answer (chip sheet) bank.old roms.now schedules.now logs.old t.0).panels) × ((logs.new ≡ (round_answer (chip sheet) bank.old roms.now schedules.now logs.old t.0).logs) × (result ≡ (round_answer (chip sheet) bank.old roms.now schedules.now logs.old t.0).number)) }
{
    let mut course = begin(
        bank.len(),
        roms.len(),
        schedules.len(),
        logs.len(),
        t,
        sheet,
    );
    for panel in bank[..course.count].iter() {
        course = panel_noted(course, *panel);
    }
    course = planned(course);
    for lent in bank[..course.count].iter_mut() {
        let turned = turn(*lent, roms, schedules, logs, course, sheet);
        *lent = turned.panel;
        course = turned.course;
    }
    course.number
}

// A row of panels after a round, and the round's number, beside a row that a refusal leaves as it was: `row_answer`, the definition, has
// both, so it is no Result.
#[derive(Clone, Copy)]
pub struct Rounded {
    pub row: [Panel; 16],
    pub number: u8,
}

// A round of the first `count` panels of a row that is kept in a local, and lent for the round.
fn kept_round(
    start: [Panel; 16],
    count: usize,
    roms: &[u8],
    schedules: &[u8],
    logs: &mut [u8],
    t: MachineCycles,
    sheet: Sheet,
) -> Rounded
    requires { count ≤ 16 }
    ensures { (result.row ≡ (round_answer (chip sheet) (take count start) roms.now schedules.now logs.old t.0).panels ++ drop count start) × ((logs.new ≡ (round_answer (chip sheet) (take count start) roms.now schedules.now logs.old t.0).logs) × (result.number ≡ (round_answer (chip sheet) (take count start) roms.now schedules.now logs.old t.0).number)) }
{
    let mut row = start;
    let number = round(&mut row[..count], roms, schedules, logs, t, sheet);
    Rounded { row, number }
}

// The same for any count, with a row by value.
pub fn round_row(
    start: [Panel; 16],
    count: usize,
    roms: &[u8],
    schedules: &[u8],
    logs: &mut [u8],
    t: MachineCycles,
    sheet: Sheet,
) -> Rounded
    ensures { (result.row ≡ (row_answer (chip sheet) start count roms.now schedules.now logs.old t.0).panels) × ((logs.new ≡ (row_answer (chip sheet) start count roms.now schedules.now logs.old t.0).logs) × (result.number ≡ (row_answer (chip sheet) start count roms.now schedules.now logs.old t.0).number)) }
{
    if MOST_PANELS < count {
        let refused = begin(count, 0, 0, 0, t, sheet);
        return Rounded {
            row: start,
            number: refused.number,
        };
    }
    kept_round(start, count, roms, schedules, logs, t, sheet)
}
