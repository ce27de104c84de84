// The waiting-time report as program `waits` makes it: a log of any length is read in parts, the report carried on from part to
// part, and told as text. It may not know how a log is read, nor where it comes from and where text goes to.
#![tactic(auto)]

ghost use Rattle.std.specs.Prelude.{◌≡◌, ◌+◌, ◌≤◌};
ghost use Rattle.text.specs.Writing.{HasRoom, Pushed};
ghost use Rattle.waits_text.specs.Parts.{no_parts, part_read};
ghost use Rattle.waits_text.specs.Texts.{landing_length, waits_length, landing_text, waits_report, Reported};

use log_form::LOG_RECORD;
use text::Text;
use waiting::{Carried, Landing, Reading};

// Every text fits this many bytes; `waits_length` is the same number.
pub const TEXT_LENGTH: usize = 4096;

// Before the first part.
pub fn no_parts() -> Reading
    ensures { result ≡ no_parts }
{
    Reading {
        number: 0,
        carried: waiting::start_of_day(),
    }
}

// One part more of a log.
#[tactic(auto, using(crate::proofs::Parts::stays_refused, crate::proofs::Parts::reads_on, crate::proofs::Parts::not_whole))]
pub fn part_read(before: Reading, part: &[u8]) -> Reading
    ensures { result ≡ part_read before part.now }
{
    if part.len() % LOG_RECORD == 0 && before.number != 0 {
        return before;
    }
    waiting::waiting_times(part, before.carried)
}

// The line of landing i.
fn put_landing(text: &mut Text<'_>, i: u64, landing: Landing)
    requires { HasRoom landing_length text.old }
    ensures { Pushed text.old (landing_text i landing) text.new × (text.new.size ≤ text.old.size + landing_length) }
{
    text.push_number(i, b' ');
    text.push_number(landing.closed, b' ');
    text.push_number(landing.cycles.0, b' ');
    text.push_number(landing.longest.0, b' ');
    text.push_number(landing.mark as u64, b'\n');
}

// The text of a report that isn't refused.
fn put_report(text: &mut Text<'_>, carried: Carried)
    requires { HasRoom waits_length text.old }
    ensures { Pushed text.old (waits_report carried) text.new }
{
    text.push(b"landing closed cycles longest open\n");
    for (i, landing) in carried.landings.iter().enumerate() {
        put_landing(text, i as u64, *landing);
    }
}

// THE TEXT OF PROGRAM `waits` for what was read, at the front of a buffer: its length, and no more, as `Reported` has it; whether it is
// the line of a refusal is read from the text.
pub fn waits(reading: Reading, out: &mut [u8; TEXT_LENGTH]) -> usize
    ensures { Reported reading out.old out.new result }
{
    let mut text = Text::new(out);
    if reading.number != 0 {
        text.push_refused(reading.number);
        return text.len();
    }
    put_report(&mut text, reading.carried);
    text.len()
}
