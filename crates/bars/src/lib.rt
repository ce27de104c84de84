// The bars of a day's picture, one for each wait: told from what the waiting-time report carries before and after a record. It may not
// know how a log is read, nor how a bar is drawn.
#![tactic(auto)]

ghost use Rattle.std.specs.Prelude.{◌≡◌};
ghost use Rattle.bars.specs.Bars.{closed_bar, open_bar, bars_of};

use runs::MachineCycles;
use waiting::Landing;

// A wait: where it began, and how long it was.
#[derive(Clone, Copy)]
pub struct Bar {
    pub start: MachineCycles,
    pub length: MachineCycles,
}

// THE WAIT THAT A RECORD CLOSED on a landing: its figures before the record, and after it.
#[tactic(auto, unfolding(crate::specs::Bars::closed_bar))]
pub fn closed_bar(was: Landing, is: Landing) -> Option<Bar>
    ensures { bars_of result ≡ closed_bar was is }
{
    if is.closed <= was.closed {
        return None;
    }
    let length = is.cycles.0.saturating_sub(was.cycles.0);
    Some(Bar {
        start: was.start,
        length: MachineCycles(length),
    })
}

// THE WAIT THAT IS OPEN on a landing at the last cycle of a log.
#[tactic(auto, unfolding(crate::specs::Bars::open_bar))]
pub fn open_bar(last: MachineCycles, l: Landing) -> Option<Bar>
    ensures { bars_of result ≡ open_bar last.0 l }
{
    if l.mark == 0 {
        return None;
    }
    let length = last.0.saturating_sub(l.start.0);
    Some(Bar {
        start: l.start,
        length: MachineCycles(length),
    })
}
