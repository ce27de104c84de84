// The report's figures of a landing, or of the four together.
use waiting::{Carried, Landing};

// Closed waits, their cycles together, the longest; how many are open, and since when the first of them.
#[derive(Clone, Copy, Default)]
pub struct Sums {
    pub closed: u64,
    pub cycles: u64,
    pub longest: u64,
    pub open: u64,
    pub since: Option<u64>,
}

impl From<Landing> for Sums {
    fn from(l: Landing) -> Sums {
        Sums {
            closed: l.closed,
            cycles: l.cycles.0,
            longest: l.longest.0,
            open: u64::from(l.mark),
            since: (l.mark != 0).then_some(l.start.0),
        }
    }
}

// The four together.
impl From<Carried> for Sums {
    fn from(carried: Carried) -> Sums {
        let mut all = Sums::default();
        for l in carried.landings {
            all = all.with(Sums::from(l));
        }
        all
    }
}

impl Sums {
    fn with(self, other: Sums) -> Sums {
        Sums {
            closed: self.closed.saturating_add(other.closed),
            cycles: self.cycles.saturating_add(other.cycles),
            longest: self.longest.max(other.longest),
            open: self.open.saturating_add(other.open),
            since: match (self.since, other.since) {
                (Some(a), Some(b)) => Some(a.min(b)),
                (since, None) | (None, since) => since,
            },
        }
    }

    // In whole cycles; 0 if no wait has ended.
    pub fn mean(self) -> u64 {
        self.cycles.checked_div(self.closed).unwrap_or(0)
    }
}
