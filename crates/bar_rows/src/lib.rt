// Rows of bars in fixed memory: four for the landings, one for resets. A row that is full has neighbours joined that begin within one
// step, and the step doubles until half of the row is free; so a log of any number of waits keeps within the rows, and none is lost.
// It may not know what a wait is, nor how a bar is drawn.
#![tactic(auto)]

ghost use Rattle.std.specs.Prelude.{ℕ, ◌≡◌, ◌<◌, ◌≤◌, ◌+◌, ◌-◌, ◌^◌, [], min, get_or};

use bars::Bar;
use runs::MachineCycles;

// The bars of a row, at most.
pub const BARS: usize = 2048;

// So many doublings of a step reach beyond the cycles of any log, and leave one bar.
const DOUBLINGS: usize = 62;

// Waits that are drawn as one bar: where the first of them began, how many they are, the longest, their cycles together.
#[derive(Clone, Copy)]
pub struct Joined {
    pub start: MachineCycles,
    pub waits: u64,
    pub longest: MachineCycles,
    pub cycles: MachineCycles,
}

impl From<Bar> for Joined {
    fn from(bar: Bar) -> Joined
        ensures { result ≡ record { start = bar.start; waits = 1; longest = bar.length; cycles = bar.length } }
    {
        Joined {
            start: bar.start,
            waits: 1,
            longest: bar.length,
            cycles: bar.length,
        }
    }
}

impl Joined {
    // What a row has in the places that no bar takes.
    const NONE: Joined = Joined {
        start: MachineCycles(0),
        waits: 0,
        longest: MachineCycles(0),
        cycles: MachineCycles(0),
    };

    // Whether both begin within one step.
    fn is_near(self, other: Joined, step: MachineCycles) -> bool {
        self.start.0.checked_div(step.0) == other.start.0.checked_div(step.0)
    }

    // With later waits joined to them. Sums stay at the largest number of 64 bits, which no log reaches.
    fn with(self, later: Joined) -> Joined
        ensures { result.waits ≡ min (self.waits + later.waits) (2 ^ 64 - 1) }
    {
        Joined {
            start: self.start,
            waits: self.waits.saturating_add(later.waits),
            longest: MachineCycles(self.longest.0.max(later.longest.0)),
            cycles: MachineCycles(self.cycles.0.saturating_add(later.cycles.0)),
        }
    }
}

// A row: the first `count` of the array are its bars; and within how many cycles waits are joined, if any were. The memory is fixed, so no
// Vec; and no ArrayVec of the kit, which can't be copied: a Row can, and so can the rows of a day.
#[derive(Clone, Copy)]
pub struct Row {
    all: [Joined; BARS],
    count: usize,
    pub step: Option<MachineCycles>,
    ghost within: { count ≤ 2048 },
}

impl Row {
    ghost use Rattle.bar_rows.specs.Rows.{bars_in, HasMore};

    pub fn empty() -> Row
        ensures { bars_in result ≡ [] }
    {
        Row {
            all: [Joined::NONE; BARS],
            count: 0,
            step: None,
        }
    }

    pub fn bars(&self) -> &[Joined]
        ensures { result.now ≡ bars_in self.now }
    {
        &self.all[..self.count]
    }

    // ONE WAIT MORE.
    pub fn put(&mut self, bar: Bar)
        ensures { HasMore 1 self.old self.new }
    {
        if self.count == BARS {
            self.halve();
        }
        self.add(Joined::from(bar));
    }

    // One bar more, joined to the last of them if that is near or the row is full.
    fn add(&mut self, bar: Joined)
        ensures kept { HasMore bar.waits self.old self.new }
        ensures count { self.new.count ≤ self.old.count + 1 }
        ensures others { (j : ℕ) → self.old.count < j → get_or self.new.all j Joined.NONE ≡ get_or self.old.all j Joined.NONE }
    {
        if let Some(k) = self.count.checked_sub(1) {
            let last = self.all[k];
            if self.count == BARS || self.step.is_some_and(|step| last.is_near(bar, step)) {
                self.all[k] = last.with(bar);
                return;
            }
        }
        self.all[self.count] = bar;
        self.count += 1;
    }

    // Until half of the row is free.
    fn halve(&mut self)
        ensures { HasMore 0 self.old self.new }
    {
        for _ in 0..DOUBLINGS {
            if self.count <= BARS / 2 {
                return;
            }
            let doubled = self.step.map_or(1, |step| step.0.saturating_mul(2));
            self.step = Some(MachineCycles(doubled));
            self.thin();
        }
    }

    // Neighbours joined that are near.
    fn thin(&mut self)
        ensures { HasMore 0 self.old self.new }
    {
        let count = self.count;
        self.count = 0;
        for k in 0..count {
            let bar = self.all[k];
            self.add(bar);
        }
    }
}
