// Numbers, lengths and moments, as the page has them.
use runs::MachineCycles;
use seconds::{Clock, Length, MINUTE};
use std::fmt::{self, Display, Formatter, InlineText};
use std::io::Write;
use streams::{Cut, Output};

// Longer than any text that is put together of words and numbers.
const TEXT_LENGTH: usize = 1024;

pub fn put(out: &mut Output<impl Write>, text: impl Display + Drop) -> Result<(), Cut> {
    let text = InlineText::<TEXT_LENGTH>::of(text);
    out.write(text.as_str().as_bytes())
}

// A length in microseconds, its units after spaces that no line is broken at.
#[derive(Clone, Copy)]
pub struct Time(u64);

impl Display for Time {
    fn fmt<W: fmt::Write>(&self, f: &mut Formatter<W>) -> fmt::Result {
        match seconds::told(self.0) {
            Length::Milliseconds(n) => write!(f, "{}.{:02}&nbsp;ms", n / 100, n % 100),
            Length::Seconds(n) => write!(f, "{}.{}&nbsp;s", n / 10, n % 10),
            Length::Minutes(n) => write!(f, "{}&nbsp;min {}&nbsp;s", n / 60, n % 60),
            Length::Hours(n) => write!(f, "{}&nbsp;h {}&nbsp;min", n / 60, n % 60),
        }
    }
}

// A moment since the log began, in microseconds, and how long the log is: hours, minutes and seconds begun; in a log under a minute, the
// length up to it.
#[derive(Clone, Copy)]
pub struct Moment {
    at: u64,
    log: u64,
}

impl Display for Moment {
    fn fmt<W: fmt::Write>(&self, f: &mut Formatter<W>) -> fmt::Result {
        let at = self.at;
        if self.log < MINUTE {
            return write!(f, "{}", Time(at));
        }
        let s = at / 1000000;
        write!(f, "{}:{:02}:{:02}", s / 3600, s / 60 % 60, s % 60)
    }
}

// A mark of an axis: so many microseconds, in the largest unit of which the step is a multiple.
#[derive(Clone, Copy)]
pub struct Mark {
    pub at: u64,
    pub step: u64,
}

impl Display for Mark {
    fn fmt<W: fmt::Write>(&self, f: &mut Formatter<W>) -> fmt::Result {
        let at = self.at;
        match self.step {
            ..1000 => write!(f, "{at}&nbsp;&micro;s"),
            1000..1000000 => write!(f, "{}&nbsp;ms", at / 1000),
            1000000..60000000 => write!(f, "{}&nbsp;s", at / 1000000),
            60000000..3600000000 => write!(f, "{}&nbsp;min", at / 60000000),
            3600000000..86400000000 => write!(f, "{}&nbsp;h", at / 3600000000),
            _ => write!(f, "{}&nbsp;d", at / 86400000000),
        }
    }
}

// By what times are told: the clock, and the log's last cycle.
#[derive(Clone, Copy)]
pub struct Times {
    pub clock: Clock,
    pub last: MachineCycles,
}

impl Times {
    pub fn micros(self, cycles: u64) -> u64 {
        self.clock.micros(MachineCycles(cycles))
    }

    // The length of so many cycles.
    pub fn length(self, cycles: u64) -> Time {
        Time(self.micros(cycles))
    }

    pub fn moment(self, cycles: u64) -> Moment {
        Moment {
            at: self.micros(cycles),
            log: self.micros(self.last.0),
        }
    }
}
