// Machine cycles as time, at a clock that is given: microseconds, the words' numbers of a length, the steps of an axis. Whole numbers
// only. It may not know what takes the time, nor how a time is written.
// Sums and products stay at the largest number of 64 bits, so that no function asks anything of its caller. Times of a log don't reach it.
#![tactic(auto)]

ghost use Rattle.std.specs.Prelude.{◌≡◌};
ghost use Rattle.seconds.specs.Times.{scaled, micros_of, cycles_of};

use runs::MachineCycles;

// A clock, in hertz.
#[derive(Clone, Copy, PartialEq, Eq)]
pub struct Clock(pub u64);

// NEC's clock: document 000 has the uPD546 at 400 kHz, and a machine cycle of four clock cycles is 10 microseconds.
pub const NEC_CLOCK: Clock = Clock(400000);

// The clocks that may be given.
pub const CLOCK_LEAST: u64 = 1000;

pub const CLOCK_MOST: u64 = 100000000;

const CLOCKS_A_CYCLE: u64 = 4;

// A second, and a minute, in microseconds.
const SECOND: u64 = 1000000;

pub const MINUTE: u64 = 60000000;

// In microseconds: up to a second 1, 2 and 5 of each size; then parts of a minute, of an hour and of a day; then days.
const STEPS: [u64; 44] = [
    10,
    20,
    50,
    100,
    200,
    500,
    1000,
    2000,
    5000,
    10000,
    20000,
    50000,
    100000,
    200000,
    500000,
    1000000,
    2000000,
    5000000,
    10000000,
    15000000,
    30000000,
    60000000,
    120000000,
    300000000,
    600000000,
    900000000,
    1800000000,
    3600000000,
    7200000000,
    10800000000,
    21600000000,
    43200000000,
    86400000000,
    172800000000,
    432000000000,
    864000000000,
    1728000000000,
    4320000000000,
    8640000000000,
    17280000000000,
    43200000000000,
    86400000000000,
    864000000000000,
    8640000000000000,
];

// n times `to` by `from`, cut to a whole number; 0 if `from` is.
fn scaled(n: u64, to: u64, from: u64) -> u64
    ensures { result ≡ scaled n to from }
{
    if from == 0 {
        return 0;
    }
    let whole = (n / from).saturating_mul(to);
    let part = (n % from).saturating_mul(to) / from;
    whole.saturating_add(part)
}

impl Clock {
    // The microseconds of so many machine cycles, cut to whole ones.
    pub fn micros(self, cycles: MachineCycles) -> u64
        ensures { result ≡ micros_of self.0 cycles.0 }
    {
        scaled(cycles.0.saturating_mul(CLOCKS_A_CYCLE), SECOND, self.0)
    }

    // The machine cycles of so many microseconds, cut to whole ones.
    pub fn cycles(self, micros: u64) -> MachineCycles
        ensures { result.0 ≡ cycles_of self.0 micros }
    {
        MachineCycles(scaled(micros, self.0, SECOND) / CLOCKS_A_CYCLE)
    }
}

// A length, rounded to the last figure that is told. The border between two forms is of the rounded value, so there is no `60.0 s`.
#[derive(Clone, Copy)]
pub enum Length {
    // Hundredths of a millisecond, under a second.
    Milliseconds(u64),
    // Tenths of a second, under a minute.
    Seconds(u64),
    // Seconds, under an hour.
    Minutes(u64),
    // Minutes.
    Hours(u64),
}

pub fn told(micros: u64) -> Length {
    let hundredths = micros.saturating_add(5) / 10;
    if hundredths < 100000 {
        return Length::Milliseconds(hundredths);
    }
    let tenths = micros.saturating_add(50000) / 100000;
    if tenths < 600 {
        return Length::Seconds(tenths);
    }
    let seconds = micros.saturating_add(500000) / SECOND;
    if seconds < 3600 {
        return Length::Minutes(seconds);
    }
    Length::Hours(micros.saturating_add(30000000) / MINUTE)
}

// The least step of which at most so many reach up to a time; the largest if none is large enough.
pub fn axis_step(micros: u64, marks: u64) -> u64 {
    STEPS
        .iter()
        .copied()
        .find(|step| micros
            .checked_div(*step)
            .is_some_and(|reached| reached <= marks))
        .unwrap_or(STEPS[STEPS.len() - 1])
}
