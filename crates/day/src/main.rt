// Program `day`: reads a port log from standard input, of any length, and writes the page of its waits. Every record is read by the
// proved report; what it carries before and after the record tells the bars. It may not know how a log is read, how long a wait is, nor
// how the page is laid out.
#![tactic(auto)]

use bar_rows::Row;
use bars::Bar;
use day_page::Rows;
use log_form::{LOG_RECORD, PORT_RESET};
use runs::MachineCycles;
use seconds::{CLOCK_LEAST, CLOCK_MOST, Clock, NEC_CLOCK};
use std::env::FillError;
use std::io::{Error, ErrorKind, Write, writer};
use std::rt::{Env, Runtime};
use streams::{Failure, Output};
use waiting::{LANDINGS, Reading};

// So many parts are 2^62 bytes, more than any input has.
const PARTS: u64 = 0x4000_0000_0000;

// The place of the port in a record.
const PORT_AT: usize = 6;

// What is told if the second argument is none.
const EXPECTED: &str = "day: a clock is given in hertz, 1000 to 100000000\n";

// What was read so far, and the rows of its bars.
#[derive(Clone, Copy)]
struct Going {
    reading: Reading,
    rows: Rows,
}

fn main(rt: HostRuntime) {
    let mut out = Output::new(writer(&rt));
    let done = run(&rt, &mut out);
    streams::end(&rt, b"day", out, done);
}

fn run(rt: &impl Runtime, out: &mut Output<impl Write>) -> Result<(), Failure> {
    let clock = given_clock(rt).ok_or(Failure::Mistake(EXPECTED))?;
    let mut from = rt.reader();
    let mut part = io::large_buffer();
    let mut going = Going::new();
    for _ in 0..PARTS {
        let got = streams::fill(&mut from, &mut part).map_err(Failure::Unread)?;
        going.read(&part[..got]);
        if got < part.len() {
            return tell(out, &going, clock);
        }
    }
    Err(Failure::Unread(Error::from(ErrorKind::FileTooLarge)))
}

impl Going {
    fn new() -> Going {
        Going {
            reading: waits_text::no_parts(),
            rows: Rows {
                landings: [Row::empty(); LANDINGS],
                resets: Row::empty(),
            },
        }
    }

    // The records of a part, each a part of its own for the report; and what is left after the last of them.
    fn read(&mut self, part: &[u8]) {
        let (records, rest) = part.as_chunks::<LOG_RECORD>();
        for record in records {
            self.read_record(record);
        }
        self.reading = waits_text::part_read(self.reading, rest);
    }

    // One record: the bars of the waits that it closed, and of its reset. The landings go by number: three arrays have each, and two of `zip`
    // in a row are no plainer.
    fn read_record(&mut self, record: &[u8; LOG_RECORD]) {
        let was = self.reading;
        let is = waits_text::part_read(was, record);
        for i in 0..LANDINGS {
            if let Some(bar) = bars::closed_bar(was.carried.landings[i], is.carried.landings[i]) {
                self.rows.landings[i].put(bar);
            }
        }
        if record[PORT_AT] == PORT_RESET {
            self.rows.resets.put(Bar {
                start: is.carried.last,
                length: MachineCycles(0),
            });
        }
        self.reading = is;
    }
}

// The clock that is given as the second argument, in hertz and by digits alone; NEC's if none is given.
fn given_clock(rt: &impl Env) -> Option<Clock> {
    let mut word = [0u8; 16];
    let length = match rt.arg(2, &mut word) {
        Ok(length) => length,
        Err(FillError::NotPresent) => return Some(NEC_CLOCK),
        Err(FillError::TooLong) => return None,
    };
    let digits = &word[..length];
    if !digits.iter().all(|digit| digit.is_ascii_digit()) {
        return None;
    }
    let hertz = str::from_utf8(digits).ok()?.parse::<u64>().ok()?;
    if CLOCK_LEAST <= hertz && hertz <= CLOCK_MOST {
        Some(Clock(hertz))
    } else {
        None
    }
}

// A refused log's page ends with the program's line of the refusal.
fn tell(out: &mut Output<impl Write>, going: &Going, clock: Clock) -> Result<(), Failure> {
    let number = going.reading.number;
    if number == 0 {
        day_page::page(out, going.reading.carried, &going.rows, clock)?;
        return Ok(());
    }
    day_page::no_answer(out, number)?;
    Err(Failure::Refused(number))
}
