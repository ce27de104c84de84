// Reads the logs of standard input, each from an empty report, from what the case before carried on or from a part that is given, and
// writes a line for each: the same text that the other interpreter writes of them. It may not know how a log is read. The file and
// the text are told at the top of tests/reference/src/bin/waits/main.rs.
#![tactic(auto)]

use runs::MachineCycles;
use test_stream::{End, eight, front_mut, part, put, read_exact};
use waiting::{Carried, LANDINGS, Landing, Reading};

// A case: where it reads on from, one byte, and the length of its log, two. Where the carried part is given, its bytes follow.
const HEAD: usize = 3;

const GIVEN: u8 = 2;

const BEFORE: u8 = 1;

const LANDING_BYTES: usize = 33;

const LAMPS_AT: usize = LANDINGS * LANDING_BYTES;

const CARRIED_BYTES: usize = LAMPS_AT + 9;

// The longest log.
const LONGEST: usize = 65536;

fn main(rt: HostRuntime) {
    let titles =
        b"number lamps last closed cycles longest open start closed cycles longest open start closed cycles longest open start closed cycles longest open start\n";
    let mut before = waiting::start_of_day();
    test_stream::try_cases(&rt, titles, || {
        let reading = one(&rt, before)?;
        tell(&rt, reading);
        before = reading.carried;
        Ok(())
    });
}

// One case, after one that carried this on.
fn one(rt: &impl Input, before: Carried) -> Result<Reading, End> {
    let mut head = [0; HEAD];
    let mut space = [0; LONGEST];
    read_exact(rt, &mut head)?;
    let [how, high, low] = head;
    let carried = match how {
        GIVEN => given(rt)?,
        BEFORE => before,
        _ => waiting::start_of_day(),
    };
    let log = front_mut(&mut space, usize::from(u16::from_be_bytes([high, low])));
    read_exact(rt, log)?;
    Ok(waiting::waiting_times(log, carried))
}

// The carried part that a case gives.
fn given(rt: &impl Input) -> Result<Carried, End> {
    let mut bytes = [0; CARRIED_BYTES];
    read_exact(rt, &mut bytes)?;
    let places = [0, LANDING_BYTES, 2 * LANDING_BYTES, 3 * LANDING_BYTES];
    Ok(Carried {
        landings: places.map(|at| landing_of(&part(&bytes, at))),
        lamps: bytes[LAMPS_AT],
        last: MachineCycles(eight(&bytes, LAMPS_AT + 1)),
    })
}

fn landing_of(bytes: &[u8; LANDING_BYTES]) -> Landing {
    Landing {
        closed: eight(bytes, 0),
        cycles: MachineCycles(eight(bytes, 8)),
        longest: MachineCycles(eight(bytes, 16)),
        mark: bytes[24],
        start: MachineCycles(eight(bytes, 25)),
    }
}

// A line: the number, lamps, the last cycle, and the figures of each landing.
fn tell(rt: &impl Print, r: Reading) {
    let _ = print!(rt; "{} {} {}", r.number, r.carried.lamps, r.carried.last.0);
    for l in &r.carried.landings {
        let _ = print!(rt;
            " {} {} {} {} {}",
            l.closed, l.cycles.0, l.longest.0, l.mark, l.start.0
        );
    }
    put(rt, b"\n");
}
