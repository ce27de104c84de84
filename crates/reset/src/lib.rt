// The reset line, looked at before step a: whether the next cycle is a reset cycle, and what reset cycles leave.
// It may not know what an instruction does, how a schedule is read, nor what a run answers.
#![tactic(auto)]

ghost use Rattle.std.specs.Prelude.{◌≡◌, ◌+◌, ◌<◌, ◌≤◌, length, replicate};
ghost use Rattle.upd546.specs.TheMachine.{latches};
ghost use Rattle.upd546.specs.OneMachineCycle.{counted, cleared};
ghost use Rattle.reset.specs.Line.{records, appended, seen_of, looked_at};

use upd546::{Core, LATCHES, LOG_RECORD, Lines, MARK_OTHER, RESET_COUNT, Timer};

// Where a run stands once the line was looked at: the next cycle, the limit up to which lines and count stay, and the count after
// the next cycle.
#[derive(Clone, Copy)]
pub struct Looked {
    pub core: Core,
    pub at: usize,
    pub number: u64,
    pub limit: u64,
    pub count: u8,
}

// The count after a cycle with this RES: how many cycles it has been high, at most 4.
fn counted(res: u8, count: u8) -> u8
    ensures { result ≡ counted res count }
{
    if res == 0 {
        return 0;
    }
    if count < RESET_COUNT {
        return count + 1;
    }
    RESET_COUNT
}

// What a reset leaves of a core, once the lines are taken: registers, stack and the INT level.
fn cleared(c: Core) -> Core
    ensures { result ≡ cleared c }
{
    let stopped = Timer {
        tm: 0,
        register: 0,
        counter: 0,
    };
    let mut d = c;
    d.flow.pc = 0;
    d.interrupt.int = 0;
    d.interrupt.inte = 0;
    d.timer = stopped;
    d.mark = MARK_OTHER;
    d.owed = 0;
    d
}

fn clear(ports: &mut [u8; LATCHES])
    ensures { ports.new ≡ replicate latches 0 }
{
    *ports = [0; LATCHES];
}

// The record of a reset cycle, where it brings the count to 4, with the log empty from `at` on; answers where it is empty then.
fn recorded(log: &mut [u8], at: usize, n: u64, count: u8) -> usize
    requires { at + length (records n count) ≤ length log.old }
    ensures { (result ≡ at + length (records n count)) × (log.new ≡ appended log.old at (records n count)) }
{
    if count == RESET_COUNT {
        return at;
    }
    portlog::put_reset(&mut log[at..], n);
    at + LOG_RECORD
}

// Looks at RES before cycle n. A reset cycle that finds the count at 4 changes nothing more, so all of them up to the limit are
// done at once; any other cycle is alone, as the count changes with it. None: the log lacks the bytes of a reset's record, and all is
// as it was.
pub fn look(
    before: Core,
    ports: &mut [u8; LATCHES],
    log: &mut [u8],
    at: usize,
    lines: Lines,
    n: u64,
    limit: u64,
    count: u8,
) -> Option<Looked>
    requires { (n < limit) × (at ≤ length log.old) }
    ensures { seen_of before at n limit count result ports.new log.new ≡ looked_at before ports.old log.old at lines n limit count }
{
    let after = counted(lines.res, count);
    if after != RESET_COUNT {
        return Some(Looked {
            core: before,
            at,
            number: n,
            limit: n + 1,
            count: after,
        });
    }
    if (count != RESET_COUNT) & (log.len() - at < LOG_RECORD) {
        return None;
    }
    let end = recorded(log, at, n, count);
    clear(ports);
    let core = cleared(steps::taken(lines, before));
    Some(Looked {
        core,
        at: end,
        number: limit,
        limit,
        count: after,
    })
}
