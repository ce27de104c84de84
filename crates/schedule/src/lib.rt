// The line schedule in code: which number refuses it, and a cursor that goes with a run and holds the lines of its cycle.
// It may not know the chip's instructions, nor how a run goes.
#![tactic(auto)]

ghost use Rattle.std.specs.Prelude.{◌≡◌, ◌+◌, ◌*◌, ◌/◌, ◌<◌, ◌≤◌, ◌^◌, ◌&&◌, eqb, leb};
ghost use Rattle.runs.specs.Numbers.{outcome_number, refusal_number};
ghost use Rattle.runs.specs.Refusals.{cycle_limit};
ghost use Rattle.upd546.specs.TheLineSchedule.{record_length, record_count, record_byte, record_cycle, record_lines, record_number, schedule_number};
ghost use Rattle.schedule.specs.Checked.{last_cycle, FirstRefused};
ghost use Rattle.schedule.specs.Cursor.{next_cycle, lines_after, Counted, Stands};

use runs::{MachineCycles, Refusal};
use upd546::{CYCLE_BYTES, Lines};

// A record's bytes: 0 to 5 the cycle, 6 ports A and B, 7 ports C and D, 8 the INT level, 9 RES.
const RECORD_LENGTH: usize = 10;

// 4,096 records.
const MAX_LENGTH: usize = 40960;

// No cycle: six bytes are below it. A number, and no Option: `next_cycle` and `Stands` (specs/Cursor.antt), on which the proofs of
// turns rest, have it as one, and a run takes the lesser of it and its end at each turn.
const NO_CYCLE: u64 = u64::MAX;

// Where a run stands in its schedule at a cycle.
#[derive(Clone, Copy)]
pub struct Cursor {
    // The number of records at or before the cycle.
    pub index: usize,
    // The cycle of record `index`, or `NO_CYCLE` if there is none.
    pub next: u64,
    pub lines: Lines,
}

// Byte k of record i. A record is named by its schedule and its number, and is no type of its own: the definitions (`record_byte`,
// `record_cycle`, ..) speak of those two, and would be needed a second time for a record apart.
fn byte_at(sched: &[u8], i: usize, k: usize) -> u8
    requires { (i < record_count sched.now) × (k < record_length) }
    ensures { result ≡ record_byte sched.now i k }
{
    sched[RECORD_LENGTH * i + k]
}

// The cycle of record i.
fn cycle_at(sched: &[u8], i: usize) -> u64
    requires { i < record_count sched.now }
    ensures { (result ≡ record_cycle sched.now i) × (result < 2 ^ 48) }
{
    big_endian::number_at(sched, RECORD_LENGTH * i, CYCLE_BYTES)
}

// The lines that record i sets.
fn lines_at(sched: &[u8], i: usize) -> Lines
    requires { i < record_count sched.now }
    ensures { result ≡ record_lines sched.now i }
{
    let ab = byte_at(sched, i, 6);
    let cd = byte_at(sched, i, 7);
    let int = byte_at(sched, i, 8);
    let res = byte_at(sched, i, 9);
    Lines {
        a: ab / 16,
        b: ab % 16,
        c: cd / 16,
        d: cd % 16,
        int,
        res,
    }
}

// The first eight bytes of record i as one number: the cycle, and the ports below it. Read as four and four, the compiler makes
// one load of them.
fn head_at(sched: &[u8], i: usize) -> u64
    requires { i < record_count sched.now }
    ensures { result / 65536 ≡ record_cycle sched.now i }
{
    let at = RECORD_LENGTH * i;
    let high = big_endian::number_at(sched, at, 4);
    let low = big_endian::number_at(sched, at + 4, 4);
    4294967296 * high + low
}

// Whether the INT level and RES of record i are 0 or 1. Read as one number, the compiler makes one load and one test of them.
fn levels_sound(sched: &[u8], i: usize) -> bool
    requires { i < record_count sched.now }
    ensures { result ≡ (leb (record_byte sched.now i 8) 1 && leb (record_byte sched.now i 9) 1) }
{
    let int = byte_at(sched, i, 8) as u16;
    let res = byte_at(sched, i, 9) as u16;
    let tail = 256 * res + int;
    (tail % 256 <= 1) & (tail / 256 <= 1)
}

// Whether record i, which has this head, is accepted, where those before it are. `last` is the greatest head that has the cycle
// of the record before it, so that comparing heads compares cycles.
fn accepts(sched: &[u8], i: usize, head: u64, last: u64) -> bool
    requires { (i < record_count sched.now) × (head / 65536 ≡ record_cycle sched.now i) × (last ≡ 65536 * last_cycle sched.now i + 65535) }
    ensures { result ≡ eqb (record_number sched.now i) 0 }
{
    if !levels_sound(sched, i) {
        return false;
    }
    if i == 0 {
        return true;
    }
    head > last
}

// The number of records before the first that is refused.
fn accepted(sched: &[u8]) -> usize
    ensures { FirstRefused sched.now result }
{
    let count = sched.len() / RECORD_LENGTH;
    let mut last: u64 = 65535;
    for i in 0..count {
        let head = head_at(sched, i);
        if !accepts(sched, i, head, last) {
            return i;
        }
        last = head / 65536 * 65536 + 65535;
    }
    count
}

// Why record i is refused.
fn refusal_at(sched: &[u8], i: usize) -> Refusal
    requires { (i < record_count sched.now) × (record_number sched.now i ≡ 0 → ⊥) }
    ensures { refusal_number result ≡ record_number sched.now i }
{
    if levels_sound(sched, i) {
        return Refusal::RecordOrder;
    }
    Refusal::RecordBytes
}

// Whether a schedule is accepted, and if not, why.
pub fn check(sched: &[u8]) -> Result<(), Refusal>
    ensures { outcome_number result ≡ schedule_number sched.now }
{
    if MAX_LENGTH < sched.len() {
        return Err(Refusal::ScheduleLong);
    }
    if sched.len() % RECORD_LENGTH != 0 {
        return Err(Refusal::ScheduleLength);
    }
    let i = accepted(sched);
    if i < sched.len() / RECORD_LENGTH {
        return Err(refusal_at(sched, i));
    }
    Ok(())
}

// The number of records at or before cycle n, by halves: all before `low` are, and that at `high`, if there is one, isn't. std's
// methods would be no plainer: `binary_search_by` answers one of two places, and `partition_point` needs the records as chunks, a
// closure with a clause of its own, and the order shown once more of chunks (`IsPartitionedBy`), where `rises` has it of the bytes.
fn records_until(sched: &[u8], n: u64) -> usize
    requires { schedule_number sched.now ≡ 0 }
    ensures { Counted sched.now n result }
{
    let mut low = 0;
    let mut high = sched.len() / RECORD_LENGTH;
    while low < high {
        let middle = (low + high) / 2;
        if n < cycle_at(sched, middle) {
            high = middle;
        } else {
            low = middle + 1;
        }
    }
    low
}

// The cycle of record i, or `NO_CYCLE` if there is none.
fn next_at(sched: &[u8], i: usize) -> u64
    ensures { result ≡ next_cycle sched.now i }
{
    if i < sched.len() / RECORD_LENGTH {
        cycle_at(sched, i)
    } else {
        NO_CYCLE
    }
}

// The lines once so many records have been taken.
fn lines_after(sched: &[u8], taken: usize) -> Lines
    requires { taken ≤ record_count sched.now }
    ensures { result ≡ lines_after sched.now taken }
{
    if taken == 0 {
        Lines {
            a: 0,
            b: 0,
            c: 0,
            d: 0,
            int: 1,
            res: 0,
        }
    } else {
        lines_at(sched, taken - 1)
    }
}

// The cursor at cycle n. It and `moved` take a schedule's bytes and ask that `check` accepts them, which is no type of its own: the
// theorems of witness, and runner's refusals (`panel_number`), speak of those bytes by `schedule_number`, and so would say both.
pub fn start(sched: &[u8], n: MachineCycles) -> Cursor
    requires { schedule_number sched.now ≡ 0 }
    ensures { Stands sched.now n.0 result }
{
    let index = records_until(sched, n.0);
    let lines = lines_after(sched, index);
    let next = next_at(sched, index);
    Cursor { index, next, lines }
}

// The cursor one cycle on. Cycles rise, so at most one record falls on it.
// Structs are made field by field, so that the optimiser keeps the fields apart: a run is slower if they are copied whole.
pub fn moved(sched: &[u8], cursor: Cursor, n: MachineCycles) -> Cursor
    requires { (schedule_number sched.now ≡ 0) × Stands sched.now n.0 cursor × (n.0 < cycle_limit) }
    ensures { Stands sched.now (n.0 + 1) result }
{
    let index = cursor.index;
    if n.0 + 1 < cursor.next {
        return Cursor {
            index,
            next: cursor.next,
            lines: Lines {
                a: cursor.lines.a,
                b: cursor.lines.b,
                c: cursor.lines.c,
                d: cursor.lines.d,
                int: cursor.lines.int,
                res: cursor.lines.res,
            },
        };
    }
    let next = next_at(sched, index + 1);
    let lines = lines_at(sched, index);
    Cursor {
        index: index + 1,
        next,
        lines: Lines {
            a: lines.a,
            b: lines.b,
            c: lines.c,
            d: lines.d,
            int: lines.int,
            res: lines.res,
        },
    }
}
