// The shortest beginning of a schedule with which a run still stops as it does with all of it: request R-12.
// It may not know how a run goes, what an instruction does, nor what refuses a schedule.
#![tactic(auto)]

ghost use Rattle.std.specs.Prelude.{true, ◌⊎◌, ◌≡◌, ◌+◌, ◌<◌, ◌≤◌, length};
ghost use Rattle.runs.specs.Laws.{Bytes};
ghost use Rattle.runs.specs.Numbers.{stop_number, outcome_number, end_of};
ghost use Rattle.runs.specs.TwoRunners.{run_number};
ghost use Rattle.upd546.specs.TheLineSchedule.{record_count};
ghost use Rattle.upd546.specs.TwoRunners.{chip};
ghost use Rattle.shortest.specs.declared.Unfound.TheVariants.{Refused};
ghost use Rattle.shortest.specs.Search.{first_records, stops_with, trial_end, smallest, shortest_answer, found_of, Answers};
ghost use Rattle.shortest.specs.Returns.{Settled, look_of, CameBack, LedTo, GoesOn};
ghost use Rattle.shortest.specs.Tried.{Ready, Tryable, Stopping, Ahead, KeptFrom};

use runs::{MachineCycles, Refusal, RunEnd, Stop, Version};
use upd546::layout::IMAGE_LENGTH;
use upd546::{CYCLE_BYTES, Sheet, State};

// The bytes of a record of a schedule.
const RECORD_LENGTH: usize = 10;

// The bytes of log that a cycle may need.
const CYCLE_LOG: u64 = 16;

// The cycles of a piece of a trial, after each of which it is looked whether the trial came back to a state that it had.
const PIECE: u64 = 1000;

// What is found: how many records, and the stop.
#[derive(Clone, Copy, PartialEq, Eq)]
pub struct Shortest {
    pub records: usize,
    pub stop: Stop,
}

// Why nothing is found: the run's own refusals, 81, 82.
#[derive(Clone, Copy, PartialEq, Eq)]
pub enum Unfound {
    Refused(Refusal),
    LogShort,
    Finishes,
}

impl From<Refusal> for Unfound {
    ghost from_gives = { λ why e. e ≡ Refused why };

    fn from(why: Refusal) -> Unfound {
        Unfound::Refused(why)
    }
}

// Whether a run stopped with this number.
fn stopped_by(end: RunEnd, why: Stop) -> bool
    ensures { result ≡ stops_with (stop_number why) (end_of end) }
{
    match end {
        RunEnd::Stopped(stop) => stop == why,
        _ => false,
    }
}

// All of a state but its cycle number, as bytes.
fn look(s: State, sheet: Sheet) -> [u8; IMAGE_LENGTH]
    ensures { result ≡ look_of sheet s }
{
    let timeless = State {
        cycle: MachineCycles(0),
        ..s
    };
    let mut image = [0u8; IMAGE_LENGTH];
    // Where the save is refused the bytes stay zero, as `look_of` says.
    let _ = save::save(timeless, Version::Two, &mut image, sheet);
    image
}

// Whether the lines are known to stay as they are from a cycle on: no record is later.
fn settled(sched: &[u8], from: u64) -> bool
    ensures { result ≡ true → Settled sched.now from }
{
    let count = sched.len() / RECORD_LENGTH;
    if count == 0 {
        return true;
    }
    let last = big_endian::number_at(sched, RECORD_LENGTH * (count - 1), CYCLE_BYTES);
    last <= from
}

// A run brought forward: the state, and the cycles still to go.
#[derive(Clone, Copy)]
struct Kept {
    state: State,
    left: u64,
}

// A run that stands at a state, copied part by part: a copy of the whole, as in `Kept { state: s, left }`, makes the board's archive ask
// the linker for memcpy.
fn kept_at(s: State, left: u64) -> Kept
    ensures { result ≡ record { state = s; left = left } }
{
    let core = upd546::copy_core(s.core);
    let ports = s.ports;
    let ram = s.ram;
    let cycle = s.cycle;
    let state = State {
        core,
        ports,
        ram,
        count: s.count,
        cycle,
    };
    Kept { state, left }
}

// The state to compare with from now on: the one now reached, each time that the cycles done have doubled.
fn renewed(old: Kept, here: Kept, n: u64) -> Kept
    requires { (old.left ≤ n) × (here.left ≤ n) }
    ensures { (result ≡ here) ⊎ (result ≡ old) }
{
    if n - old.left <= (n - here.left) / 2 {
        return kept_at(here.state, here.left);
    }
    kept_at(old.state, old.left)
}

// The cycles from a cycle on, at most so many, that are before the cycle of record k.
fn cycles_before(sched: &[u8], k: usize, from: u64, most: u64) -> u64
    requires { k < record_count sched.now }
    ensures { Ahead sched.now k from most result }
{
    let cycle = big_endian::number_at(sched, RECORD_LENGTH * k, CYCLE_BYTES);
    cycle.saturating_sub(from).min(most)
}

// What every trial of a panel goes by: its ROM, a schedule, and its sheet. The state, the log and the cycles to go stay parameters: they
// are others for each piece of a run.
#[derive(Clone, Copy)]
struct Trial<'a> {
    rom: &'a [u8],
    sched: &'a [u8],
    sheet: Sheet,
    ghost rom_bytes: { Bytes rom.now },
    ghost sched_bytes: { Bytes sched.now },
}

impl Trial<'_> {
    // Whether a run came back from one state to another that is the same but for the cycle number, under lines that stay as they are.
    // PC and the timer are looked at first, as they mostly differ.
    fn came_back(self, old: State, here: State) -> bool
        ensures { result ≡ true → CameBack self.entry.sheet self.entry.sched.now old here }
    {
        old.core.flow.pc == here.core.flow.pc
            && old.core.timer.counter == here.core.timer.counter
            && settled(self.sched, old.cycle.0)
            && look(old, self.sheet) == look(here, self.sheet)
    }

    // The run brought forward by d cycles, or to its stop.
    fn forward(self, s: State, log: &mut [u8], n: u64, d: u64) -> Kept
        requires { Ready (chip self.sheet) self.rom.now self.sched.now s n log.old × (d ≤ n) }
        ensures { LedTo (chip self.entry.sheet) self.entry.rom.now self.entry.sched.now s n d result.state result.left }
    {
        let a = runner::run_skipping(self.rom, self.sched, s, log, MachineCycles(d), self.sheet);
        kept_at(a.state, n - a.cycles.0)
    }

    // The run brought forward, piece by piece, to its stop or its end. Once it comes back to a state that it had, it never stops, and
    // no cycle is left to run.
    fn watched(self, s: State, log: &mut [u8], n: u64) -> Kept
        requires { Ready (chip self.sheet) self.rom.now self.sched.now s n log.old }
        ensures { GoesOn (chip self.entry.sheet) self.entry.rom.now self.entry.sched.now s n result.state result.left }
    {
        let mut old = kept_at(s, n);
        let mut here = kept_at(s, n);
        while 0 < here.left {
            let d = here.left.min(PIECE);
            let next = self.forward(here.state, log, here.left, d);
            if here.left - next.left < d {
                return kept_at(next.state, next.left);
            }
            if self.came_back(old.state, next.state) {
                return kept_at(next.state, 0);
            }
            old = renewed(old, next, n);
            here = kept_at(next.state, next.left);
        }
        kept_at(here.state, here.left)
    }

    // Whether the run with this schedule stops with this number. The timer-skipping runner answers the plain one's number.
    fn stops_by(self, s: State, log: &mut [u8], n: u64, why: Stop) -> bool
        requires { Ready (chip self.sheet) self.rom.now self.sched.now s n log.old }
        ensures { result ≡ stops_with (stop_number why) (trial_end (chip self.entry.sheet) self.entry.rom.now s n self.entry.sched.now) }
    {
        let kept = self.watched(s, log, n);
        let a = runner::run_skipping(
            self.rom,
            self.sched,
            kept.state,
            log,
            MachineCycles(kept.left),
            self.sheet,
        );
        stopped_by(a.end, why)
    }

    // Whether the run with only the first k records stops with this number.
    fn stops_with_first(self, k: usize, s: State, log: &mut [u8], n: u64, why: Stop) -> bool
        requires { Tryable (chip self.sheet) self.rom.now self.sched.now s n log.old k }
        ensures { result ≡ stops_with (stop_number why) (trial_end (chip self.entry.sheet) self.entry.rom.now s n (first_records k self.entry.sched.now)) }
    {
        let first = Trial {
            rom: self.rom,
            sched: &self.sched[..RECORD_LENGTH * k],
            sheet: self.sheet,
        };
        first.stops_by(s, log, n, why)
    }

    // The run brought forward to the cycle of record k, or to its end: up to there it is the same with k records and with more.
    fn brought(self, k: usize, s: State, log: &mut [u8], n: u64) -> Kept
        requires { Tryable (chip self.sheet) self.rom.now self.sched.now s n log.old (k + 1) }
        ensures { KeptFrom (chip self.entry.sheet) self.entry.rom.now self.entry.sched.now s n k result.state result.left }
    {
        let d = cycles_before(self.sched, k, s.cycle.0, n);
        let a = runner::run_skipping(
            self.rom,
            &self.sched[..RECORD_LENGTH * k],
            s,
            log,
            MachineCycles(d),
            self.sheet,
        );
        Kept {
            state: a.state,
            left: n - a.cycles.0,
        }
    }

    // The smallest k of which the first k records stop the run with this number, as all of them do. The beginning that the trials
    // share is run once.
    fn search(self, s: State, log: &mut [u8], n: u64, why: Stop) -> usize
        requires { Stopping (chip self.sheet) self.rom.now self.sched.now s n log.old (stop_number why) }
        ensures { result ≡ smallest (chip self.entry.sheet) self.entry.rom.now self.entry.sched.now s n }
    {
        let count = self.sched.len() / RECORD_LENGTH;
        let mut kept = Kept { state: s, left: n };
        for k in 0..count {
            kept = self.brought(k, kept.state, log, kept.left);
            if self.stops_with_first(k, kept.state, log, kept.left, why) {
                return k;
            }
        }
        count
    }

    // The trials of a run that isn't refused, on a log of 16n bytes: 82, or how many records, and the stop.
    fn tried(self, s: State, n: u64, log: &mut [u8]) -> Result<Shortest, Unfound>
        requires { Ready (chip self.sheet) self.rom.now self.sched.now s n log.old }
        ensures { found_of result ≡ shortest_answer (chip self.entry.sheet) self.entry.rom.now self.entry.sched.now s n log.old }
    {
        let a = runner::run_skipping(self.rom, self.sched, s, log, MachineCycles(n), self.sheet);
        if let RunEnd::Stopped(stop) = a.end {
            let records = self.search(s, log, n, stop);
            return Ok(Shortest { records, stop });
        }
        Err(Unfound::Finishes)
    }

    // What refuses the run. A run of no cycle has all of its refusals but that of n.
    fn refusal(self, s: State, n: MachineCycles) -> Result<(), Refusal>
        ensures { outcome_number result ≡ run_number (chip self.entry.sheet) self.entry.rom.now self.entry.sched.now s n.0 }
    {
        let mut log = [0u8; 1];
        let a = runner::run_plain(
            self.rom,
            self.sched,
            s,
            &mut log,
            MachineCycles(0),
            self.sheet,
        );
        if let RunEnd::Refused(why) = a.end {
            return Err(why);
        }
        if fields::within_limit(s.cycle, n) {
            return Ok(());
        }
        Err(Refusal::CycleLimit)
    }
}

// THE SHORTEST SCHEDULE THAT STILL STOPS: 71, the run's refusals, 81, 82; then how many records, and the stop. Its parameters are what
// docs/LIBRARIES.md has callers write, so they are no `Trial`.
pub fn find(
    rom: &[u8],
    sched: &[u8],
    s: State,
    n: MachineCycles,
    log: &mut [u8],
    sheet: Sheet,
) -> Result<Shortest, Unfound>
    ensures { Answers (chip sheet) rom.now sched.now s n.0 log.old result log.new }
{
    let trial = Trial { rom, sched, sheet };
    trial.refusal(s, n)?;
    let room = (CYCLE_LOG * n.0) as usize;
    if log.len() < room {
        return Err(Unfound::LogShort);
    }
    trial.tried(s, n.0, &mut log[..room])
}

// The number of an answer. This and the next are functions by name, as docs/LIBRARIES.md has callers write them.
pub fn number_of(a: Result<Shortest, Unfound>) -> u8
    ensures { result ≡ (found_of a).number }
{
    match a {
        Ok(found) => runs::stop_number(found.stop),
        Err(Unfound::Refused(why)) => runs::refusal_number(why),
        Err(Unfound::LogShort) => 81,
        Err(Unfound::Finishes) => 82,
    }
}

// How many records it has; 0 where nothing is found.
pub fn records_of(a: Result<Shortest, Unfound>) -> usize
    ensures { result ≡ (found_of a).records }
{
    match a {
        Ok(found) => found.records,
        Err(_) => 0,
    }
}
