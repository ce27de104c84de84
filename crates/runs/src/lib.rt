// What a run, a save and a restore answer, for any machine: counts, ends and their numbers, and in specs/ the two runners.
// It may not know the chip: instructions, timer, lines and the image's layout stand behind the record `Machine`.
#![tactic(auto)]

ghost use Rattle.std.specs.Prelude.{◌≡◌};
ghost use Rattle.runs.specs.Numbers.{stop_number, refusal_number, end_number, outcome_number};

// A count of machine cycles.
#[derive(Clone, Copy)]
pub struct MachineCycles(pub u64);

// A count of clock cycles, four to a machine cycle.
#[derive(Clone, Copy)]
pub struct ClockCycles(pub u64);

// Why a run stopped before its last cycle, each with its number.
#[derive(Clone, Copy, PartialEq, Eq)]
pub enum Stop {
    LogFull = 3,
    RomEnd = 22,
    NoInstruction = 23,
}

// The versions of an image. Version 1 is for old boards, and lacks the count of cycles with RES high.
#[derive(Clone, Copy, PartialEq, Eq)]
pub enum Version {
    One,
    Two,
}

// Why a call was refused, each with its number.
#[derive(Clone, Copy, PartialEq, Eq)]
pub enum Refusal {
    BufferShort = 1,
    CycleLimit = 2,
    ScheduleLength = 11,
    ScheduleLong = 12,
    RecordBytes = 13,
    RecordOrder = 14,
    RomLength = 21,
    ImageLength = 31,
    ImageMark = 32,
    ImageVersion = 33,
    Field = 34,
    StoreMalformed = 51,
    NameUnknown = 52,
    StoreFull = 53,
    ResetCount = 54,
    Sheet = 71,
}

// How a run ended.
#[derive(Clone, Copy, PartialEq, Eq)]
pub enum RunEnd {
    Finished,
    Stopped(Stop),
    Refused(Refusal),
}

// The number of a stop. It and the three below are functions by name, and no `From`: docs/LIBRARIES.md has callers write them, and 0, which
// is nobody's number, stands for an end that is neither a stop nor a refusal.
pub fn stop_number(s: Stop) -> u8
    ensures { result ≡ stop_number s }
{
    s as u8
}

// The number of a refusal.
pub fn refusal_number(r: Refusal) -> u8
    ensures { result ≡ refusal_number r }
{
    r as u8
}

// The number that a run answers; 0 where it finished.
pub fn end_number(e: RunEnd) -> u8
    ensures { result ≡ end_number e }
{
    match e {
        RunEnd::Finished => 0,
        RunEnd::Stopped(s) => stop_number(s),
        RunEnd::Refused(r) => refusal_number(r),
    }
}

// The number of a check, a save or a restore; 0 where nothing refuses it.
pub fn outcome_number(o: Result<(), Refusal>) -> u8
    ensures { result ≡ outcome_number o }
{
    match o {
        Ok(()) => 0,
        Err(r) => refusal_number(r),
    }
}
