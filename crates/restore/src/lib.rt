// RESTORE: the state that the bytes of an image are, or why not. It may not know how an image is written, nor how a run goes.
#![tactic(auto)]

ghost use Rattle.std.specs.Prelude.{◌≡◌, Err, ◌+◌, ◌≤◌, length};
ghost use Rattle.runs.specs.declared.Version.TheVariants.{One};
ghost use Rattle.runs.specs.Numbers.{outcome_number};
ghost use Rattle.runs.specs.TwoRunners.{restore_answer, current_answer};
ghost use Rattle.upd546.specs.TheMachine.{latches, fresh};
ghost use Rattle.upd546.specs.Bytes.{number_at, part};
ghost use Rattle.upd546.specs.Sequences.{same_numbers};
ghost use Rattle.upd546.specs.StateImage.{image_length, ports_at, ram_at, ram_bytes, count_at, byte, unpacked, of_image, version_of};
ghost use Rattle.upd546.specs.TwoRunners.{chip, restore_of};
ghost use Rattle.restore.specs.Head.{core_of, head_number};

use runs::{MachineCycles, Refusal, Version};
use upd546::layout::{
    ACC_AT, COUNT_AT, COUNTER_AT, CYCLE_AT, DP_AT, FLAGS_AT, IMAGE_LENGTH, IMAGE_MARK,
    IMAGE_MARK_AT, MARK_AT, OWED_AT, PC_AT, PORTS_AT, RAM_AT, RAM_BYTES, REGISTER_AT, STACK_AT,
    VERSION_AT, WORD_BYTES,
};
use upd546::{
    CYCLE_BYTES, Core, Flow, Interrupt, LATCHES, RAM_WORDS, Registers, RestoreAnswer, Sheet, State,
    Timer, layout,
};

// Flags are 6 bits.
const FLAGS: u8 = 64;

// The older entries of the stack.
const SECOND_AT: usize = STACK_AT + WORD_BYTES;

const OLDEST_AT: usize = SECOND_AT + WORD_BYTES;

// Whether the bytes from a place on begin with those expected. It stands apart, since `head_check` would be no plainer with two cuts
// and two comparisons in it.
fn stands_at(bytes: &[u8], at: usize, expected: &[u8]) -> bool
    requires { at + length expected.now ≤ length bytes.now }
    ensures { result ≡ same_numbers (part bytes.now at (length expected.now)) expected.now }
{
    &bytes[at..at + expected.len()] == expected
}

// Two bytes as a word. `u16::from_be_bytes` takes an array, so that each cut would need `try_into` and `unwrap`: no plainer.
fn word_at(bytes: &[u8], at: usize) -> u16
    requires { at + 2 ≤ length bytes.now }
    ensures { result ≡ number_at bytes.now at 2 }
{
    big_endian::number_at(bytes, at, WORD_BYTES) as u16
}

// The parts ask for the bytes that version 1 has, by a clause each. An array of these in place of the slice would be no plainer, since
// `of_image` reads the image whole.
fn core_at(bytes: &[u8]) -> Core
    requires { image_length One ≤ length bytes.now }
    ensures { result ≡ core_of bytes.now }
{
    let dp = bytes[DP_AT];
    let flags = bytes[FLAGS_AT];
    Core {
        registers: Registers {
            acc: bytes[ACC_AT],
            carry: flags % 2,
            saved: flags / 2 % 2,
            dph: dp / 16,
            dpl: dp % 16,
        },
        flow: Flow {
            pc: word_at(bytes, PC_AT),
            stack: [
                word_at(bytes, STACK_AT),
                word_at(bytes, SECOND_AT),
                word_at(bytes, OLDEST_AT),
            ],
        },
        interrupt: Interrupt {
            int: flags / 4 % 2,
            inte: flags / 8 % 2,
            level: flags / 32 % 2,
        },
        timer: Timer {
            tm: flags / 16 % 2,
            register: bytes[REGISTER_AT],
            counter: bytes[COUNTER_AT],
        },
        mark: bytes[MARK_AT],
        owed: bytes[OWED_AT],
    }
}

fn ports_at(bytes: &[u8]) -> [u8; LATCHES]
    requires { image_length One ≤ length bytes.now }
    ensures { result ≡ part bytes.now ports_at latches }
{
    bytes[PORTS_AT..RAM_AT].try_into().unwrap()
}

fn ram_at(bytes: &[u8]) -> [u8; RAM_WORDS]
    requires { image_length One ≤ length bytes.now }
    ensures { result ≡ unpacked (part bytes.now ram_at ram_bytes) }
{
    let mut words = [0; RAM_WORDS];
    // By index: a `zip` would need the words as `as_chunks_mut::<2>`, with a rest beside them that is always empty, which is no plainer.
    for i in 0..RAM_BYTES {
        let byte = bytes[RAM_AT + i];
        words[2 * i] = byte / 16;
        words[2 * i + 1] = byte % 16;
    }
    words
}

// Version 1 ends before the count, which is 0 then.
fn count_at(bytes: &[u8]) -> u8
    ensures { result ≡ byte bytes.now count_at }
{
    bytes.get(COUNT_AT).copied().unwrap_or(0)
}

fn state_at(bytes: &[u8]) -> State
    requires { image_length One ≤ length bytes.now }
    ensures { result ≡ of_image bytes.now }
{
    State {
        core: core_at(bytes),
        ports: ports_at(bytes),
        ram: ram_at(bytes),
        count: count_at(bytes),
        cycle: MachineCycles(big_endian::number_at(bytes, CYCLE_AT, CYCLE_BYTES)),
    }
}

// The version that goes with the length.
fn version_of(bytes: &[u8]) -> Version
    ensures { result ≡ version_of bytes.now }
{
    if bytes.len() == IMAGE_LENGTH {
        return Version::Two;
    }
    Version::One
}

// 31, 32, 33, and 34 of the flags, which have 6 bits.
fn head_check(bytes: &[u8]) -> Result<(), Refusal>
    ensures { outcome_number result ≡ head_number bytes.now }
{
    let version = version_of(bytes);
    if bytes.len() != layout::image_length(version) {
        return Err(Refusal::ImageLength);
    }
    if !stands_at(bytes, IMAGE_MARK_AT, &IMAGE_MARK) {
        return Err(Refusal::ImageMark);
    }
    if !stands_at(bytes, VERSION_AT, &layout::version_bytes(version)) {
        return Err(Refusal::ImageVersion);
    }
    if FLAGS <= bytes[FLAGS_AT] {
        return Err(Refusal::Field);
    }
    Ok(())
}

fn refused(why: Refusal) -> RestoreAnswer
    ensures { result ≡ record { outcome = Err why; state = fresh } }
{
    RestoreAnswer {
        outcome: Err(why),
        state: upd546::fresh_state(),
    }
}

// RESTORE: 71, then 31 to 34 in order; if it is refused, the fresh state.
pub fn restore(bytes: &[u8], sheet: Sheet) -> RestoreAnswer
    ensures { restore_of result ≡ restore_answer (chip sheet) bytes.now }
{
    if let Err(why) = fields::check_sheet(sheet) {
        return refused(why);
    }
    if let Err(why) = head_check(bytes) {
        return refused(why);
    }
    let state = state_at(bytes);
    if let Err(why) = fields::check(state, sheet) {
        return refused(why);
    }
    RestoreAnswer {
        outcome: Ok(()),
        state,
    }
}

// A RESTORE WHERE VERSION 2 IS DUE: 71, then 31 unless the image has its 82 bytes, else as any image.
pub fn restore_current(bytes: &[u8], sheet: Sheet) -> RestoreAnswer
    ensures { restore_of result ≡ current_answer (chip sheet) bytes.now }
{
    if let Err(why) = fields::check_sheet(sheet) {
        return refused(why);
    }
    if bytes.len() != IMAGE_LENGTH {
        return refused(Refusal::ImageLength);
    }
    restore(bytes, sheet)
}
