// The parts of an image and where each begins, which writing and reading share. `StateImage` in specs/ has the same numbers.
ghost use Rattle.std.specs.Prelude.{◌≡◌};
ghost use Rattle.upd546.specs.StateImage.{image_length, version_bytes};

use crate::{CYCLE_BYTES, LATCHES, RAM_WORDS, STACK_DEPTH};
use runs::Version;

// "0-2 the mark `U43`; 3-4 version 1", or 2: written on save and compared on restore.
pub const IMAGE_MARK: [u8; 3] = *b"U43";

pub const VERSION_ONE: [u8; 2] = *b"\x00\x01";

pub const VERSION_TWO: [u8; 2] = *b"\x00\x02";

// A PC, in the stack too, is two bytes.
pub const WORD_BYTES: usize = 2;

// Two RAM words make a byte.
pub const RAM_BYTES: usize = RAM_WORDS / 2;

pub const IMAGE_MARK_AT: usize = 0;

pub const VERSION_AT: usize = IMAGE_MARK_AT + 3;

pub const PC_AT: usize = VERSION_AT + 2;

pub const STACK_AT: usize = PC_AT + WORD_BYTES;

// Seven bytes of the core, one each.
pub const CORE_AT: usize = STACK_AT + STACK_DEPTH * WORD_BYTES;

pub const DP_AT: usize = CORE_AT;

pub const ACC_AT: usize = CORE_AT + 1;

pub const FLAGS_AT: usize = CORE_AT + 2;

pub const MARK_AT: usize = CORE_AT + 3;

pub const OWED_AT: usize = CORE_AT + 4;

pub const REGISTER_AT: usize = CORE_AT + 5;

pub const COUNTER_AT: usize = CORE_AT + 6;

pub const PORTS_AT: usize = CORE_AT + 7;

pub const RAM_AT: usize = PORTS_AT + LATCHES;

pub const CYCLE_AT: usize = RAM_AT + RAM_BYTES;

// "the count last": version 1 ends before it.
pub const COUNT_AT: usize = CYCLE_AT + CYCLE_BYTES;

pub const IMAGE_LENGTH_ONE: usize = COUNT_AT;

pub const IMAGE_LENGTH: usize = COUNT_AT + 1;

pub fn image_length(version: Version) -> usize
    ensures { result ≡ image_length version }
{
    match version {
        Version::One => IMAGE_LENGTH_ONE,
        Version::Two => IMAGE_LENGTH,
    }
}

pub fn version_bytes(version: Version) -> [u8; 2]
    ensures { result ≡ version_bytes version }
{
    match version {
        Version::One => VERSION_ONE,
        Version::Two => VERSION_TWO,
    }
}
