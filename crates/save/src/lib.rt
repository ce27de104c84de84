// SAVE: a state written to a buffer as the bytes of its image. It may not know how an image is read, nor how a run goes.
#![tactic(auto)]

ghost use Rattle.std.specs.Prelude.{◌≡◌, ◌++◌, ◌+◌, ◌≤◌, length, take, drop};
ghost use Rattle.runs.specs.declared.Version.TheVariants.{One};
ghost use Rattle.runs.specs.TwoRunners.{save_answer};
ghost use Rattle.upd546.specs.Bytes.{bytes_of};
ghost use Rattle.upd546.specs.StateImage.{image_length, ports_at, words_bytes, core_bytes, packed, image_of};
ghost use Rattle.upd546.specs.TwoRunners.{chip, save_of};
ghost use Rattle.laws.specs.Valid.{Scalars, ValidCore, ValidRam, Valid};
ghost use Rattle.save.specs.Parts.{front_bytes, common_bytes, holds};

use runs::{Refusal, Version};
use upd546::layout::{
    CORE_AT, COUNT_AT, CYCLE_AT, IMAGE_MARK, IMAGE_MARK_AT, PC_AT, PORTS_AT, RAM_AT, RAM_BYTES,
    STACK_AT, VERSION_AT,
};
use upd546::{CYCLE_BYTES, Core, RAM_WORDS, STACK_DEPTH, Sheet, State, layout};

// Whether an image of this version can hold this count.
fn can_hold(version: Version, count: u8) -> bool
    ensures { result ≡ holds version count }
{
    match version {
        Version::One => count == 0,
        Version::Two => true,
    }
}

// Copies a part into a buffer, from a place on: eight calls below, each of which would be longer by the cut.
fn put(buffer: &mut [u8], at: usize, bytes: &[u8])
    requires { at + length bytes.now ≤ length buffer.old }
    ensures { buffer.new ≡ take at buffer.old ++ bytes.now ++ drop (at + length bytes.now) buffer.old }
{
    copying::copy(bytes, &mut buffer[at..]);
}

fn stack_bytes(stack: [u16; STACK_DEPTH]) -> [u8; 6]
    ensures { result ≡ words_bytes stack }
{
    let first = stack[0].to_be_bytes();
    let second = stack[1].to_be_bytes();
    let third = stack[2].to_be_bytes();
    [first[0], first[1], second[0], second[1], third[0], third[1]]
}

// DP, Acc, flags, mark, owed and the timer.
fn core_bytes(c: Core) -> [u8; 7]
    requires { Scalars c }
    ensures { result ≡ core_bytes c }
{
    let low = c.registers.carry + 2 * c.registers.saved + 4 * c.interrupt.int;
    let flags = low + 8 * c.interrupt.inte + 16 * c.timer.tm + 32 * c.interrupt.level;
    [
        16 * c.registers.dph + c.registers.dpl,
        c.registers.acc,
        flags,
        c.mark,
        c.owed,
        c.timer.register,
        c.timer.counter,
    ]
}

// Even columns in the high half.
fn ram_bytes(words: [u8; RAM_WORDS]) -> [u8; RAM_BYTES]
    requires { ValidRam words }
    ensures { result ≡ packed words }
{
    let mut bytes = [0; RAM_BYTES];
    // By index: a `zip` would need the words as `as_chunks::<2>`, with a rest beside them that is always empty, which is no plainer.
    for i in 0..RAM_BYTES {
        bytes[i] = 16 * words[2 * i] + words[2 * i + 1];
    }
    bytes
}

// What stands before the ports.
fn write_core(c: Core, version: Version, buffer: &mut [u8])
    requires { ValidCore c × (image_length One ≤ length buffer.old) }
    ensures { buffer.new ≡ front_bytes version c ++ drop ports_at buffer.old }
{
    let stack = c.flow.stack;
    put(buffer, IMAGE_MARK_AT, &IMAGE_MARK);
    put(buffer, VERSION_AT, &layout::version_bytes(version));
    put(buffer, PC_AT, &c.flow.pc.to_be_bytes());
    put(buffer, STACK_AT, &stack_bytes(stack));
    put(buffer, CORE_AT, &core_bytes(c));
}

// What both versions have, up to the cycle number.
fn write_common(s: State, version: Version, buffer: &mut [u8])
    requires { Valid s × (image_length One ≤ length buffer.old) }
    ensures { buffer.new ≡ common_bytes version s ++ drop (image_length One) buffer.old }
{
    let ports = s.ports;
    let words = s.ram;
    write_core(s.core, version, buffer);
    put(buffer, PORTS_AT, &ports);
    put(buffer, RAM_AT, &ram_bytes(words));
    big_endian::put_number::<CYCLE_BYTES>(&mut buffer[CYCLE_AT..], s.cycle.0);
}

// The image of a state that isn't refused, at the front of a buffer.
fn write(s: State, version: Version, buffer: &mut [u8])
    requires { Valid s × (image_length version ≤ length buffer.old) }
    ensures { buffer.new ≡ image_of version s ++ drop (image_length version) buffer.old }
{
    write_common(s, version, buffer);
    if let Version::Two = version {
        put(buffer, COUNT_AT, &[s.count]);
    }
}

// The same state, copied part by part: a copy of the whole asks the linker for memcpy, which the board's archive may not.
fn copied(s: State) -> State
    ensures { result ≡ s }
{
    let core = s.core;
    let ports = s.ports;
    let ram = s.ram;
    let cycle = s.cycle;
    State {
        core,
        ports,
        ram,
        count: s.count,
        cycle,
    }
}

// SAVE, as the version wanted: 71, then 34, then 54, then 1, and then the bytes of the image only.
pub fn save(s: State, version: Version, buffer: &mut [u8], sheet: Sheet) -> Result<(), Refusal>
    ensures { save_of result buffer.new ≡ save_answer (chip sheet) version s buffer.old }
{
    fields::check_sheet(sheet)?;
    let given = copied(s);
    fields::check(given, sheet)?;
    if !can_hold(version, s.count) {
        return Err(Refusal::ResetCount);
    }
    if buffer.len() < layout::image_length(version) {
        return Err(Refusal::BufferShort);
    }
    write(s, version, buffer);
    Ok(())
}
