// The assembler: a text to the bytes of a ROM, or its first mistake. The text is gone over once for its bytes, and again for each label
// that is asked for. It may not know where the text comes from, nor where the bytes go.
#![tactic(auto)]

ghost use Rattle.std.specs.Prelude.{◌≡◌, [], ◌∷◌, ◌++◌, ◌+◌, ◌≤◌, ltb, length, get_or, take, drop, set, IfOk};
ghost use Rattle.upd546.specs.TheMachine.{rom_length};
ghost use Rattle.mnemonics.specs.Kinds.{kind_by};
ghost use Rattle.assembly.specs.Grammar.{uppers, parsed};
ghost use Rattle.assembly.specs.Assembling.{last_address, moved_by, place_of, address_of, absent, operand_for, coded_by, coded, labelled, put, sets_length, sets_address, gives, action_for, done_by, step, filled, assembled};
ghost use Rattle.assembly.specs.Places.{value_of};
ghost use Rattle.assembler.specs.Answers.{lines_found, mistake_of, bytes_of, CodedIs, state_of, StepIs, Sets, Taken, assembled_lines, Assembles};

use assembly::{Asked, Line, Mistake};
use mnemonics::Kind;
use upd546::ROM_LENGTH;

// The ROM so far: where the next byte goes, its length, whether a statement was there, which says nothing of the two numbers.
#[derive(Clone, Copy)]
pub struct Place {
    pub at: usize,
    pub size: usize,
    pub begun: bool,
}

// The bytes of a statement.
#[derive(Clone, Copy)]
pub enum Bytes {
    One(u16),
    Two(u16, u16),
}

// A mistake, and the number of its line, the first being 1.
#[derive(Clone, Copy, PartialEq, Eq)]
pub struct Fault {
    pub line: usize,
    pub mistake: Mistake,
}

// The highest address that is named.
const LAST_ADDRESS: usize = 2047;

// Stands for no byte in a cell, as `no_byte` does in the definition, whose cells hold sums that nothing bounds. With cells of `Option<u8>` the
// proof of `StepIs` isn't closed: it needs that a first code and its operand stay below 256, which of JCP holds only since `code_for` finds
// the first of all codes that have the word.
const NO_BYTE: u16 = 256;

// ADDRESSES

// The address behind a line; a line with a mistake leaves it as it is. No text is so long that its lines pass this limit.
fn moved(line: Line<'_>, at: usize) -> usize
    requires { at ≤ 9223372036854779904 }
    ensures { result ≡ moved_by (action_for line.entry.word.now) line.entry.operand.now at }
{
    match assembly::action(line.word) {
        Asked::Address => assembly::number_up_to(LAST_ADDRESS, line.operand).unwrap_or(at),
        Asked::Gives(kind, _) => at + kind.size(),
        Asked::Nothing | Asked::Length | Asked::Unknown => at,
    }
}

// The address of a label: that of the first line that has it.
fn place_of(text: &[u8], name: &[u8]) -> Result<usize, Mistake>
    ensures { value_of result ≡ place_of (lines_found text.now) name.now }
{
    let mut at = 0;
    for part in text.split(|c| *c == b'\n') {
        let line = Line::parse(part);
        if line.label == name {
            return Ok(at);
        }
        at = moved(line, at);
    }
    Err(Mistake::LabelUnknown)
}

// An operand that begins with a digit is an address, and any other one a label.
fn address_of(text: &[u8], operand: &[u8]) -> Result<usize, Mistake>
    ensures { (value_of result ≡ address_of (lines_found text.now) operand.now) × IfOk result (λ v. v ≤ last_address) }
{
    if operand.is_empty() {
        return Err(Mistake::OperandMissing);
    }
    if operand[0].is_ascii_digit() {
        return assembly::number_up_to(LAST_ADDRESS, operand);
    }
    assembly::limited(LAST_ADDRESS, place_of(text, operand)?)
}

// BYTES

// The operand of an instruction without one: nothing.
fn absent(operand: &[u8]) -> Result<usize, Mistake>
    ensures { (value_of result ≡ absent operand.now) × IfOk result (λ v. v ≤ last_address) }
{
    if operand.is_empty() {
        Ok(0)
    } else {
        Err(Mistake::OperandUnwanted)
    }
}

// The operand of a kind.
fn operand_for(kind: Kind, text: &[u8], operand: &[u8]) -> Result<usize, Mistake>
    ensures { (value_of result ≡ operand_for (kind_by kind) (lines_found text.now) operand.now) × IfOk result (λ v. v ≤ last_address) }
{
    match kind {
        Kind::Without => absent(operand),
        Kind::Bits => assembly::number_up_to(3, operand),
        Kind::Nibble => assembly::number_up_to(15, operand),
        Kind::Byte | Kind::NoInstruction => assembly::number_up_to(255, operand),
        Kind::Far | Kind::ZeroPage | Kind::InPage => address_of(text, operand),
    }
}

// The bytes of an operand's value.
fn coded_by(kind: Kind, first: u8, at: usize, value: usize) -> Result<Bytes, Mistake>
    requires { value ≤ last_address }
    ensures { CodedIs result (coded_by (kind_by kind) first at value) }
{
    let first = u16::from(first);
    let value_in_word = value as u16;
    match kind {
        Kind::Without => Ok(Bytes::One(first)),
        Kind::Bits | Kind::Nibble => Ok(Bytes::One(first + value_in_word)),
        Kind::Byte => Ok(Bytes::Two(first, value_in_word)),
        Kind::Far => Ok(Bytes::Two(first + value_in_word / 256, value_in_word % 256)),
        Kind::ZeroPage if value % 4 == 0 && value < 64 => Ok(Bytes::One(first + value_in_word / 4)),
        Kind::ZeroPage => Err(Mistake::NoCzpAddress),
        Kind::InPage if value / 64 * 64 == at / 64 * 64 => Ok(Bytes::One(
            first + value_in_word % 64,
        )),
        Kind::InPage => Err(Mistake::NotInPage),
        Kind::NoInstruction => Ok(Bytes::One(value_in_word)),
    }
}

// The bytes of a statement.
fn coded(kind: Kind, first: u8, text: &[u8], operand: &[u8], at: usize) -> Result<Bytes, Mistake>
    ensures { CodedIs result (coded (kind_by kind) first (lines_found text.now) operand.now at) }
{
    let value = operand_for(kind, text, operand)?;
    let bytes = coded_by(kind, first, at, value)?;
    if kind.is_long() && at % 256 == 255 {
        return Err(Mistake::SecondElsewhere);
    }
    Ok(bytes)
}

// THE ROM

// What stands at an address; 0 behind the last.
fn cell(cells: &[u16], at: usize) -> u16
    ensures { result ≡ get_or cells.now at 0 }
{
    cells.get(at).copied().unwrap_or(0)
}

// A byte at an address; none behind the last.
fn store(cells: &mut [u16], at: usize, byte: u16)
    ensures { cells.new ≡ set cells.old at byte }
{
    if at < cells.len() {
        cells[at] = byte;
    }
}

// Whether the bytes end behind the ROM's end.
fn is_beyond(at: usize, size: usize, count: usize) -> bool
    ensures { result ≡ ltb size (at + count) }
{
    size < count || size - count < at
}

// Bytes at their addresses, each to a cell that has none.
fn put(cells: &mut [u16], place: Place, bytes: &[u16]) -> Result<Place, Mistake>
    ensures { StepIs result cells.new (put (state_of place cells.old) bytes.now) }
{
    let Place { mut at, size, .. } = place;
    if is_beyond(at, size, bytes.len()) {
        return Err(Mistake::BeyondEnd);
    }
    for byte in bytes {
        if cell(cells, at) != NO_BYTE {
            return Err(Mistake::ByteTwice);
        }
        store(cells, at, *byte);
        at += 1;
    }
    Ok(Place {
        at,
        size,
        begun: true,
    })
}

// `rom`
fn set_length(place: Place, operand: &[u8]) -> Result<Place, Mistake>
    ensures { Sets sets_length operand.now place result }
{
    if place.begun {
        return Err(Mistake::RomNotFirst);
    }
    let size = assembly::number_up_to(ROM_LENGTH, operand)?;
    Ok(Place {
        at: place.at,
        size,
        begun: true,
    })
}

// `org`
fn set_address(place: Place, operand: &[u8]) -> Result<Place, Mistake>
    ensures { Sets sets_address operand.now place result }
{
    let at = assembly::number_up_to(LAST_ADDRESS, operand)?;
    Ok(Place {
        at,
        size: place.size,
        begun: true,
    })
}

// A word that gives bytes.
fn give(
    kind: Kind,
    first: u8,
    text: &[u8],
    operand: &[u8],
    place: Place,
    cells: &mut [u16],
) -> Result<Place, Mistake>
    ensures { StepIs result cells.new (done_by (gives (kind_by kind) first) (lines_found text.now) operand.now (state_of place cells.old)) }
{
    match coded(kind, first, text, operand, place.at)? {
        Bytes::One(first) => put(cells, place, &[first]),
        Bytes::Two(first, second) => put(cells, place, &[first, second]),
    }
}

// What a statement does.
fn done(text: &[u8], line: Line<'_>, place: Place, cells: &mut [u16]) -> Result<Place, Mistake>
    ensures { StepIs result cells.new (done_by (action_for line.entry.word.now) (lines_found text.now) line.entry.operand.now (state_of place cells.old)) }
{
    match assembly::action(line.word) {
        Asked::Nothing => Ok(place),
        Asked::Length => set_length(place, line.operand),
        Asked::Address => set_address(place, line.operand),
        Asked::Gives(kind, first) => give(kind, first, text, line.operand, place, cells),
        Asked::Unknown => Err(Mistake::UnknownWord),
    }
}

// A label that has another address already. A line's own label has a place.
fn labelled(text: &[u8], label: &[u8], at: usize) -> Result<(), Mistake>
    ensures { mistake_of result ≡ labelled (lines_found text.now) label.now at }
{
    if label.is_empty() || place_of(text, label).unwrap_or(0) == at {
        Ok(())
    } else {
        Err(Mistake::LabelTwice)
    }
}

// What a line does.
fn step(text: &[u8], part: &[u8], place: Place, cells: &mut [u16]) -> Result<Place, Mistake>
    ensures { StepIs result cells.new (step (lines_found text.now) (state_of place cells.old) (parsed part.now)) }
{
    // An empty line is passed at once: parsed like any other, a text of such lines takes four times as long.
    if part.is_empty() {
        return Ok(place);
    }
    let line = Line::parse(part);
    if line.has_more {
        return Err(Mistake::TextBehind);
    }
    labelled(text, line.label, place.at)?;
    done(text, line, place, cells)
}

// The bytes of the first cells at the front of the ROM; what no line gives is 00.
fn fill(rom: &mut [u8], cells: &[u16], size: usize)
    requires { (size ≤ length rom.old) × (size ≤ length cells.now) }
    ensures { rom.new ≡ take size (filled cells.now) ++ drop size rom.old }
{
    for i in 0..size {
        rom[i] = (cells[i] % 256) as u8;
    }
}

// The lines of a text in capital letters, one after the other, up to the first mistake: the ROM's length.
fn take_lines(text: &[u8], cells: &mut [u16]) -> Result<usize, Fault>
    ensures { Taken text.now cells.old result cells.new }
{
    let mut place = Place {
        at: 0,
        size: ROM_LENGTH,
        begun: false,
    };
    for (index, part) in text.split(|c| *c == b'\n').enumerate() {
        match step(text, part, place, cells) {
            Ok(next) => place = next,
            Err(mistake) => {
                return Err(Fault {
                    line: index + 1,
                    mistake,
                });
            }
        }
    }
    Ok(place.size)
}

// The ROM of a text in capital letters, of at most 2,000 bytes. Nothing is written where there is a mistake.
fn assemble_capitals(text: &[u8], rom: &mut [u8]) -> Result<usize, Fault>
    requires { length rom.old ≡ rom_length }
    ensures { Assembles (assembled_lines (lines_found text.now)) rom.old result rom.new }
{
    let mut cells = [NO_BYTE; ROM_LENGTH];
    let size = take_lines(text, &mut cells)?.min(ROM_LENGTH);
    fill(rom, &cells, size);
    Ok(size)
}

// THE ROM OF A TEXT, at the front of `rom`: how many bytes it has; those behind them stay. The text is turned into capital letters where
// it stands.
pub fn assemble(text: &mut [u8], rom: &mut [u8; ROM_LENGTH]) -> Result<usize, Fault>
    ensures { Assembles (assembled text.old) rom.old result rom.new × (text.new ≡ uppers text.old) }
{
    text.make_ascii_uppercase();
    assemble_capitals(text, rom)
}
