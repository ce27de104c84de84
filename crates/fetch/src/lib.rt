// What is read of the ROM: the instruction at PC, and what a skip passes over. Nothing of it changes the machine. The ROM ends where
// the lent bytes end; of a sheet with that length this is its last address.
// It may not know what an instruction does, nor how a run goes.
#![tactic(auto)]

ghost use Rattle.std.specs.Prelude.{◌≡◌, ◌<◌, ◌≤◌, length};
ghost use Rattle.upd546.specs.declared.Sheet.{Sheet};
ghost use Rattle.upd546.specs.TheMachine.{byte_at, past};
ghost use Rattle.tables.specs.Tables.{instruction_table};
ghost use Rattle.fetch.specs.Fetching.{FetchedAs, PassedAs};

use runs::Stop;
use tables::InstructionTable;

// The instruction at an address: its code and second byte (0: it has none), the address after it, its base cycles.
#[derive(Clone, Copy)]
pub struct Fetched {
    pub after: u16,
    pub code: u8,
    pub second: u8,
    pub cycles: u8,
}

// Where a skip leads and how many bytes it passes over.
#[derive(Clone, Copy)]
pub struct Passed {
    pub pc: u16,
    pub over: u8,
}

// The byte at an address, 0 where there is none.
pub fn byte_at(rom: &[u8], a: u16) -> u8
    ensures { result ≡ byte_at rom.now a }
{
    let i = a as usize;
    if i < rom.len() {
        return rom[i];
    }
    0
}

// The byte at an address that the ROM has.
pub fn byte_in(rom: &[u8], a: u16) -> u8
    requires { a < length rom.now }
    ensures { result ≡ byte_at rom.now a }
{
    let i = a as usize;
    rom[i]
}

// The address one or two bytes on.
fn past_bytes(bytes: u8, a: u16) -> u16
    requires { (1 ≤ bytes) × (bytes ≤ 2) }
    ensures { result ≡ past bytes a }
{
    let next = steps::follows(a);
    if bytes == 1 {
        return next;
    }
    steps::follows(next)
}

// The instruction at PC, or why it can't be begun: RomEnd or NoInstruction.
pub fn fetch_at(rom: &[u8], table: &InstructionTable, pc: u16) -> Result<Fetched, Stop>
    requires { table.now ≡ instruction_table }
    ensures { (sheet : Sheet) → sheet.rom ≡ length rom.now → FetchedAs sheet rom.now pc result }
{
    if rom.len() <= pc as usize {
        return Err(Stop::RomEnd);
    }
    let code = byte_in(rom, pc);
    let size = tables::size_of(table, code);
    if size.cycles == 0 {
        return Err(Stop::NoInstruction);
    }
    let next = steps::follows(pc);
    if size.bytes < 2 {
        return Ok(Fetched {
            after: next,
            code,
            second: 0,
            cycles: size.cycles,
        });
    }
    if rom.len() <= next as usize {
        return Err(Stop::RomEnd);
    }
    Ok(Fetched {
        after: steps::follows(next),
        code,
        second: byte_in(rom, next),
        cycles: size.cycles,
    })
}

// A skip passes over the instruction at `to`, and only its first byte is read: where that is past the ROM, it stops.
pub fn pass_over(rom: &[u8], table: &InstructionTable, skip: bool, to: u16) -> Result<Passed, Stop>
    requires { table.now ≡ instruction_table }
    ensures { (sheet : Sheet) → sheet.rom ≡ length rom.now → PassedAs sheet rom.now skip to result }
{
    if !skip {
        return Ok(Passed { pc: to, over: 0 });
    }
    if rom.len() <= to as usize {
        return Err(Stop::RomEnd);
    }
    let size = tables::size_of(table, byte_in(rom, to));
    Ok(Passed {
        pc: past_bytes(size.bytes, to),
        over: size.bytes,
    })
}
