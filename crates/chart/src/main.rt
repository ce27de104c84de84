// Prints the chart of the codes, bytes and base cycles of each, and the positions of the timer's register.
// It may not know how the tables are packed: it reads them as the runners do.
#![tactic(auto)]

ghost use Rattle.std.specs.Prelude.{◌≡◌, ◌<◌};
ghost use Rattle.tables.specs.Tables.{instruction_table, position_table};

use std::io::{Write, writer};
use streams::{Cut, Failure, Output};
use tables::{InstructionTable, PositionTable};

fn main(rt: HostRuntime) {
    let mut out = Output::new(writer(&rt));
    let done = chart(&mut out);
    streams::end(&rt, b"chart", out, done);
}

fn chart(out: &mut Output<impl Write>) -> Result<(), Failure> {
    let instructions = tables::instruction_table();
    let positions = tables::position_table();
    out.write(b"bytes/cycles of code 00, 01, ..\n")?;
    for high in 0..16 {
        codes(out, &instructions, high)?;
    }
    out.write(b"positions of register 1, 2, ..\n")?;
    for register in 1..64 {
        place(out, &positions, register)?;
    }
    out.write(b"\n")?;
    Ok(())
}

// The line of the 16 codes with this high half.
fn codes(out: &mut Output<impl Write>, table: &InstructionTable, high: u8) -> Result<(), Cut>
    requires { (table.now ≡ instruction_table) × (high < 16) }
{
    for low in 0..16 {
        let size = tables::size_of(table, 16 * high + low);
        out.write_number(size.bytes.into(), b'/')?;
        out.write_number(size.cycles.into(), b' ')?;
    }
    out.write(b"\n")
}

fn place(out: &mut Output<impl Write>, table: &PositionTable, register: u8) -> Result<(), Cut>
    requires { (table.now ≡ position_table) × (0 < register) × (register < 64) }
{
    out.write_number(tables::position(table, register).into(), b' ')
}
