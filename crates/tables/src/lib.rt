// The constant tables, each read by a function: document 01's two, bytes and base cycles of every code and the position of
// every register of the timer, and the inverse of the second, the register of every position; and the places of a sheet's rows. A
// table is built anew wherever it is named, so a run makes it once and lends it.
// It may not know what an instruction does, nor how a run goes.
#![tactic(auto)]

ghost use Rattle.std.specs.Prelude.{◌≡◌, ◌*◌, ◌<◌};
ghost use Rattle.upd546.specs.declared.Sheet.{Sheet};
ghost use Rattle.upd546.specs.Bytes.{bit_at};
ghost use Rattle.upd546.specs.TheMachine.{place_in};
ghost use Rattle.upd546.specs.Timer.{position_of, register_after};
ghost use Rattle.tables.specs.Tables.{half_for, instruction_table, position_table, register_table, row_table, size_of};

use upd546::RAM_WORDS;

// Two codes to an entry: code i has the low half of entry i, code i + 128 the high half. A half, one hexadecimal
// digit, is 4 times the bytes plus the base cycles.
pub type InstructionTable = [u8; 128];

// The entry of register r is at r - 1.
pub type PositionTable = [u8; 63];

// The entry of position p is at p.
pub type RegisterTable = [u8; 63];

// The entry of row r, where its words begin in the RAM, is at r; RAM_WORDS where the row doesn't exist.
pub type RowTable = [u8; 8];

const INSTRUCTIONS: InstructionTable = [
    // codes 00 to 0F in the low halves, 80 to 8F in the high halves
    0x55, 0x55, 0x55, 0x55, 0x55, 0x55, 0x55, 0x55, 0x55, 0x55, 0x55, 0x55, 0x55, 0x55, 0x55, 0x55,
    // codes 10 to 1F in the low halves, 90 to 9F in the high halves
    0x55, 0x55, 0x55, 0x55, 0x5A, 0x5A, 0x5A, 0x5A, 0x55, 0x55, 0x55, 0x55, 0x54, // code 1C, no instruction, and code 9C
    0x55, 0x5A, 0x55,
    // codes 20 to 2F in the low halves, A0 to AF in the high halves
    0xA6, 0xA6, 0xA6, 0xA6, 0xA5, 0xA5, 0xA5, 0xA5, 0xA5, 0xA5, 0xA5, 0xA5, 0xA5, 0xA5, 0xA5, 0xA5,
    // codes 30 to 3F in the low halves, B0 to BF in the high halves
    0x55, 0x55, 0x55, 0x55, 0x55, 0x55, 0x55, 0x55, 0x55, 0x55, 0x55, 0x55, 0x55, 0x55, 0x55, 0x55,
    // codes 40 to 4F in the low halves, C0 to CF in the high halves
    0x56, 0x56, 0x56, 0x56, 0x56, 0x54, // code 45, no instruction, and code C5
    0x56, 0x56, 0x56, 0x56, 0x56, 0x56, 0x56, 0x56, 0x56, 0x56,
    // codes 50 to 5F in the low halves, D0 to DF in the high halves
    0x55, 0x55, 0x55, 0x55, 0x56, 0x56, 0x56, 0x56, 0x55, 0x55, 0x55, 0x55, 0x56, 0x56, 0x56, 0x56,
    // codes 60 to 6F in the low halves, E0 to EF in the high halves
    0x55, 0x55, 0x55, 0x55, 0x56, 0x56, 0x56, 0x56, 0x55, 0x55, 0x55, 0x55, 0x56, 0x56, 0x56, 0x56,
    // codes 70 to 7F in the low halves, F0 to FF in the high halves
    0x55, 0x55, 0x55, 0x55, 0x56, 0x56, 0x56, 0x56, 0x55, 0x55, 0x55, 0x55, 0x56, 0x56, 0x56, 0x56,
];

const POSITIONS: PositionTable = [
    0, 1, 6, 2, 12, 7, 26, 3, 32, 13, 35, 8, 48, 27, 18, 4, 24, 33, 16, 14, 52, 36, 54, 9, 45, 49,
    38, 28, 41, 19, 56, 62, // register 32, the last position
    5, 11, 25, 31, 34, 47, 17, 23, 15, 51, 53, 44, 37, 40, 55, 61, 10, 30, 46, 22, 50, 43, 39, 60,
    29, 21, 42, 59, 20, 58, 57,
];

const REGISTERS: RegisterTable = [
    1, 2, 4, 8, 16, 33, // position 5: bits 5 and 4 of 16 differ
    3, 6, 12, 24, 49, 34, 5, 10, 20, 41, 19, 39, 15, 30, 61, 58, 52, 40, 17, 35, 7, 14, 28, 57, 50,
    36, 9, 18, 37, 11, 22, 45, 27, 55, 46, 29, 59, 54, 44, 25, 51, 38, 13, 26, 53, 42, 21, 43, 23,
    47, 31, 63, 62, 60, 56, 48, 32,
];

// The bytes and base cycles of a code.
#[derive(Clone, Copy)]
pub struct Size {
    pub bytes: u8,
    pub cycles: u8,
}

pub fn instruction_table() -> InstructionTable
    ensures { result ≡ instruction_table }
{
    INSTRUCTIONS
}

pub fn position_table() -> PositionTable
    ensures { result ≡ position_table }
{
    POSITIONS
}

pub fn register_table() -> RegisterTable
    ensures { result ≡ register_table }
{
    REGISTERS
}

// The half of its entry that a code has. Taken by a shift, which is faster than a branch (docs/MEASUREMENTS.md).
fn half_for(code: u8, entry: u8) -> u8
    ensures { result ≡ half_for code entry }
{
    (entry >> (code / 128 * 4)) % 16
}

// The bytes and base cycles of a code, for decoding and for skipping.
pub fn size_of(table: &InstructionTable, code: u8) -> Size
    requires { table.now ≡ instruction_table }
    ensures { result ≡ size_of code }
{
    let i = (code % 128) as usize;
    let half = half_for(code, table[i]);
    Size {
        bytes: half / 4,
        cycles: half % 4,
    }
}

// The steps of the polynomial register from 1 to this register.
pub fn position(table: &PositionTable, register: u8) -> u8
    requires { (table.now ≡ position_table) × (0 < register) × (register < 64) }
    ensures { result ≡ position_of register }
{
    let i = (register - 1) as usize;
    table[i]
}

// The register so many steps after 1.
pub fn register_at(table: &RegisterTable, position: u8) -> u8
    requires { (table.now ≡ register_table) × (position < 63) }
    ensures { result ≡ register_after position }
{
    let i = position as usize;
    table[i]
}

// Bit i of a sheet's rows.
fn row_bit(rows: u8, i: u8) -> u8
    requires { i < 5 }
    ensures { result ≡ bit_at rows i }
{
    (rows >> i) % 2
}

// Where the words of row i begin, one of rows 0 to 4.
fn row_at(rows: u8, i: u8) -> u8
    requires { i < 5 }
    ensures { (sheet : Sheet) → sheet.rows ≡ rows → result ≡ place_in sheet (16 * i) }
{
    if row_bit(rows, i) == 1 {
        return 16 * i;
    }
    RAM_WORDS as u8
}

// The table of a sheet with these rows. Rows 5 and 6 never exist, row 7 always does.
pub fn row_table(rows: u8) -> RowTable
    ensures { (sheet : Sheet) → sheet.rows ≡ rows → result ≡ row_table sheet }
{
    [
        row_at(rows, 0),
        row_at(rows, 1),
        row_at(rows, 2),
        row_at(rows, 3),
        row_at(rows, 4),
        96,
        96,
        80,
    ]
}
