// What an instruction does, in code: a function for each group of instructions, on values.
// It may not know how a byte is fetched, what a skip passes over, nor how a run goes.
//
// Where a group builds its answers as struct literals, and not by a small function, that runs faster (docs/MEASUREMENTS.md).
#![tactic(auto)]

ghost use Rattle.std.specs.Prelude.{◌≡◌, false, List, ℕ, ◌+◌, ◌*◌, ◌^◌, ◌<◌};
ghost use Rattle.upd546.specs.declared.Sheet.{Sheet};
ghost use Rattle.upd546.specs.TheMachine.{place_in};
ghost use Rattle.upd546.specs.Bytes.{bit_at, with_bit};
ghost use Rattle.upd546.specs.Ports.{read_port, outputs, bit_outputs};
ghost use Rattle.tables.specs.Tables.{row_table, Rows};
ghost use Rattle.decode.specs.Named.{named_test, named_acc, named_sum, named_move, named_pointer, named_working, named_flag, named_control, named_port};
ghost use Rattle.portlog.specs.Appending.{writes_of};
ghost use Rattle.laws.specs.Valid.{Scalars, ValidPorts};
ghost use Rattle.instructions.specs.Groups.{given_of, stays_of, test_effect, acc_effect, sum_effect, move_effect, pointer_effect, working_effect, flag_effect, JumpsAs, control_effect, port_effect};

use decode::{Acc, Control, Flag, Jump, Move, Pointer, Port, Sum, Test, Working};
use portlog::{NO_PORT, PORTS_C_AND_D};
use tables::RowTable;
use upd546::{
    Core, Flow, LATCHES, Lines, MARK_EI, MARK_LDI, MARK_LI, MARK_OTHER, MARK_STM, PORT_C, PORT_E,
    PORT_I, STACK_DEPTH, Timer,
};

// What an instruction is given besides the RAM and the latches. That its core keeps the chip's widths (`Scalars`) stays a clause of the
// groups, and so does that a word is below 16: a state that is wider is lawful to give, and refused with 34 (`fields::check`).
#[derive(Clone, Copy)]
pub struct Inputs {
    pub core: Core,
    pub after: u16,
    pub code: u8,
    pub second: u8,
    pub lines: Lines,
}

// What a group of instructions leaves: the parts of the machine that its instructions change.
#[derive(Clone, Copy)]
pub struct Accumulated {
    pub acc: u8,
    pub carry: u8,
    pub skip: bool,
}

#[derive(Clone, Copy)]
pub struct Summed {
    pub acc: u8,
    pub carry: u8,
    pub word: u8,
    pub skip: bool,
}

// `mark` here and in `Controlled` is the core's and no enum: it is a byte of the state's image, and above 4 it is refused with 34.
#[derive(Clone, Copy)]
pub struct Moved {
    pub acc: u8,
    pub dph: u8,
    pub dpl: u8,
    pub mark: u8,
    pub skip: bool,
}

#[derive(Clone, Copy)]
pub struct Pointed {
    pub acc: u8,
    pub dph: u8,
    pub dpl: u8,
    pub word: u8,
    pub skip: bool,
}

#[derive(Clone, Copy)]
pub struct Worked {
    pub acc: u8,
    pub dph: u8,
    pub dpl: u8,
    pub word: u8,
}

#[derive(Clone, Copy)]
pub struct Flagged {
    pub word: u8,
    pub skip: bool,
}

#[derive(Clone, Copy)]
pub struct Jumped {
    pub flow: Flow,
    pub skip: bool,
}

#[derive(Clone, Copy)]
pub struct Controlled {
    pub carry: u8,
    pub saved: u8,
    pub int: u8,
    pub inte: u8,
    pub timer: Timer,
    pub mark: u8,
    pub skip: bool,
}

#[derive(Clone, Copy)]
pub struct Ported {
    pub acc: u8,
    pub skip: bool,
    pub port: u8,
    pub value: u8,
}

// The effective writes of an instruction, as `portlog` takes them.
#[derive(Clone, Copy)]
pub struct Output {
    pub port: u8,
    pub value: u8,
}

// Bit b of x. A type for b below 4 would be no plainer: each caller has it as `code % 4`, and each use takes a number.
fn bit(x: u8, b: u8) -> u8
    requires { b < 4 }
    ensures { result ≡ bit_at x b }
{
    (x >> b) % 2
}

fn power(b: u8) -> u8
    requires { b < 4 }
    ensures { result ≡ 2 ^ b }
{
    1 << b
}

// x with bit b at v.
fn with_bit(x: u8, b: u8, v: u8) -> u8
    requires { (x < 16) × (b < 4) × (v < 2) }
    ensures { result ≡ with_bit x b v }
{
    let p = power(b);
    x - bit(x, b) * p + v * p
}

// What IP and TPB read: lines, and on C and D the latches too.
fn read_port(l: Lines, ports: &[u8; LATCHES], p: u8) -> u8
    ensures { result ≡ read_port l ports.now p }
{
    match p {
        0 => l.a,
        1 => l.b,
        2 => l.c | ports[0],
        3 => l.d | ports[1],
        _ => 0,
    }
}

// The place of the flag word. Row 7 is the sixth row that is stored, so its words have the places 80 to 95 on every chip.
pub const FLAG_PLACE: usize = 89;

// The place of the RAM word at DP.
pub fn dp_place(rows: &RowTable, dph: u8, dpl: u8) -> usize
    requires { Rows rows.now × (dph < 8) × (dpl < 16) }
    ensures { (sheet : Sheet) → rows.now ≡ row_table sheet → result ≡ place_in sheet (16 * dph + dpl) }
{
    let i = dph as usize;
    (rows[i] + dpl) as usize
}

pub fn working_place(op: Working) -> usize
    ensures { (sheet : Sheet) (c : Core) → result ≡ place_in sheet ((named_working op).address c) }
{
    match op {
        Working::Taz => 90,
        Working::Taw => 91,
        Working::Tly => 94,
        Working::Thx => 95,
        Working::Xaz => 90,
        Working::Xaw => 91,
        Working::Xls => 92,
        Working::Xhr => 93,
        Working::Xly => 94,
        Working::Xhx => 95,
    }
}

// Whether the next instruction is skipped.
pub fn test_group(op: Test, g: Inputs) -> bool
    ensures { (sheet : Sheet) (word : ℕ) (ports : List ℕ) → (named_test op).effect (given_of sheet g word ports) ≡ test_effect (given_of sheet g word ports) result }
{
    match op {
        Test::Nop => false,
        Test::None => false,
        Test::Tc => g.core.registers.carry == 1,
        Test::Ttm => g.core.timer.tm == 1,
    }
}

fn acc_left(acc: u8, carry: u8, skip: bool) -> Accumulated
    ensures { result ≡ record { acc = acc; carry = carry; skip = skip } }
{
    Accumulated { acc, carry, skip }
}

// Acc and C alone.
pub fn acc_group(op: Acc, g: Inputs) -> Accumulated
    requires { Scalars g.core }
    ensures { (sheet : Sheet) (word : ℕ) (ports : List ℕ) → (named_acc op).effect (given_of sheet g word ports) ≡ acc_effect (given_of sheet g word ports) result }
{
    let acc = g.core.registers.acc;
    let carry = g.core.registers.carry;
    match op {
        Acc::Daa => acc_left((acc + 6) % 16, carry, false),
        Acc::Das => acc_left((acc + 10) % 16, carry, false),
        Acc::Clc => acc_left(acc, 0, false),
        Acc::Inc => acc_left((acc + 1) % 16, carry, (acc + 1) % 16 == 0),
        Acc::Dec => acc_left((acc + 15) % 16, carry, (acc + 15) % 16 == 15),
        Acc::Cma => acc_left(15 - acc, carry, false),
        Acc::Cia => acc_left((16 - acc) % 16, carry, false),
        Acc::Stc => acc_left(acc, 1, false),
        Acc::Rar => acc_left(acc / 2 + 8 * carry, acc % 2, false),
        Acc::Tab => acc_left(acc, carry, bit(acc, g.code % 4) == 1),
        Acc::Ci => acc_left(acc, carry, acc == g.second % 16),
    }
}

fn sum_left(acc: u8, carry: u8, word: u8, skip: bool) -> Summed
    ensures { result ≡ record { acc = acc; carry = carry; word = word; skip = skip } }
{
    Summed {
        acc,
        carry,
        word,
        skip,
    }
}

// M, with Acc and C.
pub fn sum_group(op: Sum, g: Inputs, word: u8) -> Summed
    requires { Scalars g.core × (word < 16) }
    ensures { (sheet : Sheet) (ports : List ℕ) → (named_sum op).effect (given_of sheet g word ports) ≡ sum_effect (given_of sheet g word ports) result }
{
    let acc = g.core.registers.acc;
    let carry = g.core.registers.carry;
    let b = g.code % 4;
    match op {
        Sum::S => sum_left(acc, carry, acc, false),
        Sum::Ad => sum_left((acc + word) % 16, carry, word, 15 < acc + word),
        Sum::Ads => sum_left(
            (acc + word + carry) % 16,
            (acc + word + carry) / 16,
            word,
            15 < acc + word + carry,
        ),
        Sum::Cm => sum_left(acc, carry, word, acc == word),
        Sum::Exl => sum_left(acc ^ word, carry, word, false),
        Sum::Adc => sum_left(
            (acc + word + carry) % 16,
            (acc + word + carry) / 16,
            word,
            false,
        ),
        Sum::Inm => sum_left(acc, carry, (word + 1) % 16, (word + 1) % 16 == 0),
        Sum::Dem => sum_left(acc, carry, (word + 15) % 16, (word + 15) % 16 == 15),
        Sum::Cmb => sum_left(acc, carry, word, bit(acc, b) == bit(word, b)),
        Sum::Tmb => sum_left(acc, carry, word, bit(word, b) == 1),
        Sum::Rmb => sum_left(acc, carry, with_bit(word, b, 0), false),
        Sum::Smb => sum_left(acc, carry, with_bit(word, b, 1), false),
    }
}

// It and `pointer_left` differ in what goes with the registers, the mark or the RAM word; made generic they wouldn't say which.
fn move_left(acc: u8, dph: u8, dpl: u8, mark: u8, skip: bool) -> Moved
    ensures { result ≡ record { acc = acc; dph = dph; dpl = dpl; mark = mark; skip = skip } }
{
    Moved {
        acc,
        dph,
        dpl,
        mark,
        skip,
    }
}

// LDI loads DP, unless the instruction before it was an LDI.
fn ldi(g: Inputs) -> Moved
    ensures { (sheet : Sheet) (word : ℕ) (ports : List ℕ) → (named_move Move.Ldi).effect (given_of sheet g word ports) ≡ move_effect (given_of sheet g word ports) result }
{
    let acc = g.core.registers.acc;
    if g.core.mark == MARK_LDI {
        return move_left(
            acc,
            g.core.registers.dph,
            g.core.registers.dpl,
            MARK_LDI,
            false,
        );
    }
    move_left(acc, g.second % 128 / 16, g.second % 16, MARK_LDI, false)
}

// LI loads Acc, unless the instruction before it was an LI.
fn li(g: Inputs) -> Moved
    ensures { (sheet : Sheet) (word : ℕ) (ports : List ℕ) → (named_move Move.Li).effect (given_of sheet g word ports) ≡ move_effect (given_of sheet g word ports) result }
{
    let dph = g.core.registers.dph;
    let dpl = g.core.registers.dpl;
    if g.core.mark == MARK_LI {
        return move_left(g.core.registers.acc, dph, dpl, MARK_LI, false);
    }
    move_left(g.code % 16, dph, dpl, MARK_LI, false)
}

// DP and Acc, without M.
pub fn move_group(op: Move, g: Inputs) -> Moved
    requires { Scalars g.core }
    ensures { (sheet : Sheet) (word : ℕ) (ports : List ℕ) → (named_move op).effect (given_of sheet g word ports) ≡ move_effect (given_of sheet g word ports) result }
{
    let acc = g.core.registers.acc;
    let dph = g.core.registers.dph;
    let dpl = g.core.registers.dpl;
    match op {
        Move::Tal => move_left(acc, dph, acc, MARK_OTHER, false),
        Move::Tla => move_left(dpl, dph, dpl, MARK_OTHER, false),
        Move::Ded => move_left(acc, dph, (dpl + 15) % 16, MARK_OTHER, (dpl + 15) % 16 == 15),
        Move::Ldi => ldi(g),
        Move::Cli => move_left(acc, dph, dpl, MARK_OTHER, dpl == g.second % 16),
        Move::Ind => move_left(acc, dph, (dpl + 1) % 16, MARK_OTHER, (dpl + 1) % 16 == 0),
        Move::Ldz => move_left(acc, 0, g.code % 16, MARK_OTHER, false),
        Move::Li => li(g),
    }
}

fn pointer_left(acc: u8, dph: u8, dpl: u8, word: u8, skip: bool) -> Pointed
    ensures { result ≡ record { acc = acc; dph = dph; dpl = dpl; word = word; skip = skip } }
{
    Pointed {
        acc,
        dph,
        dpl,
        word,
        skip,
    }
}

// DP, and M with it.
pub fn pointer_group(op: Pointer, g: Inputs, word: u8) -> Pointed
    requires { Scalars g.core × (word < 16) }
    ensures { (sheet : Sheet) (ports : List ℕ) → (named_pointer op).effect (given_of sheet g word ports) ≡ pointer_effect (given_of sheet g word ports) result }
{
    let acc = g.core.registers.acc;
    let dph = g.core.registers.dph;
    let dpl = g.core.registers.dpl;
    let b = g.code % 4;
    match op {
        Pointer::Xm => pointer_left(word, dph ^ b, dpl, acc, false),
        Pointer::Xmd => pointer_left(word, dph ^ b, (dpl + 15) % 16, acc, (dpl + 15) % 16 == 15),
        Pointer::Lm => pointer_left(word, dph ^ b, dpl, word, false),
        Pointer::Xmi => pointer_left(word, dph ^ b, (dpl + 1) % 16, acc, (dpl + 1) % 16 == 0),
    }
}

fn working_left(acc: u8, dph: u8, dpl: u8, word: u8) -> Worked
    ensures { result ≡ record { acc = acc; dph = dph; dpl = dpl; word = word } }
{
    Worked {
        acc,
        dph,
        dpl,
        word,
    }
}

// The words Z, W, S, R, Y and X.
pub fn working_group(op: Working, g: Inputs, word: u8) -> Worked
    requires { Scalars g.core × (word < 16) }
    ensures { (sheet : Sheet) (ports : List ℕ) → (named_working op).effect (given_of sheet g word ports) ≡ working_effect (given_of sheet g word ports) result }
{
    let acc = g.core.registers.acc;
    let dph = g.core.registers.dph;
    let dpl = g.core.registers.dpl;
    match op {
        Working::Taz => working_left(acc, dph, dpl, acc),
        Working::Taw => working_left(acc, dph, dpl, acc),
        Working::Tly => working_left(acc, dph, dpl, dpl),
        Working::Thx => working_left(acc, dph, dpl, dph),
        Working::Xaz => working_left(word, dph, dpl, acc),
        Working::Xaw => working_left(word, dph, dpl, acc),
        Working::Xls => working_left(acc, dph, word, dpl),
        Working::Xhr => working_left(acc, word % 8, dpl, dph),
        Working::Xly => working_left(acc, dph, word, dpl),
        Working::Xhx => working_left(acc, word % 8, dpl, dph),
    }
}

// Bits of the flag word.
pub fn flag_group(op: Flag, g: Inputs, word: u8) -> Flagged
    requires { word < 16 }
    ensures { (sheet : Sheet) (ports : List ℕ) → (named_flag op).effect (given_of sheet g word ports) ≡ flag_effect (given_of sheet g word ports) result }
{
    let b = g.code % 4;
    match op {
        Flag::Fbf => Flagged {
            word,
            skip: bit(word, b) == 0,
        },
        Flag::Fbt => Flagged {
            word,
            skip: bit(word, b) == 1,
        },
        Flag::Rfb => Flagged {
            word: with_bit(word, b, 0),
            skip: false,
        },
        Flag::Sfb => Flagged {
            word: with_bit(word, b, 1),
            skip: false,
        },
    }
}

fn jump_left(pc: u16, stack: [u16; STACK_DEPTH], skip: bool) -> Jumped
    ensures { result ≡ record { flow = record { pc = pc; stack = stack }; skip = skip } }
{
    Jumped {
        flow: Flow { pc, stack },
        skip,
    }
}

// Whether an instruction leaves the stack alone.
pub fn stays(op: Jump) -> bool
    ensures { result ≡ stays_of op }
{
    match op {
        Jump::Jpa => true,
        Jump::Rt => false,
        Jump::Rts => false,
        Jump::Jmp => true,
        Jump::Cal => false,
        Jump::Czp => false,
        Jump::Jcp => true,
    }
}

// PC and the stack, moved as on three levels.
pub fn jump_group(op: Jump, g: Inputs) -> Jumped
    requires { Scalars g.core }
    ensures { JumpsAs op g result }
{
    let stack = g.core.flow.stack;
    let s0 = stack[0];
    let s1 = stack[1];
    let s2 = stack[2];
    let page = g.core.flow.pc / 64 * 64;
    let target = 256 * ((g.code % 8) as u16) + (g.second as u16);
    match op {
        Jump::Jpa => jump_left(page + 4 * (g.core.registers.acc as u16), stack, false),
        Jump::Rt => jump_left(s0, [s1, s2, s2], false),
        Jump::Rts => jump_left(s0, [s1, s2, s2], true),
        Jump::Jmp => jump_left(target, stack, false),
        Jump::Cal => jump_left(target, [g.after, s0, s1], false),
        Jump::Czp => jump_left(4 * ((g.code % 16) as u16), [g.after, s0, s1], false),
        Jump::Jcp => jump_left(page + ((g.code % 64) as u16), stack, false),
    }
}

// Flip-flops, carries and the timer.
pub fn control_group(op: Control, g: Inputs) -> Controlled
    ensures { (sheet : Sheet) (word : ℕ) (ports : List ℕ) → (named_control op).effect (given_of sheet g word ports) ≡ control_effect (given_of sheet g word ports) result }
{
    let carry = g.core.registers.carry;
    let saved = g.core.registers.saved;
    let int = g.core.interrupt.int;
    let inte = g.core.interrupt.inte;
    let timer = g.core.timer;
    match op {
        Control::Di => Controlled {
            carry,
            saved,
            int,
            inte: 0,
            timer,
            mark: MARK_OTHER,
            skip: false,
        },
        Control::Ei => Controlled {
            carry,
            saved,
            int,
            inte: 1,
            timer,
            mark: MARK_EI,
            skip: false,
        },
        Control::Tit => Controlled {
            carry,
            saved,
            int: 0,
            inte,
            timer,
            mark: MARK_OTHER,
            skip: int == 1,
        },
        Control::Xc => Controlled {
            carry: saved,
            saved: carry,
            int,
            inte,
            timer,
            mark: MARK_OTHER,
            skip: false,
        },
        Control::Stm => Controlled {
            carry,
            saved,
            int,
            inte,
            timer: Timer {
                tm: 0,
                register: 1,
                counter: g.second % 64,
            },
            mark: MARK_STM,
            skip: false,
        },
    }
}

// What OP writes.
fn output_port(p: u8, v: u8) -> Output
    requires { v < 16 }
    ensures { writes_of result.port result.value ≡ outputs p v }
{
    if p < PORT_C {
        return Output {
            port: NO_PORT,
            value: 0,
        };
    }
    if PORT_I < p {
        return Output {
            port: NO_PORT,
            value: 0,
        };
    }
    if p == PORT_I {
        return Output {
            port: PORT_I,
            value: v % 8,
        };
    }
    Output { port: p, value: v }
}

// What SPB and RPB write.
fn output_bit(ports: &[u8; LATCHES], p: u8, b: u8, v: u8) -> Output
    requires { ValidPorts ports.now × (b < 4) × (v < 2) }
    ensures { writes_of result.port result.value ≡ bit_outputs ports.now p b v }
{
    if p < PORT_E {
        return Output {
            port: NO_PORT,
            value: 0,
        };
    }
    if PORT_I < p {
        return Output {
            port: NO_PORT,
            value: 0,
        };
    }
    if p < PORT_I {
        let i = (p - PORT_C) as usize;
        return Output {
            port: p,
            value: with_bit(ports[i], b, v),
        };
    }
    if b < 3 {
        return Output {
            port: PORT_I,
            value: with_bit(ports[6], b, v),
        };
    }
    Output {
        port: NO_PORT,
        value: 0,
    }
}

fn port_left(acc: u8, skip: bool, port: u8, value: u8) -> Ported
    ensures { result ≡ record { acc = acc; skip = skip; port = port; value = value } }
{
    Ported {
        acc,
        skip,
        port,
        value,
    }
}

fn written(acc: u8, o: Output) -> Ported
    ensures { result ≡ record { acc = acc; skip = false; port = o.port; value = o.value } }
{
    Ported {
        acc,
        skip: false,
        port: o.port,
        value: o.value,
    }
}

// Ports.
pub fn port_group(op: Port, g: Inputs, ports: &[u8; LATCHES]) -> Ported
    requires { Scalars g.core × ValidPorts ports.now }
    ensures { (sheet : Sheet) (word : ℕ) → (named_port op).effect (given_of sheet g word ports.now) ≡ port_effect (given_of sheet g word ports.now) result }
{
    let acc = g.core.registers.acc;
    let dpl = g.core.registers.dpl;
    let b = g.code % 4;
    let l = g.lines;
    match op {
        Port::Op => written(acc, output_port(dpl, acc)),
        Port::Ocd => port_left(acc, false, PORTS_C_AND_D, g.second),
        Port::Oe => port_left(acc, false, PORT_E, acc),
        Port::Rpb => written(acc, output_bit(ports, dpl, b, 0)),
        Port::Reb => port_left(acc, false, PORT_E, with_bit(ports[2], b, 0)),
        Port::Spb => written(acc, output_bit(ports, dpl, b, 1)),
        Port::Seb => port_left(acc, false, PORT_E, with_bit(ports[2], b, 1)),
        Port::Ip => port_left(read_port(l, ports, dpl), false, NO_PORT, 0),
        Port::Ia => port_left(g.lines.a, false, NO_PORT, 0),
        Port::Tpb => port_left(acc, bit(read_port(l, ports, dpl), b) == 1, NO_PORT, 0),
        Port::Tpa => port_left(acc, bit(g.lines.a, b) == 1, NO_PORT, 0),
    }
}
