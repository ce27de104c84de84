// Which instruction a code is: the instructions by NEC's mnemonics, in groups by what they work on.
// It may not know what an instruction does.
#![tactic(auto)]

ghost use Rattle.std.specs.Prelude.{◌≡◌, ◌<◌};
ghost use Rattle.upd546.specs.Instructions.{instruction};
ghost use Rattle.decode.specs.Named.{named, in_row};

// What only skips, or does nothing. None stands for a code that is no instruction.
#[derive(Clone, Copy)]
pub enum Test {
    Nop,
    None,
    Tc,
    Ttm,
}

// Acc and C alone.
#[derive(Clone, Copy)]
pub enum Acc {
    Daa,
    Das,
    Clc,
    Inc,
    Dec,
    Cma,
    Cia,
    Stc,
    Rar,
    Tab,
    Ci,
}

// M, with Acc and C.
#[derive(Clone, Copy)]
pub enum Sum {
    S,
    Ad,
    Ads,
    Cm,
    Exl,
    Adc,
    Inm,
    Dem,
    Cmb,
    Tmb,
    Rmb,
    Smb,
}

// DP and Acc, without M. LDI and LI are here: each looks at the mark and leaves one.
#[derive(Clone, Copy)]
pub enum Move {
    Tal,
    Tla,
    Ded,
    Ldi,
    Cli,
    Ind,
    Ldz,
    Li,
}

// DP, and M with it.
#[derive(Clone, Copy)]
pub enum Pointer {
    Xm,
    Xmd,
    Lm,
    Xmi,
}

// The words Z, W, S, R, Y and X.
#[derive(Clone, Copy)]
pub enum Working {
    Taz,
    Taw,
    Tly,
    Thx,
    Xaz,
    Xaw,
    Xls,
    Xhr,
    Xly,
    Xhx,
}

// Bits of the flag word.
#[derive(Clone, Copy)]
pub enum Flag {
    Fbf,
    Fbt,
    Rfb,
    Sfb,
}

// PC and the stack.
#[derive(Clone, Copy)]
pub enum Jump {
    Jpa,
    Rt,
    Rts,
    Jmp,
    Cal,
    Czp,
    Jcp,
}

// Flip-flops, carries and the timer.
#[derive(Clone, Copy)]
pub enum Control {
    Di,
    Ei,
    Tit,
    Xc,
    Stm,
}

// Ports.
#[derive(Clone, Copy)]
pub enum Port {
    Op,
    Ocd,
    Oe,
    Rpb,
    Reb,
    Spb,
    Seb,
    Ip,
    Ia,
    Tpb,
    Tpa,
}

#[derive(Clone, Copy)]
pub enum Decoded {
    Tests(Test),
    Accs(Acc),
    Sums(Sum),
    Moves(Move),
    Pointers(Pointer),
    Workings(Working),
    Flags(Flag),
    Jumps(Jump),
    Controls(Control),
    Ports(Port),
}

// The rows of NEC's opcode map, a function each. They are alike in form alone: each lists codes of its own, so one function for all would
// be the same list. `low` is the low half of a code, which only `decode` makes: a type for it would be unpacked in each row.
// Codes 00 to 0F, by their low half.
fn row0(low: u8) -> Decoded
    requires { low < 16 }
    ensures { named result ≡ in_row 0 low }
{
    match low {
        0 => Decoded::Tests(Test::Nop),
        1 => Decoded::Controls(Control::Di),
        2 => Decoded::Sums(Sum::S),
        3 => Decoded::Controls(Control::Tit),
        4 => Decoded::Tests(Test::Tc),
        5 => Decoded::Tests(Test::Ttm),
        6 => Decoded::Accs(Acc::Daa),
        7 => Decoded::Moves(Move::Tal),
        8 => Decoded::Sums(Sum::Ad),
        9 => Decoded::Sums(Sum::Ads),
        10 => Decoded::Accs(Acc::Das),
        11 => Decoded::Accs(Acc::Clc),
        12 => Decoded::Sums(Sum::Cm),
        13 => Decoded::Accs(Acc::Inc),
        14 => Decoded::Ports(Port::Op),
        _ => Decoded::Accs(Acc::Dec),
    }
}

// Codes 10 to 1F, by their low half.
fn row1(low: u8) -> Decoded
    requires { low < 16 }
    ensures { named result ≡ in_row 1 low }
{
    match low {
        0 => Decoded::Accs(Acc::Cma),
        1 => Decoded::Accs(Acc::Cia),
        2 => Decoded::Moves(Move::Tla),
        3 => Decoded::Moves(Move::Ded),
        4 => Decoded::Controls(Control::Stm),
        5 => Decoded::Moves(Move::Ldi),
        6 => Decoded::Moves(Move::Cli),
        7 => Decoded::Accs(Acc::Ci),
        8 => Decoded::Sums(Sum::Exl),
        9 => Decoded::Sums(Sum::Adc),
        10 => Decoded::Controls(Control::Xc),
        11 => Decoded::Accs(Acc::Stc),
        12 => Decoded::Tests(Test::None),
        13 => Decoded::Sums(Sum::Inm),
        14 => Decoded::Ports(Port::Ocd),
        _ => Decoded::Sums(Sum::Dem),
    }
}

// Codes 20 to 2F, by their low half.
fn row2(low: u8) -> Decoded
    requires { low < 16 }
    ensures { named result ≡ in_row 2 low }
{
    match low {
        0 => Decoded::Flags(Flag::Fbf),
        1 => Decoded::Flags(Flag::Fbf),
        2 => Decoded::Flags(Flag::Fbf),
        3 => Decoded::Flags(Flag::Fbf),
        4 => Decoded::Accs(Acc::Tab),
        5 => Decoded::Accs(Acc::Tab),
        6 => Decoded::Accs(Acc::Tab),
        7 => Decoded::Accs(Acc::Tab),
        8 => Decoded::Pointers(Pointer::Xm),
        9 => Decoded::Pointers(Pointer::Xm),
        10 => Decoded::Pointers(Pointer::Xm),
        11 => Decoded::Pointers(Pointer::Xm),
        12 => Decoded::Pointers(Pointer::Xmd),
        13 => Decoded::Pointers(Pointer::Xmd),
        14 => Decoded::Pointers(Pointer::Xmd),
        _ => Decoded::Pointers(Pointer::Xmd),
    }
}

// Codes 30 to 3F, by their low half.
fn row3(low: u8) -> Decoded
    requires { low < 16 }
    ensures { named result ≡ in_row 3 low }
{
    match low {
        0 => Decoded::Accs(Acc::Rar),
        1 => Decoded::Controls(Control::Ei),
        2 => Decoded::Ports(Port::Ip),
        3 => Decoded::Moves(Move::Ind),
        4 => Decoded::Sums(Sum::Cmb),
        5 => Decoded::Sums(Sum::Cmb),
        6 => Decoded::Sums(Sum::Cmb),
        7 => Decoded::Sums(Sum::Cmb),
        8 => Decoded::Pointers(Pointer::Lm),
        9 => Decoded::Pointers(Pointer::Lm),
        10 => Decoded::Pointers(Pointer::Lm),
        11 => Decoded::Pointers(Pointer::Lm),
        12 => Decoded::Pointers(Pointer::Xmi),
        13 => Decoded::Pointers(Pointer::Xmi),
        14 => Decoded::Pointers(Pointer::Xmi),
        _ => Decoded::Pointers(Pointer::Xmi),
    }
}

// Codes 40 to 4F, by their low half.
fn row4(low: u8) -> Decoded
    requires { low < 16 }
    ensures { named result ≡ in_row 4 low }
{
    match low {
        0 => Decoded::Ports(Port::Ia),
        1 => Decoded::Jumps(Jump::Jpa),
        2 => Decoded::Workings(Working::Taz),
        3 => Decoded::Workings(Working::Taw),
        4 => Decoded::Ports(Port::Oe),
        5 => Decoded::Tests(Test::None),
        6 => Decoded::Workings(Working::Tly),
        7 => Decoded::Workings(Working::Thx),
        8 => Decoded::Jumps(Jump::Rt),
        9 => Decoded::Jumps(Jump::Rts),
        10 => Decoded::Workings(Working::Xaz),
        11 => Decoded::Workings(Working::Xaw),
        12 => Decoded::Workings(Working::Xls),
        13 => Decoded::Workings(Working::Xhr),
        14 => Decoded::Workings(Working::Xly),
        _ => Decoded::Workings(Working::Xhx),
    }
}

// Codes 50 to 5F, by their low half.
fn row5(low: u8) -> Decoded
    requires { low < 16 }
    ensures { named result ≡ in_row 5 low }
{
    match low {
        0 => Decoded::Ports(Port::Tpb),
        1 => Decoded::Ports(Port::Tpb),
        2 => Decoded::Ports(Port::Tpb),
        3 => Decoded::Ports(Port::Tpb),
        4 => Decoded::Ports(Port::Tpa),
        5 => Decoded::Ports(Port::Tpa),
        6 => Decoded::Ports(Port::Tpa),
        7 => Decoded::Ports(Port::Tpa),
        8 => Decoded::Sums(Sum::Tmb),
        9 => Decoded::Sums(Sum::Tmb),
        10 => Decoded::Sums(Sum::Tmb),
        11 => Decoded::Sums(Sum::Tmb),
        12 => Decoded::Flags(Flag::Fbt),
        13 => Decoded::Flags(Flag::Fbt),
        14 => Decoded::Flags(Flag::Fbt),
        _ => Decoded::Flags(Flag::Fbt),
    }
}

// Codes 60 to 6F, by their low half.
fn row6(low: u8) -> Decoded
    requires { low < 16 }
    ensures { named result ≡ in_row 6 low }
{
    match low {
        0 => Decoded::Ports(Port::Rpb),
        1 => Decoded::Ports(Port::Rpb),
        2 => Decoded::Ports(Port::Rpb),
        3 => Decoded::Ports(Port::Rpb),
        4 => Decoded::Ports(Port::Reb),
        5 => Decoded::Ports(Port::Reb),
        6 => Decoded::Ports(Port::Reb),
        7 => Decoded::Ports(Port::Reb),
        8 => Decoded::Sums(Sum::Rmb),
        9 => Decoded::Sums(Sum::Rmb),
        10 => Decoded::Sums(Sum::Rmb),
        11 => Decoded::Sums(Sum::Rmb),
        12 => Decoded::Flags(Flag::Rfb),
        13 => Decoded::Flags(Flag::Rfb),
        14 => Decoded::Flags(Flag::Rfb),
        _ => Decoded::Flags(Flag::Rfb),
    }
}

// Codes 70 to 7F, by their low half.
fn row7(low: u8) -> Decoded
    requires { low < 16 }
    ensures { named result ≡ in_row 7 low }
{
    match low {
        0 => Decoded::Ports(Port::Spb),
        1 => Decoded::Ports(Port::Spb),
        2 => Decoded::Ports(Port::Spb),
        3 => Decoded::Ports(Port::Spb),
        4 => Decoded::Ports(Port::Seb),
        5 => Decoded::Ports(Port::Seb),
        6 => Decoded::Ports(Port::Seb),
        7 => Decoded::Ports(Port::Seb),
        8 => Decoded::Sums(Sum::Smb),
        9 => Decoded::Sums(Sum::Smb),
        10 => Decoded::Sums(Sum::Smb),
        11 => Decoded::Sums(Sum::Smb),
        12 => Decoded::Flags(Flag::Sfb),
        13 => Decoded::Flags(Flag::Sfb),
        14 => Decoded::Flags(Flag::Sfb),
        _ => Decoded::Flags(Flag::Sfb),
    }
}

// Codes A0 to AF, by their low half.
fn row10(low: u8) -> Decoded
    requires { low < 16 }
    ensures { named result ≡ in_row 10 low }
{
    if low < 8 {
        return Decoded::Jumps(Jump::Jmp);
    }
    Decoded::Jumps(Jump::Cal)
}

// The instruction of a code.
pub fn decode(code: u8) -> Decoded
    ensures { named result ≡ instruction code }
{
    let low = code % 16;
    match code / 16 {
        0 => row0(low),
        1 => row1(low),
        2 => row2(low),
        3 => row3(low),
        4 => row4(low),
        5 => row5(low),
        6 => row6(low),
        7 => row7(low),
        8 => Decoded::Moves(Move::Ldz),
        9 => Decoded::Moves(Move::Li),
        10 => row10(low),
        11 => Decoded::Jumps(Jump::Czp),
        _ => Decoded::Jumps(Jump::Jcp),
    }
}
