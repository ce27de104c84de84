// NEC's mnemonics: one table beside the codes, of each code's word and the kind of its operand, and an instruction as people read it.
// It may not know what an instruction does, nor where a text goes.
#![tactic(auto)]

ghost use Rattle.std.specs.Prelude.{ℕ, ◌≡◌, ◌+◌, ◌<◌, ◌≤◌, ◌/◌, ◌%◌, [], ◌∷◌, cond, get_or};
ghost use Rattle.upd546.specs.Reports.{hex_digit};
ghost use Rattle.mnemonics.specs.Mnemonics.{word_of, kind_of, word_table, kind_for, leads_for, long_for, target_of, operand_text, byte_text, instruction_text};
ghost use Rattle.mnemonics.specs.Kinds.{kind_by};
ghost use Rattle.mnemonics.specs.declared.Kind.TheVariants.{Without};

// What the operand of a code is.
#[derive(Clone, Copy, PartialEq, Eq)]
pub enum Kind {
    Without,
    // Two bits of the code.
    Bits,
    // Four bits of the code.
    Nibble,
    // The second byte.
    Byte,
    // An address: three bits of the code and the second byte.
    Far,
    // An address: four times four bits of the code.
    ZeroPage,
    // An address in the page.
    InPage,
    NoInstruction,
}

// What the table has of a code: its word, filled up to three letters with spaces, and the kind of its operand.
#[derive(Clone, Copy)]
pub struct Mnemonic {
    pub word: [u8; 3],
    pub kind: Kind,
}

// Four letters for each code: its word, filled up to three with spaces, and the kind of its operand.
// b: two bits of the code; k: four bits; s: the second byte; f: three bits and the second byte; z: four times k; p: an address in the
// page; -: no instruction; a space: no operand.
static WORDS: [u8; 1024] = *b"\
    NOP DI  S   TIT TC  TTM DAA TAL AD  ADS DAS CLC CM  INC OP  DEC \
    CMA CIA TLA DED STMsLDIsCLIsCI sEXL ADC XC  STC    -INM OCDsDEM \
    FBFbFBFbFBFbFBFbTABbTABbTABbTABbXM bXM bXM bXM bXMDbXMDbXMDbXMDb\
    RAR EI  IP  IND CMBbCMBbCMBbCMBbLM bLM bLM bLM bXMIbXMIbXMIbXMIb\
    IA  JPA TAZ TAW OE     -TLY THX RT  RTS XAZ XAW XLS XHR XLY XHX \
    TPBbTPBbTPBbTPBbTPAbTPAbTPAbTPAbTMBbTMBbTMBbTMBbFBTbFBTbFBTbFBTb\
    RPBbRPBbRPBbRPBbREBbREBbREBbREBbRMBbRMBbRMBbRMBbRFBbRFBbRFBbRFBb\
    SPBbSPBbSPBbSPBbSEBbSEBbSEBbSEBbSMBbSMBbSMBbSMBbSFBbSFBbSFBbSFBb\
    LDZkLDZkLDZkLDZkLDZkLDZkLDZkLDZkLDZkLDZkLDZkLDZkLDZkLDZkLDZkLDZk\
    LI kLI kLI kLI kLI kLI kLI kLI kLI kLI kLI kLI kLI kLI kLI kLI k\
    JMPfJMPfJMPfJMPfJMPfJMPfJMPfJMPfCALfCALfCALfCALfCALfCALfCALfCALf\
    CZPzCZPzCZPzCZPzCZPzCZPzCZPzCZPzCZPzCZPzCZPzCZPzCZPzCZPzCZPzCZPz\
    JCPpJCPpJCPpJCPpJCPpJCPpJCPpJCPpJCPpJCPpJCPpJCPpJCPpJCPpJCPpJCPp\
    JCPpJCPpJCPpJCPpJCPpJCPpJCPpJCPpJCPpJCPpJCPpJCPpJCPpJCPpJCPpJCPp\
    JCPpJCPpJCPpJCPpJCPpJCPpJCPpJCPpJCPpJCPpJCPpJCPpJCPpJCPpJCPpJCPp\
    JCPpJCPpJCPpJCPpJCPpJCPpJCPpJCPpJCPpJCPpJCPpJCPpJCPpJCPpJCPpJCPp";

// The letters of all codes.
pub fn word_table() -> &'static [u8; 1024]
    ensures { result.now ≡ word_table }
{
    &WORDS
}

// The kind that a letter of the table stands for.
impl From<u8> for Kind {
    ghost from_gives = { λ letter kind. kind_by kind ≡ kind_for letter };

    fn from(letter: u8) -> Kind {
        match letter {
            b'b' => Kind::Bits,
            b'k' => Kind::Nibble,
            b's' => Kind::Byte,
            b'f' => Kind::Far,
            b'z' => Kind::ZeroPage,
            b'p' => Kind::InPage,
            b'-' => Kind::NoInstruction,
            _ => Kind::Without,
        }
    }
}

// The word of a code, filled up to three letters with spaces. A search for a word looks at these alone: with the kind of each code that it
// passes it takes 2.5 times as long.
pub fn letters(code: u8) -> [u8; 3]
    ensures { result ≡ word_of code }
{
    let table = word_table();
    let i = 4 * (code as usize);
    [table[i], table[i + 1], table[i + 2]]
}

// What the table has of a code.
pub fn entry(code: u8) -> Mnemonic
    ensures word { result.word ≡ word_of code }
    ensures kind { kind_by result.kind ≡ kind_of code }
{
    let table = word_table();
    Mnemonic {
        word: letters(code),
        kind: Kind::from(table[4 * (code as usize) + 3]),
    }
}

// The kinds of all codes, for a caller that asks for many: it makes them once, and lends them.
pub fn kinds() -> [Kind; 256]
    ensures { (code : ℕ) → code < 256 → kind_by (get_or result code Without) ≡ kind_of code }
{
    let mut kinds = [Kind::Without; 256];
    for code in 0..256 {
        kinds[code] = entry(code as u8).kind;
    }
    kinds
}

// The digit of a value's low four bits.
pub fn hex_digit(value: u8) -> u8
    ensures { result ≡ hex_digit (value % 16) }
{
    let low = value % 16;
    if low < 10 {
        return b'0' + low;
    }
    b'A' + (low - 10)
}

// The letter of a port, by its low four bits: A to I of the chip's.
pub fn port_letter(port: u8) -> u8
    ensures { result ≡ 65 + port % 16 }
{
    b'A' + port % 16
}

// Three digits, and a space.
pub fn three(value: u16) -> [u8; 4]
    ensures { result ≡ hex_digit (value / 256 % 16) ∷ hex_digit (value / 16 % 16) ∷ hex_digit (value % 16) ∷ 32 ∷ [] }
{
    let low = (value % 256) as u8;
    [
        hex_digit((value / 256) as u8),
        hex_digit(low / 16),
        hex_digit(low),
        b' ',
    ]
}

impl Kind {
    // A jump or a call: its operand is an address.
    pub fn leads(self) -> bool
        ensures { result ≡ leads_for (kind_by self) }
    {
        matches!(self, Kind::Far | Kind::ZeroPage | Kind::InPage)
    }

    // A second byte belongs to it.
    pub fn is_long(self) -> bool
        ensures { result ≡ long_for (kind_by self) }
    {
        matches!(self, Kind::Byte | Kind::Far)
    }

    // How many bytes an instruction has.
    pub fn size(self) -> usize
        ensures { (result ≡ cond (long_for (kind_by self)) 2 1) × (0 < result) × (result ≤ 2) }
    {
        if self.is_long() { 2 } else { 1 }
    }

    // Where the jump or call leads from an address; 0 of any other kind.
    pub fn target(self, at: u16, code: u8, second: u8) -> u16
        ensures { result ≡ target_of (kind_by self) at code second }
    {
        match self {
            Kind::Far => (code % 8) as u16 * 256 + second as u16,
            Kind::ZeroPage => (code % 16) as u16 * 4,
            Kind::InPage => at / 64 * 64 + (code % 64) as u16,
            _ => 0,
        }
    }

    // The operand in a field of four letters.
    pub fn operand(self, at: u16, code: u8, second: u8) -> [u8; 4]
        ensures { result ≡ operand_text (kind_by self) at code second }
    {
        match self {
            Kind::Bits => [hex_digit(code % 4), b' ', b' ', b' '],
            Kind::Nibble => [hex_digit(code), b' ', b' ', b' '],
            Kind::Byte => [hex_digit(second / 16), hex_digit(second), b' ', b' '],
            Kind::Far | Kind::ZeroPage | Kind::InPage => three(self.target(at, code, second)),
            Kind::Without | Kind::NoInstruction => *b"    ",
        }
    }
}

// `byte 1C`: a byte that is not shown as an instruction.
pub fn byte(code: u8) -> [u8; 8]
    ensures { result ≡ byte_text code }
{
    [
        b'b',
        b'y',
        b't',
        b'e',
        b' ',
        hex_digit(code / 16),
        hex_digit(code),
        b' ',
    ]
}

// THE INSTRUCTION AT AN ADDRESS, as text: its word, a space, and its operand in hexadecimal. The second byte is looked at where there is one.
pub fn instruction(at: u16, code: u8, second: u8) -> [u8; 8]
    ensures { result ≡ instruction_text at code second }
{
    let Mnemonic { word, kind } = entry(code);
    match kind {
        Kind::NoInstruction => byte(code),
        _ => {
            let field = kind.operand(at, code, second);
            [
                word[0], word[1], word[2], b' ', field[0], field[1], field[2], field[3],
            ]
        }
    }
}
