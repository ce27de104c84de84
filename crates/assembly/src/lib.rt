// Assembler text and its lines: what stands in a line, the number of an operand, and what a word asks for. Parts of a line are parts of
// the lent text. It may not know where the text comes from, nor what bytes are made of it.
#![tactic(auto)]

ghost use Rattle.std.specs.Prelude.{◌≡◌, ◌≤◌, ◌<◌, ◌++◌, length, take, get_or, IfOk, MatchResult};
ghost use Rattle.mnemonics.specs.Texts.{ascii};
ghost use Rattle.assembly.specs.Grammar.{is_blank, is_semicolon, before, first_word, behind, parsed};
ghost use Rattle.assembly.specs.Assembling.{digit_of, grown, number_from, good, limited, number_up_to, code_for, action_for};
ghost use Rattle.assembly.specs.Places.{front_of, statement_of, LineIs, mistake_number, value_of, action_of};
ghost use Rattle.assembly.specs.declared.Mistake.TheVariants.{NoNumber};

use mnemonics::Kind;

// Why a text stands for no ROM.
#[derive(Clone, Copy, PartialEq, Eq)]
pub enum Mistake {
    TextBehind,
    UnknownWord,
    OperandMissing,
    OperandUnwanted,
    NoNumber,
    NumberTooLarge,
    LabelUnknown,
    // A label stands at two addresses.
    LabelTwice,
    // JCP can't lead out of its page.
    NotInPage,
    // CZP leads to 000, 004 and so on up to 03C.
    NoCzpAddress,
    BeyondEnd,
    ByteTwice,
    // The second byte of an instruction at xFF would be the one at x00.
    SecondElsewhere,
    RomNotFirst,
}

// The number of a mistake.
impl From<Mistake> for u8 {
    ghost from_gives = { λ mistake number. number ≡ mistake_number mistake };

    fn from(mistake: Mistake) -> u8 {
        match mistake {
            Mistake::TextBehind => 1,
            Mistake::UnknownWord => 2,
            Mistake::OperandMissing => 3,
            Mistake::OperandUnwanted => 4,
            Mistake::NoNumber => 5,
            Mistake::NumberTooLarge => 6,
            Mistake::LabelUnknown => 7,
            Mistake::LabelTwice => 8,
            Mistake::NotInPage => 9,
            Mistake::NoCzpAddress => 10,
            Mistake::BeyondEnd => 11,
            Mistake::ByteTwice => 12,
            Mistake::SecondElsewhere => 13,
            Mistake::RomNotFirst => 14,
        }
    }
}

// What stands in a line; where something isn't there, it is empty.
#[derive(Clone, Copy)]
pub struct Line<'a> {
    pub label: &'a [u8],
    pub word: &'a [u8],
    pub operand: &'a [u8],
    // Whether there is text that doesn't belong there.
    pub has_more: bool,
}

// What a word asks for. A word that is unknown is a case of its own, and no mistake yet: the address of a label is counted past it.
#[derive(Clone, Copy)]
pub enum Asked {
    // There is no word.
    Nothing,
    // The ROM's length.
    Length,
    // Another address.
    Address,
    // Bytes: the kind of the operand, and the first code that has the word.
    Gives(Kind, u8),
    Unknown,
}

// LINES

fn is_blank(c: u8) -> bool
    ensures { result ≡ is_blank c }
{
    matches!(c, b' ' | b'\t' | b'\r')
}

// A text's first word, and what stands behind it.
fn first_word(text: &[u8]) -> (&[u8], &[u8])
    ensures { (result.0.now ≡ first_word text.now) × (result.1.now ≡ behind text.now) }
{
    let from = text
        .iter()
        .position(|c| !is_blank(*c))
        .unwrap_or(text.len());
    let rest = &text[from..];
    let to = rest.iter().position(|c| is_blank(*c)).unwrap_or(rest.len());
    rest.split_at(to)
}

// A line up to its comment.
fn told(line: &[u8]) -> &[u8]
    ensures { result.now ≡ before is_semicolon line.now }
{
    let to = line.iter().position(|c| *c == b';').unwrap_or(line.len());
    &line[..to]
}

// The text in front of the colon, none where the line has no colon, and the text behind the label.
fn halves(line: &[u8]) -> (&[u8], &[u8])
    ensures { (result.0.now ≡ front_of line.now) × (result.1.now ≡ statement_of line.now) }
{
    let told = told(line);
    match told.iter().position(|c| *c == b':') {
        Some(colon) => (&told[..colon], &told[colon + 1..]),
        None => (&told[..0], told),
    }
}

impl<'a> Line<'a> {
    pub fn parse(line: &'a [u8]) -> Line<'a>
        ensures { LineIs result (parsed line.now) }
    {
        // There is nothing to look for in an empty line; whoever looks for a label passes many.
        if line.is_empty() {
            return Line {
                label: line,
                word: line,
                operand: line,
                has_more: false,
            };
        }
        let (front, statement) = halves(line);
        let (label, behind_label) = first_word(front);
        let (word, behind_word) = first_word(statement);
        let (operand, behind_operand) = first_word(behind_word);
        let has_more = !first_word(behind_label).0.is_empty()
            || !first_word(behind_operand).0.is_empty();
        Line {
            label,
            word,
            operand,
            has_more,
        }
    }
}

// NUMBERS

fn digit(c: u8) -> Result<u8, Mistake>
    ensures { MatchResult result (λ d. (d ≡ digit_of c) × (d < 16)) (λ m. (m ≡ NoNumber) × (16 ≤ digit_of c)) }
{
    match c {
        b'0'..=b'9' => Ok(c - b'0'),
        b'A'..=b'F' => Ok(c - b'A' + 10),
        _ => Err(Mistake::NoNumber),
    }
}

// One digit more. A number of over 16 bits stays at the largest, which no operand may have.
fn grown(n: u16, d: u8) -> u16
    requires { d < 16 }
    ensures { result ≡ grown n d }
{
    n.saturating_mul(16).saturating_add(u16::from(d))
}

// A hexadecimal number.
pub fn hexadecimal(text: &[u8]) -> Result<usize, Mistake>
    ensures { value_of result ≡ number_from 0 text.now }
{
    let mut value = 0;
    for c in text {
        value = grown(value, digit(*c)?);
    }
    Ok(usize::from(value))
}

// A value that is at most `limit`.
pub fn limited(limit: usize, value: usize) -> Result<usize, Mistake>
    ensures { (value_of result ≡ limited limit (good value)) × IfOk result (λ v. v ≤ limit) }
{
    if value <= limit {
        Ok(value)
    } else {
        Err(Mistake::NumberTooLarge)
    }
}

// The number of an operand, up to a limit.
pub fn number_up_to(limit: usize, operand: &[u8]) -> Result<usize, Mistake>
    ensures { (value_of result ≡ number_up_to limit operand.now) × IfOk result (λ v. v ≤ limit) }
{
    if operand.is_empty() {
        return Err(Mistake::OperandMissing);
    }
    limited(limit, hexadecimal(operand)?)
}

// WORDS

// The letter at a place of a word, a space behind its end.
fn letter(word: &[u8], at: usize) -> u8
    ensures { result ≡ get_or word.now at 32 }
{
    word.get(at).copied().unwrap_or(b' ')
}

// A word's first three letters, filled up with spaces.
fn filled(word: &[u8]) -> [u8; 3]
    ensures { result ≡ take 3 (word.now ++ ascii "   ") }
{
    [letter(word, 0), letter(word, 1), letter(word, 2)]
}

// The first code that has a word of at most three letters.
fn code_for(word: &[u8]) -> Asked
    ensures { action_of result ≡ code_for word.now }
{
    if word.len() > 3 {
        return Asked::Unknown;
    }
    let sought = filled(word);
    for code in 0..=255 {
        if mnemonics::letters(code) == sought {
            return Asked::Gives(mnemonics::entry(code).kind, code);
        }
    }
    Asked::Unknown
}

// What a word asks for.
pub fn action(word: &[u8]) -> Asked
    ensures { action_of result ≡ action_for word.now }
{
    // A `match` on these texts was tried: eleven ways lead to its last arm, and each is to be proved by hand.
    if word.is_empty() {
        return Asked::Nothing;
    }
    if word == b"ROM".as_slice() {
        return Asked::Length;
    }
    if word == b"ORG".as_slice() {
        return Asked::Address;
    }
    if word == b"BYTE".as_slice() {
        return Asked::Gives(Kind::NoInstruction, 0);
    }
    code_for(word)
}
