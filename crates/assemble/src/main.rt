// Program `assemble`: reads assembler text from standard input and writes the ROM's bytes. Of a text with a mistake it writes nothing, and says on
// standard error in which line it is and what was expected. It may not know how a text is read.
#![tactic(auto)]

use assembly::Mistake;
use std::io::{Write, writer};
use std::rt::Runtime;
use streams::{Failure, Output};
use upd546::ROM_LENGTH;

// The longest text that is taken.
const TEXT_LENGTH: usize = 1000000;

fn main(rt: HostRuntime) {
    let mut out = Output::new(writer(&rt));
    let mut text = [0u8; TEXT_LENGTH];
    let done = run(&rt, &mut out, &mut text);
    streams::end(&rt, b"assemble", out, done);
}

// The ROM of a text, or the line of its mistake, and what was expected there.
fn run(rt: &impl Runtime, out: &mut Output<impl Write>, text: &mut [u8]) -> Result<(), Failure> {
    let got = streams::fill(&mut rt.reader(), text).map_err(Failure::Unread)?;
    if got == text.len() {
        return Err(Failure::Mistake("assemble: the text has over 999,999 bytes\n"));
    }
    let mut rom = [0u8; ROM_LENGTH];
    match assembler::assemble(&mut text[..got], &mut rom) {
        Ok(size) => Ok(out.write_first(&rom, size)?),
        Err(fault) => {
            let line = fault.line;
            let _ = eprint!(rt; "assemble: line {line}: ");
            Err(Failure::Mistake(expected(fault.mistake)))
        }
    }
}

// What was expected where a mistake is.
fn expected(mistake: Mistake) -> &'static str {
    match mistake {
        Mistake::TextBehind => {
            "text where the line should end: expected [LABEL:] [WORD [OPERAND]] [; comment]\n"
        }
        Mistake::UnknownWord => "unknown word: expected one of NEC's mnemonics, rom, org or byte\n",
        Mistake::OperandMissing => "no operand: expected one behind this word\n",
        Mistake::OperandUnwanted => "an operand: expected none behind this word\n",
        Mistake::NoNumber => "no number: expected hexadecimal digits\n",
        Mistake::NumberTooLarge => {
            "the number is too large: expected up to 3 of b and m, F of k, FF of a byte, 7FF of an address, 7D0 of rom\n"
        }
        Mistake::LabelUnknown => {
            "unknown label: expected one that stands in front of a line, with a colon\n"
        }
        Mistake::LabelTwice => {
            "the label stands at another address already: expected a label once\n"
        }
        Mistake::NotInPage => "JCP leads out of its page: expected an address of the same 64\n",
        Mistake::NoCzpAddress => {
            "CZP leads to no such address: expected one of 000, 004 and so on up to 03C\n"
        }
        Mistake::BeyondEnd => {
            "a byte beyond the ROM's end: expected addresses below its length\n"
        }
        Mistake::ByteTwice => {
            "a byte for this address was given already: expected one for each address\n"
        }
        Mistake::SecondElsewhere => {
            "an instruction of two bytes at xFF, whose second byte would be the one at x00: expected another address\n"
        }
        Mistake::RomNotFirst => "rom behind another statement: expected it first\n",
    }
}
