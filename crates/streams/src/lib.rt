// Standard input and standard output, over `read` and `write` of std: a failed read is never taken for the end of the input, and a failed
// write never for a write. And the last word of a program, by which its caller learns that nothing was lost.
// It may not know what is read or written, but for the line of a refusal.
#![tactic(auto)]

ghost use Rattle.std.specs.Prelude.{◌≡◌, ◌+◌, ◌<◌, ◌^◌, ◌∷◌, [], ◌++◌, length, Ok};
ghost use Rattle.upd546.specs.Reports.{decimal};
ghost use Rattle.streams.specs.Streams.{IsTurn, Filled, IsPart, Wrote, WroteShort, told, is_refusal};
ghost use Rattle.streams.specs.declared.Failure.TheVariants.{Cut};

use std::fmt;
use std::fmt::{Display, Formatter, InlineText};
use std::fs::{File, OpenOptions};
use std::io::{Error, ErrorKind, Read, Write, writer};
use std::rt::{Env, Runtime};
use text::Text;

// Standard output was cut off: so many bytes of it were written, then a write failed.
#[derive(Clone, Copy)]
pub struct Cut {
    pub written: u64,
    pub why: Error,
}

impl Cut {
    // The same cut, of what stands behind so many bytes.
    fn behind(self, before: u64) -> Cut
        requires { before + self.written < 2 ^ 64 }
        ensures { result ≡ record { written = before + self.written; why = self.why } }
    {
        Cut {
            written: before + self.written,
            ..self
        }
    }
}

// STANDARD OUTPUT, or what else is written to, with what it has so far: so many bytes, all that were to be written; or it was cut off, and
// nothing is written to it any more.
#[derive(Clone, Copy, Drop)]
pub struct Output<W> {
    pub to: W,
    pub so_far: Result<u64, Cut>,
}

// Why a program ends otherwise than with all that it was asked for.
#[derive(Clone, Copy)]
pub enum Failure {
    // "A refusal prints only `refused` and the number."
    Refused(u8),
    // It was asked for something else than it does: the line for standard error.
    Mistake(&'static str),
    // Standard input could not be read.
    Unread(Error),
    // Standard output was cut off.
    Cut(Cut),
}

impl From<Cut> for Failure {
    ghost from_gives = { λ cut failure. failure ≡ Cut cut };

    fn from(cut: Cut) -> Failure {
        Failure::Cut(cut)
    }
}

// The most calls for a buffer: each moves a byte at least, or was interrupted.
const CALLS: usize = 1000000;

// Linux's number of the error of a call that a signal interrupted.
const EINTR: i32 = 4;

// The longest words for an error, and what std puts behind them.
const REASON_LENGTH: usize = 128;

const CODE_MARK: &str = " (os error ";

// The longest path of a descriptor, and what is read of what Linux tells of one: its first two lines are shorter.
const PATH_LENGTH: usize = 32;

const INFO_LENGTH: usize = 64;

// No output has so many bytes.
const MOST_BYTES: u64 = 0x8000_0000_0000_0000;

// A number of 64 bits and a byte behind it; the line of a refusal, with as many digits.
const NUMBER_LENGTH: usize = 21;

const REFUSED_SPACE: usize = 29;

const SHORT_LENGTH: usize = 16;

// The longest line of a refusal: `refused`, a space, three digits and the line's end. `refused_most` is the same number.
const REFUSED_LENGTH: usize = 12;

// What a call of `read` or `write` that did not fail came to.
#[derive(Clone, Copy)]
enum Turn {
    // So many bytes were moved, one at least.
    Moved(usize),
    // No byte was moved: the end of the input.
    Ended,
    // A signal came before a byte was moved: the call is made again.
    Interrupted,
}

// What a call came to, by its answer, or why it failed.
fn judged(answer: Result<usize, Error>) -> Result<Turn, Error>
    ensures { IsTurn answer result }
{
    match answer {
        Ok(0) => Ok(Turn::Ended),
        Ok(n) => Ok(Turn::Moved(n)),
        Err(e) if e.kind() == ErrorKind::Interrupted => Ok(Turn::Interrupted),
        Err(e) => Err(e),
    }
}

// The error of a call that signals interrupted again and again.
fn interrupted() -> Error {
    Error::from_raw_os_error(EINTR)
}

// FILLS A BUFFER FROM A READER, which is standard input, and answers how many bytes of it stand at the front: as many as the buffer has, or
// all up to the end of the input. After a read that failed, what stands in the buffer isn't the input.
pub fn fill<R: Read>(from: &mut R, buf: &mut [u8]) -> Result<usize, Error>
    ensures { Filled result buf.new }
{
    let mut at = 0;
    for _ in 0..CALLS {
        if buf.len() <= at {
            return Ok(buf.len());
        }
        match judged(from.read(&mut buf[at..]))? {
            Turn::Ended => return Ok(at),
            Turn::Moved(n) => at += n,
            Turn::Interrupted => {}
        }
    }
    Err(interrupted())
}

// Writes the bytes: all, or those before the first write that failed.
fn put<W: Write>(to: &mut W, bytes: &[u8]) -> Result<(), Cut>
    ensures { IsPart result (length bytes.now) }
{
    let mut at = 0;
    for _ in 0..CALLS {
        if bytes.len() <= at {
            return Ok(());
        }
        let written = at as u64;
        match judged(to.write(&bytes[at..])) {
            Ok(Turn::Ended) => {
                let why = Error::from(ErrorKind::WriteZero);
                return Err(Cut { written, why });
            }
            Ok(Turn::Moved(n)) => at += n,
            Ok(Turn::Interrupted) => {}
            Err(why) => return Err(Cut { written, why }),
        }
    }
    if bytes.len() <= at {
        return Ok(());
    }
    let written = at as u64;
    let why = interrupted();
    Err(Cut { written, why })
}

impl<W: Write> Output<W> {
    // Nothing is written yet.
    pub fn new(to: W) -> Output<W>
        ensures { result.so_far ≡ Ok 0 }
    {
        Output { to, so_far: Ok(0) }
    }

    // WRITES BYTES, unless an earlier write has failed.
    pub fn write(&mut self, bytes: &[u8]) -> Result<(), Cut>
        ensures wrote { Wrote self.old.so_far (length bytes.now) self.new.so_far }
        ensures told { result ≡ told self.new.so_far }
    {
        let written = self.so_far?;
        if bytes.is_empty() {
            return Ok(());
        }
        self.so_far = if MOST_BYTES <= written {
            let why = Error::from(ErrorKind::FileTooLarge);
            Err(Cut { written, why })
        } else {
            match put(&mut self.to, bytes) {
                Ok(()) => Ok(written + bytes.len() as u64),
                Err(cut) => Err(cut.behind(written)),
            }
        };
        self.told()
    }

    // The first bytes, so many; where there are fewer, none of them, and not all is written.
    pub fn write_first(&mut self, bytes: &[u8], count: usize) -> Result<(), Cut>
        ensures wrote { Wrote self.old.so_far count self.new.so_far }
        ensures told { result ≡ told self.new.so_far }
    {
        if count <= bytes.len() {
            return self.write(&bytes[..count]);
        }
        let written = self.so_far?;
        let why = Error::from(ErrorKind::InvalidInput);
        self.so_far = Err(Cut { written, why });
        self.told()
    }

    // A number and one byte behind it. A number of 64 bits has at most 20 digits.
    pub fn write_number(&mut self, n: u64, after: u8) -> Result<(), Cut>
        ensures wrote { Wrote self.old.so_far (length (decimal n ++ (after ∷ []))) self.new.so_far }
        ensures told { result ≡ told self.new.so_far }
    {
        let mut space = [0u8; NUMBER_LENGTH];
        let mut text = Text::new(&mut space);
        text.push_number(n, after);
        self.write(text.as_slice())
    }

    // A short text, as of digits in hexadecimal: of one that is longer than 16 bytes a part, and dots.
    pub fn write_short<D: Display + Drop>(&mut self, text: D) -> Result<(), Cut>
        ensures wrote { WroteShort (D.output text) self.old.so_far self.new.so_far }
        ensures told { result ≡ told self.new.so_far }
    {
        let short = InlineText::<SHORT_LENGTH>::of(text);
        self.write(short.as_str().as_bytes())
    }

    // Whether all was written that was to be.
    fn told(&self) -> Result<(), Cut>
        ensures { result ≡ told self.now.so_far }
    {
        self.so_far?;
        Ok(())
    }
}

// The descriptor to which the caller wants the last word: the program's first argument, one of 3 to 9.
fn word_descriptor(rt: &impl Env) -> Option<u8> {
    let mut word = [0u8; 2];
    let Ok(1) = rt.arg(1, &mut word) else {
        return None;
    };
    match word[0] {
        b'3'..=b'9' => Some(word[0] % 16),
        _ => None,
    }
}

// Whether a descriptor is open for writing. Linux tells its flags in the second line of a file of its own, as an octal number, whose last
// digit is 0 where it is open for reading alone.
fn is_writable(rt: &impl Runtime, descriptor: u8) -> bool {
    let path = InlineText::<PATH_LENGTH>::of(format_args!("/proc/self/fdinfo/{descriptor}"));
    let Ok(mut from) = File::open(rt, path.as_str()) else {
        return false;
    };
    let mut info = [0u8; INFO_LENGTH];
    let _ = fill(&mut from, &mut info);
    let Ok(text) = str::from_utf8(&info) else {
        return false;
    };
    match text.lines().nth(1) {
        Some(flags) => !flags.ends_with('0'),
        None => false,
    }
}

// std reaches no descriptor by its number, so it is opened anew, by its path, and only where it is open for writing. A file's place is 0
// then, so the word is put behind what stands there; and where a pipe is opened for reading too, that waits for no reader. Where it can't be
// opened, as a socket, there is no last word.
fn last_word(rt: &impl Runtime, word: &[u8]) {
    let Some(descriptor) = word_descriptor(rt) else {
        return;
    };
    if !is_writable(rt, descriptor) {
        return;
    }
    let path = InlineText::<PATH_LENGTH>::of(format_args!("/proc/self/fd/{descriptor}"));
    let Ok(mut to) = OpenOptions::new()
        .read(true)
        .append(true)
        .open(rt, path.as_str())
    else {
        return;
    };
    let _ = put(&mut to, word);
}

// Bytes for people, on standard error: what is UTF-8 in them as it stands, and U+FFFD in place of what isn't.
#[derive(Clone, Copy)]
struct Words<'a>(&'a [u8]);

impl Display for Words<'_> {
    fn fmt<W: fmt::Write>(&self, f: &mut Formatter<W>) -> fmt::Result {
        for chunk in self.0.utf8_chunks() {
            f.write_str(chunk.valid())?;
            if !chunk.invalid().is_empty() {
                f.write_char(char::REPLACEMENT_CHARACTER)?;
            }
        }
        Ok(())
    }
}

// A line on standard error: what failed, and why.
fn tell(rt: &impl Eprint, what: impl Display + Drop, why: Error) {
    let words = InlineText::<REASON_LENGTH>::of(why);
    let all = words.as_str();
    let reason = match all.split_once(CODE_MARK) {
        Some((text, _)) => text,
        None => all,
    };
    let _ = eprintln!(rt; "{what}: {reason}");
}

// The end of a program whose standard output was cut off: there is no last word.
fn end_cut(rt: &impl Eprint, name: &[u8], cut: Cut) {
    let Cut { written, why } = cut;
    let name = Words(name);
    tell(
        rt,
        format_args!("{name}: standard output ends after {written} bytes and must not be used"),
        why,
    );
}

// The end of a program whose input could not be read: nothing was written, and there is no last word.
pub fn end_unread(rt: &impl Eprint, name: &[u8], why: Error) {
    let name = Words(name);
    tell(
        rt,
        format_args!("{name}: nothing is reported, since standard input could not be read"),
        why,
    );
}

// The end of a program that was asked for something else than it does: `words` on standard error, and nothing was written.
pub fn end_mistake(rt: &impl Runtime, words: &[u8]) {
    let _ = rt.eprint(Words(words));
    last_word(rt, b"mistake\n");
}

// The end of a program that has written its answer: the last word, where all of it was written.
fn end_written(rt: &impl Runtime, name: &[u8], answer: Result<(), Cut>, word: &[u8]) {
    match answer {
        Ok(()) => last_word(rt, word),
        Err(cut) => end_cut(rt, name, cut),
    }
}

// THE END OF A PROGRAM, by what it came to. The line of a refusal stands behind what was written: a page for people, which tells of the
// refusal too; of most programs it is all.
// Each `main` makes an output, runs, and calls this, or `end_text`. One function for them all, which takes the run as a closure, was tried: no
// proof is made of the call, since its answer has a `&'static str` in it (a call gives a callee another lifetime for `'static`).
pub fn end<W: Write + Drop>(
    rt: &impl Runtime,
    name: &[u8],
    mut out: Output<W>,
    done: Result<(), Failure>,
) {
    match done {
        Ok(()) => end_written(rt, name, out.told(), b"whole\n"),
        Err(Failure::Refused(number)) => {
            let mut line = [0u8; REFUSED_SPACE];
            let mut text = Text::new(&mut line);
            text.push_refused(number);
            end_written(rt, name, out.write(text.as_slice()), text.as_slice());
        }
        Err(Failure::Mistake(words)) => end_mistake(rt, words.as_bytes()),
        Err(Failure::Unread(why)) => end_unread(rt, name, why),
        Err(Failure::Cut(cut)) => end_cut(rt, name, cut),
    }
}

// The end of a program whose whole output is a text, unless its input could not be read. Where the text is the line of a refusal, so is the
// last word.
pub fn end_text(rt: &impl Runtime, name: &[u8], text: Result<&[u8], Error>) {
    match text {
        Ok(text) => {
            let word: &[u8] = if is_refusal(text) { text } else { b"whole\n" };
            end_written(rt, name, Output::new(writer(rt)).write(text), word);
        }
        Err(why) => end_unread(rt, name, why),
    }
}

// Whether a text is the line of a refusal: any other is longer, or begins otherwise.
fn is_refusal(text: &[u8]) -> bool
    ensures { result ≡ is_refusal text.now }
{
    text.first() == Some(&b'r') && text.len() <= REFUSED_LENGTH
}
