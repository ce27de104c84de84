// The commands of standard input, one after the other, and what ends them.
ghost use Rattle.std.specs.Prelude.{◌≡◌, ◌≤◌, length, slice_set};
ghost use Rattle.test_stream.specs.Commands.{command_in, wanted_of};

use crate::numbers::{eight, long, store, word};
use std::io::Read;

// The bytes of a command, numbers big-endian.
const HEAD: usize = 24;

// More commands than any stream has.
const MOST: u64 = 0x4000_0000_0000;

// A letter, and numbers that mean what the letter says. It is a letter and no enum, since each program has letters of its own and tells
// those that it doesn't know.
#[derive(Clone, Copy)]
pub struct Command {
    pub letter: u8,
    pub value: u8,
    pub place: usize,
    pub length: usize,
    pub n: u64,
    pub runner: u64,
}

// What becomes of a call's answer, by its command's value: it is told in a line, chained to the digest of its group, or summed to its
// list. No stream has another value.
#[derive(Clone, Copy, PartialEq, Eq)]
pub enum Wanted {
    Line,
    Group,
    List,
    Other,
}

// Why no command follows: a command says so, bytes that are announced aren't there, or there is no command of this letter.
#[derive(Clone, Copy, PartialEq, Eq)]
pub enum End {
    Asked,
    CutShort,
    Unknown(u8),
}

impl From<&[u8; HEAD]> for Command {
    fn from(head: &[u8; HEAD]) -> Command
        ensures { result ≡ command_in head.now }
    {
        Command {
            letter: head[0],
            value: head[1],
            place: usize::from(word(head, 2)),
            length: long(head, 4) as usize,
            n: eight(head, 8),
            runner: eight(head, 16),
        }
    }
}

impl From<u8> for Wanted {
    #[tactic(auto, unfolding(crate::specs::Commands::wanted_of))]
    fn from(value: u8) -> Wanted
        ensures { result ≡ wanted_of value }
    {
        match value {
            0 => Wanted::Line,
            1 => Wanted::Group,
            2 => Wanted::List,
            _ => Wanted::Other,
        }
    }
}

impl Command {
    // The next command. None has the letter 0.
    fn next(rt: &impl Input) -> Result<Command, End> {
        let mut head = [0; HEAD];
        read_exact(rt, &mut head)?;
        if head[0] == 0 {
            return Err(End::CutShort);
        }
        Ok(Command::from(&head))
    }

    pub fn wanted(self) -> Wanted
        ensures { result ≡ wanted_of self.value }
    {
        Wanted::from(self.value)
    }

    // Reads the bytes after the command to the start of a buffer, whose others become 0. With none the buffer stays as it is.
    pub fn read(self, rt: &impl Input, space: &mut [u8]) -> Result<(), End> {
        if self.n == 0 {
            return Ok(());
        }
        if self.n > space.len() as u64 {
            return Err(End::CutShort);
        }
        let (front, rest) = space.split_at_mut(self.n as usize);
        rest.fill(0);
        read_exact(rt, front)
    }

    // One byte of a buffer becomes the command's value.
    pub fn change(self, space: &mut [u8])
        ensures { space.new ≡ slice_set space.old self.place self.value }
    {
        store(space, self.place, self.value);
    }
}

impl End {
    fn tell(self, rt: &impl Print) {
        match self {
            End::Asked => {}
            End::CutShort => put(rt, b"the stream is cut short\n"),
            End::Unknown(letter) => {
                put(rt, b"no such command: ");
                put(rt, &[letter]);
                put(rt, b"\n");
            }
        }
    }
}

// Carries out the commands of standard input, up to the one that ends them, and tells a stream that ends otherwise.
pub fn carry_out<R: Print + Input, F: FnMut(Command) -> Result<(), End>>(rt: &R, one: F)
    requires { F.IsAlwaysCallable one }
{
    if let Err(end) = up_to_end(rt, one) {
        end.tell(rt);
    }
}

fn up_to_end<R: Input, F: FnMut(Command) -> Result<(), End>>(rt: &R, mut one: F) -> Result<(), End>
    requires { F.IsAlwaysCallable one }
{
    for _ in 0..MOST {
        one(Command::next(rt)?)?;
    }
    Ok(())
}

// Reads until a buffer is full.
pub fn read_exact(rt: &impl Input, buffer: &mut [u8]) -> Result<(), End> {
    rt.reader().read_exact(buffer).map_err(|_| End::CutShort)
}

// Reads until a buffer is full, the input ends or a read fails: so many bytes of it stand at the front of the buffer. The loop stays: no
// method of std says how many bytes it read into a slice before the input ended. `streams::fill` answers an error for a read that fails,
// in place of the bytes before it, on which test_speed runs; and what the programs do on an input may not change.
pub fn read_full(rt: &impl Input, buf: &mut [u8]) -> usize
    ensures { result ≤ length buf.new }
{
    let mut from = rt.reader();
    let mut done = 0;
    while done < buf.len() {
        let Ok(n) = from.read(&mut buf[done..]) else {
            return done;
        };
        if n == 0 {
            return done;
        }
        done += n;
    }
    done
}

// Bytes. Where a write fails, the text is another one than the other interpreter's.
pub fn put(rt: &impl Print, bytes: &[u8]) {
    let _ = rt.write_all(bytes);
}
