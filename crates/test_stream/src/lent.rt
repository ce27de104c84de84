// What a call is lent: parts of buffers, as long as the commands say.
ghost use Rattle.std.specs.Prelude.{◌≡◌, replicate, take};

use crate::commands::{Command, End};

// The first bytes, so many, or all if there are fewer.
pub fn front(bytes: &[u8], length: usize) -> &[u8]
    ensures { result.now ≡ take length bytes.now }
{
    let size = length.min(bytes.len());
    &bytes[..size]
}

pub fn front_mut(bytes: &mut [u8], length: usize) -> &mut [u8]
    ensures { result.now ≡ take length bytes.old }
{
    let size = length.min(bytes.len());
    &mut bytes[..size]
}

// A buffer, and how many of its bytes a call is lent: all if there are fewer. A length stands beside the buffer, and no slice is kept in its
// place: bytes past the length are changed and kept too, and another command may lend them.
#[derive(Clone, Copy)]
pub struct Lent<const N: usize> {
    pub space: [u8; N],
    pub length: usize,
}

impl<const N: usize> Lent<N> {
    pub fn new() -> Lent<N>
        ensures { result ≡ record { space = replicate N 0; length = 0 } }
    {
        Lent {
            space: [0; N],
            length: 0,
        }
    }

    // Its length and its bytes are the command's.
    pub fn read(&mut self, rt: &impl Input, c: Command) -> Result<(), End>
        ensures { self.new.length ≡ c.length }
    {
        self.length = c.length;
        c.read(rt, &mut self.space)
    }

    pub fn bytes(&self) -> &[u8]
        ensures { result.now ≡ take self.now.length self.now.space }
    {
        front(&self.space, self.length)
    }

    pub fn bytes_mut(&mut self) -> &mut [u8]
        ensures { result.now ≡ take self.old.length self.old.space }
    {
        let length = self.length;
        let space = &mut self.space;
        front_mut(&mut space[..], length)
    }
}
