// Numbers in bytes, big-endian. Past their end bytes read 0 and stores are lost, whatever place a command names; so a slice comes whole
// with a place in it, and no cut, which has no past (`slice_index`, `slice_set`).
ghost use Rattle.std.specs.Prelude.{◌≡◌, ◌+◌, slice_index, slice_set};
ghost use Rattle.upd546.specs.Sequences.{entries};
ghost use Rattle.test_stream.specs.Streams.{number_in, sheet_in};

use upd546::Sheet;

pub fn byte(bytes: &[u8], at: usize) -> u8
    ensures { result ≡ slice_index bytes.now at }
{
    bytes.get(at).copied().unwrap_or(0)
}

// Two bytes.
pub fn word(bytes: &[u8], at: usize) -> u16
    ensures { result ≡ number_in bytes.now at 2 }
{
    u16::from_be_bytes(part(bytes, at))
}

// Four bytes.
pub fn long(bytes: &[u8], at: usize) -> u32
    ensures { result ≡ number_in bytes.now at 4 }
{
    u32::from_be_bytes(part(bytes, at))
}

// Eight bytes.
pub fn eight(bytes: &[u8], at: usize) -> u64
    ensures { result ≡ number_in bytes.now at 8 }
{
    u64::from_be_bytes(part(bytes, at))
}

// The bytes from a place on, as many as are wanted.
pub fn part<const N: usize>(bytes: &[u8], at: usize) -> [u8; N]
    ensures { result ≡ entries N (λ i. slice_index bytes.now (at + i)) }
{
    let rest = &bytes[at.min(bytes.len())..];
    let mut part = [0; N];
    for (i, x) in part.iter_mut().enumerate() {
        *x = byte(rest, i);
    }
    part
}

// A store past the end is lost.
pub fn store(target: &mut [u8], at: usize, x: u8)
    ensures { target.new ≡ slice_set target.old at x }
{
    if at < target.len() {
        target[at] = x;
    }
}

// All of some bytes, to a place of a target. What falls past its end is lost.
pub fn lay(target: &mut [u8], at: usize, from: &[u8]) {
    let Some(rest) = target.get_mut(at..) else {
        return;
    };
    for (x, y) in rest.iter_mut().zip(from) {
        *x = *y;
    }
}

// The bytes of a sheet: ROM bytes, rows and levels, 8 each.
pub const SHEET: usize = 24;

// The sheet that bytes are.
pub fn sheet_of(bytes: &[u8]) -> Sheet
    ensures { result ≡ sheet_in bytes.now }
{
    Sheet {
        rom: eight(bytes, 0),
        rows: eight(bytes, 8),
        levels: eight(bytes, 16),
    }
}
