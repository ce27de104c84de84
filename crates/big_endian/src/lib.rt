// Numbers as bytes, big-endian, as schedules, images, logs and inputs have them. It may not know what the bytes are for.
#![tactic(auto)]

ghost use Rattle.std.specs.Prelude.{◌≡◌, ◌++◌, ◌+◌, ◌^◌, ◌<◌, ◌≤◌, length, drop};
ghost use Rattle.upd546.specs.Bytes.{number_at, bytes_of};

// The number that `count` bytes from a place on are.
pub fn number_at(bytes: &[u8], at: usize, count: usize) -> u64
    requires { (at + count ≤ length bytes.now) × (count ≤ 8) }
    ensures { (result ≡ number_at bytes.now at count) × (result < 256 ^ count) }
{
    let mut number: u64 = 0;
    for i in 0..count {
        number = 256 * number + bytes[at + i] as u64;
    }
    number
}

// The low N bytes of a number, at the front of what is lent.
pub fn put_number<const N: usize>(bytes: &mut [u8], n: u64)
    requires { N ≤ length bytes.old }
    ensures { bytes.new ≡ bytes_of N n ++ drop N bytes.old }
{
    let mut rest = n;
    for k in 0..N {
        bytes[N - 1 - k] = (rest % 256) as u8;
        rest /= 256;
    }
}
