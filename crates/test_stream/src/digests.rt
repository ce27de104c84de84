// What stands in a buffer before a call, and the digest of bytes: h = 0, and for each byte x, h = (h * 257 + x + 1) mod 1,000,000,007.
ghost use Rattle.std.specs.Prelude.{◌≡◌, ◌+◌, ◌*◌, ◌%◌, ◌<◌, length};
ghost use Rattle.upd546.specs.Sequences.{entries};
ghost use Rattle.test_stream.specs.Streams.{pattern_at, digest_from};

// A prime.
const MODULUS: u64 = 1_000_000_007;

// What stands in a log, a report or a buffer before a call.
#[tactic(auto, using(crate::proofs::Filling::filled_more))]
pub fn fill(bytes: &mut [u8])
    ensures { bytes.new ≡ entries (length bytes.old) pattern_at }
{
    for (i, x) in bytes.iter_mut().enumerate() {
        *x = pattern(i);
    }
}

pub fn pattern(i: usize) -> u8
    ensures { result ≡ pattern_at i }
{
    ((i % 256 * 7 + 13) % 256) as u8
}

// Whether the bytes from a place on are those that stood there before the call.
pub fn untouched(bytes: &[u8], from: usize) -> bool {
    match bytes.get(from..) {
        Some(rest) => rest
            .iter()
            .enumerate()
            .all(|(i, x)| *x == pattern(from + i)),
        None => true,
    }
}

// The digest of bytes, of which those before have the digest h.
pub fn digest(h: u64, bytes: &[u8]) -> u64
    ensures { result ≡ digest_from (h % 1000000007) bytes.now }
{
    let mut d = h % MODULUS;
    for x in bytes {
        d = step(d, *x);
    }
    d
}

// One byte more.
fn step(h: u64, x: u8) -> u64
    requires { h < 1000000007 }
    ensures { (result ≡ (h * 257 + x + 1) % 1000000007) × (result < 1000000007) }
{
    (h * 257 + u64::from(x) + 1) % MODULUS
}

// A number more, taken as one byte is. Where one of several differs by less than the modulus, so does what they are mixed to: 257 has an
// inverse modulo this prime.
pub fn mixed(h: u64, x: u64) -> u64
    ensures { result < 1000000007 }
{
    (h % MODULUS * 257 + x % MODULUS + 1) % MODULUS
}
