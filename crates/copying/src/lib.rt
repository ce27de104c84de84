// A copy of bytes into a buffer. The board's archive asks the linker for nothing, and std's `copy_from_slice` would ask for memmove.
// It may not know what the bytes are for.
#![tactic(auto)]

ghost use Rattle.std.specs.Prelude.{◌≡◌, ◌≤◌, ◌++◌, length, drop};

// Copies bytes to the front of a buffer, whose other bytes stay.
pub fn copy(from: &[u8], to: &mut [u8])
    requires { length from.now ≤ length to.old }
    ensures { to.new ≡ from.now ++ drop (length from.now) to.old }
{
    for k in 0..from.len() {
        to[k] = from[k];
    }
}
