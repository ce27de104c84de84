// What the programs of the tests share: the commands of a stream and the cases of a file, what calls are lent, numbers in bytes, what stands
// in a buffer before a call, digests, what is carried from command to command, and what a list of calls comes to. The commands are told at
// the top of tests/reference/src/bin/trials/stream.rs. It may not know how a call, a run, a save or a restore goes.
#![tactic(auto)]

mod cases;
mod commands;
mod digests;
mod lent;
mod lists;
mod numbers;
mod sessions;

pub use cases::try_cases;
pub use commands::{Command, End, Wanted, carry_out, put, read_exact, read_full};
pub use digests::{digest, fill, mixed, untouched};
pub use lent::{Lent, front, front_mut};
pub use lists::{Done, List, Sums};
pub use numbers::{SHEET, byte, eight, lay, long, part, sheet_of, store, word};
pub use sessions::{Session, is_refusal};
