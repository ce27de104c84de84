// Makes the rounds of a bank of panels that the commands of standard input ask for, one after the other on one bank, and tells what they
// leave: a line for a round or for a group of rounds. A bank is that of the board's C program, or a row of panels by value. The other
// interpreter writes the same text. The commands and the text are told at the top of tests/reference/src/bin/trials/stream.rs. It may not
// know how a grant is made, nor how a run goes.
#![tactic(auto)]

mod keeper;
mod rows;

use keeper::Keeper;

fn main(rt: HostRuntime) {
    let mut keeper = Keeper::new();
    test_stream::carry_out(&rt, |c| keeper.one(&rt, c));
}
