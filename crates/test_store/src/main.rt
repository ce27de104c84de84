// Keeps images under names and recalls them, as the commands of standard input ask, one after the other on one store, and tells what comes
// of it: a line for a call or for a group of calls. The other interpreter writes the same text. The commands and the text are told at the
// top of tests/reference/src/bin/trials/stream.rs. It may not know what a state is, nor what an entry is.
#![tactic(auto)]

mod keeper;

use keeper::Keeper;

fn main(rt: HostRuntime) {
    let mut keeper = Keeper::new();
    test_stream::carry_out(&rt, |c| keeper.one(&rt, c));
}
