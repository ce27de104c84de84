// Makes the board's calls that the commands of standard input ask for, one after the other on one image, and conversions of that image, and
// tells what they leave: a line for a call, for a group of calls, or for a panel's lists. The other interpreter writes the same text; of
// lists it writes it of one unbroken call. The commands and the text are told at the top of tests/reference/src/bin/trials/stream.rs.
// The sheet of the calls and conversions that follow is the command H: after its 24 bytes stand, as many as n says, those of ROM bytes,
// rows and levels, 8 each, big-endian; the rest of them is 0, and before the first H all of them. It may not know what a state is, nor
// how a call goes.
#![tactic(auto)]

mod answers;
mod panel;

use panel::Panel;

fn main(rt: HostRuntime) {
    let mut panel = Panel::new();
    test_stream::carry_out(&rt, |c| panel.one(&rt, c));
}
