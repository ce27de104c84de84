// Finds the shortest schedules that still stop, of the panels that the commands of standard input give, and tells what is answered: a line
// for a call or for a group of calls. The other interpreter writes the same text. The commands and the text are told at the top of
// tests/reference/src/bin/trials/stream.rs. It may not know how a run goes, what a trial is, nor what an image holds.
#![tactic(auto)]

mod panel;

use panel::Panel;

fn main(rt: HostRuntime) {
    let mut panel = Panel::new();
    test_stream::carry_out(&rt, |c| panel.one(&rt, c));
}
