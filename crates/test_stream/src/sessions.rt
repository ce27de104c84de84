// What is carried from command to command, besides the buffers.
ghost use Rattle.std.specs.Prelude.{◌≡◌};
ghost use Rattle.test_stream.specs.Commands.{is_refused};

use crate::commands::{Command, End, Wanted};
use crate::digests::{digest, mixed, untouched};
use crate::lists::{Done, List, Sums, Tally};

// A group's calls, how many of them were refused, and a digest of all that they left.
#[derive(Clone, Copy, Default)]
struct Group {
    calls: u64,
    refused: u64,
    digest: u64,
}

// The group and the list on their way, the list that is remembered, and what the lists came to.
#[derive(Clone, Copy, Default)]
pub struct Session {
    group: Group,
    pub list: List,
    whole: Sums,
    tally: Tally,
}

// All numbers but those of a finish and of the stops. The numbers stand here once more: a test may not take them from what it tests
// (`board::ran`).
pub fn is_refusal(number: u8) -> bool
    ensures { result ≡ is_refused number }
{
    !matches!(number, 0 | 3 | 22 | 23)
}

impl Session {
    // A command that every program has.
    pub fn other(&mut self, rt: &impl Print, c: Command) -> Result<(), End> {
        match c.letter {
            b'G' => self.tell_group(rt),
            b'.' => return Err(End::Asked),
            letter => return Err(End::Unknown(letter)),
        }
        Ok(())
    }

    // The group's digest, and after it the number of its next call.
    pub fn next(&self, number: u8) -> u64 {
        mixed(self.group.digest, u64::from(number))
    }

    // One call more of the group, with the digest of all so far.
    pub fn chained(&mut self, number: u8, h: u64) {
        self.group.digest = h;
        self.group.calls = self.group.calls.wrapping_add(1);
        if is_refusal(number) {
            self.group.refused = self.group.refused.wrapping_add(1);
        }
    }

    // A line for the group: calls, those refused, and the digest.
    fn tell_group(&mut self, rt: &impl Print) {
        let Group {
            calls,
            refused,
            digest,
        } = self.group;
        let _ = println!(rt; "{calls} {refused} {digest}");
        self.group = Group::default();
    }

    // A call of a list that does no cycle. One that is refused is clean if it changed nothing.
    pub fn listed(&mut self, number: u8, clean: bool) {
        if number != 0 {
            self.list.refused(number, clean);
            return;
        }
        self.list.called(0, Done::default());
    }

    // What a save, a conversion or a fresh image left in a buffer in which the pattern stood: its number and the buffer. A refused one of a
    // list leaves the buffer.
    pub fn buffer_answered(&mut self, c: Command, number: u8, buffer: &[u8]) {
        match c.wanted() {
            Wanted::List => self.listed(number, untouched(buffer, 0)),
            _ => self.chained(number, digest(self.next(number), buffer)),
        }
    }

    // The list has ended, and is the one that others are compared with.
    pub fn remember(&mut self) {
        self.whole = self.list.sums;
        self.list = List::default();
    }

    // The list has ended.
    pub fn end_list(&mut self) {
        self.tally.ended(self.list, self.whole);
        self.list = List::default();
    }

    // A line for a panel.
    pub fn tell_panel(&mut self, rt: &impl Print) {
        self.tally.tell(rt, self.whole);
        self.tally = Tally::default();
    }
}
