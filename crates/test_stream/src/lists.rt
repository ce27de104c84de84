// What a list of calls comes to, and how many lists came to the same as the one that is remembered: the unbroken run.

// What a call answered that was not refused: its number, as C is answered it, and what it did.
#[derive(Clone, Copy, Default)]
pub struct Done {
    pub number: u8,
    pub cycles: u64,
    pub begun: u64,
    pub written: u64,
}

// What two lists of one panel have the same: the number of the first call that didn't finish; cycles, instructions and log bytes together;
// digests of the joined log and of what is kept at the end.
#[derive(Clone, Copy, PartialEq, Eq, Default)]
pub struct Sums {
    stop: Option<u8>,
    cycles: u64,
    begun: u64,
    pub written: u64,
    pub log: u64,
    pub kept: u64,
}

// How many calls there were and how many were refused, with the sum of their numbers.
#[derive(Clone, Copy, Default)]
struct Calls {
    calls: u64,
    refused: u64,
    numbers: u64,
}

// A list on its way: its sums, whether something was wrong, and its calls.
#[derive(Clone, Copy, Default)]
pub struct List {
    pub sums: Sums,
    pub wrong: bool,
    calls: Calls,
}

// How many lists ended, how many of them the same, and their calls.
#[derive(Clone, Copy, Default)]
pub(crate) struct Tally {
    lists: u64,
    same: u64,
    calls: Calls,
}

impl List {
    // One call more, which was asked for so many cycles. Every stop of a list has the same number, and a call that finished did the cycles
    // that it was asked for.
    pub fn called(&mut self, asked: u64, done: Done) {
        let stop = stop_of(done.number);
        let sums = &mut self.sums;
        sums.stop = sums.stop.or(stop);
        sums.cycles = sums.cycles.wrapping_add(done.cycles);
        sums.begun = sums.begun.wrapping_add(done.begun);
        sums.written = sums.written.wrapping_add(done.written);
        let fits = match stop {
            None => done.cycles == asked,
            Some(_) => sums.stop == stop,
        };
        self.wrong |= !fits;
        self.calls.calls = self.calls.calls.wrapping_add(1);
    }

    // One call more, which was refused; clean if it changed nothing.
    pub fn refused(&mut self, number: u8, clean: bool) {
        self.wrong |= !clean;
        self.calls.add(Calls {
            calls: 1,
            refused: 1,
            numbers: u64::from(number),
        });
    }
}

// The number of a call that stopped.
fn stop_of(number: u8) -> Option<u8> {
    (number != 0).then_some(number)
}

impl Calls {
    fn add(&mut self, more: Calls) {
        self.calls = self.calls.wrapping_add(more.calls);
        self.refused = self.refused.wrapping_add(more.refused);
        self.numbers = self.numbers.wrapping_add(more.numbers);
    }
}

impl Tally {
    // One list more.
    pub(crate) fn ended(&mut self, list: List, whole: Sums) {
        self.lists = self.lists.wrapping_add(1);
        self.calls.add(list.calls);
        if !list.wrong && list.sums == whole {
            self.same = self.same.wrapping_add(1);
        }
    }

    // A line: the list that is remembered, and how many lists ended as it did.
    pub(crate) fn tell(&self, rt: &impl Print, whole: Sums) {
        let _ = println!(rt;
            "{} {} {} {} {} {} {} {} {} {} {}",
            whole.stop.unwrap_or(0),
            whole.cycles,
            whole.begun,
            whole.written,
            whole.kept,
            whole.log,
            self.lists,
            self.same,
            self.calls.calls,
            self.calls.refused,
            self.calls.numbers
        );
    }
}
