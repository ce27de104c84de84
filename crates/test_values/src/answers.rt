// What the runs answer: told in a line, chained to one digest, or summed to a list.
use driver::Report;
use test_stream::{Command, Done, Session, Wanted, digest, is_refusal, mixed};

// A run's report, the digest of the state before it, the value of the state after it, and its log.
#[derive(Clone, Copy)]
pub(crate) struct Ran<'a> {
    pub report: Report,
    pub before: u64,
    pub value: &'a [u8],
    pub log: &'a [u8],
}

impl Ran<'_> {
    // What it answered, as the command wants it.
    pub(crate) fn answer(self, rt: &impl Print, c: Command, session: &mut Session) {
        match c.wanted() {
            Wanted::Line => self.tell(rt),
            Wanted::Group => self.chain(session),
            Wanted::List | Wanted::Other => self.list(c.n, session),
        }
    }

    fn number(self) -> u8 {
        runs::end_number(self.report.end)
    }

    // Cycles, clock cycles, instructions, log bytes and steps.
    fn counts(self) -> [u64; 5] {
        let report = self.report;
        [
            report.cycles.0,
            report.clocks.0,
            report.begun,
            report.written as u64,
            report.steps,
        ]
    }

    // A line: number, counts, and digests of the state and of the whole log.
    fn tell(self, rt: &impl Print) {
        let number = self.number();
        let [cycles, clocks, begun, written, steps] = self.counts();
        let _ = println!(rt;
            "{number} {cycles} {clocks} {begun} {written} {steps} {} {}",
            digest(0, self.value),
            digest(0, self.log)
        );
    }

    // One call more of a group: its number, counts, state and log.
    fn chain(self, session: &mut Session) {
        let number = self.number();
        let mut h = session.next(number);
        for count in &self.counts() {
            h = mixed(h, *count);
        }
        session.chained(number, digest(digest(h, self.value), self.log));
    }

    // One call more of a list. A refused run answers the state that it was given, and every count 0.
    fn list(self, asked: u64, session: &mut Session) {
        let number = self.number();
        let counts = self.counts();
        let list = &mut session.list;
        if is_refusal(number) {
            let same = digest(0, self.value) == self.before;
            list.refused(number, same && counts.iter().all(|count| *count == 0));
            return;
        }
        let [cycles, _, begun, written, _] = counts;
        list.called(
            asked,
            Done {
                number,
                cycles,
                begun,
                written,
            },
        );
    }
}
