// What the calls leave: told in a line, chained to one digest, or summed to a list.
use test_stream::{Command, Done, Session, Wanted, digest, eight, front, is_refusal, untouched};

// The bytes of a report.
const REPORT: usize = 32;

// A call's number, the digest of its image before it, and what it left.
#[derive(Clone, Copy)]
pub(crate) struct Left<'a> {
    pub number: u8,
    pub before: u64,
    pub image: &'a [u8],
    pub log: &'a [u8],
    pub report: &'a [u8],
}

impl Left<'_> {
    // What it left, as the command wants it.
    pub(crate) fn answer(self, rt: &impl Print, c: Command, session: &mut Session) {
        match c.wanted() {
            Wanted::Line => self.tell(rt),
            Wanted::Group => self.chain(session),
            Wanted::List | Wanted::Other => self.list(c.n, session),
        }
    }

    // Cycles, instructions, log bytes and steps, as the report has them.
    fn counts(self) -> [u64; 4] {
        [0, 8, 16, 24].map(|at| eight(self.report, at))
    }

    // A line: number, the report's counts, and digests of image, log and report.
    fn tell(self, rt: &impl Print) {
        let number = self.number;
        let [cycles, begun, written, steps] = self.counts();
        let _ = println!(rt;
            "{number} {cycles} {begun} {written} {steps} {} {} {}",
            digest(0, self.image),
            digest(0, self.log),
            digest(0, self.report)
        );
    }

    // One call more of a group: its number, report, image and log.
    fn chain(self, session: &mut Session) {
        let h = digest(session.next(self.number), self.report);
        let h = digest(h, self.image);
        session.chained(self.number, digest(h, self.log));
    }

    // One call more of a list.
    fn list(self, asked: u64, session: &mut Session) {
        let number = self.number;
        let list = &mut session.list;
        if is_refusal(number) {
            list.refused(number, self.changes_nothing());
            return;
        }
        let [cycles, begun, written, _] = self.counts();
        list.called(
            asked,
            Done {
                number,
                cycles,
                begun,
                written,
            },
        );
        let size = written as usize;
        list.sums.log = digest(list.sums.log, front(self.log, size));
        list.wrong |= !untouched(self.log, size);
    }

    // Whether a refused call left image and log as they were, and a report that counts nothing.
    fn changes_nothing(self) -> bool {
        digest(0, self.image) == self.before && untouched(self.log, 0) && self.counts_nothing()
    }

    // Whether the report is that of a refusal: 32 zeros; one that is shorter stays as it was.
    fn counts_nothing(self) -> bool {
        if self.report.len() < REPORT {
            return untouched(self.report, 0);
        }
        self.report.iter().take(REPORT).all(|x| *x == 0)
    }
}
