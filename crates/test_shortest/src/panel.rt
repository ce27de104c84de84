// A panel: what a call is lent, as long as the commands say, and what is told of its answer.
use runs::MachineCycles;
use test_stream::{
    Command, End, Lent, SHEET, Session, Wanted, fill, front_mut, mixed, sheet_of, untouched,
};

// The most cycles that the log has 16 bytes for.
const MOST_CYCLES: u64 = 4096;

#[derive(Drop)]
pub(crate) struct Panel {
    session: Session,
    rom: Lent<4096>,
    schedule: Lent<65536>,
    image: Lent<512>,
    sheet: [u8; SHEET],
    log: [u8; 65536],
}

impl Panel {
    pub(crate) fn new() -> Panel {
        Panel {
            session: Session::default(),
            rom: Lent::new(),
            schedule: Lent::new(),
            image: Lent::new(),
            sheet: [0; SHEET],
            log: [0; 65536],
        }
    }

    pub(crate) fn one(&mut self, rt: &(impl Print + Input), c: Command) -> Result<(), End> {
        match c.letter {
            b'R' => self.rom.read(rt, c)?,
            b'S' => self.schedule.read(rt, c)?,
            b'I' => self.image.read(rt, c)?,
            b'H' => c.read(rt, &mut self.sheet)?,
            b'F' => self.find(rt, c),
            _ => self.session.other(rt, c)?,
        }
        Ok(())
    }

    // A call, on a log in which the pattern stands. The state is that of the image on the uPD546: under another sheet it may hold what isn't
    // there. What is told: its number, k, and 1 if the log is as it was, but for the bytes that the trials are lent.
    fn find(&mut self, rt: &impl Print, c: Command) {
        let restored = restore::restore_current(self.image.bytes(), upd546::upd546_sheet());
        let log = front_mut(&mut self.log, c.length);
        fill(log);
        let answer = shortest::find(
            self.rom.bytes(),
            self.schedule.bytes(),
            restored.state,
            MachineCycles(c.n),
            log,
            sheet_of(&self.sheet),
        );
        let number = shortest::number_of(answer);
        let k = shortest::records_of(answer) as u64;
        let left = u64::from(untouched(log, free(number, c.n)));
        if c.wanted() == Wanted::Line {
            let _ = println!(rt; "{number} {k} {left}");
            return;
        }
        let h = mixed(self.session.next(number), k);
        self.session.chained(number, mixed(h, left));
    }
}

// How many bytes of the log are free after the call: those of its trials, and none if nothing was tried.
fn free(number: u8, n: u64) -> usize {
    match number {
        22 | 23 | 82 if n <= MOST_CYCLES => (16 * n) as usize,
        _ => 0,
    }
}
