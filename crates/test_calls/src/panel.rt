// A panel: what its calls are lent, as long as the commands say, and what is carried from call to call.
use crate::answers::Left;
use test_stream::{
    Command, End, Lent, SHEET, Session, Wanted, digest, fill, front_mut, part, sheet_of,
};

#[derive(Drop)]
pub(crate) struct Panel {
    session: Session,
    rom: Lent<4096>,
    schedule: Lent<65536>,
    sheet: [u8; SHEET],
    image: Lent<512>,
    kept: Lent<512>,
    space: [u8; 512],
    log: [u8; 65536],
    report: [u8; 64],
}

impl Panel {
    pub(crate) fn new() -> Panel {
        Panel {
            session: Session::default(),
            rom: Lent::new(),
            schedule: Lent::new(),
            sheet: [0; SHEET],
            image: Lent::new(),
            kept: Lent::new(),
            space: [0; 512],
            log: [0; 65536],
            report: [0; 64],
        }
    }

    pub(crate) fn one(&mut self, rt: &(impl Print + Input), c: Command) -> Result<(), End> {
        match c.letter {
            b'R' => self.rom.read(rt, c)?,
            b'S' => self.schedule.read(rt, c)?,
            b'H' => c.read(rt, &mut self.sheet)?,
            b'I' => self.image.read(rt, c)?,
            b'X' => c.change(&mut self.image.space),
            b'F' => self.fresh(c),
            b'T' => self.convert(c),
            b'K' => self.kept = self.image,
            b'B' => self.image = self.kept,
            b'C' => self.call(rt, c),
            b'U' => {
                self.end_list();
                self.session.remember();
            }
            b'E' => {
                self.end_list();
                self.session.end_list();
            }
            b'P' => self.session.tell_panel(rt),
            _ => self.session.other(rt, c)?,
        }
        Ok(())
    }

    // The image of a panel that was never run, in a buffer in which the pattern stands.
    fn fresh(&mut self, c: Command) {
        self.image.length = c.length;
        let image = self.image.bytes_mut();
        fill(image);
        let number = board::wharfnettle_fresh(image);
        self.session.buffer_answered(c, number, image);
    }

    // The image in the version n, in a buffer in which the pattern stands. A list goes on from the buffer.
    fn convert(&mut self, c: Command) {
        let sheet = sheet_of(&self.sheet);
        let buffer = front_mut(&mut self.space, c.length);
        fill(buffer);
        let number = conversion::wharfnettle_convert(
            self.image.bytes(),
            buffer,
            c.n,
            sheet.rom,
            sheet.rows,
            sheet.levels,
        );
        self.session.buffer_answered(c, number, buffer);
        if c.wanted() == Wanted::List && number == 0 {
            self.image = Lent {
                space: part(buffer, 0),
                length: buffer.len(),
            };
        }
    }

    // A call, on a log and a report in which the pattern stands.
    fn call(&mut self, rt: &impl Print, c: Command) {
        let sheet = sheet_of(&self.sheet);
        let image = self.image.bytes_mut();
        let log = front_mut(&mut self.log, c.length);
        let report = front_mut(&mut self.report, c.place);
        let before = digest(0, image);
        fill(log);
        fill(report);
        let number = board::wharfnettle_call(
            image,
            self.rom.bytes(),
            self.schedule.bytes(),
            log,
            c.n,
            c.runner,
            report,
            sheet.rom,
            sheet.rows,
            sheet.levels,
        );
        let left = Left {
            number,
            before,
            image,
            log,
            report,
        };
        left.answer(rt, c, &mut self.session);
    }

    // The list gets the image that it ends with.
    fn end_list(&mut self) {
        self.session.list.sums.kept = digest(0, self.image.bytes());
    }
}
