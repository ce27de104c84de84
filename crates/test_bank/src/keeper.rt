// A bank: what its rounds are lent, as long as the commands say, and what is told of what they leave.
use crate::rows;
use runs::MachineCycles;
use test_stream::{Command, End, Lent, SHEET, Session, Wanted, digest, fill, front_mut, sheet_of};

// The ROMs of all panels stand one after another, and so do their schedules.
#[derive(Drop)]
pub(crate) struct Keeper {
    session: Session,
    bank: Lent<4096>,
    kept: [u8; 4096],
    roms: Lent<65536>,
    schedules: Lent<65536>,
    logs: [u8; 65536],
    sheet: [u8; SHEET],
}

impl Keeper {
    pub(crate) fn new() -> Keeper {
        Keeper {
            session: Session::default(),
            bank: Lent::new(),
            kept: [0; 4096],
            roms: Lent::new(),
            schedules: Lent::new(),
            logs: [0; 65536],
            sheet: [0; SHEET],
        }
    }

    pub(crate) fn one(&mut self, rt: &(impl Print + Input), c: Command) -> Result<(), End> {
        match c.letter {
            b'H' => c.read(rt, &mut self.sheet)?,
            b'M' => self.bank.read(rt, c)?,
            b'R' => self.roms.read(rt, c)?,
            b'S' => self.schedules.read(rt, c)?,
            b'X' => c.change(&mut self.bank.space),
            b'K' => self.kept = self.bank.space,
            b'B' => self.bank.space = self.kept,
            b'C' | b'V' => self.round(rt, c),
            _ => self.session.other(rt, c)?,
        }
        Ok(())
    }

    // A round, on logs in which the pattern stands: by the letter V of a row of panels by value, by C of the bank of the board's C program.
    // What it leaves: its number, the whole bank and the logs.
    fn round(&mut self, rt: &impl Print, c: Command) {
        let sheet = sheet_of(&self.sheet);
        let bank = self.bank.bytes_mut();
        let roms = self.roms.bytes();
        let schedules = self.schedules.bytes();
        let logs = front_mut(&mut self.logs, c.length);
        fill(logs);
        let number = match c.letter {
            b'V' => rows::round(bank, roms, schedules, logs, MachineCycles(c.n), sheet),
            _ => bank_calls::wharfnettle_round(
                bank,
                roms,
                schedules,
                logs,
                c.n,
                sheet.rom,
                sheet.rows,
                sheet.levels,
            ),
        };
        if c.wanted() == Wanted::Line {
            let _ = println!(rt; "{number} {} {}", digest(0, bank), digest(0, logs));
            return;
        }
        let h = digest(self.session.next(number), bank);
        self.session.chained(number, digest(h, logs));
    }
}
