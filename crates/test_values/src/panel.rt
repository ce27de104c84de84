// A panel: the state under the sheet with which the calls are made, and what they are lent: runs on a part of the log, saves to a buffer,
// restores of its bytes. The state that a run or a restore answers is the next one's.
use crate::answers::Ran;
use driver::{KeptMachine, Runner};
use runs::{MachineCycles, Version};
use test_states::{LENGTH, digest_of, put, state_of};
use test_stream::{
    Command, End, Lent, SHEET, Session, Wanted, digest, fill, front, front_mut, sheet_of,
};

#[derive(Drop)]
pub(crate) struct Panel {
    session: Session,
    rom: Lent<4096>,
    schedule: Lent<65536>,
    sheet: [u8; SHEET],
    value: [u8; LENGTH],
    kept: [u8; LENGTH],
    image: [u8; 512],
    log: [u8; 65536],
}

impl Panel {
    pub(crate) fn new() -> Panel {
        Panel {
            session: Session::default(),
            rom: Lent::new(),
            schedule: Lent::new(),
            sheet: [0; SHEET],
            value: [0; LENGTH],
            kept: [0; LENGTH],
            image: [0; 512],
            log: [0; 65536],
        }
    }

    pub(crate) fn one(&mut self, rt: &(impl Print + Input), c: Command) -> Result<(), End> {
        match c.letter {
            b'R' => self.rom.read(rt, c)?,
            b'S' => self.schedule.read(rt, c)?,
            b'H' => c.read(rt, &mut self.sheet)?,
            b'V' => c.read(rt, &mut self.value)?,
            b'I' => c.read(rt, &mut self.image)?,
            b'X' => c.change(&mut self.value),
            b'Y' => c.change(&mut self.image),
            b'K' => self.kept = self.value,
            b'B' => self.value = self.kept,
            b'A' => self.run(rt, c),
            b'W' => self.save(c),
            b'O' => self.restore(c),
            // A list begins, on a log in which the pattern stands.
            b'L' => fill(front_mut(&mut self.log, c.length)),
            b'U' => {
                self.end_list(c);
                self.session.remember();
            }
            b'E' => {
                self.end_list(c);
                self.session.end_list();
            }
            b'P' => self.session.tell_panel(rt),
            _ => self.session.other(rt, c)?,
        }
        Ok(())
    }

    // The runs of a list write to one log, each from the place on up to which those before wrote; any other run has a log of its own.
    fn run(&mut self, rt: &impl Print, c: Command) {
        let before = digest(0, &self.value);
        let log = front_mut(&mut self.log, c.length);
        let at = match c.wanted() {
            Wanted::List => self.session.list.sums.written as usize,
            _ => {
                fill(log);
                c.place
            }
        };
        let state = state_of(&self.value);
        let answer = driver::advance_from(
            KeptMachine { state },
            kind(c.runner),
            self.rom.bytes(),
            self.schedule.bytes(),
            log,
            at,
            MachineCycles(c.n),
            sheet_of(&self.sheet),
        );
        put(&mut self.value, &answer.machine.state);
        let ran = Ran {
            report: answer.report,
            before,
            value: &self.value,
            log,
        };
        ran.answer(rt, c, &mut self.session);
    }

    // A save to the first bytes of the buffer, in which the pattern stands.
    fn save(&mut self, c: Command) {
        let buffer = front_mut(&mut self.image, c.length);
        fill(buffer);
        let state = state_of(&self.value);
        let outcome = save::save(state, version(c.place), buffer, sheet_of(&self.sheet));
        self.session
            .buffer_answered(c, runs::outcome_number(outcome), buffer);
    }

    // A restore of the first bytes of the buffer. A refused one answers the fresh state, and the state of a list stays if it is refused.
    fn restore(&mut self, c: Command) {
        let answer = restore::restore(front(&self.image, c.length), sheet_of(&self.sheet));
        let number = runs::outcome_number(answer.outcome);
        let state = answer.state;
        if c.wanted() != Wanted::List || number == 0 {
            put(&mut self.value, &state);
        }
        match c.wanted() {
            Wanted::List => {
                let fresh = upd546::fresh_state();
                let clean = digest_of(0, &state) == digest_of(0, &fresh);
                self.session.listed(number, clean);
            }
            _ => self
                .session
                .chained(number, digest_of(self.session.next(number), &state)),
        }
    }

    // The list gets the state that it ends with, and its log, whose bytes are as many as the command says.
    fn end_list(&mut self, c: Command) {
        self.session.list.sums.kept = digest(0, &self.value);
        self.session.list.sums.log = digest(0, front(&self.log, c.length));
    }
}

// Runner 0 is the plain one, any other the timer-skipping one. No From: neither u64 nor Runner is a type of this crate, and the driver
// itself knows no numbers of runners.
fn kind(runner: u64) -> Runner {
    match runner {
        0 => Runner::Plain,
        _ => Runner::Skipping,
    }
}

// Version 1 if the place is 1, else version 2: no TryFrom, since a command's every place is one of them, so that nothing is refused here.
fn version(place: usize) -> Version {
    match place {
        1 => Version::One,
        _ => Version::Two,
    }
}
