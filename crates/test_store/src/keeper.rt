// A store: what the calls on it are lent, as long as the commands say, and what is told of their answers.
use test_stream::{Command, End, Lent, SHEET, Session, Wanted, digest, mixed, sheet_of};
use upd546::Sheet;

#[derive(Drop)]
pub(crate) struct Keeper {
    session: Session,
    entries: Lent<65536>,
    name: Lent<64>,
    image: Lent<512>,
    sheet: [u8; SHEET],
}

impl Keeper {
    pub(crate) fn new() -> Keeper {
        Keeper {
            session: Session::default(),
            entries: Lent::new(),
            name: Lent::new(),
            image: Lent::new(),
            sheet: [0; SHEET],
        }
    }

    pub(crate) fn one(&mut self, rt: &(impl Print + Input), c: Command) -> Result<(), End> {
        match c.letter {
            b'H' => c.read(rt, &mut self.sheet)?,
            b'M' => self.entries.read(rt, c)?,
            b'N' => self.name.read(rt, c)?,
            b'I' => self.image.read(rt, c)?,
            b'X' => c.change(&mut self.entries.space),
            b'W' => self.keep(rt, c),
            b'O' => self.recall(rt, c),
            _ => self.session.other(rt, c)?,
        }
        Ok(())
    }

    // The image is kept under the name: its number and the whole store.
    fn keep(&mut self, rt: &impl Print, c: Command) {
        let sheet = sheet_of(&self.sheet);
        let space = self.entries.bytes_mut();
        let outcome = store::keep(space, self.name.bytes(), self.image.bytes(), sheet);
        let number = runs::outcome_number(outcome);
        if c.wanted() == Wanted::Line {
            let _ = println!(rt; "{number} {}", digest(0, space));
            return;
        }
        let h = digest(self.session.next(number), space);
        self.session.chained(number, h);
    }

    // What is kept under the name: its number, the place of the entry, and the part of the store.
    fn recall(&mut self, rt: &impl Print, c: Command) {
        let sheet = sheet_of(&self.sheet);
        let space = self.entries.bytes();
        let name = self.name.bytes();
        // The three functions of the store, which are what is tested: each searches by itself.
        let outcome = store::recall_check(space, name, sheet);
        let number = runs::outcome_number(outcome);
        let place = place_of(space, name, sheet);
        let part = store::recall(space, name, sheet);
        let length = part.len();
        if c.wanted() == Wanted::Line {
            let _ = println!(rt; "{number} {place} {length} {}", digest(0, part));
            return;
        }
        let h = mixed(mixed(self.session.next(number), place), length as u64);
        self.session.chained(number, digest(h, part));
    }
}

// Which entry a name has, 0 if none.
fn place_of(space: &[u8], name: &[u8], sheet: Sheet) -> u64 {
    store::find(space, name, sheet).map_or(0, |i| i as u64)
}
