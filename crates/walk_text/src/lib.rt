// A machine cycle as a line of text: one cycle by the plain runner, and what it did, the state after it, the ports that it wrote and the
// lines that changed. It may not know how a run goes, what an instruction does, nor where text goes to.
#![tactic(auto)]

ghost use Rattle.std.specs.Prelude.{◌≡◌, ◌++◌, ◌+◌, ◌*◌, ◌%◌, ◌<◌, ◌≤◌, length};
ghost use Rattle.upd546.specs.TheLineSchedule.{schedule_number};
ghost use Rattle.upd546.specs.Instructions.{instruction};
ghost use Rattle.upd546.specs.TheMachine.{byte_at, follows};
ghost use Rattle.mnemonics.specs.Mnemonics.{instruction_text};
ghost use Rattle.text.specs.Writing.{HasRoom, Pushed};
ghost use Rattle.walk_text.specs.Fields.{decimal_at, cycle_column, timer_column, address_column, mark_column, word_m, register_columns, interrupt_columns, owed_column};
ghost use Rattle.walk_text.specs.CycleLine.{doing_of, over_after, place_by, words_by, head_text, marks_text, out_text, outs_text, change_text, changes_text, line_text, lines_before, walked_by, Stepped};

use runs::{MachineCycles, RunEnd};
use text::Text;
use upd546::{
    LOG_RECORD, Lines, MARK_EI, MARK_LDI, MARK_OTHER, MARK_STM, RESET_COUNT, State, Timer,
};

// Every line fits this many bytes.
pub const LINE_LENGTH: usize = 160;

// The uPD546 has rows 0 to 4.
const ALL_ROWS: u8 = 31;

// What a cycle can append to the log.
const LOG_LENGTH: usize = 16;

// A machine cycle that was walked: the state before and after it, its lines and those of the cycle before. Of the cycles owed before it,
// the last `over` are those of a skip.
#[derive(Clone, Copy)]
pub struct Walked {
    pub before: State,
    pub after: State,
    pub last: Lines,
    pub lines: Lines,
    pub over: u8,
}

// A cycle that was done: the state after it; of the cycles owed then, how many are those of a skip; and the length of its line.
#[derive(Clone, Copy)]
pub struct Done {
    pub state: State,
    pub over: u8,
    pub size: usize,
}

// A cycle that wasn't done: how its run ended, by a stop or a refusal, and the state.
#[derive(Clone, Copy)]
pub struct Halt {
    pub end: RunEnd,
    pub state: State,
}

// What a cycle did.
#[derive(Clone, Copy)]
pub enum Kind {
    Reset,
    Accepts,
    Owed,
    Skipped,
    Begins,
}

// The decimal digit at a power of ten, or a space before the first.
#[tactic(auto, unfolding(crate::specs::Fields::decimal_at))]
fn decimal_at(n: u64, power: u64) -> u8
    requires { 0 < power }
    ensures { result ≡ decimal_at n power }
{
    if n < power {
        return b' ';
    }
    b'0' + (n / power % 10) as u8
}

fn unit(n: u64) -> u8
    ensures { result ≡ 48 + n % 10 }
{
    b'0' + (n % 10) as u8
}

// Ten columns. They show the last ten digits of a longer number, as `cycle_column` has it, where `{n:>10}` would take more columns.
#[tactic(auto, unfolding(crate::specs::Fields::cycle_column))]
fn cycle_column(n: u64) -> [u8; 10]
    ensures { result ≡ cycle_column n }
{
    [
        decimal_at(n, 1000000000),
        decimal_at(n, 100000000),
        decimal_at(n, 10000000),
        decimal_at(n, 1000000),
        decimal_at(n, 100000),
        decimal_at(n, 10000),
        decimal_at(n, 1000),
        decimal_at(n, 100),
        decimal_at(n, 10),
        unit(n),
    ]
}

// The ticks left of a running timer; else whether TM is set.
#[tactic(auto, unfolding(crate::specs::Fields::timer_column, crate::specs::Fields::cycle_column))]
fn timer_column(t: Timer) -> [u8; 4]
    ensures { result ≡ timer_column t }
{
    if 0 < t.register && t.register < 64 {
        let positions = tables::position_table();
        let columns = cycle_column(jump::ticks_left(&positions, t));
        return [columns[6], columns[7], columns[8], columns[9]];
    }
    if t.tm == 0 {
        return *b"   -";
    }
    *b"  TM"
}

#[tactic(auto, unfolding(crate::specs::Fields::address_column))]
fn address_column(a: u16) -> [u8; 5]
    ensures { result ≡ address_column a }
{
    let low = (a % 256) as u8;
    let high = (a / 256) as u8;
    [
        b' ',
        mnemonics::hex_digit(high),
        mnemonics::hex_digit(low / 16),
        mnemonics::hex_digit(low),
        b' ',
    ]
}

#[tactic(auto, unfolding(crate::specs::Fields::mark_column))]
fn mark_column(mark: u8) -> [u8; 5]
    ensures { result ≡ mark_column mark }
{
    match mark {
        MARK_OTHER => *b"other",
        MARK_LDI => *b"LDI  ",
        MARK_EI => *b"EI   ",
        MARK_STM => *b"STM  ",
        _ => *b"LI   ",
    }
}

// M: rows 5 and 6 read 0.
fn word_m(s: State) -> u8
    ensures { result ≡ word_m s }
{
    let rows = tables::row_table(ALL_ROWS);
    let row = (s.core.registers.dph % 8) as usize;
    let column = (s.core.registers.dpl % 16) as usize;
    s.ram.get(rows[row] as usize + column).copied().unwrap_or(0)
}

// Acc, C, DP and M.
#[tactic(auto, unfolding(crate::specs::Fields::register_columns))]
fn register_columns(s: State) -> [u8; 11]
    ensures { result ≡ register_columns s }
{
    [
        b' ',
        b' ',
        b' ',
        mnemonics::hex_digit(s.core.registers.acc),
        b' ',
        mnemonics::hex_digit(s.core.registers.carry),
        b' ',
        mnemonics::hex_digit(s.core.registers.dph),
        mnemonics::hex_digit(s.core.registers.dpl),
        b' ',
        mnemonics::hex_digit(word_m(s)),
    ]
}

#[tactic(auto, unfolding(crate::specs::Fields::interrupt_columns))]
fn interrupt_columns(s: State) -> [u8; 10]
    ensures { result ≡ interrupt_columns s }
{
    [
        b' ',
        b' ',
        b' ',
        mnemonics::hex_digit(s.core.interrupt.int),
        b' ',
        b' ',
        b' ',
        b' ',
        mnemonics::hex_digit(s.core.interrupt.inte),
        b' ',
    ]
}

#[tactic(auto, unfolding(crate::specs::Fields::owed_column))]
fn owed_column(s: State) -> [u8; 7]
    ensures { result ≡ owed_column s }
{
    [
        b' ',
        b' ',
        b' ',
        b' ',
        mnemonics::hex_digit(s.core.owed),
        b' ',
        b' ',
    ]
}

// The base cycles of the instruction at an address.
fn cycles_at(rom: &[u8], a: u16) -> u8
    ensures { result ≡ (instruction (byte_at rom.now a)).cycles }
{
    let table = tables::instruction_table();
    let size = tables::size_of(&table, fetch::byte_at(rom, a));
    size.cycles
}

fn instruction_at(rom: &[u8], pc: u16) -> [u8; 8]
    ensures { result ≡ instruction_text pc (byte_at rom.now pc) (byte_at rom.now (follows pc)) }
{
    let code = fetch::byte_at(rom, pc);
    let second = fetch::byte_at(rom, steps::follows(pc));
    mnemonics::instruction(pc, code, second)
}

impl Walked {
    // What the cycle did.
    #[tactic(auto, unfolding(crate::specs::CycleLine::doing_of))]
    fn doing(self) -> Kind
        ensures { result ≡ doing_of self }
    {
        let core = self.before.core;
        if self.after.count == RESET_COUNT {
            Kind::Reset
        } else if steps::accepts(core) {
            Kind::Accepts
        } else if core.owed == 0 {
            Kind::Begins
        } else if self.over < core.owed {
            Kind::Owed
        } else {
            Kind::Skipped
        }
    }

    // Of the cycles owed after it, how many are those of a skip.
    #[tactic(auto, unfolding(crate::specs::CycleLine::over_after))]
    fn over_after(self, rom: &[u8]) -> u8
        ensures { result ≡ over_after rom.now self }
    {
        if self.before.core.owed != 0 {
            return self.over;
        }
        let own = cycles_at(rom, self.before.core.flow.pc).saturating_sub(1);
        self.after.core.owed.saturating_sub(own)
    }
}

impl Kind {
    // Where PC stood, unless it is ahead of the cycle.
    fn place(self, pc: u16) -> [u8; 5]
        ensures { result ≡ place_by self pc }
    {
        match self {
            Kind::Owed | Kind::Skipped => *b"     ",
            Kind::Reset | Kind::Accepts | Kind::Begins => address_column(pc),
        }
    }

    fn words(self, rom: &[u8], pc: u16) -> [u8; 8]
        ensures { result ≡ words_by self rom.now pc }
    {
        match self {
            Kind::Reset => *b"reset   ",
            Kind::Accepts => *b"accepts ",
            Kind::Owed => *b"owed    ",
            Kind::Skipped => *b"skipped ",
            Kind::Begins => instruction_at(rom, pc),
        }
    }
}

// Acc, C, DP and M, INT and INTE: 21 bytes.
fn put_registers(text: &mut Text<'_>, s: State)
    requires { HasRoom 21 text.old }
    ensures { Pushed text.old (register_columns s ++ interrupt_columns s) text.new × (text.new.size ≡ text.old.size + 21) }
{
    text.push(&register_columns(s));
    text.push(&interrupt_columns(s));
}

// Mark, owed and the timer: 16 bytes.
fn put_marks(text: &mut Text<'_>, s: State)
    requires { HasRoom 16 text.old }
    ensures { Pushed text.old (marks_text s) text.new × (text.new.size ≡ text.old.size + 16) }
{
    text.push(&mark_column(s.core.mark));
    text.push(&owed_column(s));
    text.push(&timer_column(s.core.timer));
}

// A port that was written.
fn put_out(text: &mut Text<'_>, log: &[u8; LOG_LENGTH], i: usize)
    requires { HasRoom 8 text.old × (i < 2) }
    ensures { Pushed text.old (out_text log.now i) text.new × (text.new.size ≤ text.old.size + 8) }
{
    let port = log[LOG_RECORD * i + 6];
    let digit = mnemonics::hex_digit(log[LOG_RECORD * i + 7]);
    if port != 0 {
        text.push(b" out ");
        text.push(&[mnemonics::port_letter(port), b'=', digit]);
    }
}

// The ports that were written, in so many bytes of log: the log goes with how many bytes of it were written, as `line_text` in the
// clause `Stepped` of `step` has them.
fn put_outs(text: &mut Text<'_>, log: &[u8; LOG_LENGTH], written: usize)
    requires { HasRoom 16 text.old }
    ensures { Pushed text.old (outs_text log.now written) text.new × (text.new.size ≤ text.old.size + 16) }
{
    if written < 8 {
        return;
    }
    put_out(text, log, 0);
    if written < 16 {
        return;
    }
    put_out(text, log, 1);
}

// A line that changed; its name has at most three letters.
fn put_change(text: &mut Text<'_>, name: &[u8], last: u8, new: u8)
    requires { HasRoom 11 text.old × (length name.now ≤ 3) }
    ensures { Pushed text.old (change_text name.now last new) text.new × (text.new.size ≤ text.old.size + 11) }
{
    if last != new {
        text.push(b" line ");
        text.push(name);
        text.push(&[b'=', mnemonics::hex_digit(new)]);
    }
}

// The lines that changed.
fn put_changes(text: &mut Text<'_>, last: Lines, new: Lines)
    requires { HasRoom 66 text.old }
    ensures { Pushed text.old (changes_text last new) text.new × (text.new.size ≤ text.old.size + 66) }
{
    put_change(text, b"A", last.a, new.a);
    put_change(text, b"B", last.b, new.b);
    put_change(text, b"C", last.c, new.c);
    put_change(text, b"D", last.d, new.d);
    put_change(text, b"INT", last.int, new.int);
    put_change(text, b"RES", last.res, new.res);
}

// The cycle, where PC stood and what was done: 23 bytes.
fn put_head(text: &mut Text<'_>, rom: &[u8], w: Walked)
    requires { HasRoom 23 text.old }
    ensures { Pushed text.old (head_text rom.now w) text.new × (text.new.size ≡ text.old.size + 23) }
{
    let pc = w.before.core.flow.pc;
    let kind = w.doing();
    text.push(&cycle_column(w.before.cycle.0));
    text.push(&kind.place(pc));
    text.push(&kind.words(rom, pc));
}

// The line of a cycle that wrote so many bytes of log, as `line_text` has it.
fn put_line(text: &mut Text<'_>, rom: &[u8], w: Walked, log: &[u8; LOG_LENGTH], written: usize)
    requires { HasRoom 160 text.old }
    ensures { Pushed text.old (line_text rom.now w log.now written) text.new }
{
    let after = w.after;
    put_head(text, rom, w);
    put_registers(text, after);
    put_marks(text, after);
    put_outs(text, log, written);
    put_changes(text, w.last, w.lines);
    text.push(b"\n");
}

// The lines of the cycle before cycle n; before cycle 0 those of an empty schedule.
fn lines_before(sched: &[u8], n: u64) -> Lines
    requires { schedule_number sched.now ≡ 0 }
    ensures { result ≡ lines_before sched.now n }
{
    if n == 0 {
        return schedule::start(b"", MachineCycles(0)).lines;
    }
    schedule::start(sched, MachineCycles(n - 1)).lines
}

// What a cycle came to.
fn cycle_walked(sched: &[u8], before: State, after: State, over: u8) -> Walked
    requires { schedule_number sched.now ≡ 0 }
    ensures { result ≡ walked_by sched.now before after over }
{
    Walked {
        before,
        after,
        last: lines_before(sched, before.cycle.0),
        lines: schedule::start(sched, before.cycle).lines,
        over,
    }
}

// ONE CYCLE OF A PANEL, by the plain runner, and its line at the front of a buffer. Of the cycles owed before it, the last `over` are those
// of a skip. Where it isn't done, nothing is written.
pub fn step(
    rom: &[u8],
    sched: &[u8],
    s: State,
    over: u8,
    out: &mut [u8; LINE_LENGTH],
) -> Result<Done, Halt>
    ensures { Stepped rom.now sched.now s over out.old out.new result }
{
    let mut log = [0u8; LOG_LENGTH];
    let sheet = upd546::upd546_sheet();
    let ran = runner::run_plain(rom, sched, s, &mut log, MachineCycles(1), sheet);
    let end = ran.end;
    let state = ran.state;
    let RunEnd::Finished = end else {
        return Err(Halt { end, state });
    };
    let w = cycle_walked(sched, s, state, over);
    let mut text = Text::new(out);
    put_line(&mut text, rom, w, &log, ran.written);
    Ok(Done {
        state,
        over: w.over_after(rom),
        size: text.len(),
    })
}
