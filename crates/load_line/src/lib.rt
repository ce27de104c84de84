// A line of text as a command of program `load`: `rom SEED` or `schedule SEED M`. It may not know what is made of it.
#![tactic(auto)]

ghost use Rattle.std.specs.Prelude.{◌≡◌, ◌≤◌, length, IsTrue, SomeIff};
ghost use Rattle.load_line.specs.Commands.{is_read, most_digits, numeral_at, is_seed, begins_with, ends_at, rom_asked, schedule_asked, command_of};

// What a line asks for.
#[derive(Clone, Copy, PartialEq, Eq)]
pub enum Command {
    // The ROM of a seed.
    Rom(u32),
    // The schedule of a seed, with so many records.
    Schedule(u32, u64),
}

// A number of a line: no digits where there is none. No `Option`: `numeral_at` and `numeral_from` have it so, and the place behind the
// digits is asked for in either case.
#[derive(Clone, Copy)]
pub struct Numeral {
    pub value: u64,
    pub digits: usize,
}

// Letters as the number that they are, big-endian.
const ROM: u64 = 0x726F6D;

const SCHEDULE: u64 = 0x7363686564756C65;

const MOST_DIGITS: usize = 18;

// Whether a byte is read as one digit more.
#[tactic(auto, using(std::proofs::lemmas::Bool::Decides::nat_tests), unfolding(crate::specs::Commands::is_digit, crate::specs::Commands::is_read))]
fn is_read(digits: usize, b: u8) -> bool
    ensures { result ≡ is_read digits b }
{
    b.is_ascii_digit() && digits < MOST_DIGITS
}

// The number at a place.
fn read_number(line: &[u8], at: usize) -> Numeral
    ensures { (result ≡ numeral_at line.now at) × (result.digits ≤ most_digits) }
{
    let rest = line.get(at..).unwrap_or(&[]);
    let mut value: u64 = 0;
    let mut digits = 0;
    for b in rest {
        if !is_read(digits, *b) {
            break;
        }
        value = 10 * value + (*b % 16) as u64;
        digits += 1;
    }
    Numeral { value, digits }
}

// A number as a seed, which has 32 bits.
fn seed_of(number: Numeral) -> Option<u32>
    ensures { SomeIff result (IsTrue (is_seed number)) number.value }
{
    if number.digits == 0 {
        return None;
    }
    u32::try_from(number.value).ok()
}

// Whether a line begins with a word of so many letters and a space.
#[tactic(auto, using(std::proofs::lemmas::Bool::Decides::nat_tests), unfolding(crate::specs::Commands::begins_with, upd546::specs::Sequences::all_of))]
fn begins(line: &[u8], word: u64, letters: usize) -> bool
    requires { letters ≤ 8 }
    ensures { result ≡ begins_with line.now word letters }
{
    letters < line.len() && big_endian::number_at(line, 0, letters) == word && line[letters] == b' '
}

// Whether a line ends at a place, but for one line end.
#[tactic(auto, using(std::proofs::lemmas::Bool::Decides::nat_tests), unfolding(crate::specs::Commands::ends_at))]
fn ends(line: &[u8], at: usize) -> bool
    ensures { result ≡ ends_at line.now at }
{
    line.len() <= at || (at + 1 == line.len() && line[at] == b'\n')
}

// The command behind `rom `.
#[tactic(auto, using(std::proofs::lemmas::Bool::Decides::nat_tests), unfolding(crate::specs::Commands::rom_asked))]
fn rom_asked(line: &[u8]) -> Option<Command>
    ensures { result ≡ rom_asked line.now }
{
    let number = read_number(line, 4);
    let seed = seed_of(number)?;
    if ends(line, 4 + number.digits) {
        Some(Command::Rom(seed))
    } else {
        None
    }
}

// The command behind `schedule `.
#[tactic(auto, using(std::proofs::lemmas::Bool::Decides::nat_tests), unfolding(crate::specs::Commands::schedule_asked))]
fn schedule_asked(line: &[u8]) -> Option<Command>
    ensures { result ≡ schedule_asked line.now }
{
    let number = read_number(line, 9);
    let seed = seed_of(number)?;
    let at = 9 + number.digits;
    let m = read_number(line, at + 1);
    if line.get(at) == Some(&b' ') && m.digits != 0 && ends(line, at + 1 + m.digits) {
        Some(Command::Schedule(seed, m.value))
    } else {
        None
    }
}

// WHAT A LINE ASKS FOR. The line may end with one line end, and has nothing else behind its numbers.
#[tactic(auto, using(std::proofs::lemmas::Bool::Decides::nat_tests), unfolding(crate::specs::Commands::command_of))]
pub fn asked(line: &[u8]) -> Option<Command>
    ensures { result ≡ command_of line.now }
{
    if begins(line, ROM, 3) {
        rom_asked(line)
    } else if begins(line, SCHEDULE, 8) {
        schedule_asked(line)
    } else {
        None
    }
}
