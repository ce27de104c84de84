// Makes the loads that standard input asks for, and writes a line for each: the same text that the other interpreter writes of them.
// It may not know how a load is made. The file and the text are told at the top of tests/reference/src/bin/loads/main.rs.
#![tactic(auto)]

use test_stream::{End, digest, eight, fill, front_mut, long, part, put, read_exact};

// A case: 0 for a ROM, one byte; the seed, four; the records of a schedule, eight; the length of the buffer, four.
const HEAD: usize = 17;

const ROM: u8 = 0;

// The longest buffer.
const LONGEST: usize = 65536;

fn main(rt: HostRuntime) {
    let titles = b"number digest 0 1 2 3 4 5 6 7 8 9\n";
    test_stream::try_cases(&rt, titles, || one(&rt));
}

// One case, on a buffer of its length.
fn one(rt: &(impl Print + Input)) -> Result<(), End> {
    let mut head = [0; HEAD];
    let mut space = [0; LONGEST];
    read_exact(rt, &mut head)?;
    let buffer = front_mut(&mut space, long(&head, 13) as usize);
    fill(buffer);
    let number = made(&head, buffer);
    tell(rt, number, buffer);
    Ok(())
}

fn made(head: &[u8; HEAD], buffer: &mut [u8]) -> u8 {
    let seed = long(head, 1);
    let made = match head[0] {
        ROM => generator::make_rom(seed, buffer),
        _ => generator::make_schedule(seed, eight(head, 5), buffer),
    };
    generator::made_number(made)
}

// A line: the number, the digest of the buffer, and its first ten bytes.
fn tell(rt: &impl Print, number: u8, buffer: &[u8]) {
    let _ = print!(rt; "{number} {}", digest(0, buffer));
    let first: [u8; 10] = part(buffer, 0);
    for byte in &first {
        let _ = print!(rt; " {byte}");
    }
    put(rt, b"\n");
}
