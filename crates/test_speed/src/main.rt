// Runs either runner on a load of standard input, slice after slice from the fresh state, so that its speed can be measured (tests/speed).
// It may not know how a run goes, nor the time.
#![tactic(auto)]

use runs::MachineCycles;
use test_stream::{byte, front, long, word};
use upd546::{RunAnswer, Sheet, State};

// Before the ROM stand the runner (1 byte: 0 plain, any other timer-skipping), how many slices there are, how many cycles each has (4
// bytes each), and the sheet: ROM bytes (2), rows (1) and levels (1). After the ROM, which has as many bytes as the sheet says, stands the
// schedule. Numbers are big-endian.
const SLICES_AT: usize = 1;

const CYCLES_AT: usize = 5;

const ROM_BYTES_AT: usize = 9;

const ROWS_AT: usize = 11;

const LEVELS_AT: usize = 12;

const ROM_AT: usize = 13;

// The bytes of a record.
const LOG_RECORD: usize = 8;

// The buffer holds more than every load.
const LONGEST: usize = 65536;

// 16n bytes for a slice of 100,000 cycles, which has room for all its records.
const LOG_LENGTH: usize = 16 * 100000;

// What is run, and whether by the timer-skipping runner: a bool, since the driver's `Runner` is of a crate that this program does without,
// to measure the runner alone.
#[derive(Clone, Copy)]
struct Load<'a> {
    skips: bool,
    slices: u32,
    cycles: MachineCycles,
    sheet: Sheet,
    rom: &'a [u8],
    schedule: &'a [u8],
}

// What the slices gave together, and the last PC. The digest is of the last bytes that each slice wrote.
#[derive(Clone, Copy, Default)]
struct Sums {
    cycles: u64,
    begun: u64,
    bytes: u64,
    steps: u64,
    digest: u32,
    pc: u16,
}

fn main(rt: HostRuntime) {
    let mut input = [0; LONGEST];
    let got = test_stream::read_full(&rt, &mut input);
    match Load::of(&input[..got]) {
        Some(load) => load.run().tell(&rt),
        None => test_stream::put(&rt, b"the input is cut short\n"),
    }
}

impl Load<'_> {
    // The load that an input is, unless it is cut short.
    fn of(input: &[u8]) -> Option<Load<'_>> {
        let (head, rest) = input.split_at_checked(ROM_AT)?;
        let rom_bytes = word(head, ROM_BYTES_AT);
        let (rom, schedule) = rest.split_at_checked(usize::from(rom_bytes))?;
        Some(Load {
            skips: byte(head, 0) != 0,
            slices: long(head, SLICES_AT),
            cycles: MachineCycles(u64::from(long(head, CYCLES_AT))),
            sheet: Sheet {
                rom: u64::from(rom_bytes),
                rows: u64::from(byte(head, ROWS_AT)),
                levels: u64::from(byte(head, LEVELS_AT)),
            },
            rom,
            schedule,
        })
    }

    // The slices, one after the other, each with the same log.
    fn run(self) -> Sums {
        let mut log = [0; LOG_LENGTH];
        let mut state = upd546::fresh_state();
        let mut sums = Sums::default();
        for _ in 0..self.slices {
            let answer = self.run_slice(state, &mut log);
            sums.count(&answer, front(&log, answer.written));
            state = answer.state;
        }
        sums
    }

    fn run_slice(self, state: State, log: &mut [u8; LOG_LENGTH]) -> RunAnswer {
        if self.skips {
            runner::run_skipping(self.rom, self.schedule, state, log, self.cycles, self.sheet)
        } else {
            runner::run_plain(self.rom, self.schedule, state, log, self.cycles, self.sheet)
        }
    }
}

impl Sums {
    // One slice more, and the bytes of the log that it wrote.
    fn count(&mut self, answer: &RunAnswer, written: &[u8]) {
        self.cycles = self.cycles.wrapping_add(answer.cycles.0);
        self.begun = self.begun.wrapping_add(answer.begun);
        self.bytes = self.bytes.wrapping_add(answer.written as u64);
        self.steps = self.steps.wrapping_add(answer.steps);
        self.digest = digest(self.digest, written);
        self.pc = answer.state.core.flow.pc;
    }

    fn tell(self, rt: &impl Print) {
        let Sums {
            cycles,
            begun,
            bytes,
            steps,
            digest,
            pc,
        } = self;
        let _ = println!(rt; "{cycles} {begun} {bytes} {steps} {digest} {pc}");
    }
}

// The last record's lowest byte of the cycle, and its value.
fn digest(sum: u32, written: &[u8]) -> u32 {
    let Some(record) = written.last_chunk::<LOG_RECORD>() else {
        return sum;
    };
    let last = 256 * u64::from(record[5]) + u64::from(record[7]);
    ((u64::from(sum) * 31 + last) % 1000000007) as u32
}
