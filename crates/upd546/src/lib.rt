// The uPD546 of document 01: the types that definitions and functions share, the fresh state, and in specs/ every sentence
// of the document as a definition, a file for each section. It may not know how a runner, a save or a restore is written.
#![tactic(auto)]

pub mod layout;

ghost use Rattle.std.specs.Prelude.{◌≡◌};
ghost use Rattle.upd546.specs.TheMachine.{fresh};
ghost use Rattle.upd546.specs.TheSheet.{upd546_sheet};

use runs::{ClockCycles, MachineCycles, Refusal, RunEnd};

// The sizes of the chip, which hold what the largest of its family has. `rom_length`, `ram_length`, `stack_depth` and `latches` are the
// same numbers; the image's are in `layout`.
pub const ROM_LENGTH: usize = 2000;

pub const RAM_WORDS: usize = 96;

pub const STACK_DEPTH: usize = 3;

pub const LATCHES: usize = 7;

// The bytes of a cycle number in schedules, images and logs.
pub const CYCLE_BYTES: usize = 6;

// The bytes of a record of the log: the cycle, the port, the value.
pub const LOG_RECORD: usize = 8;

// The count at which a cycle with RES high is a reset cycle; no count is above it.
pub const RESET_COUNT: u8 = 4;

// The mark: the kind of the last instruction begun. It is a byte and no enum, since a state given as a value may hold any byte, and by
// the clause of `fields::check` one above `LAST_MARK` is refused with 34.
pub const MARK_OTHER: u8 = 0;

pub const MARK_LDI: u8 = 1;

pub const MARK_EI: u8 = 2;

pub const MARK_STM: u8 = 3;

pub const MARK_LI: u8 = 4;

// No mark is above it.
pub const LAST_MARK: u8 = MARK_LI;

// Ports, as DPL names them: A to I are 0 to 8. In a record of the log 0 is a reset. They are bytes and no enum, since DPL, which may be
// any of 16, and a byte of the log are the same number.
pub const PORT_RESET: u8 = 0;

pub const PORT_C: u8 = 2;

pub const PORT_D: u8 = 3;

pub const PORT_E: u8 = 4;

pub const PORT_I: u8 = 8;

// Acc, C, C' and DP. Flags are 0 or 1. They are bytes and no bools, since a state given as a value may hold any byte, and by the clause
// of `fields::check` one above 1 is refused with 34.
#[derive(Clone, Copy)]
pub struct Registers {
    pub acc: u8,
    pub carry: u8,
    pub saved: u8,
    pub dph: u8,
    pub dpl: u8,
}

// PC and the stack, newest first.
#[derive(Clone, Copy)]
pub struct Flow {
    pub pc: u16,
    pub stack: [u16; STACK_DEPTH],
}

// The flip-flops INT and INTE, and the INT level last seen.
#[derive(Clone, Copy)]
pub struct Interrupt {
    pub int: u8,
    pub inte: u8,
    pub level: u8,
}

// The flip-flop TM, the polynomial register (0 when stopped) and the binary counter.
#[derive(Clone, Copy)]
pub struct Timer {
    pub tm: u8,
    pub register: u8,
    pub counter: u8,
}

// What the instructions work on besides one RAM word and the ports.
#[derive(Clone, Copy)]
pub struct Core {
    pub registers: Registers,
    pub flow: Flow,
    pub interrupt: Interrupt,
    pub timer: Timer,
    pub mark: u8,
    pub owed: u8,
}

// The whole machine: the core, the output latches of ports C to I, the RAM (rows 0 to 4 and 7), the count of consecutive cycles
// with RES high, and the cycle number.
#[derive(Clone, Copy)]
pub struct State {
    pub core: Core,
    pub ports: [u8; LATCHES],
    pub ram: [u8; RAM_WORDS],
    pub count: u8,
    pub cycle: MachineCycles,
}

// How much of it a chip of the family has: bytes of ROM, which of RAM rows 0 to 4 (bit i for row i), and stack levels.
#[derive(Clone, Copy)]
pub struct Sheet {
    pub rom: u64,
    pub rows: u64,
    pub levels: u64,
}

// The lines of one cycle: ports A to D, the INT level and RES.
#[derive(Clone, Copy)]
pub struct Lines {
    pub a: u8,
    pub b: u8,
    pub c: u8,
    pub d: u8,
    pub int: u8,
    pub res: u8,
}

// What a run answers. The log that it was lent holds `written` bytes of records.
#[derive(Clone, Copy)]
pub struct RunAnswer {
    pub end: RunEnd,
    pub state: State,
    pub cycles: MachineCycles,
    pub clocks: ClockCycles,
    pub begun: u64,
    pub written: usize,
    pub steps: u64,
}

// What a restore answers. It is a struct and no `Result<State, Refusal>`, since by the clause of `restore::restore` a refused restore
// answers the fresh state too.
#[derive(Clone, Copy)]
pub struct RestoreAnswer {
    pub outcome: Result<(), Refusal>,
    pub state: State,
}

// The old figures: document 01's chip.
pub fn upd546_sheet() -> Sheet
    ensures { result ≡ upd546_sheet }
{
    Sheet {
        rom: 2000,
        rows: 31,
        levels: 3,
    }
}

// The fresh state.
pub fn fresh_state() -> State
    ensures { result ≡ fresh }
{
    State {
        core: Core {
            registers: Registers {
                acc: 0,
                carry: 0,
                saved: 0,
                dph: 0,
                dpl: 0,
            },
            flow: Flow {
                pc: 0,
                stack: [0, 0, 0],
            },
            interrupt: Interrupt {
                int: 0,
                inte: 0,
                level: 1,
            },
            timer: Timer {
                tm: 0,
                register: 0,
                counter: 0,
            },
            mark: 0,
            owed: 0,
        },
        ports: [0; LATCHES],
        ram: [0; RAM_WORDS],
        count: 0,
        cycle: MachineCycles(0),
    }
}

// A core, field by field: the compiler packs the fields of a struct that is copied whole, and a run is slower then (tried: see
// docs/MEASUREMENTS.md).
pub fn copy_core(c: Core) -> Core
    ensures { result ≡ c }
{
    let stack = c.flow.stack;
    Core {
        registers: Registers {
            acc: c.registers.acc,
            carry: c.registers.carry,
            saved: c.registers.saved,
            dph: c.registers.dph,
            dpl: c.registers.dpl,
        },
        flow: Flow {
            pc: c.flow.pc,
            stack: [stack[0], stack[1], stack[2]],
        },
        interrupt: Interrupt {
            int: c.interrupt.int,
            inte: c.interrupt.inte,
            level: c.interrupt.level,
        },
        timer: Timer {
            tm: c.timer.tm,
            register: c.timer.register,
            counter: c.timer.counter,
        },
        mark: c.mark,
        owed: c.owed,
    }
}
