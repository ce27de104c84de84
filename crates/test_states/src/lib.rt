// What the programs of the tests share that give states as values. The value of a state: the bytes of its fields, each as it stands there.
// PC, stack, Acc, C, C', DPH, DPL, INT, INTE, TM, level, mark, owed, register, counter, ports, RAM, cycle number, count of cycles with RES
// high. It may not know how a run, a save or a restore goes.
#![tactic(auto)]

use runs::MachineCycles;
use test_stream::{byte, digest, eight, lay, part, word};
use upd546::{Core, Flow, Interrupt, LATCHES, RAM_WORDS, Registers, State, Timer};

const PORTS_AT: usize = 21;

const RAM_AT: usize = PORTS_AT + LATCHES;

const CYCLE_AT: usize = RAM_AT + RAM_WORDS;

const COUNT_AT: usize = CYCLE_AT + 8;

pub const LENGTH: usize = COUNT_AT + 1;

// The state of a value. No From: neither the bytes nor State is a type of this crate.
pub fn state_of(value: &[u8]) -> State {
    State {
        core: core_of(value),
        ports: part(value, PORTS_AT),
        ram: part(value, RAM_AT),
        count: byte(value, COUNT_AT),
        cycle: MachineCycles(eight(value, CYCLE_AT)),
    }
}

fn core_of(value: &[u8]) -> Core {
    Core {
        registers: Registers {
            acc: byte(value, 8),
            carry: byte(value, 9),
            saved: byte(value, 10),
            dph: byte(value, 11),
            dpl: byte(value, 12),
        },
        flow: Flow {
            pc: word(value, 0),
            stack: [word(value, 2), word(value, 4), word(value, 6)],
        },
        interrupt: Interrupt {
            int: byte(value, 13),
            inte: byte(value, 14),
            level: byte(value, 16),
        },
        timer: Timer {
            tm: byte(value, 15),
            register: byte(value, 19),
            counter: byte(value, 20),
        },
        mark: byte(value, 17),
        owed: byte(value, 18),
    }
}

// The value of a state, to the front of some bytes. What falls past their end is lost.
pub fn put(value: &mut [u8], s: &State) {
    put_core(value, s.core);
    lay(value, PORTS_AT, &s.ports);
    lay(value, RAM_AT, &s.ram);
    lay(value, CYCLE_AT, &s.cycle.0.to_be_bytes());
    lay(value, COUNT_AT, &[s.count]);
}

fn put_core(value: &mut [u8], c: Core) {
    let [first, second, third] = c.flow.stack;
    lay(value, 0, &c.flow.pc.to_be_bytes());
    lay(value, 2, &first.to_be_bytes());
    lay(value, 4, &second.to_be_bytes());
    lay(value, 6, &third.to_be_bytes());
    let bytes = [
        c.registers.acc,
        c.registers.carry,
        c.registers.saved,
        c.registers.dph,
        c.registers.dpl,
        c.interrupt.int,
        c.interrupt.inte,
        c.timer.tm,
        c.interrupt.level,
        c.mark,
        c.owed,
        c.timer.register,
        c.timer.counter,
    ];
    lay(value, 8, &bytes);
}

// The digest of a state's value, after bytes that have the digest h.
pub fn digest_of(h: u64, s: &State) -> u64 {
    let mut value = [0; LENGTH];
    put(&mut value, s);
    digest(h, &value)
}
