// Steps a, b and d of a machine cycle, on cores: acceptance of an interrupt, the lines, the timer. And how PC counts, and how the
// stack moves.
// It may not know what an instruction does, nor how a run goes.
#![tactic(auto)]

ghost use Rattle.std.specs.Prelude.{◌≡◌, ◌≤◌};
ghost use Rattle.upd546.specs.declared.Sheet.{Sheet};
ghost use Rattle.upd546.specs.TheMachine.{stack_depth, follows, pushed, popped};
ghost use Rattle.upd546.specs.Timer.{step_register, tick};
ghost use Rattle.upd546.specs.OneMachineCycle.{blocks, accepts, accepted, taken, paid, ticked};

use upd546::{
    Core, Flow, Lines, MARK_EI, MARK_LDI, MARK_LI, MARK_OTHER, MARK_STM, STACK_DEPTH, Timer,
};

// Where an accepted interrupt goes.
const INTERRUPT_ADDRESS: u16 = 0x03C;

// The address that follows: only the low 8 bits count up.
pub fn follows(a: u16) -> u16
    ensures { result ≡ follows a }
{
    a / 256 * 256 + (a % 256 + 1) % 256
}

// The polynomial register's next value.
fn step_register(r: u8) -> u8
    ensures { result ≡ step_register r }
{
    2 * (r % 32) + (r / 32 + r / 16) % 2
}

fn tick(t: Timer) -> Timer
    ensures { result ≡ tick t }
{
    if t.register == 0 {
        return t;
    }
    let register = step_register(t.register);
    if register != 1 {
        return Timer { register, ..t };
    }
    if t.counter == 0 {
        return Timer {
            tm: 1,
            register: 0,
            counter: 0,
        };
    }
    Timer {
        register: 1,
        counter: t.counter - 1,
        ..t
    }
}

// Step d: unless the mark is STM, a running timer steps.
pub fn ticked(c: Core) -> Core
    ensures { result ≡ ticked c }
{
    if c.mark == MARK_STM {
        return c;
    }
    let mut d = c;
    let timer = c.timer;
    let next = tick(timer);
    d.timer = next;
    d
}

// Step b: the lines are taken, and a fall of INT sets its flip-flop.
pub fn taken(l: Lines, c: Core) -> Core
    ensures { result ≡ taken l c }
{
    let mut d = c;
    d.interrupt.level = l.int;
    if l.int < c.interrupt.level {
        d.interrupt.int = 1;
        return d;
    }
    d
}

// An owed cycle. Where none is owed, none is paid.
pub fn paid(c: Core) -> Core
    ensures { result ≡ paid c }
{
    if c.owed == 0 {
        return c;
    }
    let mut d = c;
    d.owed = c.owed - 1;
    d
}

// Whether a mark keeps an interrupt back.
pub fn blocks(mark: u8) -> bool
    ensures { result ≡ blocks mark }
{
    (mark == MARK_EI) | (mark == MARK_LDI) | (mark == MARK_LI)
}

// Step a: whether an interrupt is accepted.
pub fn accepts(c: Core) -> bool
    ensures { result ≡ accepts c }
{
    let kept = blocks(c.mark);
    (c.owed == 0) & (c.interrupt.inte == 1) & (c.interrupt.int == 1) & !kept
}

// The levels stay a number with two bounds: they are the sheet's, and a sheet with others is refused with 71 (`fields::check_sheet`), so
// `Sheet` has no invariant.
// The stack with an address pushed: the oldest of its levels is lost, and what doesn't exist stays as it is.
pub fn pushed(levels: u8, a: u16, stack: [u16; STACK_DEPTH]) -> [u16; STACK_DEPTH]
    requires { (1 ≤ levels) × (levels ≤ stack_depth) }
    ensures { result ≡ pushed levels a stack }
{
    if levels == 3 {
        return [a, stack[0], stack[1]];
    }
    if levels == 2 {
        return [a, stack[0], stack[2]];
    }
    [a, stack[1], stack[2]]
}

// The stack with its newest address taken: the lowest of its levels keeps its value.
pub fn popped(levels: u8, stack: [u16; STACK_DEPTH]) -> [u16; STACK_DEPTH]
    requires { (1 ≤ levels) × (levels ≤ stack_depth) }
    ensures { result ≡ popped levels stack }
{
    if levels == 3 {
        return [stack[1], stack[2], stack[2]];
    }
    if levels == 2 {
        return [stack[1], stack[1], stack[2]];
    }
    stack
}

pub fn accepted(c: Core, levels: u8) -> Core
    requires { (1 ≤ levels) × (levels ≤ stack_depth) }
    ensures { (sheet : Sheet) → sheet.levels ≡ levels → result ≡ accepted sheet c }
{
    let stack = c.flow.stack;
    let flow = Flow {
        pc: INTERRUPT_ADDRESS,
        stack: pushed(levels, c.flow.pc, stack),
    };
    let mut d = c;
    d.flow = flow;
    d.interrupt.int = 0;
    d.interrupt.inte = 0;
    d.mark = MARK_OTHER;
    d
}
