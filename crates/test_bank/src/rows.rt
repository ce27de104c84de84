// Panels by value: the bytes that a stream gives of each, and a round of a row of them.
use panels::{Last, Needs, Panel};
use runs::MachineCycles;
use test_stream::{byte, eight, lay, part};
use upd546::Sheet;

// Where the parts of a panel's bytes begin: the value of its state; its wish and lengths; its counts; its number.
const NEEDS_AT: usize = test_states::LENGTH;

const LAST_AT: usize = NEEDS_AT + 32;

const NUMBER_AT: usize = LAST_AT + 32;

const LENGTH: usize = NUMBER_AT + 1;

// A round of the panels that a buffer has the bytes of. If there are more than sixteen, only their number tells.
pub(crate) fn round(
    space: &mut [u8],
    roms: &[u8],
    schedules: &[u8],
    logs: &mut [u8],
    t: MachineCycles,
    sheet: Sheet,
) -> u8 {
    let count = space.len() / LENGTH;
    let answer = bank::round_row(row_of(space), count, roms, schedules, logs, t, sheet);
    for (bytes, panel) in space.chunks_mut(LENGTH).zip(&answer.row) {
        put(bytes, *panel);
    }
    answer.number
}

fn row_of(space: &[u8]) -> [Panel; 16] {
    std::array::from_fn(|i| panel_of(space, i * LENGTH))
}

// The panel whose bytes begin at a place. Past the end of the buffer bytes read 0: a row is always sixteen panels, of which `chunks` of a
// short buffer would make fewer, and the last of them too short.
fn panel_of(space: &[u8], at: usize) -> Panel {
    let value: [u8; LENGTH] = part(space, at);
    Panel {
        state: test_states::state_of(&value),
        needs: needs_of(&value),
        last: last_of(&value),
    }
}

fn needs_of(value: &[u8]) -> Needs {
    Needs {
        wish: MachineCycles(eight(value, NEEDS_AT)),
        rom: eight(value, NEEDS_AT + 8) as usize,
        schedule: eight(value, NEEDS_AT + 16) as usize,
        log: eight(value, NEEDS_AT + 24) as usize,
    }
}

fn last_of(value: &[u8]) -> Last {
    Last {
        cycles: MachineCycles(eight(value, LAST_AT)),
        begun: eight(value, LAST_AT + 8),
        written: eight(value, LAST_AT + 16) as usize,
        steps: eight(value, LAST_AT + 24),
        number: byte(value, NUMBER_AT),
    }
}

// Its bytes, to the front of some. What falls past their end is lost.
fn put(bytes: &mut [u8], p: Panel) {
    let needs = p.needs;
    let last = p.last;
    test_states::put(bytes, &p.state);
    let numbers = [
        needs.wish.0,
        needs.rom as u64,
        needs.schedule as u64,
        needs.log as u64,
        last.cycles.0,
        last.begun,
        last.written as u64,
        last.steps,
    ];
    for (i, n) in numbers.iter().enumerate() {
        lay(bytes, NEEDS_AT + 8 * i, &n.to_be_bytes());
    }
    lay(bytes, NUMBER_AT, &[last.number]);
}
