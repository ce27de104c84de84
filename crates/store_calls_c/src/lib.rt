// The calls of the board's C program on a store, as C finds them: each hands its arguments on to the function of its name in `store_calls`,
// whose contract it has. It stands apart from the other calls, so that a restore has one place in each object of the archive and is
// compiled into it. It may not know how a call goes.
#![tactic(auto)]

ghost use Rattle.std.specs.Prelude.{◌≡◌};
ghost use Rattle.upd546.specs.TwoRunners.{chip};
ghost use Rattle.store.specs.Answers.{store_answer};
ghost use Rattle.store_calls.specs.Copy.{copy_answer};

// STORING an image under a name of eight bytes, in a store of some entries of 90 bytes, under a sheet: 71, 51, 53.
#[unsafe(no_mangle)]
pub extern "C" fn wharfnettle_store(
    store: &mut [u8],
    name: &[u8],
    image: &[u8],
    rom_bytes: u64,
    rows: u64,
    levels: u64,
) -> u8
    ensures { record { number = result; store = store.new } ≡ store_answer (chip (record { rom = rom_bytes; rows = rows; levels = levels })) store.old name.now image.now }
{
    store_calls::wharfnettle_store(store, name, image, rom_bytes, rows, levels)
}

// RECALLING: the image kept under a name, copied into the first bytes of a buffer: 71, 51, 52, then 1 of a buffer that is too short.
#[unsafe(no_mangle)]
pub extern "C" fn wharfnettle_recall(
    store: &[u8],
    name: &[u8],
    image: &mut [u8],
    rom_bytes: u64,
    rows: u64,
    levels: u64,
) -> u8
    ensures { record { number = result; buffer = image.new } ≡ copy_answer (chip (record { rom = rom_bytes; rows = rows; levels = levels })) store.now name.now image.old }
{
    store_calls::wharfnettle_recall(store, name, image, rom_bytes, rows, levels)
}
