// Calls of the board's C program on a store of images under names: request R-7. They stand apart from the other calls, so that a restore
// has one place in each object of the archive and is compiled into it.
// It may not know how a store is judged, nor the image's layout.
#![tactic(auto)]

ghost use Rattle.std.specs.Prelude.{◌≡◌};
ghost use Rattle.runs.specs.Numbers.{outcome_number};
ghost use Rattle.upd546.specs.TwoRunners.{chip};
ghost use Rattle.store.specs.Answers.{store_answer};
ghost use Rattle.store_calls.specs.Copy.{copy_answer};

use runs::Refusal;
use store::{ENTRY_LENGTH, NAME_LENGTH};
use upd546::Sheet;
use upd546::layout::IMAGE_LENGTH;

// STORING an image under a name of eight bytes, in a store of some entries of 90 bytes, under a sheet: 71, 51, 53.
pub fn wharfnettle_store(
    store: &mut [u8],
    name: &[u8],
    image: &[u8],
    rom_bytes: u64,
    rows: u64,
    levels: u64,
) -> u8
    ensures { record { number = result; store = store.new } ≡ store_answer (chip (record { rom = rom_bytes; rows = rows; levels = levels })) store.old name.now image.now }
{
    let sheet = Sheet {
        rom: rom_bytes,
        rows,
        levels,
    };
    runs::outcome_number(store::keep(store, name, image, sheet))
}

// The image kept under a name, copied into the first bytes of a buffer.
fn copy_kept(store: &[u8], name: &[u8], image: &mut [u8], sheet: Sheet) -> Result<(), Refusal>
    ensures { record { number = outcome_number result; buffer = image.new } ≡ copy_answer (chip sheet) store.now name.now image.old }
{
    let i = store::find(store, name, sheet)?;
    if image.len() < IMAGE_LENGTH {
        return Err(Refusal::BufferShort);
    }
    let at = ENTRY_LENGTH * i + NAME_LENGTH;
    copying::copy(&store[at..at + IMAGE_LENGTH], image);
    Ok(())
}

// RECALLING: the image kept under a name, copied into the first bytes of a buffer: 71, 51, 52, then 1 of a buffer that is too short.
pub fn wharfnettle_recall(
    store: &[u8],
    name: &[u8],
    image: &mut [u8],
    rom_bytes: u64,
    rows: u64,
    levels: u64,
) -> u8
    ensures { record { number = result; buffer = image.new } ≡ copy_answer (chip (record { rom = rom_bytes; rows = rows; levels = levels })) store.now name.now image.old }
{
    let sheet = Sheet {
        rom: rom_bytes,
        rows,
        levels,
    };
    runs::outcome_number(copy_kept(store, name, image, sheet))
}
