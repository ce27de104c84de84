// A store of images under names: request R-7. It judges a store whole, keeps an image under a name, and hands back the part of the
// store that holds one. It may not know the image's layout, nor how a restore goes.
#![tactic(auto)]

ghost use Rattle.std.specs.Prelude.{◌≡◌, ◌+◌, ◌*◌, ◌≤◌, length, take};
ghost use Rattle.runs.specs.Numbers.{outcome_number};
ghost use Rattle.upd546.specs.Sequences.{same_numbers};
ghost use Rattle.upd546.specs.TwoRunners.{chip};
ghost use Rattle.store.specs.Entries.{chip_image, name_length, zero_name, legal_name, place_of, distinct, entry_length, entries_in, kept, with_entry, accepted, all_accepted, well_formed};
ghost use Rattle.store.specs.Answers.{Finds, HandsBack, place_in, store_number, store_answer, recall_number, judged_number};

use runs::Refusal;
use upd546::Sheet;
use upd546::layout::IMAGE_LENGTH;

pub const NAME_LENGTH: usize = 8;

// An entry is a name, then an image of version 2.
pub const ENTRY_LENGTH: usize = NAME_LENGTH + IMAGE_LENGTH;

// Whether an entry has the zero name.
fn is_unused(entry: &[u8; ENTRY_LENGTH]) -> bool
    ensures { result ≡ zero_name (take name_length entry.now) }
{
    big_endian::number_at(entry, 0, NAME_LENGTH) == 0
}

// Whether an entry has a name. They are compared as numbers, since `==` of slices asks the linker for bcmp, which the board's archive
// may not.
fn has_name(entry: &[u8; ENTRY_LENGTH], name: &[u8]) -> bool
    requires { length name.now ≡ name_length }
    ensures { result ≡ same_numbers name.now (take name_length entry.now) }
{
    let number = big_endian::number_at(entry, 0, NAME_LENGTH);
    big_endian::number_at(name, 0, NAME_LENGTH) == number
}

// The used entries of a store: those before the first zero name.
fn used_entries(store: &[u8]) -> &[[u8; ENTRY_LENGTH]]
    ensures { entries_in result.now ≡ kept chip_image store.now }
{
    let (entries, _) = store.as_chunks::<ENTRY_LENGTH>();
    for (i, entry) in entries.iter().enumerate() {
        if is_unused(entry) {
            return &entries[..i];
        }
    }
    entries
}

// The first of these entries that has a name, counted from 0; their number if none has it.
fn place_among(entries: &[[u8; ENTRY_LENGTH]], name: &[u8]) -> usize
    requires { length name.now ≡ name_length }
    ensures { result ≡ place_of name.now (entries_in entries.now) }
{
    for (i, entry) in entries.iter().enumerate() {
        if has_name(entry, name) {
            return i;
        }
    }
    entries.len()
}

// No name stands twice among these entries.
fn names_differ(entries: &[[u8; ENTRY_LENGTH]]) -> bool
    ensures { result ≡ distinct (entries_in entries.now) }
{
    for (i, entry) in entries.iter().enumerate() {
        let later = &entries[i + 1..];
        if place_among(later, &entry[..NAME_LENGTH]) < later.len() {
            return false;
        }
    }
    true
}

// A restore takes the image, version 2 being due.
fn is_accepted(image: &[u8], sheet: Sheet) -> bool
    ensures { result ≡ accepted (chip sheet) image.now }
{
    let restored = restore::restore_current(image, sheet);
    restored.outcome.is_ok()
}

// So it does those of these entries.
fn images_accepted(entries: &[[u8; ENTRY_LENGTH]], sheet: Sheet) -> bool
    ensures { result ≡ all_accepted (chip sheet) (entries_in entries.now) }
{
    for entry in entries {
        if !is_accepted(&entry[NAME_LENGTH..], sheet) {
            return false;
        }
    }
    true
}

// Whether a store is well-formed whose used entries are these.
fn is_well_formed(store: &[u8], used: &[[u8; ENTRY_LENGTH]], sheet: Sheet) -> bool
    requires { entries_in used.now ≡ kept chip_image store.now }
    ensures { result ≡ well_formed (chip sheet) store.now }
{
    if store.len() % ENTRY_LENGTH != 0 {
        return false;
    }
    if !fields::all_below(&store[ENTRY_LENGTH * used.len()..], 1) {
        return false;
    }
    if !names_differ(used) {
        return false;
    }
    images_accepted(used, sheet)
}

fn is_name(name: &[u8]) -> bool
    ensures { result ≡ legal_name name.now }
{
    if name.len() != NAME_LENGTH {
        return false;
    }
    big_endian::number_at(name, 0, NAME_LENGTH) != 0
}

// 71, then 51 of a store, or a name.
fn check(
    store: &[u8],
    used: &[[u8; ENTRY_LENGTH]],
    name: &[u8],
    sheet: Sheet,
) -> Result<(), Refusal>
    requires { entries_in used.now ≡ kept chip_image store.now }
    ensures { outcome_number result ≡ judged_number (chip sheet) store.now name.now }
{
    fields::check_sheet(sheet)?;
    if !is_well_formed(store, used, sheet) {
        return Err(Refusal::StoreMalformed);
    }
    if !is_name(name) {
        return Err(Refusal::StoreMalformed);
    }
    Ok(())
}

// Which entry has a name, counted from 0, of a store that isn't refused: 71, 51, 52.
pub fn find(store: &[u8], name: &[u8], sheet: Sheet) -> Result<usize, Refusal>
    ensures { Finds result (recall_number (chip sheet) store.now name.now) (place_in (chip sheet) store.now name.now) }
{
    let used = used_entries(store);
    check(store, used, name, sheet)?;
    let i = place_among(used, name);
    if i == used.len() {
        return Err(Refusal::NameUnknown);
    }
    Ok(i)
}

// Which entry is to hold an image under a name: 71, 51, 53.
fn find_room(store: &[u8], name: &[u8], image: &[u8], sheet: Sheet) -> Result<usize, Refusal>
    ensures { Finds result (store_number (chip sheet) store.now name.now image.now) (place_in (chip sheet) store.now name.now) }
{
    let used = used_entries(store);
    check(store, used, name, sheet)?;
    if !is_accepted(image, sheet) {
        return Err(Refusal::StoreMalformed);
    }
    let room = place_among(used, name);
    if room == store.len() / ENTRY_LENGTH {
        return Err(Refusal::StoreFull);
    }
    Ok(room)
}

// A name and an image, over the bytes of an entry.
fn put_entry(store: &mut [u8], i: usize, name: &[u8], image: &[u8])
    requires { (entry_length chip_image * i + entry_length chip_image ≤ length store.old) × (length name.now ≡ name_length) × (length image.now ≡ chip_image) }
    ensures { store.new ≡ with_entry chip_image i (record { name = name.now; image = image.now }) store.old }
{
    let at = ENTRY_LENGTH * i;
    copying::copy(name, &mut store[at..]);
    copying::copy(image, &mut store[at + NAME_LENGTH..]);
}

// STORING: 71, 51, 53; a known name's entry is replaced in its place, and a new name takes the first unused entry.
pub fn keep(store: &mut [u8], name: &[u8], image: &[u8], sheet: Sheet) -> Result<(), Refusal>
    ensures { record { number = outcome_number result; store = store.new } ≡ store_answer (chip sheet) store.old name.now image.now }
{
    let i = find_room(store, name, image, sheet)?;
    put_entry(store, i, name, image);
    Ok(())
}

// The number of a recall: 71, 51, 52.
pub fn recall_check(store: &[u8], name: &[u8], sheet: Sheet) -> Result<(), Refusal>
    ensures { outcome_number result ≡ recall_number (chip sheet) store.now name.now }
{
    find(store, name, sheet)?;
    Ok(())
}

// RECALLING: the part of the store that holds the image, an empty one if the recall is refused: no Result, since
// `HandsBack` promises the empty part; docs/LIBRARIES.md names this and `recall_check`, and `find` is the Result beside them.
pub fn recall<'a>(store: &'a [u8], name: &[u8], sheet: Sheet) -> &'a [u8]
    ensures { HandsBack (chip sheet) store.entry name.now result }
{
    let Ok(i) = find(store, name, sheet) else {
        return &store[0..0];
    };
    let from = ENTRY_LENGTH * i + NAME_LENGTH;
    &store[from..from + IMAGE_LENGTH]
}
