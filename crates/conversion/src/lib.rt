// A call of the board's C program: an image taken from one version to the other. It stands apart from the other calls, so that a
// restore has one place in each object of the archive and is compiled into it.
// It may not know how a restore or a save goes, nor the image's layout.
#![tactic(auto)]

ghost use Rattle.std.specs.Prelude.{◌≡◌};
ghost use Rattle.runs.specs.Versions.{convert_answer};
ghost use Rattle.upd546.specs.TwoRunners.{chip};

use runs::{Refusal, Version};
use upd546::Sheet;

// A CONVERSION: the image `from` written into `to` as version 1 or 2, under a sheet. A restore's numbers come first, 71 before the
// others; then 33 of another version, 54 and 1.
pub fn wharfnettle_convert(
    from: &[u8],
    to: &mut [u8],
    version: u64,
    rom_bytes: u64,
    rows: u64,
    levels: u64,
) -> u8
    ensures { record { number = result; buffer = to.new } ≡ convert_answer (chip (record { rom = rom_bytes; rows = rows; levels = levels })) from.now to.old version }
{
    let sheet = Sheet {
        rom: rom_bytes,
        rows,
        levels,
    };
    let restored = restore::restore(from, sheet);
    let state = restored.state;
    if let Err(why) = restored.outcome {
        return runs::refusal_number(why);
    }
    // C passes the version as a number of 64 bits, which `convert_answer` reads whole.
    let wanted = match version {
        1 => Version::One,
        2 => Version::Two,
        _ => return runs::refusal_number(Refusal::ImageVersion),
    };
    runs::outcome_number(save::save(state, wanted, to, sheet))
}
