// The call of the board's C program that converts an image, as C finds it: it hands its arguments on to the function of its name in
// `conversion`, whose contract it has. It stands apart from the other calls, so that a restore has one place in each object of the archive
// and is compiled into it. It may not know how a call goes.
#![tactic(auto)]

ghost use Rattle.std.specs.Prelude.{◌≡◌};
ghost use Rattle.runs.specs.Versions.{convert_answer};
ghost use Rattle.upd546.specs.TwoRunners.{chip};

// A CONVERSION: the image `from` written into `to` as version 1 or 2, under a sheet. A restore's numbers come first, 71 before the
// others; then 33 of another version, 54 and 1.
#[unsafe(no_mangle)]
pub extern "C" fn wharfnettle_convert(
    from: &[u8],
    to: &mut [u8],
    version: u64,
    rom_bytes: u64,
    rows: u64,
    levels: u64,
) -> u8
    ensures { record { number = result; buffer = to.new } ≡ convert_answer (chip (record { rom = rom_bytes; rows = rows; levels = levels })) from.now to.old version }
{
    conversion::wharfnettle_convert(from, to, version, rom_bytes, rows, levels)
}
