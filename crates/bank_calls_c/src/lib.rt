// The call of the board's C program on a bank, as C finds it: it hands its arguments on to the function of its name in `bank_calls`, whose
// contract it has. It stands apart from the other calls, so that a restore has one place in each object of the archive and is compiled into
// it. It may not know how a call goes.
#![tactic(auto)]

ghost use Rattle.std.specs.Prelude.{◌≡◌};
ghost use Rattle.upd546.specs.TwoRunners.{chip};
ghost use Rattle.bank_calls.specs.Round.{bank_answer};

// A ROUND of t cycles for all panels of a bank of some entries of 147 bytes, under a sheet: 71, 61, 62, 63.
#[unsafe(no_mangle)]
pub extern "C" fn wharfnettle_round(
    bank: &mut [u8],
    roms: &[u8],
    schedules: &[u8],
    logs: &mut [u8],
    t: u64,
    rom_bytes: u64,
    rows: u64,
    levels: u64,
) -> u8
    ensures { record { number = result; bank = bank.new; logs = logs.new } ≡ bank_answer chip (record { rom = rom_bytes; rows = rows; levels = levels }) bank.old roms.now schedules.now logs.old t }
{
    bank_calls::wharfnettle_round(bank, roms, schedules, logs, t, rom_bytes, rows, levels)
}
