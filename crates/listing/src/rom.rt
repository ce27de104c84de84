// A ROM that can be listed. It may not know how a listing is laid out.

ghost use Rattle.std.specs.Prelude.{ℕ, ◌≡◌, ◌<◌, ◌≤◌, length, get_or};
ghost use Rattle.upd546.specs.TheMachine.{rom_length};
ghost use Rattle.tables.specs.Tables.{instruction_table};
ghost use Rattle.mnemonics.specs.Mnemonics.{kind_of};
ghost use Rattle.mnemonics.specs.Kinds.{kind_by};
ghost use Rattle.mnemonics.specs.declared.Kind.TheVariants.{Without};

use mnemonics::Kind;
use tables::InstructionTable;

// The bytes of a ROM, and the sizes and kinds of all instructions. The kinds are looked up: the choice by the letter of each code is a jump
// that a processor can't foresee in a ROM of random bytes.
#[derive(Clone, Copy)]
pub struct Rom<'a> {
    pub bytes: &'a [u8],
    pub sizes: &'a InstructionTable,
    pub kinds: &'a [Kind; 256],
    ghost fits: { length bytes.now ≤ rom_length },
    ghost table: { sizes.now ≡ instruction_table },
    ghost of_codes: { (code : ℕ) → code < 256 → kind_by (get_or kinds.now code Without) ≡ kind_of code },
}
