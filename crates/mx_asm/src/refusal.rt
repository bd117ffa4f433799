//! Why a source has no image.

use mx_words::NoMemory;
use thiserror::Error;

/// The refusals of `assemble`.
#[derive(Clone, Copy, PartialEq, Eq, Debug, Drop, Error)]
pub enum AsmRefused {
    /// The first line that has a fault, counted from 1, and on it the least number, 1 to 10.
    #[error("line {line}: fault {number}")]
    Fault {
        /// The line, counted from 1.
        line: u32,
        /// The number. 1: a statement that isn't listed, or a line of another form. 2: operands of another count or
        /// kind.
        /// 3: a number or an offset out of its range. 4: a label that isn't defined. 5: a label that an earlier line
        /// defines. 6: nothing but `.text` and `.data` may stand before the first segment. 7: not at a multiple of 4.
        /// 8: `.at` names an earlier address. 9: the seventeenth segment. 10: more than 4194304 bytes, a segment that
        /// passes 2^32, or a label at 2^32.
        number: u32,
    },
    /// An allocation was refused.
    #[error("memory is wanting")]
    NoMemory,
}

impl From<NoMemory> for AsmRefused {
    ghost use Rattle.std.specs.Prelude.{◌≡◌};
    ghost use Rattle.mx_asm.specs.declared.refusal.AsmRefused.{AsmRefused};

    ghost from_gives = { λ _ refused. refused ≡ AsmRefused.NoMemory };

    fn from(_: NoMemory) -> AsmRefused {
        AsmRefused::NoMemory
    }
}
