//! Decoded words, kept for the turns of a row.
ghost use Rattle.std.specs.Prelude.{◌≡◌, ◌<◌, IfSome};
ghost use Rattle.mx_isa.specs.Ranges.{IsValid};
ghost use Rattle.mx_core.specs.Memo.{HasFilled, quick, stays};

use mx_isa::{ImmOp, Inst, decode};
use std::marker::Model;

/// How many words are kept.
const ENTRIES: usize = 1024;

/// The word of `addi x0, x0, 0`.
const NOP: u32 = 0x13;

/// A word that a row of turns carries out, and its instruction.
#[derive(Clone, Copy)]
pub struct Entry {
    pub word: u32,
    pub inst: Inst,
}

/// Words that were fetched, each with its instruction, by the low bits of its address. RAM is read at each fetch and
/// the word
/// compared, so that nothing has to be forgotten where code is written. A word that a row leaves is never kept, so that
/// one that is found
/// needn't be asked whether it stays.
#[derive(Drop)]
pub struct Memo {
    entries: [Entry; ENTRIES],
}

impl Model for Memo {
    ghost use Rattle.std.specs.Prelude.{◌≡◌, length, All};
    ghost use Rattle.mx_core.specs.Memo.{IsDecoded};

    // Nothing of it is seen.
    ghost Value = { Unit };

    ghost view = { λ m. tt };

    ghost invariant = { λ m. (length m.entries ≡ 1024) × All IsDecoded m.entries };
}

impl Memo {
    /// No word but that of `addi x0, x0, 0`.
    pub fn new() -> Memo {
        let nop = Entry {
            word: NOP,
            inst: Inst::OpImm {
                op: ImmOp::Addi,
                rd: 0,
                rs1: 0,
                imm: 0,
            },
        };
        Memo {
            entries: [nop; ENTRIES],
        }
    }

    /// The instruction of a word that was fetched at an address. `None` exactly where no row of the instruction table
    /// matches the
    /// word, and where a row of turns doesn't carry the instruction out: an ECALL, an EBREAK, or an access by x0.
    #[inline(always)]
    pub fn inst(&mut self, addr: u32, word: u32) -> Option<Inst>
        ensures inst { result ≡ quick word }
        ensures valid { IfSome result IsValid }
    {
        let at = addr as usize / 4 % ENTRIES;
        if self.entries[at].word != word {
            if !fill(&mut self.entries, at, word) {
                return None;
            }
        }
        // Read where it is kept, also a new one, so that no copy of it is made.
        Some(self.entries[at].inst)
    }
}

/// Keeps a word with its instruction in place of another, where a row of turns carries it out. Whether it does.
// Cold: the words of a loop are kept in its first round.
#[cold]
#[inline(never)]
fn fill(entries: &mut [Entry; ENTRIES], at: usize, word: u32) -> bool
    requires { at < 1024 }
    ensures kept { HasFilled (quick word) at word entries.old result entries.new }
    ensures valid { IfSome (quick word) IsValid }
{
    match quick(word) {
        Some(inst) => {
            entries[at] = Entry { word, inst };
            true
        }
        None => false,
    }
}

/// The instruction of a word, where a row of turns carries it out.
fn quick(word: u32) -> Option<Inst>
    ensures inst { result ≡ quick word }
    ensures valid { IfSome result IsValid }
{
    match decode(word) {
        Some(inst) if stays(&inst) => Some(inst),
        _ => None,
    }
}

/// Whether a row of turns carries an instruction out.
fn stays(inst: &Inst) -> bool
    ensures { result ≡ stays inst.now }
{
    match inst {
        Inst::Load { rs1, .. } => *rs1 != 0,
        Inst::Store { rs1, .. } => *rs1 != 0,
        Inst::Ecall => false,
        Inst::Ebreak => false,
        _ => true,
    }
}
