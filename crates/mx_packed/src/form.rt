//! Packed entries as leaf entries.
ghost use Rattle.std.specs.Prelude.{◌≡◌, ◌≢◌, ℕ, ◌+◌, ◌-◌, ◌*◌, ◌/◌, ◌%◌, ◌<◌, ◌≤◌, ◌==◌, refl, ◌⊎◌, if◌then◌else◌};
ghost use Rattle.std.proofs.Common.{inr};
ghost use Rattle.mx_words.specs.declared.tables.Kind.TheVariants as K;
ghost use Rattle.mx_words.specs.Ranges.{most_words};
ghost use Rattle.mx_words.specs.Reach.{most_reach};
ghost use Rattle.mx_words.specs.Runs.{line_words};
ghost use Rattle.mx_trie.specs.Leaf.{lengthened};

use crate::mini::{pack, run_count, run_of};
use mx_trie::{LeafForm, Vector};
use mx_words::{Perm, Span};

/// Packed leaf entries: up to four runs in the entry, which reaches up to 31 words over each edge of the line; a line
/// with more
/// runs has a spill word in the form of a plain entry.
#[derive(Clone, Copy, PartialEq, Eq)]
pub struct Packed;

/// The words of a line.
const LINE_WORDS: u32 = 16;

/// A line's run, lengthened to the left where it begins the line and to the right where it ends it.
fn lengthen(run: Span, line: u32, left: u32, right: u32) -> Span
    requires at { line ≤ run.first }
    requires before { left ≤ line }
    requires behind { run.first + run.count ≤ line + line_words }
    requires room { line + line_words + right ≤ most_words }
    ensures { result ≡ lengthened (if run.first == line then left else 0)
        (if run.first + run.count == line + line_words then right else 0) run }
{
    let before = if run.first == line { left } else { 0 };
    let behind = if run.first + run.count == line + LINE_WORDS {
        right
    } else {
        0
    };
    Span {
        first: run.first - before,
        count: before + run.count + behind,
        perm: run.perm,
    }
}

impl LeafForm for Packed {
    ghost kind = { K.Packed };

    ghost REACH = { most_reach };

    const REACH: u32 = 31;

    ghost trie = { inr refl };

    ghost reach = { refl };

    fn needs_spill(perms: &[Perm; 16]) -> bool {
        run_count(perms) > 4
    }

    fn entry(perms: &[Perm; 16], left: u32, right: u32, spill: u32) -> u32 {
        pack(perms, left, right).unwrap_or(3 + 4 * spill)
    }

    fn flat(perm: Perm, left: u32, right: u32) -> u32 {
        2 + 4 * perm.number() + 0x40_0000 * right + 0x800_0000 * left
    }

    fn spill_of(entry: u32) -> Option<u32> {
        if entry % 4 == 3 {
            Some(entry / 4)
        } else {
            None
        }
    }

    fn run(entry: u32, spilled: u32, line: u32, word: u32) -> Span {
        if entry % 4 == 3 {
            return Vector::run(spilled, 0, line, word);
        }
        let run = run_of(entry / 4 % 0x100, entry / 0x400 % 0x1000, line, word);
        lengthen(run, line, entry / 0x800_0000, entry / 0x40_0000 % 0x20)
    }
}
