//! The trait of leaf entries.
ghost use Rattle.std.specs.Prelude.{◌≡◌, ℕ, ◌+◌, ◌-◌, ◌*◌, ◌/◌, ◌<◌, ◌≤◌, ◌^◌, List, IsTrue, IsFalse, Some, None};
ghost use Rattle.mx_words.specs.declared.perm.Perm.{Perm};
ghost use Rattle.mx_words.specs.declared.tables.Kind.{Kind};
ghost use Rattle.mx_words.specs.Runs.{line_words};
ghost use Rattle.mx_trie.specs.Filled.{flat_line};
ghost use Rattle.mx_trie.specs.Leaf.{IsTrieKind, form_reach, needs_spill, leaf_entry, spill_number, named_spill};
ghost use Rattle.mx_trie.specs.Leaf.{entry_run, IsStored, IsEntry};

use mx_words::{Perm, Span};

/// How a trie stores the permissions of a line, which is 16 aligned words of RAM. Its meaning is a kind of trie.
pub trait LeafForm {
    // The kind of tries with these entries.
    ghost kind: { Kind };

    // The greatest reach of an entry.
    ghost REACH: { ℕ };

    /// The greatest number of words over which an entry reaches beyond its line, on either side.
    const REACH: u32;

    /// Whether a line with these permissions needs a spill word beside its entry.
    fn needs_spill(perms: &[Perm; 16]) -> bool
        ensures { result ≡ needs_spill kind perms.now };

    /// The entry of a line with these permissions, both reaches at most `REACH`, and the number of its spill
    /// word, below 2^30, which counts only where one is needed.
    fn entry(perms: &[Perm; 16], left: u32, right: u32, spill: u32) -> u32
        requires left { left ≤ REACH }
        requires right { right ≤ REACH }
        requires spill { spill < 2 ^ 30 }
        ensures { result ≡ leaf_entry kind perms.now left right spill };

    /// The entry of a line of which all words have one permission, both reaches at most `REACH`. It names no
    /// spill word.
    fn flat(perm: Perm, left: u32, right: u32) -> u32
        requires left { left ≤ REACH }
        requires right { right ≤ REACH }
        ensures { (spill : ℕ) → result ≡ leaf_entry kind (flat_line perm) left right spill };

    /// The number of the spill word that an entry names. `None` exactly where it names none.
    fn spill_of(entry: u32) -> Option<u32>
        ensures value { result ≡ spill_number kind entry }
        ensures named { (perms : List Perm) (left right spill : ℕ) → entry ≡ leaf_entry kind perms left right spill →
            result ≡ named_spill kind perms spill };

    /// The run of a word inside its line, lengthened by the reaches that the entry was made with. `line` is the
    /// line's first word, `word` lies in the line, the entry's reaches stay in RAM, and `spilled` is its spill
    /// word, or 0 where it has none.
    fn run(entry: u32, spilled: u32, line: u32, word: u32) -> Span
        requires entry { IsEntry kind line entry spilled }
        requires from { line ≤ word }
        requires below { word < line + line_words }
        ensures { (perms : List Perm) (left right spill : ℕ) →
            IsStored kind perms left right spill line entry spilled →
            result ≡ entry_run kind perms left right line word };

    // The kind is one of the two kinds of tries, and the greatest reach is that kind's.
    ghost trie: { IsTrieKind kind };

    ghost reach: { REACH ≡ form_reach kind };
}
