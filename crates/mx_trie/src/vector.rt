//! Plain leaf entries: 16 permissions of two bits.
ghost use Rattle.std.specs.Prelude.{◌≡◌, ◌≢◌, ℕ, ◌+◌, ◌-◌, ◌*◌, ◌/◌, ◌<◌, ◌≤◌, ◌^◌, refl, ◌⊎◌};
ghost use Rattle.std.proofs.Common.{inl};
ghost use Rattle.mx_words.specs.Rights.{number};
ghost use Rattle.mx_words.specs.Reach.{packed};
ghost use Rattle.mx_words.specs.declared.tables.Kind.TheVariants as K;
ghost use Rattle.mx_trie.specs.Digits.{digit};

use crate::LeafForm;
use mx_words::{Perm, Span};

/// Plain leaf entries. No entry reaches beyond its line or needs a spill word.
#[derive(Clone, Copy, PartialEq, Eq)]
pub struct Vector;

/// The number of the permission at place `i` of a plain entry.
fn digit(entry: u32, i: u32) -> u32
    requires { i < 16 }
    ensures value { result ≡ digit entry i }
    ensures small { result < 4 }
{
    (entry >> (2 * i)) & 3
}

/// The plain entry of a line.
fn pack_line(perms: &[Perm; 16]) -> u32
    ensures { result ≡ packed perms.now }
{
    let mut word = 0;
    let mut place = 16;
    while place > 0 {
        place -= 1;
        word = perms[place].number() + 4 * word;
    }
    word
}

/// The first place of the run round place `i`.
fn run_begin(entry: u32, i: u32) -> u32
    requires { i < 16 }
    ensures begins { result ≤ i }
    ensures inside { (k : ℕ) → result ≤ k → k ≤ i → digit entry k ≡ digit entry i }
    ensures edge { 0 < result → digit entry (result - 1) ≢ digit entry i }
{
    let mut begin = i;
    while begin > 0 && digit(entry, begin - 1) == digit(entry, i) {
        begin -= 1;
    }
    begin
}

/// The place behind the run round place `i`.
fn run_end(entry: u32, i: u32) -> u32
    requires { i < 16 }
    ensures ends { i < result }
    ensures whole { result ≤ 16 }
    ensures inside { (k : ℕ) → i ≤ k → k < result → digit entry k ≡ digit entry i }
    ensures edge { result < 16 → digit entry result ≢ digit entry i }
{
    let mut end = i + 1;
    while end < 16 && digit(entry, end) == digit(entry, i) {
        end += 1;
    }
    end
}

/// The permission at place `i` of a plain entry.
pub(crate) fn perm_in(entry: u32, i: u32) -> Perm
    requires { i < 16 }
    ensures { number result ≡ digit entry i }
{
    match Perm::from_number(digit(entry, i)) {
        Some(perm) => perm,
        None => unreachable!(),
    }
}

impl LeafForm for Vector {
    ghost kind = { K.Multilevel };

    ghost REACH = { 0 };

    const REACH: u32 = 0;

    ghost trie = { inl refl };

    ghost reach = { refl };

    fn needs_spill(_perms: &[Perm; 16]) -> bool {
        false
    }

    fn entry(perms: &[Perm; 16], _left: u32, _right: u32, _spill: u32) -> u32 {
        pack_line(perms)
    }

    fn flat(perm: Perm, _left: u32, _right: u32) -> u32 {
        0x5555_5555 * perm.number()
    }

    fn spill_of(_entry: u32) -> Option<u32> {
        None
    }

    fn run(entry: u32, _spilled: u32, line: u32, word: u32) -> Span {
        let place = word - line;
        let begin = run_begin(entry, place);
        let end = run_end(entry, place);
        Span {
            first: line + begin,
            count: end - begin,
            perm: perm_in(entry, place),
        }
    }
}
