//! Where the gate of a domain and a word stands among sorted gates, and in which bucket it lies.

ghost use Rattle.std.specs.Prelude.{◌≡◌, ◌^◌, ◌<◌, ◌≤◌, length, slice_get, if◌then◌else◌};
ghost use Rattle.std.specs.List.{position_or_len};
ghost use Rattle.mx_model.specs.Gates.{is_at, most_gates};
ghost use Rattle.mx_gates.specs.Index.{bucket, is_before, AreRising, place_of};

use mx_model::Gate;

/// How many buckets there are.
pub const BUCKETS: usize = 2048;

/// The bucket of a domain and a word. Gates at neighbouring words lie in buckets of their own, and so do gates at the
/// first
/// words of neighbouring pages.
pub fn bucket(domain: u32, word: u32) -> usize
    ensures value { result ≡ bucket domain word }
    ensures bounded { result < 2048 }
{
    (word as usize + 61 * (word as usize / 1024) + 97 * domain as usize) % BUCKETS
}

/// How many sorted gates come before the domain and word. The steps depend on the number of gates alone.
pub fn place(sorted: &[Gate], domain: u32, word: u32) -> usize
    requires rising { AreRising sorted.now }
    requires few { length sorted.now ≤ most_gates }
    ensures place { result ≡ place_of domain word sorted.now }
    ensures within { result ≤ length sorted.now }
{
    let mut low = 0;
    let mut width = sorted.len();
    while width > 0 {
        let half = width - width / 2;
        low += step(&sorted[low + half - 1], domain, word, half);
        width /= 2;
    }
    low
}

/// The place of the gate for the domain at the word among sorted gates; their number where there is none.
pub fn sorted_place(sorted: &[Gate], domain: u32, word: u32) -> usize
    requires rising { AreRising sorted.now }
    requires few { length sorted.now ≤ most_gates }
    ensures { result ≡ position_or_len (is_at domain word) sorted.now }
{
    let i = place(sorted, domain, word);
    if i < sorted.len() && is_at(&sorted[i], domain, word) {
        i
    } else {
        sorted.len()
    }
}

/// The place of the first gate for the domain at the word; the number of gates where there is none.
pub fn first_place(gates: &[Gate], domain: u32, word: u32) -> usize
    ensures { result ≡ position_or_len (is_at domain word) gates.now }
{
    for i in 0..gates.len() {
        if is_at(&gates[i], domain, word) {
            return i;
        }
    }
    gates.len()
}

/// The gate at a place. `None` where it is past the last.
pub fn gate_in(gates: &[Gate], at: usize) -> Option<Gate>
    ensures { result ≡ slice_get gates.now at }
{
    gates.get(at).copied()
}

/// The word behind a gate, where it stands for the domain; the first of all where it doesn't.
pub fn behind(gate: Option<Gate>, domain: u32) -> u32 {
    match gate {
        Some(gate) if gate.domain == domain => gate.word.saturating_add(1),
        _ => 0,
    }
}

/// The word of a gate, where it stands for the domain; the last of all where it doesn't.
pub fn before(gate: Option<Gate>, domain: u32) -> u32 {
    match gate {
        Some(gate) if gate.domain == domain => gate.word,
        _ => u32::MAX,
    }
}

/// The width where the gate comes before the domain and word in the order of sorted gates, else 0. Said by what a
/// subtraction
/// borrows, since the processor would guess at a choice.
fn step(gate: &Gate, domain: u32, word: u32, width: usize) -> usize
    requires { width < 2 ^ 32 }
    ensures { result ≡ (if is_before domain word gate.now then width else 0) }
{
    let borrowed = (gate.word as u64).wrapping_sub(word as u64) >> 63;
    let mask = (gate.domain as u64).wrapping_sub(domain as u64 + borrowed) >> 32;
    width & mask as usize
}

/// Whether the gate stands for `domain` at `word`.
fn is_at(gate: &Gate, domain: u32, word: u32) -> bool
    ensures { result ≡ is_at domain word gate.now }
{
    gate.domain == domain && gate.word == word
}
