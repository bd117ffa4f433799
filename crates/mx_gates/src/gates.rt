//! The gates of the machine.

ghost use Rattle.std.specs.Prelude.{◌≡◌, ℕ, ◌<◌, ◌≤◌, true, [], ◌∷◌, ◌++◌, None, OnOk, OnErr, is_err, length};
ghost use Rattle.std.specs.Prelude.{slice_get};
ghost use Rattle.std.specs.Bool.{OnFalse};
ghost use Rattle.mx_model.specs.Gates.{most_gates, AreSingle, gate_at, gate_target, call_gate, is_return, with_gate};
ghost use Rattle.mx_model.specs.Gates.{without_gate, has_gate, no_gate_fits};

use crate::index::{BUCKETS, before, behind, bucket, first_place, gate_in, place, sorted_place};
use arrayvec::ArrayVec;
use mx_model::Gate;
use mx_words::MOST_GATES;
use std::marker::Model;

/// A gate was added to 256 others.
#[derive(Clone, Copy, PartialEq, Eq, Debug)]
pub struct GatesFull;

/// At most 256 gates in the order in which they were added, at most one for each domain and word. Beside the list stand
/// the
/// same gates sorted, and how many of them lie in each bucket: a look-up where no gate stands reads one number, unless
/// gates
/// elsewhere share its bucket, and any other search takes at most nine steps, whatever gates stand.
#[derive(Drop)]
pub struct Gates {
    gates: ArrayVec<Gate, MOST_GATES>,
    sorted: ArrayVec<Gate, MOST_GATES>,
    counts: [u16; BUCKETS],
}

impl Model for Gates {
    ghost use Rattle.std.specs.Prelude.{List};
    ghost use Rattle.mx_model.specs.declared.values.Gate.{Gate};
    ghost use Rattle.mx_model.specs.Gates.{AreSingle};
    ghost use Rattle.mx_gates.specs.Index.{Indexes};

    ghost Value = { List Gate };

    ghost view = { λ s. s.gates.items };

    ghost invariant = { λ s. AreSingle s.gates.items × Indexes s.gates.items s.sorted.items s.counts };
}

impl Gates {
    /// No gate.
    pub fn new() -> Gates
        ensures { result ≡ [] }
    {
        Gates {
            gates: ArrayVec::new(),
            sorted: ArrayVec::new(),
            counts: [0; BUCKETS],
        }
    }

    /// The target of the gate that stands for `domain` at the RAM word `word`, of either sort. `None` exactly where
    /// none
    /// stands there.
    pub fn target(&self, domain: u32, word: u32) -> Option<u32>
        ensures { result ≡ gate_target self.now domain word }
    {
        match self.gate(domain, word) {
            Some(gate) => Some(gate.target),
            None => None,
        }
    }

    /// The target of the call gate that stands for `domain` at the RAM word `word`. `None` exactly where no call gate
    /// stands
    /// there.
    pub fn call_gate(&self, domain: u32, word: u32) -> Option<u32>
        ensures { result ≡ call_gate self.now domain word }
    {
        match self.gate(domain, word) {
            Some(gate) if gate.target != gate.domain => Some(gate.target),
            _ => None,
        }
    }

    /// Whether a return gate stands for `domain` at the RAM word `word`.
    pub fn is_return(&self, domain: u32, word: u32) -> bool
        ensures { result ≡ is_return self.now domain word }
    {
        match self.gate(domain, word) {
            Some(gate) => gate.target == gate.domain,
            None => false,
        }
    }

    /// A range of RAM words round `word` in which no gate stands for `domain`, as its first word and the word behind
    /// its last. It is
    /// empty or ends at `word` where a gate stands there.
    pub fn clear(&self, domain: u32, word: u32) -> (u32, u32)
        ensures { (w : ℕ) → result.0 ≤ w → w < result.1 → gate_target self.now domain w ≡ None }
    {
        let sorted = self.sorted.as_slice();
        let at = place(sorted, domain, word);
        let first = behind(gate_in(sorted, at.wrapping_sub(1)), domain);
        let end = before(gate_in(sorted, at), domain);
        // The words between two neighbours are clear; what counts is that no sorted gate comes between them.
        if place(sorted, domain, first) == place(sorted, domain, end) {
            (first, end)
        } else {
            (word, word)
        }
    }

    /// Appends the gate, and removes the one that stood for its domain at its word. `GatesFull` exactly where 256 gates
    /// stand
    /// and none of them there; then nothing has changed.
    pub fn add(&mut self, gate: Gate) -> Result<(), GatesFull>
        ensures ok { OnOk result (self.new ≡ with_gate gate self.old) }
        ensures full { is_err result ≡ no_gate_fits self.old gate.domain gate.word }
        ensures err { OnErr result (self.new ≡ self.old) }
    {
        if self.is_full_for(gate.domain, gate.word) {
            return Err(GatesFull);
        }
        self.remove(gate.domain, gate.word);
        self.append(gate);
        Ok(())
    }

    /// Removes the gate that stands for `domain` at the RAM word `word`. False exactly where none stands there; then
    /// nothing
    /// has changed.
    pub fn remove(&mut self, domain: u32, word: u32) -> bool
        ensures stood { result ≡ has_gate self.old domain word }
        ensures rest { self.new ≡ without_gate domain word self.old }
        ensures unchanged { OnFalse result (self.new ≡ self.old) }
    {
        if !self.has_gate(domain, word) {
            return false;
        }
        self.take_out(domain, word);
        true
    }

    /// The gate at place `i` of the list, counted from 0. `None` exactly where `i` isn't below the number of gates.
    pub fn get(&self, i: u32) -> Option<Gate>
        ensures gate { result ≡ slice_get self.now i }
        ensures bounded { length self.now ≤ most_gates }
        ensures apart { AreSingle self.now }
    {
        self.gates.as_slice().get(i as usize).copied()
    }

    /// The gate that stands for `domain` at `word`.
    fn gate(&self, domain: u32, word: u32) -> Option<Gate>
        ensures { result ≡ gate_at self.now domain word }
    {
        if self.counts[bucket(domain, word)] == 0 {
            return None;
        }
        let sorted = self.sorted.as_slice();
        gate_in(sorted, sorted_place(sorted, domain, word))
    }

    /// Whether a gate stands for `domain` at `word`.
    fn has_gate(&self, domain: u32, word: u32) -> bool
        ensures { result ≡ has_gate self.now domain word }
    {
        self.gate(domain, word).is_some()
    }

    /// Whether no gate for `domain` at `word` can be added.
    fn is_full_for(&self, domain: u32, word: u32) -> bool
        ensures full { result ≡ no_gate_fits self.now domain word }
        ensures bounded { length self.now ≤ most_gates }
    {
        self.gates.len() == MOST_GATES && !self.has_gate(domain, word)
    }

    /// Removes the gate that stands for `domain` at `word`.
    fn take_out(&mut self, domain: u32, word: u32)
        requires stands { has_gate self.old domain word ≡ true }
        ensures { self.new ≡ without_gate domain word self.old }
    {
        let at = sorted_place(self.sorted.as_slice(), domain, word);
        self.sorted.remove(at);
        let at = first_place(self.gates.as_slice(), domain, word);
        self.gates.remove(at);
        self.counts[bucket(domain, word)] -= 1;
    }

    /// Appends a gate where none stands.
    fn append(&mut self, gate: Gate)
        requires room { length self.old < most_gates }
        requires none { gate_at self.old gate.domain gate.word ≡ None }
        ensures { self.new ≡ self.old ++ gate ∷ [] }
    {
        let at = place(self.sorted.as_slice(), gate.domain, gate.word);
        self.sorted.insert(at, gate);
        self.gates.push(gate);
        self.counts[bucket(gate.domain, gate.word)] += 1;
    }
}
