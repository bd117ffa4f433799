//! The calls on words of the caller: transfer, the gates at its words, and query.
ghost use Rattle.std.specs.Prelude.{◌≡◌, ℕ, ◌+◌, ◌-◌, ◌<◌, ◌≤◌, ◌==◌, ◌&&◌, ◌||◌, not, [], true, false, length};
ghost use Rattle.std.specs.Prelude.{slice_index};
ghost use Rattle.mx_words.specs.Newest.{laid};
ghost use Rattle.mx_words.specs.Ranges.{overlaps};
ghost use Rattle.mx_table.specs.Tables.{IsDomain};
ghost use Rattle.mx_check.specs.Conditions.{MayLook};
ghost use Rattle.mx_model.specs.Checks.{arg};
ghost use Rattle.mx_model.specs.Gates.{with_gate, without_gate, has_gate, no_gate_fits};
ghost use Rattle.mx_model.specs.Reads.{flat_reads};
ghost use Rattle.mx_model.specs.Serve.{meets_heap, give_of, serve_transfer, serve_gate, serve_ungate};
ghost use Rattle.mx_model.specs.Serve.{serve_return_gate, serve_query};
ghost use Rattle.mx_model.specs.State.{Core, is_module};
ghost use Rattle.mx_supervisor.specs.Heaps.{heap_at};
ghost use Rattle.mx_supervisor.specs.Parts.{parts_of, core_of, flat_of, IsSound};
ghost use Rattle.mx_supervisor.specs.Served.{Does};

use crate::answer::Refusal;
use crate::{Answer, Supervisor};
use mx_model::{Call, Gate};
use mx_table::PermTables;
use mx_words::{Perm, Span};

impl<T: PermTables, const N: usize> Supervisor<T, N> {
    /// Call 5: another owner for the caller's words outside its heap area.
    pub(crate) fn transfer(&mut self, call: &Call) -> Answer
        requires sound { IsSound (parts_of T.PermTables self.old) }
        requires domain { IsDomain (T.maps self.old.checker.tables) call.now.domain }
        requires may { MayLook call.now.hart call.now.domain self.old.checker.harts }
        ensures { Does T.PermTables self.old self.new serve_transfer call.now [] result }
    {
        let Some((first, count)) = self.arg_range(call) else {
            return Answer::refused(Refusal::BadRange);
        };
        if self.meets_heap(call, first, count) {
            return Answer::refused(Refusal::BadRange);
        }
        let [_, _, domain, _] = call.args;
        if domain > self.modules() {
            return Answer::refused(Refusal::BadDomain);
        }
        if !self.owns(call, first, count) {
            return Answer::refused(Refusal::NotOwner);
        }
        if !self.try_give(domain, first, count) {
            return Answer::refused(Refusal::OwnersFull);
        }
        Answer::done(0)
    }

    /// Call 8: a gate into the caller at one of its words, for another domain.
    pub(crate) fn add_gate(&mut self, call: &Call) -> Answer
        requires sound { IsSound (parts_of T.PermTables self.old) }
        requires domain { IsDomain (T.maps self.old.checker.tables) call.now.domain }
        requires may { MayLook call.now.hart call.now.domain self.old.checker.harts }
        ensures { Does T.PermTables self.old self.new serve_gate call.now [] result }
    {
        let Some(word) = self.arg_word(call) else {
            return Answer::refused(Refusal::BadRange);
        };
        let [_, domain, _, _] = call.args;
        if !self.is_other(call, domain) {
            return Answer::refused(Refusal::BadDomain);
        }
        if self.is_foreign(call, word) {
            return Answer::refused(Refusal::NotOwner);
        }
        let target = call.domain;
        if !self.try_gate(Gate {
            domain,
            word,
            target,
        }) {
            return Answer::refused(Refusal::GatesFull);
        }
        Answer::done(0)
    }

    /// Call 9: a gate at one of the caller's words is removed.
    pub(crate) fn remove_gate(&mut self, call: &Call) -> Answer
        requires sound { IsSound (parts_of T.PermTables self.old) }
        requires domain { IsDomain (T.maps self.old.checker.tables) call.now.domain }
        requires may { MayLook call.now.hart call.now.domain self.old.checker.harts }
        ensures { Does T.PermTables self.old self.new serve_ungate call.now [] result }
    {
        let Some(word) = self.arg_word(call) else {
            return Answer::refused(Refusal::BadRange);
        };
        let [_, domain, _, _] = call.args;
        if !self.is_module(domain) {
            return Answer::refused(Refusal::BadDomain);
        }
        if self.is_foreign(call, word) {
            return Answer::refused(Refusal::NotOwner);
        }
        if !self.take_gate(domain, word) {
            return Answer::refused(Refusal::NoGate);
        }
        Answer::done(0)
    }

    /// Call 10: a return gate of the caller at one of its words.
    pub(crate) fn add_return_gate(&mut self, call: &Call) -> Answer
        requires sound { IsSound (parts_of T.PermTables self.old) }
        requires domain { IsDomain (T.maps self.old.checker.tables) call.now.domain }
        requires may { MayLook call.now.hart call.now.domain self.old.checker.harts }
        ensures { Does T.PermTables self.old self.new serve_return_gate call.now [] result }
    {
        let Some(word) = self.arg_word(call) else {
            return Answer::refused(Refusal::BadRange);
        };
        if self.is_foreign(call, word) {
            return Answer::refused(Refusal::NotOwner);
        }
        let (domain, target) = (call.domain, call.domain);
        if !self.try_gate(Gate {
            domain,
            word,
            target,
        }) {
            return Answer::refused(Refusal::GatesFull);
        }
        Answer::done(0)
    }

    /// Call 11: the number of a permission, on the caller's words for every module, and for the caller on every word.
    pub(crate) fn query(&self, call: &Call) -> Answer
        requires sound { IsSound (parts_of T.PermTables self.now) }
        requires domain { IsDomain (T.maps self.now.checker.tables) call.now.domain }
        requires may { MayLook call.now.hart call.now.domain self.now.checker.harts }
        ensures { Does T.PermTables self.now self.now serve_query call.now [] result }
    {
        let Some(word) = self.arg_word(call) else {
            return Answer::refused(Refusal::BadRange);
        };
        let [_, domain, _, _] = call.args;
        if !self.is_module(domain) {
            return Answer::refused(Refusal::BadDomain);
        }
        if self.is_secret(call, domain, word) {
            return Answer::refused(Refusal::NotOwner);
        }
        Answer::done(self.checker.perm(domain, word).number())
    }

    /// Whether a range meets the caller's heap area.
    fn meets_heap(&self, call: &Call, first: u32, count: u32) -> bool
        requires domain { IsDomain (T.maps self.now.checker.tables) call.now.domain }
        ensures { let heap = (heap_at self.now.heaps call.now.domain).area in
            overlaps heap.first heap.count first count ≡ result }
    {
        let area = self.heaps.area(call.domain);
        let heap = Span {
            first: area.first,
            count: area.count,
            perm: Perm::None,
        };
        heap.meets(first, count)
    }

    /// Whether a number is a module's, and not the caller's.
    fn is_other(&self, call: &Call, domain: u32) -> bool
        requires { IsSound (parts_of T.PermTables self.now) }
        ensures { (rest : Core) → (not (is_module (core_of rest
            (parts_of T.PermTables self.now)) domain) || (domain == call.now.domain)) ≡ not result }
    {
        self.is_module(domain) && domain != call.domain
    }

    /// Whether the caller may not ask for a domain's permission on a word.
    fn is_secret(&self, call: &Call, domain: u32, word: u32) -> bool
        requires sound { IsSound (parts_of T.PermTables self.now) }
        requires inside { word < T.size self.now.checker.tables }
        ensures { (not (domain == call.now.domain)
            && not (slice_index self.now.owners word == call.now.domain)) ≡ result }
    {
        domain != call.domain && self.is_foreign(call, word)
    }

    /// Gives a domain a range. False, with nothing changed, exactly where the owners would form too many runs.
    fn try_give(&mut self, domain: u32, first: u32, count: u32) -> bool
        requires sound { IsSound (parts_of T.PermTables self.old) }
        requires some { 0 < count }
        requires inside { first + count ≤ T.size self.old.checker.tables }
        ensures fits { (rest : Core) →
            (flat_reads (flat_of rest (parts_of T.PermTables self.old))).few_runs
            (record { first = first; count = count; value = domain }) ≡ result }
        ensures done { result ≡ true →
            parts_of T.PermTables self.new
            ≡ record (parts_of T.PermTables self.old) {
              owners = laid
                  (record { first = first; count = count; value = domain }) self.old.owners;
            } }
        ensures kept { result ≡ false →
            parts_of T.PermTables self.new ≡ parts_of T.PermTables self.old }
    {
        self.owners.give(domain, first, count).is_ok()
    }

    /// Adds a gate in place of the one of its domain and word. False, with nothing changed, exactly where it doesn't
    /// fit.
    fn try_gate(&mut self, gate: Gate) -> bool
        ensures fits { no_gate_fits self.old.gates gate.domain gate.word ≡ not result }
        ensures done { result ≡ true → parts_of T.PermTables self.new
            ≡ record (parts_of T.PermTables self.old) { gates = with_gate gate self.old.gates } }
        ensures kept { result ≡ false →
            parts_of T.PermTables self.new ≡ parts_of T.PermTables self.old }
    {
        self.gates.add(gate).is_ok()
    }

    /// Removes the gate of a domain and word. False, with nothing changed, exactly where none stands there.
    fn take_gate(&mut self, domain: u32, word: u32) -> bool
        ensures stood { has_gate self.old.gates domain word ≡ result }
        ensures done { parts_of T.PermTables self.new ≡ record (parts_of T.PermTables self.old)
            { gates = without_gate domain word self.old.gates } }
        ensures kept { result ≡ false →
            parts_of T.PermTables self.new ≡ parts_of T.PermTables self.old }
    {
        self.gates.remove(domain, word)
    }
}
