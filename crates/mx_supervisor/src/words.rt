//! Tests of calls, each as the model's.
ghost use Rattle.std.specs.Prelude.{◌≡◌, ℕ, ◌+◌, ◌<◌, ◌≤◌, ◌==◌, ◌↔◌, true, not, ◌&&◌, ◌||◌, IfSome, IsTrue, is_some};
ghost use Rattle.std.specs.Prelude.{length, slice_index};
ghost use Rattle.std.specs.Option.{option_map};
ghost use Rattle.mx_words.specs.Ranges.{address_of, most_words};
ghost use Rattle.mx_heap.specs.HeapState.{LiesIn};
ghost use Rattle.mx_model.specs.Checks.{arg};
ghost use Rattle.mx_supervisor.specs.Heaps.{heap_at};
ghost use Rattle.mx_words.specs.Announced.{announced, is_announced, names_range};
ghost use Rattle.mx_table.specs.Tables.{IsDomain};
ghost use Rattle.mx_model.specs.Serve.{arg_range, no_range, is_word, arg_word, owns, freed_count};
ghost use Rattle.mx_model.specs.Reads.{flat_reads};
ghost use Rattle.mx_model.specs.State.{Core, is_module};
ghost use Rattle.mx_supervisor.specs.Parts.{parts_of, core_of, flat_of, IsSound};

use crate::Supervisor;
use mx_heap::Block;
use mx_model::Call;
use mx_table::PermTables;
use mx_words::{ALLOC_CALL, FREE_CALL, GRANT_CALL, REVOKE_ALL_CALL, word_of, word_range};

/// Whether a call is announced before it takes effect.
pub fn is_announced(number: u32) -> bool
    ensures { result ≡ is_announced number }
{
    number == GRANT_CALL || number == REVOKE_ALL_CALL || number == ALLOC_CALL || number == FREE_CALL
}

/// Whether an announced call names the range that it may change.
pub fn names_range(number: u32) -> bool
    ensures { result ≡ names_range number }
{
    number == GRANT_CALL || number == REVOKE_ALL_CALL
}

/// The range that an announced call may change, in a RAM of `words` words, at most 2^24: the first word and the number
/// of words.
/// For calls 3 and 4 it is the range of a0 and a1, (0, 0) where that is no range; for calls 6 and 7 the caller's heap
/// area. The
/// number is one of these (docs/MACHINE.md, "Announced calls").
pub fn announced_range(number: u32, a0: u32, a1: u32, words: u32, heap: Block) -> (u32, u32)
    requires announced { is_announced number ≡ true }
    requires words { words ≤ most_words }
    ensures { result ≡ announced number a0 a1 words (heap.first, heap.count) }
{
    if names_range(number) {
        word_range(a0, a1, words).unwrap_or((0, 0))
    } else {
        (heap.first, heap.count)
    }
}

impl<T: PermTables, const N: usize> Supervisor<T, N> {
    /// The words of the range of a0 and a1.
    pub(crate) fn arg_range(&self, call: &Call) -> Option<(u32, u32)>
        requires { IsSound (parts_of T.PermTables self.now) }
        ensures there { (rest : Core) →
            no_range (core_of rest (parts_of T.PermTables self.now)) call.now
            ≡ not (is_some result) }
        ensures range { IfSome result (λ r. (rest : Core) →
            arg_range (core_of rest (parts_of T.PermTables self.now)) call.now ≡ r) }
        ensures inside { IfSome result
            (λ r. (0 < r.1) × (r.0 + r.1 ≤ T.size self.now.checker.tables)) }
    {
        let [addr, size, _, _] = call.args;
        word_range(addr, size, self.checker.tables().words())
    }

    /// The word at a0.
    pub(crate) fn arg_word(&self, call: &Call) -> Option<u32>
        requires { IsSound (parts_of T.PermTables self.now) }
        ensures there { (rest : Core) → is_word (core_of rest (parts_of T.PermTables self.now))
            (arg call.now 0) ≡ is_some result }
        ensures word { IfSome result (λ w. arg_word call.now ≡ w) }
        ensures inside { IfSome result
            (λ w. (w < T.size self.now.checker.tables) × (arg call.now 0 ≡ address_of w)) }
    {
        let [addr, _, _, _] = call.args;
        if addr % 4 != 0 {
            return None;
        }
        word_of(addr, self.checker.tables().words())
    }

    /// The first word and the number of words of the caller's live block that begins at a0.
    pub(crate) fn arg_block(&self, call: &Call) -> Option<(u32, u32)>
        requires sound { IsSound (parts_of T.PermTables self.now) }
        requires domain { IsDomain (T.maps self.now.checker.tables) call.now.domain }
        ensures there { (rest : Core) →
            freed_count (core_of rest (parts_of T.PermTables self.now)) call.now
            ≡ option_map (λ b. b.1) result }
        ensures word { IfSome result (λ b. arg_word call.now ≡ b.0) }
        ensures some { IfSome result (λ b. 0 < b.1) }
        ensures inside { IfSome result
            (λ b. LiesIn (heap_at self.now.heaps call.now.domain).area b.0 b.1) }
    {
        let Some(word) = self.arg_word(call) else {
            return None;
        };
        match self.heaps.block(call.domain, word) {
            Some(count) => Some((word, count)),
            None => None,
        }
    }

    /// The number of modules.
    pub(crate) fn modules(&self) -> u32
        ensures { result ≡ length (T.maps self.now.checker.tables) }
    {
        self.checker.tables().modules()
    }

    /// Whether a number is a module's.
    pub(crate) fn is_module(&self, domain: u32) -> bool
        requires { IsSound (parts_of T.PermTables self.now) }
        ensures module { (rest : Core) →
            is_module (core_of rest (parts_of T.PermTables self.now)) domain ≡ result }
        ensures domain { IsTrue result ↔ IsDomain (T.maps self.now.checker.tables) domain }
    {
        1 <= domain && domain <= self.modules()
    }

    /// Whether the caller owns each word of a range.
    pub(crate) fn owns(&self, call: &Call, first: u32, count: u32) -> bool
        requires sound { IsSound (parts_of T.PermTables self.now) }
        requires some { 0 < count }
        requires inside { first + count ≤ T.size self.now.checker.tables }
        ensures { (rest : Core) → owns (flat_reads (flat_of rest (parts_of T.PermTables self.now)))
            call.now (first, count) ≡ result }
    {
        self.owners.owns(call.domain, first, count)
    }

    /// Whether the caller doesn't own a word.
    pub(crate) fn is_foreign(&self, call: &Call, word: u32) -> bool
        requires sound { IsSound (parts_of T.PermTables self.now) }
        requires inside { word < T.size self.now.checker.tables }
        ensures { not (slice_index self.now.owners word == call.now.domain) ≡ result }
    {
        self.owners.owner(word) != call.domain
    }
}
