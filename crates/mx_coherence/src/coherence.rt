//! No hart that isn't halted keeps a stale span, in any flat state of any run.
ghost use Rattle.std.specs.Prelude.{◌≡◌, ℕ, false};
ghost use Rattle.mx_model.specs.Checks.{is_halted};
ghost use Rattle.mx_model.specs.Reads.{Reads};
ghost use Rattle.mx_model.specs.Run.{Schedule, flat_turn, run};
ghost use Rattle.mx_model.specs.State.{Core, Flat, State, flat, hart_at};
ghost use Rattle.mx_model.specs.Valid.{IsFlat, IsValid};
ghost use Rattle.mx_coherence.specs.Coherence.{AreWhole, HasEmptyCaches, IsCoherent, KeepsNoStaleSpan, flat_coherent};

/// Coherence. Each hart that isn't halted has on each word of each span that it keeps, at a place or in its list, the
/// permission that
/// the span says: by its domain's map at a place, by the entry's own domain's map in the list. None of its spans meets
/// the range of a
/// call in flight that it has heard. It holds where the caches are empty, whatever is answered of rights, and every
/// turn of a valid
/// flat state keeps it, whoever makes the turn; so it holds in every run from a valid state with empty caches, after
/// every number of
/// turns.
pub fn spans_are_coherent()
    ensures empty { (r : Reads) (c : Core) → HasEmptyCaches c → IsCoherent r c }
    ensures turn { (f : Flat) (h : ℕ) → IsValid f.core → AreWhole f → flat_coherent f →
        flat_coherent (flat_turn f h) }
    ensures whole { (f : Flat) → IsFlat f → AreWhole f }
    ensures run { (p : Schedule) (n : ℕ) (s : State) → IsValid s.core → HasEmptyCaches s.core →
        flat_coherent (flat (run p n s)) }
    ensures maps { (f : Flat) (h : ℕ) → flat_coherent f →
        is_halted (hart_at f.core h).status ≡ false → KeepsNoStaleSpan f h }
{}
