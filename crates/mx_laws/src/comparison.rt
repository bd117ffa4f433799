//! Agreement is a test over the words of RAM and the gates that stand.
ghost use Rattle.std.specs.Prelude.{ℕ};
ghost use Rattle.std.specs.Bool.{Decides};
ghost use Rattle.mx_model.specs.Agreement.{Agrees};
ghost use Rattle.mx_model.specs.Reads.{Reads, reads, flat_reads};
ghost use Rattle.mx_model.specs.State.{Core, State, Flat};
ghost use Rattle.mx_model.specs.Valid.{IsFlat};
ghost use Rattle.mx_laws.specs.Comparison.{AreFit, IsBounded, agrees};

/// The test is true exactly where two states of as many words of RAM agree for a hart, if no domain has a right outside
/// RAM. None has in
/// a state, and none in a valid flat state.
pub fn agreement_is_a_test()
    ensures test { (r q : Reads) (c e : Core) (h : ℕ) → AreFit r c q e →
        Decides (agrees r c q e h) (Agrees r c q e h) }
    ensures state { (s : State) → IsBounded (reads s) s.core }
    ensures flat { (f : Flat) → IsFlat f → IsBounded (flat_reads f) f.core }
{}
