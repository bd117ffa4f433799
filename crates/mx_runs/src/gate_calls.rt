//! Calls through gates end where they began.
ghost use Rattle.std.specs.Prelude.{◌≡◌, ◌↔◌, ℕ, ◌+◌, ◌<◌};
ghost use Rattle.mx_model.specs.declared.values.TurnKind.TheVariants as T;
ghost use Rattle.mx_model.specs.Reads.{Reads};
ghost use Rattle.mx_model.specs.Run.{Schedule};
ghost use Rattle.mx_model.specs.State.{Core, State};
ghost use Rattle.mx_model.specs.Valid.{IsValid};
ghost use Rattle.mx_laws.specs.After.{core_after, kind_of};
ghost use Rattle.mx_runs.specs.GateCalls.{Crosses, GivesBack, IsGateCall, Leaves, depth, depth_of};

/// Gate calls return. In every run from a valid state a call ends where it began, whatever is nested in it and whatever
/// other harts do:
/// the hart has the frames, the domain and the fifteen registers of the moment before its crossing, and its pc is x1 of
/// then. It ends
/// by a turn of that hart that returns or faults. A hart has more frames after a turn exactly where it crossed in it.
pub fn gate_calls_return()
    ensures back { (p : Schedule) (s : State) (h m n : ℕ) → IsValid s.core →
        IsGateCall p s h m n → GivesBack p s h m n }
    ensures leaves { (p : Schedule) (s : State) (h m n : ℕ) → IsGateCall p s h m n → Leaves p s h n }
    ensures crosses { (p : Schedule) (s : State) (h m : ℕ) →
        (depth p s h m < depth p s h (m + 1)) ↔ Crosses p s h m }
    ensures crossed { (r : Reads) (c : Core) (h : ℕ) →
        (kind_of r c h ≡ T.Crossed) ↔ (depth_of c h < depth_of (core_after r c h) h) }
{}
