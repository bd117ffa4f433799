//! The machine without its caches is the plain machine.
ghost use Rattle.std.specs.Prelude.{◌≡◌, ℕ};
ghost use Rattle.mx_model.specs.Run.{Schedule, run, turn};
ghost use Rattle.mx_model.specs.State.{State};
ghost use Rattle.mx_uncached.specs.Forgetting.{plain};
ghost use Rattle.mx_uncached.specs.Turn.{plain_run, plain_turn};

/// Caches decide nothing: for every state, hart, schedule and number of turns, valid or not, a turn and a run without
/// their caches are
/// the plain machine's. So states that differ in caches and in the size of the lookaside buffer alone have runs that
/// differ in these
/// alone: console bytes, notes and RAM are the same.
pub fn caches_decide_nothing()
    ensures turn { (s : State) (h : ℕ) → plain (turn s h) ≡ plain_turn (plain s) h }
    ensures run { (schedule : Schedule) (n : ℕ) (s : State) →
        plain (run schedule n s) ≡ plain_run schedule n (plain s) }
    ensures alike { (schedule : Schedule) (n : ℕ) (s t : State) → plain s ≡ plain t →
        plain (run schedule n s) ≡ plain (run schedule n t) }
{}
