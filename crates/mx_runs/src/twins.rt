//! Twin runs: what a set of harts shares in two runs, up to the first border.
ghost use Rattle.std.specs.Prelude.{ℕ, Bool};
ghost use Rattle.mx_model.specs.Run.{Schedule, run};
ghost use Rattle.mx_model.specs.State.{State};
ghost use Rattle.mx_runs.specs.TwinRuns.{AreFreeTurns, AreTwinStates, GoAlike};

/// Twins run. Two states of as many words, bytes, harts and turns made that agree for each hart of a set, each at a
/// multiple of 4: where each of the first n turns of the run of the first is made by a running hart of the set whose
/// border is nothing, the states after n turns agree for the set again, each of its harts has the same border in
/// both, and one list of n stores, each of at most four bytes, leads from the RAM before to the RAM after in both. So
/// both runs meet the first border at the same turn. A turn of another hart of the set ends nothing.
pub fn twins_run()
    ensures { (set : ℕ → Bool) (schedule : Schedule) (s t : State) (n : ℕ) →
        AreTwinStates set s t → AreFreeTurns set schedule s n →
        GoAlike set s t n (run schedule n s) (run schedule n t) }
{}
