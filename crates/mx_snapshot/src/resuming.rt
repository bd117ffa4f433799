//! Laws of snapshots and the machines that go on from them, each the contract of a function that does nothing.
ghost use Rattle.std.specs.Prelude.{◌≡◌, ℕ, ◌+◌, ◌-◌, ◌^◌, ◌<◌, ◌≤◌, ◌++◌, true, All, List, length};
ghost use Rattle.std.specs.Prelude.{map as list_map};
ghost use Rattle.std.specs.List.{AllByRecursion};
ghost use Rattle.mx_words.specs.declared.perm.Perm.{Perm};
ghost use Rattle.mx_words.specs.Newest.{map, owners};
ghost use Rattle.mx_words.specs.Runs.{Run, owner_runs};
ghost use Rattle.mx_table.specs.Tables.{IsRow, row_map};
ghost use Rattle.mx_check.specs.Conditions.{IsResumable};
ghost use Rattle.mx_model.specs.Run.{Schedule, run};
ghost use Rattle.mx_model.specs.State.{State, Flat, flat};
ghost use Rattle.mx_model.specs.Valid.{IsFlat, IsGate};
ghost use Rattle.mx_supervisor.specs.Parts.{IsSound};
ghost use Rattle.mx_machine.specs.Starts.{MayResume, resumed};
ghost use Rattle.mx_snapshot.specs.Fits.{IsStored};
ghost use Rattle.mx_snapshot.specs.Kept.{IsKept, IsOfPlan, KeptPlan};
ghost use Rattle.mx_snapshot.specs.Resumed.{laid_runs, plan_of, state_of};
ghost use Rattle.mx_snapshot.specs.Resuming.{dead_in, flights_in, parts_in, spans_in, stack_in, state_in};
ghost use Rattle.mx_snapshot.specs.Rules.{is_ram, run_words};
ghost use Rattle.mx_snapshot.specs.Same.{AreSame};
ghost use Rattle.mx_snapshot.specs.Stored.{Stored, stored_of};

/// Rows of permission runs: the spans of a row, in which runs without rights are left out, give the map that the runs
/// laid over
/// their words give, and they are the spans of a row where no run is empty and all lie in RAM.
pub fn rows_are_maps()
    ensures same { (runs : List (Run Perm)) (words : ℕ) →
        row_map words (spans_in 0 runs) ≡ map (laid_runs 0 runs) words }
    ensures row { (runs : List (Run Perm)) (words : ℕ) → AllByRecursion (λ r. 0 < r.count) runs →
        run_words runs ≤ words → IsRow words (spans_in 0 runs) }
{}

/// Runs of owner that are given one after another never make more maximal runs than they are, and one more for the
/// words behind
/// them.
pub fn owners_stay_few()
    ensures part { (runs : List (Run ℕ)) (words : ℕ) → run_words runs ≤ words →
        owner_runs (owners (laid_runs 0 runs) words) ≤ length runs + 1 }
    ensures whole { (runs : List (Run ℕ)) (words : ℕ) → run_words runs ≡ words →
        owner_runs (owners (laid_runs 0 runs) words) ≤ length runs }
{}

/// The state of each valid snapshot is valid, with one list of grants for each module, and it is one of the plan that
/// the snapshot
/// stores, which is in its ranges.
pub fn snapshots_are_valid()
    ensures flat { (s : Stored) → IsStored s → IsFlat (flat (state_of s)) }
    ensures lists { (s : Stored) → length (state_of s).grants ≡ length (state_of s).core.modules }
    ensures kept { (s : Stored) → IsStored s → IsKept (plan_of s) }
    ensures plan { (s : Stored) → IsOfPlan (plan_of s) (flat (state_of s)) }
{}

/// With the parts of each valid snapshot a checker, a supervisor and a machine may go on, and the machine is the
/// snapshot's state.
pub fn snapshots_go_on()
    ensures flights { (s : Stored) → IsStored s →
        All (IsResumable (length s.harts) s.head.words) (flights_in s) }
    ensures sound { (s : Stored) → IsStored s → IsSound (parts_in s) }
    ensures gates { (s : Stored) → IsStored s →
        AllByRecursion (IsGate (length (parts_in s).maps) s.head.words) s.gates }
    ensures may { (s : Stored) → IsStored s →
        MayResume (parts_in s) (list_map state_in s.harts) (list_map stack_in s.modules)
        (dead_in s.modules) s.head.turns }
    ensures same { (s : Stored) → IsStored s →
        resumed (parts_in s) (list_map state_in s.harts) (list_map stack_in s.modules)
        (dead_in s.modules) s.head.turns
        ≡ flat (state_of s) }
{}

/// Of a valid snapshot's state, and the plan that it stores, the same snapshot is stored again.
pub fn snapshots_are_stored_again()
    ensures { (s : Stored) → IsStored s → stored_of (plan_of s) (flat (state_of s)) ≡ s }
{}

/// What a snapshot stores of a valid flat state gives back a state that is the same, and the plan that was kept.
pub fn states_are_given_back()
    ensures state { (kept : KeptPlan) (f : Flat) → IsFlat f →
        AreSame (flat (state_of (stored_of kept f))) f }
    ensures plan { (kept : KeptPlan) (f : Flat) → IsOfPlan kept f →
        plan_of (stored_of kept f) ≡ kept }
{}

/// A snapshot of a valid state, of a plan in its ranges, is valid, in a RAM of 64 to 65536 KiB, a multiple of 4, and
/// after at most
/// 2^63 - 1 turns.
pub fn saved_states_are_valid()
    ensures { (kept : KeptPlan) (f : Flat) → IsKept kept → IsOfPlan kept f → IsFlat f →
        is_ram f.core.size ≡ true → f.core.turns ≤ 2 ^ 63 - 1 → IsStored (stored_of kept f) }
{}

/// A run from a valid state that is stopped after n turns, saved, and taken up from the snapshot's state for m turns
/// more is the run
/// of n + m turns: the flat states after are the same, and console bytes and notes of the two parts together are those
/// of the
/// whole.
pub fn resumed_runs()
    ensures same { (p : Schedule) (n m : ℕ) (s : State) (kept : KeptPlan) → IsFlat (flat s) →
        AreSame (flat (run p (n + m) s))
        (flat (run p m (state_of (stored_of kept (flat (run p n s)))))) }
    ensures console { (p : Schedule) (n m : ℕ) (s : State) (kept : KeptPlan) → IsFlat (flat s) →
        (run p (n + m) s).console
        ≡ (run p n s).console ++ (run p m (state_of (stored_of kept (flat (run p n s))))).console }
    ensures notes { (p : Schedule) (n m : ℕ) (s : State) (kept : KeptPlan) → IsFlat (flat s) →
        (run p (n + m) s).notes
        ≡ (run p n s).notes ++ (run p m (state_of (stored_of kept (flat (run p n s))))).notes }
{}
