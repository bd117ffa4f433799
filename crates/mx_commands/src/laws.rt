//! A law of machines and their plans, the contract of a function that does nothing.
ghost use Rattle.std.specs.Prelude.{◌≡◌, ℕ, List, Ok};
ghost use Rattle.mx_boot.specs.Boot.{boot_of};
ghost use Rattle.mx_manifest.specs.Plan.{Said};
ghost use Rattle.mx_model.specs.Run.{flat_turn};
ghost use Rattle.mx_model.specs.State.{State, Flat, flat};
ghost use Rattle.mx_snapshot.specs.Kept.{IsOfPlan, KeptPlan, kept_of};

/// A machine at boot is one of its plan, and a turn of any hart leaves a machine one of the plan of which it was
/// before.
pub fn machines_are_of_their_plan()
    ensures boot { (plan : Said) (images inputs : List (List ℕ)) (s : State) →
        boot_of plan images inputs ≡ Ok s → IsOfPlan (kept_of plan) (flat s) }
    ensures turn { (kept : KeptPlan) (f : Flat) (h : ℕ) → IsOfPlan kept f →
        IsOfPlan kept (flat_turn f h) }
{}
