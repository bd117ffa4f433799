//! Laws of states at boot, each the contract of a function that does nothing.

ghost use Rattle.std.specs.Prelude.{◌≡◌, ℕ, List, [], Ok, length};
ghost use Rattle.mx_model.specs.Reads.{reads};
ghost use Rattle.mx_model.specs.State.{State, flat};
ghost use Rattle.mx_model.specs.Valid.{IsFlat};
ghost use Rattle.mx_laws.specs.OwnHeaps.{OwnHeaps};
ghost use Rattle.mx_manifest.specs.InRange.{IsInRange};
ghost use Rattle.mx_manifest.specs.Plan.{Said};
ghost use Rattle.mx_boot.specs.Boot.{boot_of};
ghost use Rattle.mx_boot.specs.Bytes.{AreBytes};
ghost use Rattle.mx_boot.specs.Inputs.{AreInputs};

use mx_manifest::{Plan, plan_is_in_range};

/// Each state at boot of a plan in range, of images and of inputs that are bytes is valid, and in it each heap area of
/// a
/// module belongs to that module. Each state at boot has one list of grants for each module, so the laws of runs from
/// valid states hold of
/// its runs.
pub fn boots_are_valid()
    ensures valid { (plan : Said) (images inputs : List (List ℕ)) (s : State) → IsInRange plan →
        AreBytes images → AreBytes inputs → boot_of plan images inputs ≡ Ok s → IsFlat (flat s) }
    ensures lists { (plan : Said) (images inputs : List (List ℕ)) (s : State) →
        boot_of plan images inputs ≡ Ok s → length s.grants ≡ length s.core.modules }
    ensures heaps { (plan : Said) (images inputs : List (List ℕ)) (s : State) → IsInRange plan →
        boot_of plan images inputs ≡ Ok s → OwnHeaps (reads s) s.core }
{}

/// Where no inputs are given all of them are empty, and each fits its area.
pub fn empty_inputs_fit(plan: &Plan)
    ensures { AreInputs plan.now [] }
{
    plan_is_in_range(plan);
}
