//! Laws of plans.
ghost use Rattle.std.specs.Prelude.{◌≡◌, ℕ, List, Ok};
ghost use Rattle.mx_manifest.specs.InRange.{IsInRange};
ghost use Rattle.mx_manifest.specs.Plan.{Said};
ghost use Rattle.mx_plan.specs.Manifest.{judged};

/// A law: the plan of every manifest without a fault is in range.
pub fn judged_plans_are_in_range()
    ensures { (bytes : List ℕ) (plan : Said) → judged bytes ≡ Ok plan → IsInRange plan }
{}
