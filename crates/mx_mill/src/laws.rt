//! A law: the mill of each number boots.

ghost use Rattle.std.specs.Prelude.{◌≡◌, ℕ, [], Some, Ok};
ghost use Rattle.mx_boot.specs.Boot.{boot_of, boot_state};
ghost use Rattle.mx_plan.specs.Manifest.{judged_document};
ghost use Rattle.mx_mill.specs.Plan.{mill_plan, no_images};
ghost use Rattle.mx_mill.specs.Table.{mill_table};

/// For every number the manifest has no fault and says the plan, and the plan boots: it has no fault either, and its
/// maps fit the
/// limits of its tables.
pub fn mills_boot()
    ensures judged { (k : ℕ) → judged_document (Some (mill_table k)) ≡ Ok (mill_plan k) }
    ensures boots { (k : ℕ) →
        boot_of (mill_plan k) no_images [] ≡ Ok (boot_state (mill_plan k) no_images []) }
{}
