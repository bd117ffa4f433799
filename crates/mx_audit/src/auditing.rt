//! The audit of a machine.

ghost use Rattle.std.specs.Prelude.{◌≡◌, ◌↔◌, ℕ, List, IsTrue, IfOk};
ghost use Rattle.mx_model.specs.Reads.{flat_reads};
ghost use Rattle.mx_any.specs.Machines.{meaning};
ghost use Rattle.mx_audit.specs.Lines.{audit_text, found_text};
ghost use Rattle.mx_audit.specs.Live.{IsLive};
ghost use Rattle.mx_audit.specs.Marks.{is_marked};
ghost use Rattle.mx_audit.specs.SealedRuns.{AreInRam, sealed_runs};

use crate::audited::Audit;
use crate::living::live_domains;
use crate::sealing::sealed_runs;
use mx_any::{AnyMachine, any_machine_is_valid};
use mx_words::NoMemory;
use std::alloc::Global;

/// Finds the live domains of a machine and the maximal runs of its sealed words. It looks at each gate at most once
/// more than there
/// are domains that gates lead to, and at each run of one owner and of one permission of a live domain once; never at
/// single words.
/// Memory is taken for the runs found alone.
///
/// What is found stays in every run (`live_never_grows`, `sealed_words_stay`) where each heap area belongs to its
/// module, as in every
/// state at boot (`audits_of_boots_stay`).
pub fn audit(alloc: Global, machine: &AnyMachine) -> Result<Audit, NoMemory>
    ensures live { IfOk result (λ a. (d : ℕ) →
        IsTrue (is_marked a.live d) ↔ IsLive (meaning machine.now).core d) }
    ensures sealed { IfOk result (λ a. a.sealed
        ≡ sealed_runs (flat_reads (meaning machine.now)) (meaning machine.now).core) }
    ensures inside { IfOk result (λ a. AreInRam a.sealed) }
    ensures text { IfOk result (λ a. (names : List (List ℕ)) →
        found_text names a ≡ audit_text names (meaning machine.now)) }
{
    any_machine_is_valid(machine);
    let live = live_domains(machine);
    let sealed = sealed_runs(alloc, machine, &live)?;
    Ok(Audit { live, sealed })
}
