//! Laws of the runs of manifests that boot.
ghost use Rattle.std.specs.Prelude.{ℕ, List};
ghost use Rattle.mx_io.specs.Store.{FileMap};
ghost use Rattle.mx_model.specs.Run.{Schedule, run};
ghost use Rattle.mx_model.specs.State.{State};
ghost use Rattle.mx_manifest.specs.Plan.{Said};
ghost use Rattle.mx_run.specs.Plainly.{Boots};
ghost use Rattle.mx_promises.specs.Booted.{AreByteFiles, KeepsPromises};

/// A law: over every list of files a manifest that boots gives a state of whose every run, by every schedule and for
/// every number of turns, each
/// state is valid and coherent, has no live domain beyond the audit's, keeps the audit's sealed words, and denies
/// exactly.
pub fn booted_runs_keep_the_promises()
    ensures { (files : FileMap) (name : List ℕ) (plan : Said) (s : State) → AreByteFiles files →
        Boots files name plan s → (p : Schedule) (n : ℕ) → KeepsPromises s (run p n s) }
{}
