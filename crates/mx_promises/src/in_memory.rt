//! The top call over files and vectors in memory, by the stores and sinks of the system.
ghost use Rattle.std.specs.Prelude.{◌≡◌, ◌≤◌, ◌-◌, ◌⊎◌, length, vec_capacity, vec_len};
ghost use Rattle.mx_commands.specs.Next.{Outcome};
ghost use Rattle.mx_commands.specs.declared.status.Status.TheVariants.{WantOfMemory};
ghost use Rattle.mx_run.specs.Leads.{IsOutcome};
ghost use Rattle.mx_run.specs.Words.{meaning};

use mx_commands::Status;
use mx_io::{Files, FolderStore, StderrSink, StdoutSink};
use mx_run::{Words, mondrix};
use std::alloc::Global;

/// A call over files in memory as the folder, and vectors as standard output, standard error and the dump. Where each
/// vector has memory for its text nothing fails: the status is that of the outcome, or memory is wanting.
pub fn run_in_memory(
    alloc: Global,
    words: &Words,
    files: &Files,
    out: Vec<u8>,
    err: Vec<u8>,
    dump: Vec<u8>,
) -> Status
    ensures { (outcome : Outcome) → IsOutcome (meaning words.now) files.now.files outcome →
        length outcome.texts.console ≤ vec_capacity out - vec_len out →
        length outcome.texts.report ≤ vec_capacity err - vec_len err →
        length outcome.texts.dump ≤ vec_capacity dump - vec_len dump →
        (result ≡ WantOfMemory) ⊎ (result ≡ outcome.status) }
{
    let mut store = FolderStore::over(files);
    let mut console = StdoutSink::over(out);
    let mut report = StderrSink::over(err);
    let mut file = StdoutSink::over(dump);
    mondrix(
        alloc,
        words,
        &mut store,
        &mut console,
        &mut report,
        &mut file,
    )
}
