//! Runs of sealed words.

ghost use Rattle.std.specs.Prelude.{◌≡◌, ◌≤◌, ◌^◌, ◌++◌, length, OnOk, IfOk};
ghost use Rattle.mx_model.specs.Reads.{flat_reads};
ghost use Rattle.mx_any.specs.Machines.{meaning};
ghost use Rattle.mx_audit.specs.AlikeWords.{run_between};
ghost use Rattle.mx_audit.specs.Marks.{MarkLive};
ghost use Rattle.mx_audit.specs.SealedRuns.{sealed_runs};

use crate::alike::{AlikeWords, alike_at};
use mx_any::{AnyMachine, any_machine_is_valid};
use mx_words::{MOST_DOMAINS, NoMemory, Perm, Span, Spans};
use std::alloc::Global;

/// The maximal runs of a machine's sealed words, where just the live domains are marked. It goes from edge to edge of
/// the owners and
/// of the live domains' rights.
pub(crate) fn sealed_runs(
    alloc: Global,
    machine: &AnyMachine,
    live: &[bool; MOST_DOMAINS],
) -> Result<Spans, NoMemory>
    requires { MarkLive (meaning machine.now).core live.now }
    ensures { IfOk result (λ runs. runs
        ≡ sealed_runs (flat_reads (meaning machine.now)) (meaning machine.now).core) }
{
    any_machine_is_valid(machine);
    let mut runs = Spans::new(alloc);
    let mut known = [AlikeWords {
        end: 0,
        exposed: false,
    }; MOST_DOMAINS];
    // The sealed words from `first` up to `word` are still without a run.
    let mut first = 0;
    let mut word = 0;
    'words: while word < machine.words() {
        let alike = alike_at(machine, live, &mut known, word);
        if alike.exposed {
            push_run(&mut runs, first, word)?;
            first = alike.end;
        }
        word = alike.end;
    }
    push_run(&mut runs, first, word)?;
    Ok(runs)
}

// Appends the words from `first` up to `behind` as a run, where there are some.
fn push_run(runs: &mut Spans, first: u32, behind: u32) -> Result<(), NoMemory>
    requires { length runs.old ≤ 2 ^ 24 }
    ensures { OnOk result (runs.new ≡ runs.old ++ run_between first behind) }
{
    if first < behind {
        runs.push(Span {
            first,
            count: behind - first,
            perm: Perm::None,
        })?;
    }
    Ok(())
}
