//! The top call.

ghost use Rattle.std.specs.Prelude.{◌<◌, ◌^◌, Some};
ghost use Rattle.mx_io.specs.Sink.{SinkState};
ghost use Rattle.mx_commands.specs.Asked.{order_of};
ghost use Rattle.mx_run.specs.Commands.{next};
ghost use Rattle.mx_run.specs.Words.{Go, meaning};
ghost use Rattle.mx_turns.specs.Ends.{sinks};
ghost use Rattle.mx_run.specs.Top.{Answered, Reacts};
ghost use Rattle.mx_commands.specs.Ends.{Continues};
ghost use Rattle.mx_run.specs.Promise.{Headline, Completeness};
ghost use Rattle.mx_run.specs.Runs.{RunsPlainly};
ghost use Rattle.mx_run.specs.Ran.{RanPlainly};
ghost use Rattle.mx_run.specs.Refuses.{RefusesByLine};
ghost use Rattle.mx_run.specs.Assembles.{AssemblesPlainly};
ghost use Rattle.mx_run.specs.Audits.{AuditsPlainly};
ghost use Rattle.mx_run.specs.Mills.{MillsPlainly};
ghost use Rattle.mx_run.specs.Counts.{CountsSmoothly};
ghost use Rattle.mx_run.specs.Resumes.{ResumesSmoothly};
ghost use Rattle.mx_run.specs.Traces.{TracesSmoothly};
ghost use Rattle.mx_run.specs.TwinRuns.{ComparesSmoothly};

use crate::milling::write_mill;
use crate::words::{Asked, Words};
use mx_commands::{
    Order, Status, Way, audit_manifest, compare_manifests, refuse, resume_snapshot, run_manifest,
    write_image,
};
use mx_io::{Sink, Store};
use std::alloc::Global;

/// Does what the words ask: reads from the store, writes to the three sinks, and tells how it ended.
///
/// Words without a meaning end with `Usage` or, where their line can't be written, with the report's fault;
/// then nothing is read and no memory is taken. Each file is read whole, in the order of `next`. Where memory
/// is wanting nothing is written. No file is read, and no memory taken, after the first step of a run.
pub fn mondrix<S: Store, C: Sink, R: Sink, D: Sink>(
    alloc: Global,
    words: &Words,
    store: &mut S,
    console: &mut C,
    report: &mut R,
    dump: &mut D,
) -> Status
    // Over every store: what it answered in this call leads to the outcome by which the call ended.
    ensures answered { Answered (meaning words.now) S.gives store.old store.new
        (sinks (C.state console.old) (R.state report.old) (D.state dump.old))
        (sinks (C.state console.new) (R.state report.new) (D.state dump.new)) result }

    // Over a store that tells, where nothing fails: the outcome is that of the files.
    ensures headline { Headline (meaning words.now) (S.state store.old) (S.state store.new)
        (sinks (C.state console.old) (R.state report.old) (D.state dump.old))
        (sinks (C.state console.new) (R.state report.new) (D.state dump.new)) result }

    // What `run` gives of a manifest that boots, without the counts and a snapshot: the texts of the plain machine's
    // run.
    ensures run { RunsPlainly words.now (S.state store.old) (S.state store.new)
        (sinks (C.state console.old) (R.state report.old) (D.state dump.old))
        (sinks (C.state console.new) (R.state report.new) (D.state dump.new)) result }

    // Where `run` ended with status 0, without the counts and a snapshot: the texts of the plain machine's run.
    ensures ran { RanPlainly words.now (S.state store.old) (S.state store.new)
        (sinks (C.state console.old) (R.state report.old) (D.state dump.old))
        (sinks (C.state console.new) (R.state report.new) (D.state dump.new)) result }

    // Whatever doesn't end with status 0 is one line on the report.
    ensures refused { RefusesByLine words.now (S.state store.old) (S.state store.new)
        (sinks (C.state console.old) (R.state report.old) (D.state dump.old))
        (sinks (C.state console.new) (R.state report.new) (D.state dump.new)) result }

    // What `asm` gives of a source without a fault.
    ensures asm { AssemblesPlainly words.now (S.state store.old) (S.state store.new)
        (sinks (C.state console.old) (R.state report.old) (D.state dump.old))
        (sinks (C.state console.new) (R.state report.new) (D.state dump.new)) result }

    // What `audit` gives of a manifest that boots.
    ensures audit { AuditsPlainly words.now (S.state store.old) (S.state store.new)
        (sinks (C.state console.old) (R.state report.old) (D.state dump.old))
        (sinks (C.state console.new) (R.state report.new) (D.state dump.new)) result }

    // What `mill` gives of a number.
    ensures mill { MillsPlainly words.now (S.state store.old) (S.state store.new)
        (sinks (C.state console.old) (R.state report.old) (D.state dump.old))
        (sinks (C.state console.new) (R.state report.new) (D.state dump.new)) result }

    // What `run` gives of a manifest that boots, with each of its options: the texts of the machine with caches.
    ensures counted { CountsSmoothly words.now (S.state store.old) (S.state store.new)
        (sinks (C.state console.old) (R.state report.old) (D.state dump.old))
        (sinks (C.state console.new) (R.state report.new) (D.state dump.new)) result }

    // What `resume` gives of a snapshot that is read.
    ensures resume { ResumesSmoothly words.now (S.state store.old) (S.state store.new)
        (sinks (C.state console.old) (R.state report.old) (D.state dump.old))
        (sinks (C.state console.new) (R.state report.new) (D.state dump.new)) result }

    // What `trace` gives of a manifest that boots.
    ensures trace { TracesSmoothly words.now (S.state store.old) (S.state store.new)
        (sinks (C.state console.old) (R.state report.old) (D.state dump.old))
        (sinks (C.state console.new) (R.state report.new) (D.state dump.new)) result }

    // What `twin` gives of two manifests that boot and are alike.
    ensures twin { ComparesSmoothly words.now (S.state store.old) (S.state store.new)
        (sinks (C.state console.old) (R.state report.old) (D.state dump.old))
        (sinks (C.state console.new) (R.state report.new) (D.state dump.new)) result }

    // Where the store and the sinks are sure to succeed nothing fails.
    ensures complete { Completeness (meaning words.now) (S.state store.old) (S.state store.new)
        (sinks (C.state console.old) (R.state report.old) (D.state dump.old))
        (sinks (C.state console.new) (R.state report.new) (D.state dump.new)) result }
{
    react(alloc, words, store, console, report, dump)
}

/// Does what the words ask.
fn react<S: Store, C: Sink, R: Sink, D: Sink>(
    alloc: Global,
    words: &Words,
    store: &mut S,
    console: &mut C,
    report: &mut R,
    dump: &mut D,
) -> Status
    ensures { Reacts (meaning words.now) S.gives store.old store.new
        (sinks (C.state console.old) (R.state report.old) (D.state dump.old))
        (sinks (C.state console.new) (R.state report.new) (D.state dump.new)) result }
{
    match words.asked() {
        Some(Asked::Go(order)) => go(alloc, &order, store, console, report, dump),
        Some(Asked::Asm(source)) => write_image(alloc, source, store, console, report),
        Some(Asked::Audit(name)) => audit_manifest(alloc, name, store, report),
        Some(Asked::Twin(pair)) => compare_manifests(alloc, &pair, store, report),
        Some(Asked::Mill(k)) => write_mill(alloc, k, report),
        None => refuse(report, "", Status::Usage),
    }
}

/// Makes a run of the order's way: from a manifest that boots, or from a snapshot.
fn go<S: Store, C: Sink, R: Sink, D: Sink>(
    alloc: Global,
    order: &Order<'_>,
    store: &mut S,
    console: &mut C,
    report: &mut R,
    dump: &mut D,
) -> Status
    ensures { Continues (next (Some (Go (order_of order.now)))) S.gives store.old store.new
        (sinks (C.state console.old) (R.state report.old) (D.state dump.old))
        (sinks (C.state console.new) (R.state report.new) (D.state dump.new)) result }
{
    match order.way {
        Way::Run => run_manifest(alloc, order, store, console, report, dump),
        Way::Resume => resume_snapshot(alloc, order, store, console, report, dump),
        Way::Trace => run_manifest(alloc, order, store, console, report, dump),
    }
}
