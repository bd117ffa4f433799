//! The command `resume`: a snapshot is read, and the run of its machine goes on.

ghost use Rattle.std.specs.Prelude.{◌≡◌, ◌-◌, ◌<◌, ◌≤◌, ◌^◌, length, IfOk, IfErr};
ghost use Rattle.mx_any.specs.Machines.{meaning};
ghost use Rattle.mx_model.specs.State.{State, flat};
ghost use Rattle.mx_resume.specs.Snapshot.{IsRefusedBy, IsResumed, snapshot_of};
ghost use Rattle.mx_snapshot.specs.Kept.{IsOfPlan};
ghost use Rattle.mx_snapshot.specs.Stored.{Stored};
ghost use Rattle.mx_turns.specs.Ends.{sinks};
ghost use Rattle.mx_turns.specs.Running.{IsNew};
ghost use Rattle.mx_commands.specs.Asked.{order_of};
ghost use Rattle.mx_commands.specs.Commands.{resumed_run, run_from};
ghost use Rattle.mx_commands.specs.Resumed.{Onward, after_snapshot, resumed};
ghost use Rattle.mx_commands.specs.Resuming.{TakesSnapshot};
ghost use Rattle.mx_commands.specs.Ends.{Continues};

use crate::order::Order;
use crate::refusal::refuse;
use crate::running::run_from;
use crate::status::Status;
use crate::wanted::{snapshot_file, take_file};
use mx_io::{Sink, Store};
use mx_resume::{Resumed, SnapshotRefused, read_snapshot};
use mx_words::Blob;
use std::alloc::Global;

/// Reads the snapshot of an order, at most 1073741824 bytes, and makes the run that goes on from it. The turns that it
/// makes are counted on from those of the snapshot.
///
/// A snapshot that isn't there whole, has a fault or needs more for its tables than its limit has its line as the
/// report, and nothing else is written. Where memory is wanting nothing is written; no memory is taken and no file read
/// after the first turn.
pub fn resume_snapshot<S: Store, C: Sink, R: Sink, D: Sink>(
    alloc: Global,
    order: &Order<'_>,
    store: &mut S,
    console: &mut C,
    report: &mut R,
    dump: &mut D,
) -> Status
    ensures { Continues (resumed_run (order_of order.now)) S.gives store.old store.new
        (sinks (C.state console.old) (R.state report.old) (D.state dump.old))
        (sinks (C.state console.new) (R.state report.new) (D.state dump.new)) result }
{
    match take_snapshot(alloc, order.file, store, report) {
        Ok(taken) => run_taken(alloc, order, taken, store, console, report, dump),
        Err(status) => status,
    }
}

// Runs the machine of a snapshot.
fn run_taken<S: Store, C: Sink, R: Sink, D: Sink>(
    alloc: Global,
    order: &Order<'_>,
    taken: Resumed,
    store: &mut S,
    console: &mut C,
    report: &mut R,
    dump: &mut D,
) -> Status
    requires plan { IsOfPlan taken.plan (meaning taken.machine) }
    requires turns { (meaning taken.machine).core.turns ≤ 2 ^ 63 - 1 }
    ensures { (s : State) → IsNew s → meaning taken.machine ≡ flat s
        → Continues (run_from (order_of order.now) taken.plan s) S.gives store.old store.new
        (sinks (C.state console.old) (R.state report.old) (D.state dump.old))
        (sinks (C.state console.new) (R.state report.new) (D.state dump.new)) result }
{
    let Resumed { mut machine, plan } = taken;
    let status = run_from(
        alloc,
        order,
        &plan,
        &mut machine,
        store,
        console,
        report,
        dump,
    );
    machine.end();
    status
}

// The machine and the plan of the snapshot of this name, or the end of the call: the line of the refusal is the whole
// report.
fn take_snapshot<S: Store, R: Sink>(
    alloc: Global,
    name: &str,
    store: &mut S,
    report: &mut R,
) -> Result<Resumed, Status>
    ensures { TakesSnapshot S.gives (after_snapshot name.now) store.old store.new
        (R.state report.old) (R.state report.new) result }
{
    match take_file(alloc, &snapshot_file(name), store, report) {
        Ok(bytes) => take_up(alloc, name, Blob::from_vec(bytes), store, report),
        Err(status) => Err(status),
    }
}

// The machine and the plan of the snapshot with these bytes, or its refusal.
fn take_up<S: Store, R: Sink>(
    alloc: Global,
    name: &str,
    bytes: Blob,
    store: &mut S,
    report: &mut R,
) -> Result<Resumed, Status>
    ensures { TakesSnapshot S.gives (λ (rest : Onward). resumed name.now rest (snapshot_of bytes))
        store.old store.new (R.state report.old) (R.state report.new) result }
{
    match read_all(alloc, bytes) {
        Ok(taken) => Ok(taken),
        Err(SnapshotRefused::Fault { at, number }) => {
            Err(refuse(report, name, Status::SnapshotFault { at, number }))
        }
        Err(SnapshotRefused::TablesFull { need, limit }) => {
            Err(refuse(report, name, Status::TablesFull { need, limit }))
        }
        Err(SnapshotRefused::NoMemory) => Err(Status::WantOfMemory),
    }
}

// Reads a snapshot. Its bytes are dropped then, so that a run doesn't hold them.
fn read_all(alloc: Global, bytes: Blob) -> Result<Resumed, SnapshotRefused>
    ensures stored { IfOk result (λ r. (s : Stored) × (snapshot_of bytes ≡ Ok s) × IsResumed s r) }
    ensures of_plan { IfOk result (λ r. IsOfPlan r.plan (meaning r.machine)) }
    ensures turns { IfOk result (λ r. (meaning r.machine).core.turns ≤ 2 ^ 63 - 1) }
    ensures refused { IfErr result (IsRefusedBy (snapshot_of bytes)) }
{
    read_snapshot(alloc, &bytes)
}
