//! The command `audit`: from the name of a manifest to what no run of its machine changes.

ghost use Rattle.std.specs.Prelude.{◌≡◌, map};
ghost use Rattle.mx_audit.specs.Lines.{audit_text, found_text};
ghost use Rattle.mx_audit.specs.SealedRuns.{AreInRam};
ghost use Rattle.mx_any.specs.Machines.{meaning};
ghost use Rattle.mx_io.specs.Sink.{SinkState};
ghost use Rattle.mx_model.specs.State.{State, flat};
ghost use Rattle.mx_turns.specs.Ends.{sinks};
ghost use Rattle.mx_commands.specs.Commands.{audited, auditing};
ghost use Rattle.mx_commands.specs.Next.{reported};
ghost use Rattle.mx_commands.specs.Ends.{Continues, Ends, EndsOrWants};

use crate::booting::{Booted, take_boot};
use crate::running::{keep, names};
use crate::side::Side;
use crate::status::Status;
use mx_any::AnyMachine;
use mx_audit::{Audit, audit, write_audit};
use mx_io::{Failed, Sink, Store};
use mx_snapshot::Kept;
use mx_words::NoMemory;
use std::alloc::Global;

/// Boots the manifest of this name, and writes the audit of its machine, which makes no turn, as the report.
///
/// Where a file isn't there whole or the boot is refused the report is that one line. Where memory is wanting nothing
/// is written.
pub fn audit_manifest<S: Store, R: Sink>(
    alloc: Global,
    name: &str,
    store: &mut S,
    report: &mut R,
) -> Status
    ensures { (console dump : SinkState) →
        Continues (auditing name.now) S.gives store.old store.new
        (sinks console (R.state report.old) dump) (sinks console (R.state report.new) dump) result }
{
    match take_boot(alloc, Side::First, name, store, report) {
        Ok(booted) => audit_boot(alloc, booted, report),
        Err(status) => status,
    }
}

// Writes the audit of what has booted.
fn audit_boot<R: Sink>(alloc: Global, booted: Booted, report: &mut R) -> Status
    ensures { (s : State) → meaning booted.machine ≡ flat s → (console dump : SinkState) →
        EndsOrWants (audited booted.plan s)
        (sinks console (R.state report.old) dump) (sinks console (R.state report.new) dump) result }
{
    let Booted { plan, machine } = booted;
    let status = match keep(alloc, plan) {
        Ok(kept) => audit_machine(alloc, &kept, &machine, report),
        Err(NoMemory) => Status::WantOfMemory,
    };
    machine.end();
    status
}

// Writes the audit of a machine whose modules have the names that are kept.
fn audit_machine<R: Sink>(
    alloc: Global,
    kept: &Kept,
    machine: &AnyMachine,
    report: &mut R,
) -> Status
    ensures { (console dump : SinkState) →
        EndsOrWants (reported (audit_text kept.now.names (meaning machine.now)))
        (sinks console (R.state report.old) dump) (sinks console (R.state report.new) dump) result }
{
    let Ok(names) = names(alloc, kept) else {
        return Status::WantOfMemory;
    };
    match audit(alloc, machine) {
        Ok(audit) => put_audit(&audit, names.as_slice(), report),
        Err(NoMemory) => Status::WantOfMemory,
    }
}

// Writes the report of an audit.
fn put_audit<R: Sink>(audit: &Audit, names: &[&str], report: &mut R) -> Status
    requires { AreInRam audit.now.sealed }
    ensures { (console dump : SinkState) →
        Ends (reported (found_text (map (λ name. name.now) names.now) audit.now))
        (sinks console (R.state report.old) dump) (sinks console (R.state report.new) dump) result }
{
    match write_audit(report, audit, names) {
        Ok(()) => Status::Ran,
        Err(Failed) => Status::ReportFault,
    }
}
