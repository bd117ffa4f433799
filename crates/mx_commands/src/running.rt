//! The commands `run` and `trace`: a machine boots, makes its turns, and writes its texts; and the run that any machine
//! makes.

ghost use Rattle.std.specs.Prelude.{◌≡◌, ◌+◌, ◌-◌, ◌<◌, ◌^◌, IfOk, map, unwrap_or};
ghost use Rattle.std.specs.Option.{option_copied};
ghost use Rattle.mx_any.specs.Machines.{meaning};
ghost use Rattle.mx_model.specs.State.{State, flat};
ghost use Rattle.mx_snapshot.specs.Kept.{IsOfPlan, kept_of};
ghost use Rattle.mx_turns.specs.Ends.{Leave, sinks};
ghost use Rattle.mx_turns.specs.Running.{schedule_of, HasTurns, IsNew};
ghost use Rattle.mx_commands.specs.Asked.{order_of};
ghost use Rattle.mx_commands.specs.Booting.{TakesSchedule, schedule_bytes};
ghost use Rattle.mx_commands.specs.Commands.{booted_run, lines_of, options_of, run_from, run_of, texts_of};
ghost use Rattle.mx_commands.specs.Ends.{fault_of, Ends, Continues};

use crate::booting::{Booted, take_boot};
use crate::order::{Order, Way};
use crate::side::Side;
use crate::status::Status;
use crate::wanted::{schedule_file, take_file};
use mx_any::AnyMachine;
use mx_io::{Sink, Store};
use mx_manifest::Plan;
use mx_report::Options;
use mx_snapshot::Kept;
use mx_turns::{Lines, Schedule, SinkFault, Task, TraceTask, make_run, make_trace};
use mx_words::NoMemory;
use std::alloc::Global;

/// Boots the manifest of an order, and makes its run, or its trace. The texts are the console's bytes, the report and
/// what goes to the dump.
///
/// Where a file isn't there whole or the boot is refused the report is that one line, and nothing else is written.
/// Where memory is wanting nothing is written; no memory is taken and no file read after the first turn. The first sink
/// that fails ends the run.
pub fn run_manifest<S: Store, C: Sink, R: Sink, D: Sink>(
    alloc: Global,
    order: &Order<'_>,
    store: &mut S,
    console: &mut C,
    report: &mut R,
    dump: &mut D,
) -> Status
    ensures { Continues (booted_run (order_of order.now)) S.gives store.old store.new
        (sinks (C.state console.old) (R.state report.old) (D.state dump.old))
        (sinks (C.state console.new) (R.state report.new) (D.state dump.new)) result }
{
    match take_boot(alloc, Side::First, order.file, store, report) {
        Ok(booted) => run_boot(alloc, order, booted, store, console, report, dump),
        Err(status) => status,
    }
}

// Runs what has booted. The plan is dropped before the first turn.
fn run_boot<S: Store, C: Sink, R: Sink, D: Sink>(
    alloc: Global,
    order: &Order<'_>,
    booted: Booted,
    store: &mut S,
    console: &mut C,
    report: &mut R,
    dump: &mut D,
) -> Status
    requires plan { IsOfPlan (kept_of booted.plan) (meaning booted.machine) }
    requires unmoved { (meaning booted.machine).core.turns ≡ 0 }
    ensures { (s : State) → IsNew s → meaning booted.machine ≡ flat s
        → Continues (run_from (order_of order.now) (kept_of booted.plan) s)
        S.gives store.old store.new
        (sinks (C.state console.old) (R.state report.old) (D.state dump.old))
        (sinks (C.state console.new) (R.state report.new) (D.state dump.new)) result }
{
    let Booted { plan, mut machine } = booted;
    match keep(alloc, plan) {
        Ok(kept) => {
            let status = run_from(
                alloc,
                order,
                &kept,
                &mut machine,
                store,
                console,
                report,
                dump,
            );
            machine.end();
            status
        }
        Err(NoMemory) => {
            machine.end();
            Status::WantOfMemory
        }
    }
}

// What a run keeps of a plan, which is dropped.
pub(crate) fn keep(alloc: Global, plan: Plan) -> Result<Kept, NoMemory>
    ensures { IfOk result (λ kept. kept ≡ kept_of plan) }
{
    Kept::of(alloc, &plan)
}

/// Runs a machine, which may have made turns, by the schedule that the order names, or by the plan's quantum.
pub(crate) fn run_from<S: Store, C: Sink, R: Sink, D: Sink>(
    alloc: Global,
    order: &Order<'_>,
    kept: &Kept,
    machine: &mut AnyMachine,
    store: &mut S,
    console: &mut C,
    report: &mut R,
    dump: &mut D,
) -> Status
    requires few { (meaning machine.old).core.turns + order.now.steps.count < 2 ^ 64 - 1 }
    requires plan { IsOfPlan kept.now (meaning machine.old) }
    ensures { (s : State) → IsNew s → meaning machine.old ≡ flat s
        → Continues (run_from (order_of order.now) kept.now s) S.gives store.old store.new
        (sinks (C.state console.old) (R.state report.old) (D.state dump.old))
        (sinks (C.state console.new) (R.state report.new) (D.state dump.new)) result }
{
    let Ok(names) = names(alloc, kept) else {
        return Status::WantOfMemory;
    };
    match take_schedule(alloc, order.schedule, store, report) {
        Ok(Some(bytes)) => {
            let schedule = Schedule::Bytes(bytes.as_slice());
            run_by(
                order,
                kept,
                names.as_slice(),
                machine,
                schedule,
                console,
                report,
                dump,
            )
        }
        Ok(None) => {
            let schedule = Schedule::Quantum(kept.quantum());
            run_by(
                order,
                kept,
                names.as_slice(),
                machine,
                schedule,
                console,
                report,
                dump,
            )
        }
        Err(status) => status,
    }
}

// The names of modules, in order.
pub(crate) fn names(alloc: Global, kept: &Kept) -> Result<Vec<&str>, NoMemory>
    ensures { IfOk result (λ names. map (λ name. name.now) names.items ≡ kept.now.names) }
{
    let mut names = Vec::new(alloc);
    'modules: for i in 0..kept.modules() {
        names.push(kept.name(i))?;
    }
    Ok(names)
}

/// The bytes of the schedule that is asked, if one is; or the end of the call.
pub fn take_schedule<S: Store, R: Sink>(
    alloc: Global,
    schedule: Option<&str>,
    store: &mut S,
    report: &mut R,
) -> Result<Option<Vec<u8>>, Status>
    ensures { TakesSchedule S.gives (option_copied schedule.entry) store.old store.new
        (R.state report.old) (R.state report.new) (schedule_bytes result) }
{
    match schedule {
        Some(name) => match take_file(alloc, &schedule_file(name), store, report) {
            Ok(bytes) => Ok(Some(bytes)),
            Err(status) => Err(status),
        },
        None => Ok(None),
    }
}

// Makes a run by a schedule.
fn run_by<C: Sink, R: Sink, D: Sink>(
    order: &Order<'_>,
    kept: &Kept,
    names: &[&str],
    machine: &mut AnyMachine,
    schedule: Schedule<'_>,
    console: &mut C,
    report: &mut R,
    dump: &mut D,
) -> Status
    requires few { (meaning machine.old).core.turns + order.now.steps.count < 2 ^ 64 - 1 }
    requires names { map (λ name. name.now) names.now ≡ kept.now.names }
    requires quantum { HasTurns schedule }
    requires plan { IsOfPlan kept.now (meaning machine.old) }
    ensures { (s : State) → IsNew s → meaning machine.old ≡ flat s →
        Ends (run_of (order_of order.now) kept.now s (schedule_of schedule.entry))
        (sinks (C.state console.old) (R.state report.old) (D.state dump.old))
        (sinks (C.state console.new) (R.state report.new) (D.state dump.new)) result }
{
    match make_by(order, kept, names, machine, schedule, console, report, dump) {
        Ok(()) => Status::Ran,
        Err(fault) => fault_of(fault),
    }
}

// Makes the turns of a run of the order's way, and writes its texts.
fn make_by<C: Sink, R: Sink, D: Sink>(
    order: &Order<'_>,
    kept: &Kept,
    names: &[&str],
    machine: &mut AnyMachine,
    schedule: Schedule<'_>,
    console: &mut C,
    report: &mut R,
    dump: &mut D,
) -> Result<(), SinkFault>
    requires few { (meaning machine.old).core.turns + order.now.steps.count < 2 ^ 64 - 1 }
    requires names { map (λ name. name.now) names.now ≡ kept.now.names }
    requires quantum { HasTurns schedule }
    requires plan { IsOfPlan kept.now (meaning machine.old) }
    ensures { (s : State) → IsNew s → meaning machine.old ≡ flat s →
        Leave (texts_of (order_of order.now) order.now.way kept.now s (schedule_of schedule.entry))
        (sinks (C.state console.old) (R.state report.old) (D.state dump.old))
        (sinks (C.state console.new) (R.state report.new) (D.state dump.new)) result }
{
    match order.way {
        Way::Run | Way::Resume => make_run(
            &task_of(order, schedule),
            kept,
            names,
            machine,
            console,
            report,
            dump,
        ),
        Way::Trace => make_trace(&trace_of(order, schedule), machine, console, report),
    }
}

fn task_of<'a>(order: &Order<'_>, schedule: Schedule<'a>) -> Task<'a>
    ensures steps { result.steps ≡ order.now.steps.count }
    ensures schedule { result.schedule ≡ schedule.entry }
    ensures options { result.options ≡ options_of (order_of order.now) }
    ensures dump { result.dump ≡ order.now.shown.dump }
{
    Task {
        steps: order.steps.count,
        schedule,
        options: Options {
            tables: order.shown.tables,
            counts: order.shown.counts,
        },
        dump: order.shown.dump,
    }
}

fn trace_of<'a>(order: &Order<'_>, schedule: Schedule<'a>) -> TraceTask<'a>
    ensures steps { result.steps ≡ order.now.steps.count }
    ensures schedule { result.schedule ≡ schedule.entry }
    ensures lines { result.lines ≡ lines_of (order_of order.now) }
{
    TraceTask {
        steps: order.steps.count,
        schedule,
        lines: lines_of(order),
    }
}

fn lines_of(order: &Order<'_>) -> Lines
    ensures { result ≡ lines_of (order_of order.now) }
{
    Lines {
        from: order.shown.from.unwrap_or(0),
        effects: order.shown.effects,
    }
}

// The status of a sink's fault.
fn fault_of(fault: SinkFault) -> Status
    ensures { result ≡ fault_of fault }
{
    match fault {
        SinkFault::Console => Status::ConsoleFault,
        SinkFault::Report => Status::ReportFault,
        SinkFault::Dump => Status::DumpFault,
    }
}
