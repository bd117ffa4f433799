//! A debugger's call from an order on: the boot, the schedule, and the talk about the run that they fix.

ghost use Rattle.std.specs.Prelude.{◌≡◌, ◌<◌, ◌^◌, Ok};
ghost use Rattle.mx_any.specs.Machines.{meaning};
ghost use Rattle.mx_model.specs.State.{State, flat};
ghost use Rattle.mx_boot.specs.Boot.{boot_of};
ghost use Rattle.mx_boot.specs.Inputs.{AreInputs};
ghost use Rattle.mx_commands.specs.Asked.{order_of};
ghost use Rattle.mx_debug.specs.Looks.{IsAt, IsCourse, IsRunOf};
ghost use Rattle.mx_debug.specs.Session.{Looked};
ghost use Rattle.mx_debugger.specs.Debugs.{Debugs, DebugsLoaded, TalkEnds};

use mx_any::AnyMachine;
use mx_commands::{Loaded, Order, Side, Status, take_loaded, take_schedule};
use mx_debug::{Course, Origin, talk};
use mx_io::{Sink, Store};
use mx_manifest::Plan;
use mx_packets::Line;
use mx_turns::Schedule;
use mx_words::Blob;
use std::alloc::Global;

/// Boots the manifest of an order, takes its schedule, and talks about their run on the line.
pub(crate) fn debug_manifest<S: Store, L: Line, R: Sink>(
    alloc: Global,
    order: &Order<'_>,
    store: &mut S,
    line: &mut L,
    report: &mut R,
) -> Status
    ensures { Debugs S.gives L.hears L.says L.room (Some (order_of order.now)) store.old store.new
        line.old line.new (R.state report.old) (R.state report.new) result }
{
    match take_loaded(alloc, Side::First, order.file, store, report) {
        Ok(loaded) => debug_loaded(alloc, order, loaded, store, line, report),
        Err(status) => status,
    }
}

// Takes the schedule of what has booted, and talks about the run. The images and the inputs stay, since a talk may boot
// again.
fn debug_loaded<S: Store, L: Line, R: Sink>(
    alloc: Global,
    order: &Order<'_>,
    loaded: Loaded,
    store: &mut S,
    line: &mut L,
    report: &mut R,
) -> Status
    requires unmoved { (meaning loaded.machine).core.turns ≡ 0 }
    requires fits { AreInputs loaded.plan loaded.inputs.items }
    requires boots { (s : State) × (boot_of loaded.plan loaded.images.items loaded.inputs.items ≡ Ok s) }
    ensures { (s : State) → boot_of loaded.plan loaded.images.items loaded.inputs.items ≡ Ok s →
        meaning loaded.machine ≡ flat s → DebugsLoaded S.gives L.hears L.says L.room
        (order_of order.now) loaded.plan loaded.images.items s store.old store.new line.old line.new
        (R.state report.old) (R.state report.new) result }
{
    let Loaded {
        plan,
        images,
        inputs,
        mut machine,
    } = loaded;
    match take_schedule(alloc, order.schedule, store, report) {
        Ok(Some(bytes)) => {
            let schedule = Schedule::Bytes(bytes.as_slice());
            let course = course_of(order, schedule, &plan, images.as_slice(), inputs.as_slice());
            let status = talk_by(alloc, &course, &mut machine, line);
            machine.end();
            status
        }
        Ok(None) => {
            let schedule = Schedule::Quantum(plan.quantum());
            let course = course_of(order, schedule, &plan, images.as_slice(), inputs.as_slice());
            let status = talk_by(alloc, &course, &mut machine, line);
            machine.end();
            status
        }
        Err(status) => {
            machine.end();
            status
        }
    }
}

// The course of an order's run: by a schedule, of a machine that boots of these.
fn course_of<'a>(
    order: &Order<'_>,
    schedule: Schedule<'a>,
    plan: &'a Plan,
    images: &'a [Blob],
    inputs: &'a [Blob],
) -> Course<'a>
    ensures schedule { result.schedule ≡ schedule.entry }
    ensures most { result.most ≡ order.now.steps }
    ensures plan { result.origin.plan.now ≡ plan.now }
    ensures images { result.origin.images.now ≡ images.now }
    ensures inputs { result.origin.inputs.now ≡ inputs.now }
{
    Course {
        schedule,
        most: order.steps,
        origin: Origin {
            plan,
            images,
            inputs,
        },
    }
}

// Talks about the run of a course.
fn talk_by<L: Line>(
    alloc: Global,
    course: &Course<'_>,
    machine: &mut AnyMachine,
    line: &mut L,
) -> Status
    requires course { IsCourse course.now }
    requires unmoved { (meaning machine.old).core.turns ≡ 0 }
    ensures { (run : Looked) → IsRunOf run course.now → IsAt run 0 (meaning machine.old) →
        TalkEnds L.hears L.says L.room run line.old line.new result }
{
    match talk(alloc, line, machine, course) {
        Ok(()) => Status::Ran,
        Err(_) => Status::ConsoleFault,
    }
}
