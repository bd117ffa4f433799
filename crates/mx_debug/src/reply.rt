//! The replies to packets.

ghost use Rattle.std.specs.Prelude.{◌≡◌, ◌≤◌, ◌<◌, ◌-◌, ◌^◌, true, false, IfOk, OnErr, OnOk};
ghost use Rattle.mx_any.specs.Machines.{meaning};
ghost use Rattle.mx_packets.specs.Lines.{SpeaksOrFails};
ghost use Rattle.mx_packets.specs.Streams.{sent};
ghost use Rattle.mx_debug.specs.Back.{backward as backward_from};
ghost use Rattle.mx_debug.specs.Ended.{Replies, leaves_by};
ghost use Rattle.mx_debug.specs.Looks.{Finds, IsAt, IsCourse, IsFit, IsRunOf, place_of};
ghost use Rattle.mx_debug.specs.Replies.{go_back, go_on, go_to, past_all, reply, settled, sought_of, stands_at};
ghost use Rattle.mx_debug.specs.Replies.{step_by, still_reply, thread_hart, view_of, want};
ghost use Rattle.mx_debug.specs.Session.{Looked, asked_of, forward as forward_from, found_of, is_past, most_turns};
ghost use Rattle.mx_debug.specs.Talking.{RepliesBy};

use crate::again::machine_at;
use crate::back::{Back, Seeking, backward};
use crate::console::{say_answer, say_text};
use crate::course::Course;
use crate::search::{Asking, Known, forward};
use crate::session::Session;
use crate::still::put_still;
use crate::stop::{Found, Step, Stop};
use crate::texts::{put_stop, say_noted};
use mx_any::AnyMachine;
use mx_io::Failed;
use mx_packets::{Answer, Line, Request, Thread};
use mx_words::NoMemory;
use std::alloc::Global;
use std::mem;

/// The most turns that a run goes on before it pauses.
const MOST_TURNS: u64 = 100_000_000;

/// Whether a session goes on.
#[derive(Clone, Copy)]
pub enum Next {
    /// It goes on.
    Goes,
    /// It is left.
    Leaves,
}

/// Replies to a packet that asks this.
pub(crate) fn respond<L: Line>(
    alloc: Global,
    line: &mut L,
    machine: &mut AnyMachine,
    course: &Course<'_>,
    session: &mut Session,
    request: Request,
) -> Result<Next, Failed>
    requires fit { IsFit course.now.most.count session.old.made (meaning machine.old) }
    requires course { IsCourse course.now }
    ensures replies { (q : Looked) → IsRunOf q course.now →
        IsAt q session.old.made (meaning machine.old) →
        RepliesBy L.says L.room q (λ wanting. reply q wanting session.old request) session.new
        (meaning machine.new) line.old line.new result }
    ensures fit { OnOk result (IsFit course.now.most.count session.new.made (meaning machine.new)) }
{
    match request {
        Request::Go => go_on(alloc, line, machine, course, session, None),
        Request::Step(thread) => step_by(alloc, line, machine, course, session, thread, 0, 0),
        Request::Range(thread, first, end) => {
            step_by(alloc, line, machine, course, session, thread, first, end)
        }
        Request::StepBack => {
            let hart = session.followed;
            go_back(alloc, line, machine, course, session, Some(hart))
        }
        Request::GoBack => go_back(alloc, line, machine, course, session, None),
        Request::After(turns) => go_to(alloc, line, machine, course, session, turns),
        Request::Leave => match say_text(line, b"OK") {
            Ok(()) => Ok(Next::Leaves),
            Err(failed) => Err(failed),
        },
        Request::Kill => Ok(Next::Leaves),
        _ => stand(line, machine, course, session, request),
    }
}

// Replies to one that leaves the run where it is.
fn stand<L: Line>(
    line: &mut L,
    machine: &AnyMachine,
    course: &Course<'_>,
    session: &mut Session,
    request: Request,
) -> Result<Next, Failed>
    requires { IsCourse course.now }
    ensures replies { (q : Looked) → IsRunOf q course.now → IsAt q session.old.made (meaning machine.now) →
        Replies L.says L.room q (still_reply (view_of q session.old) session.old request)
        session.new (meaning machine.now) line.old line.new result }
    ensures made { session.new.made ≡ session.old.made }
{
    let mut answer = Answer::new();
    put_still(machine, course, session, request, &mut answer);
    match say_answer(line, &answer) {
        Ok(()) => Ok(Next::Goes),
        Err(failed) => Err(failed),
    }
}

// Makes a step of a thread's hart, in a range.
fn step_by<L: Line>(
    alloc: Global,
    line: &mut L,
    machine: &mut AnyMachine,
    course: &Course<'_>,
    session: &mut Session,
    thread: Thread,
    first: u32,
    end: u32,
) -> Result<Next, Failed>
    requires fit { IsFit course.now.most.count session.old.made (meaning machine.old) }
    requires course { IsCourse course.now }
    ensures replies { (q : Looked) → IsRunOf q course.now →
        IsAt q session.old.made (meaning machine.old) →
        RepliesBy L.says L.room q (λ wanting. step_by q wanting session.old thread first end) session.new
        (meaning machine.new) line.old line.new result }
    ensures fit { OnOk result (IsFit course.now.most.count session.new.made (meaning machine.new)) }
{
    match thread_hart(machine, session.followed, thread) {
        Some(hart) => {
            let step = Step { hart, first, end };
            go_on(alloc, line, machine, course, session, Some(step))
        }
        None => match say_text(line, b"E01") {
            Ok(()) => Ok(Next::Goes),
            Err(failed) => Err(failed),
        },
    }
}

// The hart of a thread, where it is there.
fn thread_hart(machine: &AnyMachine, followed: u32, thread: Thread) -> Option<u32>
    ensures { result ≡ thread_hart (meaning machine.now).core followed thread }
{
    match thread {
        Thread::Any => Some(followed),
        Thread::Hart(hart) if hart < machine.harts() => Some(hart),
        _ => None,
    }
}

// Goes on with the run, and tells where it stops.
fn go_on<L: Line>(
    alloc: Global,
    line: &mut L,
    machine: &mut AnyMachine,
    course: &Course<'_>,
    session: &mut Session,
    step: Option<Step>,
) -> Result<Next, Failed>
    requires fit { IsFit course.now.most.count session.old.made (meaning machine.old) }
    requires course { IsCourse course.now }
    ensures replies { (q : Looked) → IsRunOf q course.now →
        IsAt q session.old.made (meaning machine.old) →
        RepliesBy L.says L.room q (λ wanting. go_on q wanting session.old step) session.new
        (meaning machine.new) line.old line.new result }
    ensures fit { OnOk result (IsFit course.now.most.count session.new.made (meaning machine.new)) }
{
    match resume(line, machine, course, session, step) {
        Ok(found) => settle(alloc, line, machine, course, session, found),
        Err(failed) => Err(failed),
    }
}

// Goes on with the run from a session's place.
fn resume<L: Line>(
    line: &mut L,
    machine: &mut AnyMachine,
    course: &Course<'_>,
    session: &Session,
    step: Option<Step>,
) -> Result<Found, Failed>
    requires fit { IsFit course.now.most.count session.now.made (meaning machine.old) }
    requires course { IsCourse course.now }
    ensures finds { (q : Looked) → IsRunOf q course.now →
        IsAt q session.now.made (meaning machine.old) →
        Finds L.says L.room q (asked_of session.now step) session.now.told session.now.made
        (found_of q session.now step)
        (meaning machine.new) line.old line.new result }
    ensures fit { IfOk result (λ found. IsFit course.now.most.count (place_of found) (meaning machine.new)) }
{
    let asking = Asking {
        schedule: course.schedule,
        breaks: session.breaks.as_slice(),
        faults: true,
        step,
        most: course.most.count,
        told: session.told,
    };
    let known = Known {
        broke: session.broke,
        faulted: session.faulted,
    };
    forward(line, machine, &asking, MOST_TURNS, session.made, known)
}

// Stands where a search stopped the run, and tells that: the machine is booted again where it made one turn more.
fn settle<L: Line>(
    alloc: Global,
    line: &mut L,
    machine: &mut AnyMachine,
    course: &Course<'_>,
    session: &mut Session,
    found: Found,
) -> Result<Next, Failed>
    requires fit { IsFit course.now.most.count (place_of found) (meaning machine.old) }
    requires course { IsCourse course.now }
    ensures replies { (q : Looked) → IsRunOf q course.now → IsAt q (place_of found) (meaning machine.old) →
        (found.past ≡ true → is_past q found.made ≡ true) →
        RepliesBy L.says L.room q (λ wanting. settled q wanting session.old (found.made, found.stop))
        session.new (meaning machine.new) line.old line.new result }
    ensures fit { OnOk result (IsFit course.now.most.count session.new.made (meaning machine.new)) }
{
    if !found.past {
        return tell(line, machine, course, session, (found.made, found.stop));
    }
    match stand_again(alloc, machine, course, found.made) {
        Ok(()) => tell(line, machine, course, session, (found.made, found.stop)),
        Err(NoMemory) => {
            session.stand_behind((found.made, found.stop));
            say_want(line)
        }
    }
}

// The machine of the run after so many turns, booted again, in place of one. Where memory is wanting that stays.
fn stand_again(
    alloc: Global,
    machine: &mut AnyMachine,
    course: &Course<'_>,
    made: u64,
) -> Result<(), NoMemory>
    requires few { made ≤ course.now.most.count }
    requires course { IsCourse course.now }
    ensures at { (q : Looked) → IsRunOf q course.now → OnOk result (IsAt q made (meaning machine.new)) }
    ensures few { OnOk result ((meaning machine.new).core.turns ≤ made) }
    ensures err { OnErr result (meaning machine.new ≡ meaning machine.old) }
{
    match machine_at(alloc, &course.origin, course.schedule, made) {
        Ok(again) => {
            let before = mem::replace(machine, again);
            before.end();
            Ok(())
        }
        Err(refused) => Err(refused),
    }
}

// Tells where the run stops.
fn tell<L: Line>(
    line: &mut L,
    machine: &AnyMachine,
    course: &Course<'_>,
    session: &mut Session,
    found: (u64, Stop),
) -> Result<Next, Failed>
    ensures replies { (q : Looked) → IsRunOf q course.now → IsAt q found.0 (meaning machine.now) →
        Replies L.says L.room q (stands_at q session.old found) session.new
        (meaning machine.now) line.old line.new result }
    ensures made { session.new.made ≡ found.0 }
{
    let kept = session.shown;
    session.stand_at(found);
    match say_noted(line, machine, &course.named(), found) {
        Ok(()) => {
            let mut answer = Answer::new();
            put_stop(&mut answer, kept, found.1);
            match say_answer(line, &answer) {
                Ok(()) => Ok(Next::Goes),
                Err(failed) => Err(failed),
            }
        }
        Err(failed) => Err(failed),
    }
}

// Tells that memory is wanting.
fn say_want<L: Line>(line: &mut L) -> Result<Next, Failed>
    ensures said { SpeaksOrFails L.says L.room line.old (sent want) line.new result }
    ensures goes { IfOk result (λ next. leaves_by next ≡ false) }
{
    match say_text(line, b"E0c") {
        Ok(()) => Ok(Next::Goes),
        Err(failed) => Err(failed),
    }
}

// Goes back in the run, to where it stops or by a turn of a hart.
fn go_back<L: Line>(
    alloc: Global,
    line: &mut L,
    machine: &mut AnyMachine,
    course: &Course<'_>,
    session: &mut Session,
    hart: Option<u32>,
) -> Result<Next, Failed>
    requires fit { IsFit course.now.most.count session.old.made (meaning machine.old) }
    requires course { IsCourse course.now }
    ensures replies { (q : Looked) → IsRunOf q course.now →
        IsAt q session.old.made (meaning machine.old) →
        RepliesBy L.says L.room q (λ wanting. go_back q wanting session.old hart) session.new
        (meaning machine.new) line.old line.new result }
    ensures fit { OnOk result (IsFit course.now.most.count session.new.made (meaning machine.new)) }
{
    match look_back(alloc, course, session, hart) {
        Ok(back) => {
            let Back {
                found,
                machine: again,
            } = back;
            let before = mem::replace(machine, again);
            before.end();
            tell(line, machine, course, session, found)
        }
        Err(NoMemory) => say_want(line),
    }
}

// Where the run stops when one goes back.
fn look_back(
    alloc: Global,
    course: &Course<'_>,
    session: &Session,
    hart: Option<u32>,
) -> Result<Back, NoMemory>
    requires within { session.now.made ≤ course.now.most.count }
    requires course { IsCourse course.now }
    ensures finds { (q : Looked) → IsRunOf q course.now → IfOk result (λ back.
        (back.found ≡ backward_from q (sought_of session.now hart) most_turns session.now.made)
        × IsAt q back.found.0 (meaning back.machine)) }
    ensures few { IfOk result (λ back. (meaning back.machine).core.turns ≤ back.found.0) }
    ensures below { IfOk result (λ back. back.found.0 ≤ session.now.made) }
{
    let seeking = Seeking {
        schedule: course.schedule,
        breaks: session.breaks.as_slice(),
        hart,
        most: course.most.count,
    };
    backward(alloc, &course.origin, &seeking, MOST_TURNS, session.made)
}

// Goes to the state after so many turns.
fn go_to<L: Line>(
    alloc: Global,
    line: &mut L,
    machine: &mut AnyMachine,
    course: &Course<'_>,
    session: &mut Session,
    turns: u64,
) -> Result<Next, Failed>
    requires fit { IsFit course.now.most.count session.old.made (meaning machine.old) }
    requires course { IsCourse course.now }
    ensures replies { (q : Looked) → IsRunOf q course.now →
        IsAt q session.old.made (meaning machine.old) →
        RepliesBy L.says L.room q (λ wanting. go_to q wanting session.old turns) session.new
        (meaning machine.new) line.old line.new result }
    ensures fit { OnOk result (IsFit course.now.most.count session.new.made (meaning machine.new)) }
{
    if turns > course.most.count {
        match say_text(line, b"E01") {
            Ok(()) => Ok(Next::Goes),
            Err(failed) => Err(failed),
        }
    } else if turns < session.made {
        match stand_again(alloc, machine, course, turns) {
            Ok(()) => tell(line, machine, course, session, (turns, Stop::Pauses)),
            Err(NoMemory) => say_want(line),
        }
    } else {
        match run_to(line, machine, course, session, turns) {
            Ok(found) => tell(line, machine, course, session, (found.made, found.stop)),
            Err(failed) => Err(failed),
        }
    }
}

// Goes on with the run to the state after so many turns, or to its end.
fn run_to<L: Line>(
    line: &mut L,
    machine: &mut AnyMachine,
    course: &Course<'_>,
    session: &Session,
    turns: u64,
) -> Result<Found, Failed>
    requires fit { IsFit course.now.most.count session.now.made (meaning machine.old) }
    requires course { IsCourse course.now }
    requires on { session.now.made ≤ turns }
    requires within { turns ≤ course.now.most.count }
    ensures finds { (q : Looked) → IsRunOf q course.now →
        IsAt q session.now.made (meaning machine.old) →
        Finds L.says L.room q past_all session.now.told session.now.made
        (forward_from q past_all (turns - session.now.made) session.now.made false false)
        (meaning machine.new) line.old line.new result }
    ensures fit { IfOk result (λ found. IsFit course.now.most.count (place_of found) (meaning machine.new)) }
    ensures past { IfOk result (λ found. found.past ≡ false) }
{
    let asking = Asking {
        schedule: course.schedule,
        breaks: &[],
        faults: false,
        step: None,
        most: course.most.count,
        told: session.told,
    };
    let known = Known {
        broke: false,
        faulted: false,
    };
    forward(
        line,
        machine,
        &asking,
        turns - session.made,
        session.made,
        known,
    )
}
