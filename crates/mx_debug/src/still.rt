//! The answers to packets that leave the run where it is.

ghost use Rattle.std.specs.Prelude.{◌≡◌, ◌≤◌, ◌++◌, [], length};
ghost use Rattle.mx_any.specs.Machines.{meaning};
ghost use Rattle.mx_packets.specs.Frames.{cut};
ghost use Rattle.mx_debug_texts.specs.Documents.{known_by};
ghost use Rattle.mx_debug.specs.Looks.{IsAt, IsCourse, IsRunOf};
ghost use Rattle.mx_debug.specs.Replies.{about_hart, clear_break, find_hart, fixed_text, follow_hart, look_text};
ghost use Rattle.mx_debug.specs.Replies.{object_text, place_at, set_break, show_hart, still_reply, there, told};
ghost use Rattle.mx_debug.specs.Replies.{view_of};
ghost use Rattle.mx_debug.specs.Session.{Looked, next_of};
ghost use Rattle.mx_debug.specs.Texts.{window_text};

use crate::course::Course;
use crate::session::{MOST_BREAKS, Session, has};
use crate::target::put_target;
use crate::texts::{put_memory, put_register, put_registers, put_stop, put_thread, put_threads};
use mx_any::{AnyMachine, any_machine_is_valid};
use mx_debug_texts::{Document, Named, put_coded, put_part};
use mx_packets::{Answer, Object, Request, Thread};
use mx_turns::{begin, next_hart};

/// The answer to a packet that leaves the run where it is.
pub(crate) fn put_still(
    machine: &AnyMachine,
    course: &Course<'_>,
    session: &mut Session,
    request: Request,
    answer: &mut Answer,
)
    requires empty { answer.old ≡ [] }
    requires course { IsCourse course.now }
    ensures told { (q : Looked) → IsRunOf q course.now → IsAt q session.old.made (meaning machine.now) →
        still_reply (view_of q session.old) session.old request ≡ told session.new answer.new }
    ensures made { session.new.made ≡ session.old.made }
{
    let next = next_of(machine, course, session.made);
    answer_still(machine, &course.named(), next, session, request, answer);
}

// The hart whose turn is next, where a turn is made.
fn next_of(machine: &AnyMachine, course: &Course<'_>, made: u64) -> Option<u32>
    requires { IsCourse course.now }
    ensures { (q : Looked) → IsRunOf q course.now → IsAt q made (meaning machine.now) → result ≡ next_of q made }
{
    if made >= course.most.count || machine.all_halted() {
        return None;
    }
    any_machine_is_valid(machine);
    let pace = begin(course.schedule, machine.harts(), machine.steps());
    match next_hart(&pace, 1) {
        Some((hart, _row)) => Some(hart),
        None => None,
    }
}

// The same by what is known of the boot, and whose turn is next.
fn answer_still(
    machine: &AnyMachine,
    named: &Named<'_>,
    next: Option<u32>,
    session: &mut Session,
    request: Request,
    answer: &mut Answer,
)
    requires { answer.old ≡ [] }
    ensures told { still_reply (record { flat = meaning machine.now; known = known_by named.now; next = next })
        session.old request ≡ told session.new answer.new }
    ensures made { session.new.made ≡ session.old.made }
{
    match request {
        Request::NoAcks => {
            session.acknowledges = false;
            answer.put(b"OK");
        }
        Request::Show(thread) => show_hart(machine, session, thread, answer),
        Request::Follow(thread) => follow_hart(machine, session, thread, answer),
        Request::IsThere(thread) => find_hart(machine, session, thread, answer),
        Request::Set(address) => set_break(session, address, answer),
        Request::Clear(address) => clear_break(session, address, answer),
        _ => look(machine, named, next, session, request, answer),
    }
}

fn show_hart(machine: &AnyMachine, session: &mut Session, thread: Thread, answer: &mut Answer)
    requires { answer.old ≡ [] }
    ensures told { show_hart (meaning machine.now).core session.old thread ≡ told session.new answer.new }
    ensures made { session.new.made ≡ session.old.made }
{
    match thread {
        Thread::Any => answer.put(b"OK"),
        Thread::Hart(hart) if hart < machine.harts() => {
            session.shown = hart;
            answer.put(b"OK");
        }
        _ => answer.put(b"E01"),
    }
}

fn follow_hart(machine: &AnyMachine, session: &mut Session, thread: Thread, answer: &mut Answer)
    requires { answer.old ≡ [] }
    ensures told { follow_hart (meaning machine.now).core session.old thread ≡ told session.new answer.new }
    ensures made { session.new.made ≡ session.old.made }
{
    match thread {
        Thread::Any => answer.put(b"OK"),
        Thread::Hart(hart) if hart < machine.harts() => {
            session.followed = hart;
            answer.put(b"OK");
        }
        _ => answer.put(b"E01"),
    }
}

fn find_hart(machine: &AnyMachine, session: &Session, thread: Thread, answer: &mut Answer)
    requires { answer.old ≡ [] }
    ensures { find_hart (meaning machine.now).core session.now thread ≡ told session.now answer.new }
{
    match thread {
        Thread::Any => answer.put(b"OK"),
        Thread::Hart(hart) if hart < machine.harts() => answer.put(b"OK"),
        _ => answer.put(b"E01"),
    }
}

fn set_break(session: &mut Session, address: u32, answer: &mut Answer)
    requires { answer.old ≡ [] }
    ensures told { set_break session.old address ≡ told session.new answer.new }
    ensures made { session.new.made ≡ session.old.made }
{
    if has(session.breaks.as_slice(), address) {
        answer.put(b"OK");
    } else if session.breaks.len() < MOST_BREAKS {
        session.breaks.push(address);
        answer.put(b"OK");
    } else {
        answer.put(b"E01");
    }
}

fn clear_break(session: &mut Session, address: u32, answer: &mut Answer)
    requires { answer.old ≡ [] }
    ensures told { clear_break session.old address ≡ told session.new answer.new }
    ensures made { session.new.made ≡ session.old.made }
{
    let at = place_at(address, session.breaks.as_slice());
    if at < session.breaks.len() {
        session.breaks.remove(at);
    }
    answer.put(b"OK");
}

// The first place of an address, or the number of addresses where it isn't among them.
fn place_at(address: u32, breaks: &[u32]) -> usize
    ensures place { result ≡ place_at address breaks.now }
    ensures within { result ≤ length breaks.now }
{
    match breaks.split_first() {
        Some((first, rest)) => {
            if *first == address {
                0
            } else {
                1 + place_at(address, rest)
            }
        }
        None => 0,
    }
}

// The answer to one that changes nothing.
fn look(
    machine: &AnyMachine,
    named: &Named<'_>,
    next: Option<u32>,
    session: &Session,
    request: Request,
    answer: &mut Answer,
)
    requires { answer.old ≡ [] }
    ensures { answer.new ≡ cut (look_text
        (record { flat = meaning machine.now; known = known_by named.now; next = next }) session.now request) }
{
    any_machine_is_valid(machine);
    match request {
        Request::Why => put_stop(answer, session.shown, session.stop),
        Request::Registers => put_registers(answer, machine, session.shown, session.made),
        Request::Register(register) => {
            put_register(answer, machine, session.shown, session.made, register)
        }
        Request::Memory(address, count) => put_memory(answer, machine, address, count),
        Request::Current => {
            answer.put(b"QC");
            put_thread(answer, session.shown);
        }
        Request::Threads => put_threads(answer, machine.harts()),
        Request::About(thread) => put_about(answer, machine, named, next, thread),
        Request::Part(object, at, count) => put_object(
            answer, machine, named, next, object, at, count,
        ),
        _ => answer.put(fixed(request)),
    }
}

// What is said of a hart, in pairs of digits; `E01` where there is none.
fn put_about(
    answer: &mut Answer,
    machine: &AnyMachine,
    named: &Named<'_>,
    next: Option<u32>,
    thread: Thread,
)
    ensures { answer.new ≡ cut (answer.old ++ about_hart
        (record { flat = meaning machine.now; known = known_by named.now; next = next })
        (there (meaning machine.now).core thread)) }
{
    match thread {
        Thread::Hart(hart) if hart < machine.harts() => {
            put_coded(answer, machine, named, Document::Hart(hart, next))
        }
        _ => answer.put(b"E01"),
    }
}

// A part of an object's text.
fn put_object(
    answer: &mut Answer,
    machine: &AnyMachine,
    named: &Named<'_>,
    next: Option<u32>,
    object: Object,
    at: u32,
    count: u32,
)
    ensures { answer.new ≡ cut (answer.old ++ window_text (object_text
        (record { flat = meaning machine.now; known = known_by named.now; next = next }) object) at count) }
{
    match object {
        Object::Target => put_target(answer, at, count),
        Object::Threads => put_part(answer, machine, named, Document::Threads(next), at, count),
        Object::File => put_part(answer, machine, named, Document::File, at, count),
        Object::Libraries => put_part(answer, machine, named, Document::Libraries, at, count),
        Object::Memory => put_part(answer, machine, named, Document::Memory, at, count),
    }
}

// The answer to one that looks at nothing.
fn fixed(request: Request) -> &'static [u8]
    ensures { result.now ≡ fixed_text request }
{
    match request {
        Request::Extend | Request::End => b"OK",
        Request::Change | Request::Wrong => b"E01",
        Request::Ways => b"vCont;c;C;s;S;r",
        Request::Supported => {
            b"PacketSize=1000;QStartNoAckMode+;vContSupported+;multiprocess+;qXfer:features:read+;qXfer:threads:read+;qXfer:exec-file:read+;qXfer:libraries:read+;qXfer:memory-map:read+;ReverseStep+;ReverseContinue+"
        }
        Request::Attached => b"1",
        Request::MoreThreads => b"l",
        _ => b"",
    }
}
