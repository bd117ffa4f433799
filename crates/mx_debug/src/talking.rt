//! The talk on a line: packets are heard, and replies said.

ghost use Rattle.std.specs.Prelude.{◌≡◌, ◌<◌, ◌^◌, ◌++◌, [], OnOk};
ghost use Rattle.mx_any.specs.Machines.{meaning};
ghost use Rattle.mx_packets.specs.Lines.{SpeaksOrFails};
ghost use Rattle.mx_packets.specs.Streams.{sent};
ghost use Rattle.mx_debug.specs.Ended.{leaves_by};
ghost use Rattle.mx_debug.specs.Looks.{IsAt, IsCourse, IsFit, IsRunOf};
ghost use Rattle.mx_debug.specs.Session.{Looked};
ghost use Rattle.mx_debug.specs.Talks.{Answered, Headline, first_talk, mark, reply_to};
ghost use Rattle.mx_debug.specs.Talking.{RepliesBy, SaysByte, TalksTo, talk_of};

use crate::console::say_text;
use crate::course::Course;
use crate::reply::{Next, respond};
use crate::session::Session;
use mx_any::AnyMachine;
use mx_io::Failed;
use mx_packets::{Heard, Line, Receiver, request_of};
use std::alloc::Global;

/// The most bytes that are heard at a time.
const PIECE: usize = 4096;

/// Talks on a line about a machine that made no turn, until the session is left or nothing is heard any more. It fails
/// where the line
/// fails. Memory is taken only to boot again; where it is wanting the answer says so, and the talk goes on.
pub fn talk<L: Line>(
    alloc: Global,
    line: &mut L,
    machine: &mut AnyMachine,
    course: &Course<'_>,
) -> Result<(), Failed>
    requires turns { (meaning machine.old).core.turns ≡ 0 }
    requires course { IsCourse course.now }
    // Over every line: to each piece just its answer was said before anything else was heard, and it failed only where
    // it wasn't sure
    // to say the answers to what was heard.
    ensures answered { (q : Looked) → IsRunOf q course.now →
        IsAt q 0 (meaning machine.old) →
        Answered L.hears L.says L.room q line.old line.new result }
    // Over a line that tells: what was said is what is said to the bytes that were heard.
    ensures headline { (q : Looked) → IsRunOf q course.now →
        IsAt q 0 (meaning machine.old) → Headline L.hears L.says q line.old line.new result }
{
    converse(alloc, line, machine, course)
}

// The same, of which the headline follows.
fn converse<L: Line>(
    alloc: Global,
    line: &mut L,
    machine: &mut AnyMachine,
    course: &Course<'_>,
) -> Result<(), Failed>
    requires turns { (meaning machine.old).core.turns ≡ 0 }
    requires course { IsCourse course.now }
    ensures { (q : Looked) → IsRunOf q course.now →
        IsAt q 0 (meaning machine.old) →
        Answered L.hears L.says L.room q line.old line.new result }
{
    let mut talk = Talking::new();
    let mut piece = [0; PIECE];
    'pieces: for _ in 0..u64::MAX {
        let count = line.hear(&mut piece);
        match answer_piece(alloc, line, machine, course, &mut talk, &piece[..count]) {
            Ok(()) => {}
            Err(failed) => return Err(failed),
        }
        if count == 0 || talk.left {
            return Ok(());
        }
    }
    Ok(())
}

/// Where a talk stands.
#[derive(Drop)]
pub struct Talking {
    session: Session,
    receiver: Receiver,
    left: bool,
}

impl Talking {
    fn new() -> Talking
        ensures { talk_of result ≡ first_talk }
    {
        Talking {
            session: Session::new(),
            receiver: Receiver::new(),
            left: false,
        }
    }
}

// Answers what the bytes of a piece complete.
fn answer_piece<L: Line>(
    alloc: Global,
    line: &mut L,
    machine: &mut AnyMachine,
    course: &Course<'_>,
    talk: &mut Talking,
    piece: &[u8],
) -> Result<(), Failed>
    requires fit { IsFit course.now.most.count talk.old.session.made (meaning machine.old) }
    requires course { IsCourse course.now }
    ensures says { (q : Looked) → IsRunOf q course.now →
        IsAt q talk.old.session.made (meaning machine.old) →
        TalksTo L.says L.room q (talk_of talk.old) piece.now (talk_of talk.new)
        (meaning machine.new) line.old line.new result }
    ensures fit { OnOk result (IsFit course.now.most.count talk.new.session.made (meaning machine.new)) }
{
    'bytes: for byte in piece {
        if talk.left {
            return Ok(());
        }
        match answer_byte(alloc, line, machine, course, talk, *byte) {
            Ok(()) => {}
            Err(failed) => return Err(failed),
        }
    }
    Ok(())
}

// Answers what a byte completes.
fn answer_byte<L: Line>(
    alloc: Global,
    line: &mut L,
    machine: &mut AnyMachine,
    course: &Course<'_>,
    talk: &mut Talking,
    byte: u8,
) -> Result<(), Failed>
    requires fit { IsFit course.now.most.count talk.old.session.made (meaning machine.old) }
    requires course { IsCourse course.now }
    ensures says { (q : Looked) → IsRunOf q course.now →
        IsAt q talk.old.session.made (meaning machine.old) →
        SaysByte L.says L.room q (talk_of talk.old) byte (talk_of talk.new)
        (meaning machine.new) line.old line.new result }
    ensures fit { OnOk result (IsFit course.now.most.count talk.new.session.made (meaning machine.new)) }
{
    let heard = talk.receiver.take(byte);
    let packet = talk.receiver.packet();
    match answer_heard(
        alloc,
        line,
        machine,
        course,
        &mut talk.session,
        packet,
        heard,
    ) {
        Ok(next) => {
            talk.left = leaves(next);
            Ok(())
        }
        Err(failed) => Err(failed),
    }
}

fn leaves(next: Next) -> bool
    ensures { result ≡ leaves_by next }
{
    match next {
        Next::Goes => false,
        Next::Leaves => true,
    }
}

// Answers what was completed.
fn answer_heard<L: Line>(
    alloc: Global,
    line: &mut L,
    machine: &mut AnyMachine,
    course: &Course<'_>,
    session: &mut Session,
    packet: &[u8],
    heard: Heard,
) -> Result<Next, Failed>
    requires fit { IsFit course.now.most.count session.old.made (meaning machine.old) }
    requires course { IsCourse course.now }
    ensures replies { (q : Looked) → IsRunOf q course.now →
        IsAt q session.old.made (meaning machine.old) →
        RepliesBy L.says L.room q (λ wanting. reply_to q wanting session.old packet.now heard) session.new
        (meaning machine.new) line.old line.new result }
    ensures fit { OnOk result (IsFit course.now.most.count session.new.made (meaning machine.new)) }
{
    match heard {
        Heard::Nothing => Ok(Next::Goes),
        Heard::Wrong => match acknowledge(line, session, b'-') {
            Ok(()) => Ok(Next::Goes),
            Err(failed) => Err(failed),
        },
        Heard::Long => match answer_long(line, session) {
            Ok(()) => Ok(Next::Goes),
            Err(failed) => Err(failed),
        },
        Heard::Packet => match acknowledge(line, session, b'+') {
            Ok(()) => respond(alloc, line, machine, course, session, request_of(packet)),
            Err(failed) => Err(failed),
        },
    }
}

// Acknowledges a packet that is too long, and answers nothing.
fn answer_long<L: Line>(line: &mut L, session: &Session) -> Result<(), Failed>
    ensures { SpeaksOrFails L.says L.room line.old (mark session.now 43 ++ sent []) line.new result }
{
    match acknowledge(line, session, b'+') {
        Ok(()) => say_text(line, b""),
        Err(failed) => Err(failed),
    }
}

// Says that a packet came, while that is asked.
fn acknowledge<L: Line>(line: &mut L, session: &Session, byte: u8) -> Result<(), Failed>
    ensures { SpeaksOrFails L.says L.room line.old (mark session.now byte) line.new result }
{
    if session.acknowledges {
        line.say(&[byte])
    } else {
        Ok(())
    }
}
