//! What a turn shows on the console, said.

ghost use Rattle.std.specs.Prelude.{◌≡◌, ◌+◌, ◌≤◌, ◌<◌, ◌++◌, drop, take, length, min};
ghost use Rattle.mx_packets.specs.Frames.{cut};
ghost use Rattle.mx_packets.specs.Streams.{sent};
ghost use Rattle.mx_packets.specs.Lines.{SpeaksOrFails};
ghost use Rattle.mx_debug.specs.Texts.{chunks_said, most_shown, pairs, shown_said, shown_text};

use mx_io::Failed;
use mx_model::Events;
use mx_packets::{Answer, Line, framed};

/// The most bytes of the console that one packet tells.
const MOST: u32 = 2040;

/// Says the bytes that a turn added to the console.
pub(crate) fn show<L: Line>(line: &mut L, events: &Events) -> Result<(), Failed>
    ensures { SpeaksOrFails L.says L.room line.old (shown_said events.now.bytes) line.new result }
{
    show_from(line, events, 0, events.len())
}

// Says those from a place on, in at most so many packets.
fn show_from<L: Line>(line: &mut L, events: &Events, at: u32, most: u32) -> Result<(), Failed>
    ensures { SpeaksOrFails L.says L.room line.old
        (chunks_said most (drop at events.now.bytes)) line.new result }
{
    if most == 0 || at >= events.len() {
        return Ok(());
    }
    match show_chunk(line, events, at) {
        Ok(()) => show_from(line, events, at + MOST, most - 1),
        Err(failed) => Err(failed),
    }
}

// Says those from a place on that fit one packet.
fn show_chunk<L: Line>(line: &mut L, events: &Events, at: u32) -> Result<(), Failed>
    requires { at < length events.now.bytes }
    ensures { SpeaksOrFails L.says L.room line.old
        (sent (cut (shown_text (take most_shown (drop at events.now.bytes))))) line.new result }
{
    let mut answer = Answer::new();
    answer.push(b'O');
    put_bytes(&mut answer, events, at);
    say_answer(line, &answer)
}

// Adds those as pairs of digits.
fn put_bytes(answer: &mut Answer, events: &Events, at: u32)
    requires { at < length events.now.bytes }
    ensures { answer.new
        ≡ cut (answer.old ++ pairs (take most_shown (drop at events.now.bytes))) }
{
    // No effect at run time. The proof reads from it that at most 4096 bytes are held.
    let _held = answer.text();
    for i in 0..MOST.min(events.len() - at) {
        answer.put_pair(events.byte(at + i));
    }
}

/// Says an answer.
pub(crate) fn say_answer<L: Line>(line: &mut L, answer: &Answer) -> Result<(), Failed>
    ensures { SpeaksOrFails L.says L.room line.old (sent answer.now) line.new result }
{
    line.say(framed(answer.text()).as_slice())
}

/// Says a text as an answer.
pub(crate) fn say_text<L: Line>(line: &mut L, text: &[u8]) -> Result<(), Failed>
    requires { length text.now ≤ 4096 }
    ensures { SpeaksOrFails L.says L.room line.old (sent text.now) line.new result }
{
    line.say(framed(text).as_slice())
}
