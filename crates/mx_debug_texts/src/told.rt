//! Documents, told on a line.

ghost use Rattle.std.specs.Prelude.{◌≡◌, ◌<◌, ◌+◌, ◌*◌, ◌^◌, ◌++◌, drop};
ghost use Rattle.mx_any.specs.Machines.{meaning};
ghost use Rattle.mx_packets.specs.Frames.{cut};
ghost use Rattle.mx_packets.specs.Lines.{SpeaksOrFails};
ghost use Rattle.mx_packets.specs.Streams.{sent};
ghost use Rattle.mx_debug_texts.specs.Documents.{IsThere, document_text, known_by};
ghost use Rattle.mx_debug_texts.specs.Told.{chunks_said, document_said, mark_by, most_shown, note_signal, pairs};
ghost use Rattle.mx_debug_texts.specs.Told.{shown_text, window_text};

use crate::document::{Document, put_document};
use crate::faults::fault_signal;
use crate::named::Named;
use crate::window::Window;
use mx_any::AnyMachine;
use mx_io::Failed;
use mx_model::Note;
use mx_packets::{Answer, Line, framed};

/// The most bytes of a part that is asked for.
const MOST_PART: u32 = 4000;

/// The most bytes that are told in pairs of digits.
const MOST_PAIRS: u32 = 2048;

/// The most bytes of one text for the console.
const MOST_SHOWN: u32 = 2040;

/// Adds a part of a document: so many bytes from a place on, at most 4000, behind a byte that tells whether more of it
/// follows.
pub fn put_part(
    answer: &mut Answer,
    machine: &AnyMachine,
    named: &Named<'_>,
    document: Document,
    at: u32,
    count: u32,
)
    requires { IsThere (meaning machine.now).core document }
    ensures { answer.new ≡ cut (answer.old
        ++ window_text (document_text (meaning machine.now) (known_by named.now) document) at count) }
{
    let mut window = Window::new(at, count.min(MOST_PART));
    put_document(&mut window, machine, named, document);
    answer.push(mark(window.is_over()));
    answer.put(window.bytes());
}

fn mark(more: bool) -> u8
    ensures { result ≡ mark_by more }
{
    if more { b'm' } else { b'l' }
}

/// Adds a document in pairs of digits.
pub fn put_coded(answer: &mut Answer, machine: &AnyMachine, named: &Named<'_>, document: Document)
    requires { IsThere (meaning machine.now).core document }
    ensures { answer.new ≡ cut (answer.old
        ++ pairs (document_text (meaning machine.now) (known_by named.now) document)) }
{
    let mut window = Window::new(0, MOST_PAIRS);
    put_document(&mut window, machine, named, document);
    put_pairs(answer, window.bytes());
}

/// Adds bytes as pairs of digits.
pub fn put_pairs(answer: &mut Answer, bytes: &[u8])
    ensures { answer.new ≡ cut (answer.old ++ pairs bytes.now) }
{
    // No effect at run time. The proof reads from it that at most 4096 bytes are held.
    let _held = answer.text();
    for byte in bytes {
        answer.put_pair(*byte);
    }
}

/// Says a document as texts for the console, of at most 2040 bytes each.
pub fn say_document<L: Line>(
    line: &mut L,
    machine: &AnyMachine,
    named: &Named<'_>,
    document: Document,
) -> Result<(), Failed>
    requires { IsThere (meaning machine.now).core document }
    ensures { SpeaksOrFails L.says L.room line.old (document_said
        (document_text (meaning machine.now) (known_by named.now) document)) line.new result }
{
    say_from(line, machine, named, document, 0, 16)
}

// Says it from a place on, in at most so many texts.
fn say_from<L: Line>(
    line: &mut L,
    machine: &AnyMachine,
    named: &Named<'_>,
    document: Document,
    at: u32,
    most: u32,
) -> Result<(), Failed>
    requires there { IsThere (meaning machine.now).core document }
    requires few { at + most_shown * most < 2 ^ 32 }
    ensures { SpeaksOrFails L.says L.room line.old (chunks_said most (drop at
        (document_text (meaning machine.now) (known_by named.now) document))) line.new result }
{
    if most == 0 {
        return Ok(());
    }
    let mut window = Window::new(at, MOST_SHOWN);
    put_document(&mut window, machine, named, document);
    if window.bytes().is_empty() {
        return Ok(());
    }
    match say_shown(line, window.bytes()) {
        Ok(()) => say_from(line, machine, named, document, at + MOST_SHOWN, most - 1),
        Err(failed) => Err(failed),
    }
}

// Says bytes as a text for the console.
fn say_shown<L: Line>(line: &mut L, bytes: &[u8]) -> Result<(), Failed>
    ensures { SpeaksOrFails L.says L.room line.old (sent (cut (shown_text bytes.now))) line.new result }
{
    let mut answer = Answer::new();
    answer.push(b'O');
    put_pairs(&mut answer, bytes);
    line.say(framed(answer.text()).as_slice())
}

/// How a stop at a fault begins: `T` and a signal in hexadecimal digits, by the note of its turn.
pub fn note_signal(note: Option<Note>) -> &'static [u8]
    ensures { result.now ≡ note_signal note }
{
    match note {
        Some(Note::Fault { fault, .. }) => fault_signal(fault.cause),
        _ => fault_signal(1),
    }
}
