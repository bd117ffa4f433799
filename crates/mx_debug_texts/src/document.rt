//! The documents.

ghost use Rattle.std.specs.Prelude.{◌≡◌, ◌<◌, ◌≤◌, IfSome, length};
ghost use Rattle.mx_any.specs.Machines.{meaning};
ghost use Rattle.mx_debug_texts.specs.Documents.{IsThere, document_text, known_by};
ghost use Rattle.mx_debug_texts.specs.Window.{further};

use crate::faults::{put_noted, put_over};
use crate::harts::{put_hart, put_threads};
use crate::images::{put_file, put_libraries, put_memory};
use crate::named::Named;
use crate::window::Window;
use mx_any::{AnyMachine, any_machine_is_valid};
use mx_model::Note;

/// A document, which is told in parts.
#[derive(Clone, Copy)]
pub enum Document {
    /// The harts as threads, and the hart whose turn is next, if there is one.
    Threads(Option<u32>),
    /// What is told of a hart that is there, and the hart whose turn is next, if there is one.
    Hart(u32, Option<u32>),
    /// The name of the first hart's image, or nothing.
    File,
    /// The other images, each with its lowest address.
    Libraries,
    /// The regions of memory.
    Memory,
    /// What a turn notes: the report's line, and for a fault its reason.
    Noted(Note),
    /// That the run is over after so many turns.
    Over(u64),
    /// That no turn was made.
    Before,
}

/// Puts a document of a machine and its boot. A hart of which is told is there.
pub fn put_document(
    window: &mut Window,
    machine: &AnyMachine,
    named: &Named<'_>,
    document: Document,
)
    requires { IsThere (meaning machine.now).core document }
    ensures { window.new
        ≡ further window.old (document_text (meaning machine.now) (known_by named.now) document) }
{
    any_machine_is_valid(machine);
    match document {
        Document::Threads(next) => put_threads(window, machine, named.plan, next),
        Document::Hart(hart, next) => put_hart(window, machine, named.plan, b" > ", next, hart),
        Document::File => put_file(window, named.plan),
        Document::Libraries => put_libraries(window, named),
        Document::Memory => put_memory(window, machine.words()),
        Document::Noted(note) => put_noted(window, machine, named.plan, &note),
        Document::Over(turns) => put_over(window, turns),
        Document::Before => window.put(b"before the first turn\n"),
    }
}
