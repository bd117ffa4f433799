//! The command `asm`: from the name of a source to its image on the console.

ghost use Rattle.std.specs.Prelude.{◌≡◌, ◌≤◌, ◌^◌, length};
ghost use Rattle.mx_io.specs.Sink.{SinkState};
ghost use Rattle.mx_commands.specs.Commands.{assembled, assembled_text, assembling, written_image};
ghost use Rattle.mx_turns.specs.Ends.{sinks};
ghost use Rattle.mx_commands.specs.Ends.{Ends, EndsOrWants, Continues};

use crate::refusal::refuse;
use crate::status::Status;
use crate::wanted::{source_file, take_file};
use mx_asm::{AsmRefused, assemble};
use mx_io::{Failed, Sink, Store, put_all};
use std::alloc::Global;
use std::str::from_utf8;

/// Assembles the source of this name, at most 1048576 bytes of text, and writes its image to the console.
///
/// A source that isn't there whole, or that has a fault, has its line as the report, and the console gets nothing.
/// Where memory is wanting nothing is written.
pub fn write_image<S: Store, C: Sink, R: Sink>(
    alloc: Global,
    source: &str,
    store: &mut S,
    console: &mut C,
    report: &mut R,
) -> Status
    ensures { (dump : SinkState) →
        Continues (assembling source.now) S.gives store.old store.new
        (sinks (C.state console.old) (R.state report.old) dump)
        (sinks (C.state console.new) (R.state report.new) dump) result }
{
    match take_file(alloc, &source_file(source), store, report) {
        Ok(bytes) => assemble_bytes(alloc, source, bytes.as_slice(), console, report),
        Err(status) => status,
    }
}

/// Assembles a source of these bytes, or refuses it by its first fault.
#[tactic(auto, using(crate::proofs::Documents::assembled_source, crate::proofs::Documents::assembled_none))]
fn assemble_bytes<C: Sink, R: Sink>(
    alloc: Global,
    source: &str,
    bytes: &[u8],
    console: &mut C,
    report: &mut R,
) -> Status
    requires { length bytes.now ≤ 2 ^ 20 }
    ensures { (dump : SinkState) → EndsOrWants (assembled source.now bytes.now)
        (sinks (C.state console.old) (R.state report.old) dump)
        (sinks (C.state console.new) (R.state report.new) dump) result }
{
    match from_utf8(bytes) {
        Ok(text) => assemble_text(alloc, source, text, console, report),
        Err(_) => refuse(
            report,
            source,
            Status::AsmFault {
                line: 0,
                number: 11,
            },
        ),
    }
}

/// Assembles a text, or refuses it by its first fault.
fn assemble_text<C: Sink, R: Sink>(
    alloc: Global,
    source: &str,
    text: &str,
    console: &mut C,
    report: &mut R,
) -> Status
    requires { length text.now ≤ 2 ^ 20 }
    ensures { (dump : SinkState) → EndsOrWants (assembled_text source.now text.now)
        (sinks (C.state console.old) (R.state report.old) dump)
        (sinks (C.state console.new) (R.state report.new) dump) result }
{
    match assemble(alloc, text) {
        Ok(image) => put_image(console, image.as_slice()),
        Err(AsmRefused::Fault { line, number }) => {
            refuse(report, source, Status::AsmFault { line, number })
        }
        Err(AsmRefused::NoMemory) => Status::WantOfMemory,
    }
}

/// Writes the bytes of an image to the console, and nothing to the other two sinks.
fn put_image<C: Sink>(console: &mut C, image: &[u8]) -> Status
    ensures { (report dump : SinkState) → Ends (written_image image.now)
        (sinks (C.state console.old) report dump) (sinks (C.state console.new) report dump) result }
{
    match put_all(console, image) {
        Ok(()) => Status::Ran,
        Err(Failed) => Status::ConsoleFault,
    }
}
