//! The files that a command reads.

ghost use Rattle.std.specs.Prelude.{◌≡◌, ◌≤◌, ◌+◌, ◌*◌, IfOk, vec_len};
ghost use Rattle.mx_manifest.specs.InRange.{IsInput};
ghost use Rattle.mx_io.specs.Sink.{SinkState};
ghost use Rattle.mx_commands.specs.Asked.{wanted_of};
ghost use Rattle.mx_commands.specs.Boots.{manifest_file, image_file, input_file, size_fault};
ghost use Rattle.mx_commands.specs.Commands.{schedule_file, source_file};
ghost use Rattle.mx_commands.specs.Reading.{Refuses, Takes};
ghost use Rattle.mx_commands.specs.Resumed.{snapshot_file};
ghost use Rattle.mx_turns.specs.Ends.{sinks};

use crate::reading::{ReadFault, read_file};
use crate::refusal::refuse;
use crate::side::{Side, image_role, input_role, manifest_role, refused};
use crate::status::{FileRole, Status};
use mx_io::{Sink, Store};
use mx_manifest::{BootFault, InputPlan, Key, Part, Place};
use mx_words::{MOST_FILE_BYTES, MOST_SNAPSHOT_BYTES, MOST_TEXT_BYTES};
use std::alloc::Global;

/// A file that is to be read.
#[derive(Clone, Copy)]
pub(crate) struct Wanted<'a> {
    /// What it is read for.
    pub role: FileRole,
    /// Its name, 1 to 255 bytes.
    pub name: &'a str,
    /// The most bytes that it may have.
    pub most: u64,
    /// How the call ends where it has more.
    pub large: Status,
}

/// A side's manifest of this name.
pub(crate) fn manifest_file(side: Side, name: &str) -> Wanted<'_>
    ensures { wanted_of result ≡ manifest_file side name.now }
{
    Wanted {
        role: manifest_role(side),
        name,
        most: MOST_TEXT_BYTES,
        large: refused(side, size_fault(Part::Manifest, 0, Key::NoKey)),
    }
}

/// The image of this name, of a side's module with this number from 1.
pub(crate) fn image_file(side: Side, number: u32, name: &str) -> Wanted<'_>
    ensures { wanted_of result ≡ image_file side number name.now }
{
    Wanted {
        role: image_role(side, number),
        name,
        most: MOST_FILE_BYTES,
        large: refused(side, size_fault(Part::Module, number, Key::Image)),
    }
}

/// The input of a side's module with this number from 1, of at most as many bytes as its area holds behind the word
/// that
/// tells their number, and as are left of RAM's bytes by the inputs before it.
pub(crate) fn input_file<'a>(side: Side, number: u32, left: u64, input: &'a InputPlan) -> Wanted<'a>
    requires { IsInput input.now }
    ensures wanted { wanted_of result ≡ input_file side number left input.now }
    ensures most { (result.most ≤ left) × (result.most + 4 ≤ 4 * input.now.words) }
{
    let room = 4 * (u64::from(input.words) - 1);
    Wanted {
        role: input_role(side, number),
        name: input.file.as_str(),
        most: if room < left { room } else { left },
        large: refused(side, size_fault(Part::Module, number, Key::Input)),
    }
}

/// The schedule of this name.
pub(crate) fn schedule_file(name: &str) -> Wanted<'_>
    ensures { wanted_of result ≡ schedule_file name.now }
{
    Wanted {
        role: FileRole::Schedule,
        name,
        most: MOST_FILE_BYTES,
        large: refused(Side::First, size_fault(Part::Schedule, 0, Key::NoKey)),
    }
}

/// The source of this name.
pub(crate) fn source_file(name: &str) -> Wanted<'_>
    ensures { wanted_of result ≡ source_file name.now }
{
    Wanted {
        role: FileRole::Source,
        name,
        most: MOST_TEXT_BYTES,
        large: Status::AsmFault {
            line: 0,
            number: 11,
        },
    }
}

/// The snapshot of this name.
pub(crate) fn snapshot_file(name: &str) -> Wanted<'_>
    ensures { wanted_of result ≡ snapshot_file name.now }
{
    Wanted {
        role: FileRole::Snapshot,
        name,
        most: MOST_SNAPSHOT_BYTES,
        large: Status::SnapshotFault { at: 0, number: 1 },
    }
}

// A file over its limit: fault 9 at its place.
fn size_fault(part: Part, index: u32, key: Key) -> BootFault
    ensures { result ≡ size_fault part index key }
{
    BootFault {
        number: 9,
        place: Place { part, index, key },
        detail: 0,
    }
}

/// The bytes of a file, or the end of a call whose file isn't there whole: its line is the whole report.
pub(crate) fn take_file<S: Store, R: Sink>(
    alloc: Global,
    file: &Wanted<'_>,
    store: &mut S,
    report: &mut R,
) -> Result<Vec<u8>, Status>
    ensures takes { Takes S.gives (wanted_of file.now) store.old store.new
        (R.state report.old) (R.state report.new) result }
    ensures fits { IfOk result (λ bytes. vec_len bytes ≤ file.now.most) }
{
    match read_file(alloc, store, file.name, file.most) {
        Ok(bytes) => Ok(bytes),
        Err(fault) => Err(refuse_file(report, file, fault)),
    }
}

/// Ends a call whose file isn't there whole, with its line as the whole report.
fn refuse_file<R: Sink>(report: &mut R, file: &Wanted<'_>, fault: ReadFault) -> Status
    ensures { (console dump : SinkState) → Refuses (wanted_of file.now) fault
        (sinks console (R.state report.old) dump) (sinks console (R.state report.new) dump) result }
{
    let role = file.role;
    match fault {
        ReadFault::Absent => refuse(report, file.name, Status::NoFile(role)),
        ReadFault::Large => refuse(report, file.name, file.large),
        ReadFault::Short(told, got) => {
            refuse(report, file.name, Status::ShortFile { role, told, got })
        }
        ReadFault::Broken => refuse(report, file.name, Status::StoreFault),
        ReadFault::NoMemory => Status::WantOfMemory,
    }
}
