//! How a call of the program ends.

ghost use Rattle.std.specs.Prelude.{◌≡◌, ◌≤◌};
ghost use Rattle.mx_commands.specs.Status.{number_of};

use mx_manifest::{BootFault, Key};
use mx_words::Need;

/// What a file is read for.
#[derive(Clone, Copy, PartialEq, Eq, Debug)]
pub enum FileRole {
    /// The manifest of the machine.
    Manifest,
    /// The image of the module with this number, from 1.
    Image(u32),
    /// The schedule of the harts.
    Schedule,
    /// The source of an image.
    Source,
    /// The manifest of the second machine of two.
    SecondManifest,
    /// The image of the module with this number, from 1, of the second machine of two.
    SecondImage(u32),
    /// A machine's stored state.
    Snapshot,
    /// The input of the module with this number, from 1.
    Input(u32),
    /// The input of the module with this number, from 1, of the second machine of two.
    SecondInput(u32),
}

/// How the top call ends. Each answer but `WantOfMemory` comes only by its cause.
#[derive(Clone, Copy, PartialEq, Eq, Debug)]
pub enum Status {
    /// The texts of the command are written whole.
    Ran,
    /// The words have no meaning.
    Usage,
    /// The manifest, an image, an input or the schedule has this first fault.
    Refused(BootFault),
    /// The permission tables of the boot need more than the limit.
    TablesFull {
        /// What the tables need.
        need: Need,
        /// What the manifest allows.
        limit: Need,
    },
    /// A call of the store failed.
    StoreFault,
    /// A file ended before the size that was told for it.
    ShortFile {
        /// What the file was read for.
        role: FileRole,
        /// The size told, in bytes.
        told: u64,
        /// The bytes that came.
        got: u64,
    },
    /// A file is absent.
    NoFile(FileRole),
    /// A write to the console failed.
    ConsoleFault,
    /// A write to the report failed.
    ReportFault,
    /// A write to the dump failed.
    DumpFault,
    /// An allocation was refused before the first step, and nothing was written.
    WantOfMemory,
    /// The assembler's source has this first fault.
    AsmFault {
        /// The line, from 1; 0 for the source as a whole.
        line: u32,
        /// The number of the fault.
        number: u32,
    },
    /// Two machines to be compared differ in this key.
    Unlike(Key),
    /// The domain to be compared is no module's.
    NoDomain,
    /// `Refused`, of the second machine of two.
    SecondRefused(BootFault),
    /// `TablesFull`, of the second machine of two.
    SecondTablesFull {
        /// What the tables need.
        need: Need,
        /// What the manifest allows.
        limit: Need,
    },
    /// A stored state has this first fault.
    SnapshotFault {
        /// The place of the faulty field in the file, in bytes.
        at: u64,
        /// The number of the fault.
        number: u32,
    },
}

impl Status {
    /// The number with which the program ends.
    pub fn number(&self) -> u32
        ensures value { result ≡ number_of self.now }
        ensures small { result ≤ 14 }
    {
        match self {
            Status::Ran => 0,
            Status::Usage => 2,
            Status::Refused(_) | Status::SecondRefused(_) => 3,
            Status::TablesFull { .. } | Status::SecondTablesFull { .. } => 4,
            Status::StoreFault | Status::ShortFile { .. } => 5,
            Status::NoFile(_) => 6,
            Status::ConsoleFault => 7,
            Status::ReportFault => 8,
            Status::DumpFault => 9,
            Status::WantOfMemory => 10,
            Status::AsmFault { .. } => 11,
            Status::Unlike(_) => 12,
            Status::NoDomain => 13,
            Status::SnapshotFault { .. } => 14,
        }
    }
}
