//! The outside: stores that files are read from and sinks that bytes are written to, in memory and real.
#![tactic(auto)]

mod bytes;
mod calls;
mod dump;
mod faults;
mod files;
mod folder;
mod loose;
mod named;
mod part;
mod piece;
mod sink;
mod store;
mod streams;

pub use bytes::Bytes;
pub use dump::{DumpFile, FileSink, Maker};
pub use files::Files;
pub use folder::{Entry, Folder, FolderStore, HostFile, HostFolder, Placed};
pub use loose::Loose;
pub use piece::{Piece, hex_digits, hex_number, shown_character};
pub use sink::{Sink, put_all};
pub use store::Store;
pub use streams::{StderrSink, StdoutSink, Stream, Untold};

/// A call of a store or a sink failed. Comes only where the count of faults of that object rose in the call.
#[derive(Clone, Copy, PartialEq, Eq, Debug)]
pub struct Failed;
