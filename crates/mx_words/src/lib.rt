//! The words of the machine: permissions, ranges and spans of RAM words, and what tables of permissions need.
//! Beside the types, `specs/` holds the definitions that every crate above cites.
#![tactic(auto)]

mod blob;
mod calls;
mod limits;
mod perm;
mod ranges;
mod spans;
mod tables;

pub use blob::Blob;
pub use calls::{ALLOC_CALL, EXCHANGE_CALL, FREE_CALL, GRANT_CALL, REVOKE_ALL_CALL, WRITE_CALL};
pub use limits::{
    LEAST_RAM_KIB, MOST_BLOCKS, MOST_DOMAINS, MOST_FILE_BYTES, MOST_FRAMES, MOST_GATES, MOST_HARTS,
    MOST_INLINE_WORDS, MOST_KEPT, MOST_LEAF, MOST_MODULES, MOST_OWNER_RUNS, MOST_QUANTUM,
    MOST_RAM_KIB, MOST_SEGMENT_BYTES, MOST_SEGMENTS, MOST_SNAPSHOT_BYTES, MOST_SPILL,
    MOST_STACK_WORDS, MOST_TEXT_BYTES, MOST_UPPER, MOST_WORDS, MOST_WRITTEN,
};
pub use perm::{Access, Perm, Span};
pub use ranges::{RAM_BASE, word_of, word_range};
pub use spans::Spans;
use std::alloc::{AllocError, AllocFailed};
pub use tables::{Kind, Level, Need, Shown};

/// An allocation was refused. The one answer that no contract ties to a cause.
#[derive(Clone, Copy, PartialEq, Eq, Debug)]
pub struct NoMemory;

impl From<AllocError> for NoMemory {
    ghost use Rattle.std.specs.Prelude.{◌≡◌};

    ghost from_gives = { λ _ refused. refused ≡ record {} };

    fn from(_e: AllocError) -> NoMemory {
        NoMemory
    }
}

impl<T: Drop> From<AllocFailed<T>> for NoMemory {
    ghost use Rattle.std.specs.Prelude.{◌≡◌};

    ghost from_gives = { λ _ refused. refused ≡ record {} };

    fn from(_e: AllocFailed<T>) -> NoMemory {
        NoMemory
    }
}
