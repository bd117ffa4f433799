//! Why no machine comes of a snapshot.

use mx_words::Need;
use thiserror::Error;

/// Why no machine comes of a snapshot.
#[derive(Clone, Copy, PartialEq, Eq, Debug, Drop, Error)]
pub enum SnapshotRefused {
    /// The field that begins at byte `at` has the fault of this number, 1 to 5 (docs/COMMANDS.md, "The snapshot").
    #[error("fault {number} of the snapshot at byte {at}")]
    Fault {
        /// The place of the field's first byte.
        at: u64,
        /// The number of the fault.
        number: u32,
    },
    /// The maps of its modules need more than the tables may take.
    #[error("the maps of the snapshot's modules need more than the tables may take")]
    TablesFull {
        /// What they need.
        need: Need,
        /// What the tables may take.
        limit: Need,
    },
    /// An allocation was refused.
    #[error("no memory for the snapshot's machine")]
    NoMemory,
}
