//! Why tables are not built.
use mx_words::Need;

/// Why tables are not built.
#[derive(Clone, Copy, PartialEq, Eq, Debug)]
pub enum BuildRefused {
    /// The maps need more than the limit.
    TablesFull {
        /// What they need.
        need: Need,
    },
    /// An allocation was refused.
    NoMemory,
}
