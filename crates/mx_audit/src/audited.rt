//! What an audit finds.

use mx_words::{MOST_DOMAINS, Spans};

/// The domains to which the runs of a machine can come, and the words that none of them changes.
#[derive(Drop)]
pub struct Audit {
    /// Whether the domain of this number is live.
    pub live: [bool; MOST_DOMAINS],
    /// The maximal runs of sealed words, by address, each with permission none.
    pub sealed: Spans,
}
