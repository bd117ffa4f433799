//! A change of rights.
use mx_words::{MOST_DOMAINS, Perm};

/// Permissions for the words `first` to `first + count - 1`, in the domains that it names.
#[derive(Clone, Copy, PartialEq, Eq)]
pub struct Change {
    /// The number of the range's first RAM word.
    pub first: u32,
    /// The number of words, at least 1.
    pub count: u32,
    /// By domain number, the permission that it gets on the range; where nothing stands, the domain keeps its own.
    /// Domain 0, the
    /// supervisor, has no map: nothing stands at 0.
    pub perms: [Option<Perm>; MOST_DOMAINS],
}
