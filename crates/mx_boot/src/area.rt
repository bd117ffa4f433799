//! The areas of RAM that modules claim.

use mx_manifest::Key;
use mx_words::Perm;

/// An area that a module claims: a loaded segment of its image or its inline words, its heap area, its stack area, or
/// its
/// input area.
#[derive(Clone, Copy, PartialEq, Eq)]
pub struct Area {
    /// The module's domain, from 1.
    pub domain: u32,
    /// The key of the manifest by which it is claimed: `Image`, `At`, `Heap`, `Stack` or `InputAt`.
    pub key: Key,
    /// The address of its first byte.
    pub address: u32,
    /// How many words it has; a stack area has those of all harts.
    pub count: u32,
    /// What the module may do there at boot.
    pub perm: Perm,
}
