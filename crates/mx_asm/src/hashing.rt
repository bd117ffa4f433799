//! How the labels of a source are hashed.
//!
//! A hasher whose seed is fixed lets the author of a source choose labels that all stand in one chain of the map, so
//! that
//! each look-up goes through all of them. Here every hasher begins with the digest of the whole source: other labels
//! make another source, and with it another hasher.

use sha2::{Digest, Sha256};
use std::hash::{BuildHasher, DefaultHasher, Hasher};

/// Makes the hashers of one source's labels.
#[derive(Clone, Copy)]
pub(crate) struct LabelHashing {
    initial: DefaultHasher,
}

impl LabelHashing {
    /// For the labels of a source: each hasher has been given the source's digest.
    pub(crate) fn of(source: &str) -> LabelHashing {
        let mut initial = DefaultHasher::new();
        initial.write(&Sha256::digest(source.as_bytes()));
        LabelHashing { initial }
    }
}

impl BuildHasher for LabelHashing {
    type Hasher = DefaultHasher;

    ghost build_hasher = { λ s. s.initial };

    fn build_hasher(&self) -> DefaultHasher {
        self.initial
    }
}
