//! How tests compare what they got with what they want.

use std::fmt::Debug;
use std::process::Abort;

/// Asserts that what was got is what is wanted. A comparison is stated here once for all types, so that no test states
/// it again for its own.
pub(crate) fn same<T: Copy + PartialEq + Debug>(rt: &impl Abort, what: &str, got: T, want: T) {
    assert_eq!(rt; got, want, "{what}");
}

/// How many bytes a text has, and the first 80 of them, with zeros behind.
pub(crate) type Text = (usize, [u8; 80]);

pub(crate) fn text(bytes: &[u8]) -> Text {
    let mut first = [0; 80];
    for (into, byte) in first.iter_mut().zip(bytes) {
        *into = *byte;
    }
    (bytes.len(), first)
}
