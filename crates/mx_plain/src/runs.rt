//! Maximal runs of equal permissions.
ghost use Rattle.std.specs.Prelude.{◌≡◌, ◌+◌, ◌-◌, ◌≤◌, length, slice_range};
ghost use Rattle.std.specs.List.{prefix_len, suffix_len};
ghost use Rattle.mx_words.specs.Rights.{same};
ghost use Rattle.mx_words.specs.Runs.{runs};
ghost use Rattle.mx_words.specs.Starts.{is_start};

use crate::maps::{PlainMap, WordMap};
use mx_words::Perm;

/// Whether a run begins at a word.
fn begins<M: WordMap>(map: &M, word: u32) -> bool
    ensures { result ≡ is_start (M.list map.now) word }
{
    if word == 0 {
        return true;
    }
    map.at(word - 1) != map.at(word)
}

/// The number of runs.
pub(crate) fn runs<M: WordMap>(map: &M) -> u32
    ensures count { result ≡ runs (M.list map.now) }
    ensures most { result ≤ length (M.list map.now) }
{
    let mut count = 0;
    for word in 0..map.words() {
        if begins(map, word) {
            count += 1;
        }
    }
    count
}

/// How many words right before word `end`, and not before word `low`, have a permission.
pub(crate) fn alike_before(map: &PlainMap, perm: Perm, low: u32, end: u32) -> u32
    requires order { low ≤ end }
    requires inside { end ≤ length map.now }
    ensures count { result ≡ suffix_len (same perm) (slice_range map.now low end) }
    ensures most { low + result ≤ end }
{
    let mut count = 0;
    while low + count < end && perm == map.at(end - count - 1) {
        count += 1;
    }
    count
}

/// How many words from word `first` on, and before word `high`, have a permission. Words outside RAM don't count.
pub(crate) fn alike_from(map: &PlainMap, perm: Perm, first: u32, high: u32) -> u32
    ensures count { result ≡ prefix_len (same perm) (slice_range map.now first high) }
    ensures most { result ≤ length map.now - first }
{
    let end = high.min(map.words());
    let mut word = first;
    while word < end && perm == map.at(word) {
        word += 1;
    }
    word - first
}
