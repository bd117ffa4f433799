//! What is asked of a map that is read span by span.
ghost use Rattle.std.specs.Prelude.{◌≡◌, ℕ, ◌+◌, ◌*◌, ◌<◌, ◌≤◌, true, not};
ghost use Rattle.mx_words.specs.Rights.{perm_at};
ghost use Rattle.mx_words.specs.Runs.{line_words, page_words, region_words};
ghost use Rattle.mx_words.specs.Reach.{vector, line_at};
ghost use Rattle.mx_words.specs.Blocks.{is_broken, IsUniform, IsEven};
ghost use Rattle.mx_table.specs.Tables.{most_words};
ghost use Rattle.mx_trie.specs.Walk.{most_regions, most_pages, most_lines};

use crate::sizes::{LINE_WORDS, PAGE_EIGHTH, PAGE_WORDS, REGION_EIGHTH, REGION_WORDS};
use crate::view::View;
use mx_words::Perm;

/// Whether `count` words from `first` on have one permission.
fn is_uniform<V: View>(view: &V, first: u32, count: u32) -> bool
    requires lawful { V.lawful view.now }
    requires inside { first + count ≤ most_words }
    requires some { 0 < count }
    ensures yes { result ≡ true → IsUniform (V.map view.now) first count }
    ensures no { IsUniform (V.map view.now) first count → result ≡ true }
{
    let span = view.around_far(first);
    let mut at = span.first + span.count;
    while at < first + count {
        let next = view.around(at);
        if next.perm != span.perm {
            return false;
        }
        at = next.first + next.count;
    }
    true
}

/// Whether the words `first` to `end - 1` have a permission.
pub(crate) fn has_perm<V: View>(view: &V, first: u32, end: u32, perm: Perm) -> bool
    requires lawful { V.lawful view.now }
    requires inside { end ≤ most_words }
    ensures yes { result ≡ true → (k : ℕ) → first ≤ k → k < end → perm_at (V.map view.now) k ≡ perm }
    ensures no { ((k : ℕ) → first ≤ k → k < end → perm_at (V.map view.now) k ≡ perm) → result ≡ true }
{
    let mut at = first;
    while at < end {
        let span = view.around(at);
        if span.perm != perm {
            return false;
        }
        at = span.first + span.count;
    }
    true
}

/// Whether each of the eight parts of `part` words from `first` on has one permission.
fn is_even<V: View>(view: &V, first: u32, part: u32) -> bool
    requires lawful { V.lawful view.now }
    requires inside { first + 8 * part ≤ most_words }
    requires some { 0 < part }
    ensures yes { result ≡ true → IsEven (V.map view.now) first part }
    ensures no { IsEven (V.map view.now) first part → result ≡ true }
{
    for e in 0..8 {
        if !is_uniform(view, first + e * part, part) {
            return false;
        }
    }
    true
}

/// Whether a page is eighth-uniform.
pub(crate) fn is_page_even<V: View>(view: &V, page: u32) -> bool
    requires lawful { V.lawful view.now }
    requires page { page < most_pages }
    ensures { result ≡ not (is_broken page_words (V.map view.now) page) }
{
    is_even(view, page * PAGE_WORDS, PAGE_EIGHTH)
}

/// Whether a region is eighth-uniform.
pub(crate) fn is_region_even<V: View>(view: &V, region: u32) -> bool
    requires lawful { V.lawful view.now }
    requires region { region < most_regions }
    ensures { result ≡ not (is_broken region_words (V.map view.now) region) }
{
    is_even(view, region * REGION_WORDS, REGION_EIGHTH)
}

/// The permissions of the first words of the eight parts of `part` words from `first` on, two bits each, the
/// first part's in the lowest bits, behind the bits 01.
fn vector_of<V: View>(view: &V, first: u32, part: u32) -> u32
    requires lawful { V.lawful view.now }
    requires inside { first + 8 * part ≤ most_words }
    requires some { 0 < part }
    ensures { result ≡ vector (8 * part) (V.map view.now) first }
{
    let mut entry = 0;
    for e in 0..8 {
        entry = view.around(first + (7 - e) * part).perm.number() + 4 * entry;
    }
    1 + 4 * entry
}

/// The vector of a page.
pub(crate) fn page_vector<V: View>(view: &V, page: u32) -> u32
    requires lawful { V.lawful view.now }
    requires page { page < most_pages }
    ensures { result ≡ vector page_words (V.map view.now) (page * page_words) }
{
    vector_of(view, page * PAGE_WORDS, PAGE_EIGHTH)
}

/// The vector of a region.
pub(crate) fn region_vector<V: View>(view: &V, region: u32) -> u32
    requires lawful { V.lawful view.now }
    requires region { region < most_regions }
    ensures { result ≡ vector region_words (V.map view.now) (region * region_words) }
{
    vector_of(view, region * REGION_WORDS, REGION_EIGHTH)
}

/// The permissions of a line.
pub(crate) fn line_perms<V: View>(view: &V, line: u32) -> [Perm; 16]
    requires lawful { V.lawful view.now }
    requires line { line < most_lines }
    ensures { result ≡ line_at (V.map view.now) (line * line_words) }
{
    let mut perms = [Perm::None; 16];
    let mut span = view.around(line * LINE_WORDS);
    for place in 0..16u32 {
        let word = line * LINE_WORDS + place;
        if span.first + span.count <= word {
            span = view.around(word);
        }
        perms[place as usize] = span.perm;
    }
    perms
}
