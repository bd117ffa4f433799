//! Pages and regions after a change of a range: whether they are broken, which is not eighth-uniform, is told
//! at the range's edges first, and only then by all words.
ghost use Rattle.std.specs.Prelude.{◌≡◌, ◌/◌, ◌<◌, true};
ghost use Rattle.mx_words.specs.Runs.{page_words, region_words};
ghost use Rattle.mx_words.specs.Blocks.{is_broken};
ghost use Rattle.mx_trie.specs.Walk.{most_regions, most_pages};

use crate::scan::{is_page_even, is_region_even};
use crate::sizes::{PAGE_EIGHTH, PAGE_WORDS, REGION_WORDS};
use crate::view::View;
use mx_words::MOST_WORDS;

/// Whether a word has another permission than the word before it, which lies in the same eighth of a page.
fn is_edge<V: View>(view: &V, at: u32) -> bool
    requires lawful { V.lawful view.now }
    ensures { result ≡ true → is_broken page_words (V.map view.now) (at / 1024) ≡ true }
{
    if at % PAGE_EIGHTH == 0 || at >= MOST_WORDS {
        return false;
    }
    let before = view.around(at - 1);
    let here = view.around(at);
    here.perm != before.perm
}

/// Whether a page isn't eighth-uniform. The edges of the words `first` to `end - 1` are looked at first.
pub(crate) fn is_page_broken<V: View>(view: &V, first: u32, end: u32, page: u32) -> bool
    requires lawful { V.lawful view.now }
    requires page { page < most_pages }
    ensures { result ≡ is_broken page_words (V.map view.now) page }
{
    if first / PAGE_WORDS == page && is_edge(view, first) {
        return true;
    }
    if end / PAGE_WORDS == page && is_edge(view, end) {
        return true;
    }
    !is_page_even(view, page)
}

/// Whether a region isn't eighth-uniform by a map that has changed on the words `first` to `end - 1`. `odd`
/// says that the page of the word `first` is known not to be eighth-uniform. All words are looked at only where
/// neither that nor the range's edges tell.
#[tactic(auto, using(crate::proofs::EdgeLaws::broken_region))]
pub(crate) fn is_region_broken<V: View>(
    view: &V,
    first: u32,
    end: u32,
    odd: bool,
    region: u32,
) -> bool
    requires lawful { V.lawful view.now }
    requires odd { odd ≡ true → is_broken page_words (V.map view.now) (first / 1024) ≡ true }
    requires region { region < most_regions }
    ensures { result ≡ is_broken region_words (V.map view.now) region }
{
    if first / REGION_WORDS == region && is_edge(view, first) {
        return true;
    }
    if end / REGION_WORDS == region && is_edge(view, end) {
        return true;
    }
    if odd && first / REGION_WORDS == region {
        return true;
    }
    !is_region_even(view, region)
}
