//! What a map needs in tables, counted block by block.
ghost use Rattle.std.specs.Prelude.{◌≡◌, ℕ, ◌+◌, ◌*◌, ◌/◌, ◌<◌, ◌≤◌, length};
ghost use Rattle.mx_words.specs.Counting.{bit, sum_below};
ghost use Rattle.mx_words.specs.Runs.{page_words, region_words, broken_blocks};
ghost use Rattle.mx_words.specs.Blocks.{is_broken};
ghost use Rattle.mx_table.specs.Tables.{most_words};
ghost use Rattle.mx_trie.specs.Walk.{most_regions, most_pages, most_lines};
ghost use Rattle.mx_trie.specs.Laying.{spill_lines};
ghost use Rattle.mx_trie.specs.Built.{page_crowd};

use crate::LeafForm;
use crate::scan::{is_page_even, is_region_even, line_perms};
use crate::sizes::{PAGE_LINES, PAGE_WORDS, REGION_WORDS};
use crate::view::View;
use mx_words::Need;

/// How many of the first `regions` regions aren't eighth-uniform.
fn regions_broken<V: View>(view: &V, regions: u32) -> u32
    requires lawful { V.lawful view.now }
    requires regions { regions ≤ most_regions }
    ensures count { result
        ≡ sum_below regions (λ x. bit (is_broken region_words (V.map view.now) x)) }
    ensures most { result ≤ regions }
{
    let mut count = 0;
    for region in 0..regions {
        count += u32::from(!is_region_even(view, region));
    }
    count
}

/// How many lines of a page need a spill word.
fn lines_crowded<L: LeafForm, V: View>(view: &V, page: u32) -> u32
    requires lawful { V.lawful view.now }
    requires page { page < most_pages }
    ensures count { result ≡ page_crowd L.kind (V.map view.now) page }
    ensures most { result ≤ 64 }
{
    let mut count = 0;
    for line in 0..PAGE_LINES {
        count += u32::from(L::needs_spill(&line_perms(view, page * PAGE_LINES + line)));
    }
    count
}

/// What a page needs: a leaf table where it isn't eighth-uniform, with the spill words of its lines.
fn page_need<L: LeafForm, V: View>(view: &V, page: u32) -> Need
    requires lawful { V.lawful view.now }
    requires page { page < most_pages }
    ensures leaf { result.leaf ≡ bit (is_broken page_words (V.map view.now) page) }
    ensures spill { result.spill ≡ page_crowd L.kind (V.map view.now) page }
    ensures few_leaf { result.leaf ≤ 1 }
    ensures few_spill { result.spill ≤ 64 }
{
    if is_page_even(view, page) {
        return Need {
            upper: 0,
            leaf: 0,
            spill: 0,
        };
    }
    Need {
        upper: 0,
        leaf: 1,
        spill: lines_crowded::<L, V>(view, page),
    }
}

/// What a map of a RAM of `words` words needs.
pub(crate) fn need_of<L: LeafForm, V: View>(view: &V, words: u32) -> Need
    requires lawful { V.lawful view.now }
    requires words { words ≡ length (V.map view.now) }
    requires few { words ≤ most_words }
    ensures upper { result.upper ≡ 1 + broken_blocks region_words (V.map view.now) }
    ensures leaf { result.leaf ≡ broken_blocks page_words (V.map view.now) }
    ensures spill { result.spill ≡ spill_lines L.kind (V.map view.now) }
    ensures few_upper { result.upper ≤ 17 }
    ensures few_leaf { result.leaf ≤ most_pages }
    ensures few_spill { result.spill ≤ most_lines }
{
    let upper = 1 + regions_broken(view, words.div_ceil(REGION_WORDS));
    let mut leaf = 0;
    let mut spill = 0;
    for page in 0..words.div_ceil(PAGE_WORDS) {
        let need = page_need::<L, V>(view, page);
        leaf += need.leaf;
        spill += need.spill;
    }
    Need { upper, leaf, spill }
}
