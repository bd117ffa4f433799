//! Tables have the fields that are named here and no others: each value is taken apart by just its field names.
ghost use Rattle.std.specs.Prelude.{◌≡◌};

use mx_packed::Packed;
use mx_plain::two_domains;
use mx_segments::Segments;
use mx_table::{BuildRefused, PermTables};
use mx_trie::{LeafForm, Trie, Vector};
use mx_words::{Perm, Span};
use std::alloc::Global;

/// The number of words and the count of lookups.
pub(crate) fn of_segments(tables: &Segments) -> (u32, u64) {
    let Segments {
        leaf: _,
        chains: _,
        words,
        limit: _,
        lookups,
    } = tables;
    (*words, *lookups)
}

/// The number of words and the count of lookups.
fn of_trie<L: LeafForm>(tables: &Trie<L>) -> (u32, u64) {
    let Trie {
        upper: _,
        leaf: _,
        spill: _,
        roots: _,
        words,
        limit: _,
        lookups,
        form: _,
    } = tables;
    (*words, *lookups)
}

/// Tables of two domains after one lookup.
fn looked_up<T: PermTables>(alloc: Global) -> Result<T, BuildRefused> {
    let word = Span {
        first: 0,
        count: 1,
        perm: Perm::Read,
    };
    let mut tables = two_domains::<T>(alloc, word, word)?;
    let _span = tables.lookup(1, 0);
    Ok(tables)
}

/// What segments tell after one lookup.
fn segments_looked_up(alloc: Global) -> Option<(u32, u64)> {
    let tables = looked_up::<Segments>(alloc).ok()?;
    Some(of_segments(&tables))
}

/// What a trie tells after one lookup.
fn trie_looked_up<L: LeafForm>(alloc: Global) -> Option<(u32, u64)> {
    let tables = looked_up::<Trie<L>>(alloc).ok()?;
    Some(of_trie(&tables))
}

#[test]
fn tables_have_the_named_fields_alone(rt: HostRuntime) {
    let segments = segments_looked_up(rt.alloc());
    let multilevel = trie_looked_up::<Vector>(rt.alloc());
    let packed = trie_looked_up::<Packed>(rt.alloc());
    assert_eq!(rt; [segments, multilevel, packed], [Some((16384, 1)); 3]);
}
