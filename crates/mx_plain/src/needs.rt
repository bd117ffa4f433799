//! What plain maps need in a kind of tables.
ghost use Rattle.std.specs.Prelude.{◌≡◌, ℕ, ◌≤◌, [], ◌∷◌, length, slice_index_or};
ghost use Rattle.std.specs.Prelude.{map as list_map};
ghost use Rattle.mx_words.specs.Need.{need, within};
ghost use Rattle.mx_table.specs.Change.{changed};
ghost use Rattle.mx_table.specs.Tables.{most_words, most_modules, row_map};
ghost use Rattle.mx_plain.specs.Sums.{IsFew, sum_of};

use crate::blocks::{PAGE, REGION, broken_blocks, crowded_lines};
use crate::maps::{Changed, PlainMap, Row, WordMap};
use crate::runs::runs;
use mx_table::Change;
use mx_words::{Kind, Need, Spans};

const NOTHING: Need = Need {
    upper: 0,
    leaf: 0,
    spill: 0,
};

/// What one map needs.
fn need_of<M: WordMap>(kind: Kind, map: &M) -> Need
    requires { length (M.list map.now) ≤ most_words }
    ensures need { result ≡ need kind (M.list map.now ∷ []) }
    ensures few { IsFew 1 result }
{
    match kind {
        Kind::Segments => Need {
            upper: 0,
            leaf: (runs(map) + 63) / 64,
            spill: 0,
        },
        Kind::Multilevel => Need {
            upper: 1 + broken_blocks(map, REGION),
            leaf: broken_blocks(map, PAGE),
            spill: 0,
        },
        Kind::Packed => Need {
            upper: 1 + broken_blocks(map, REGION),
            leaf: broken_blocks(map, PAGE),
            spill: crowded_lines(map),
        },
    }
}

/// Two needs together.
fn sum(a: Need, b: Need) -> Need
    requires a { IsFew 63 a }
    requires b { IsFew 1 b }
    ensures { result ≡ sum_of a b }
{
    Need {
        upper: a.upper + b.upper,
        leaf: a.leaf + b.leaf,
        spill: a.spill + b.spill,
    }
}

/// What all maps need.
pub(crate) fn need_of_maps(kind: Kind, maps: &[PlainMap]) -> Need
    requires few { length maps.now ≤ most_modules }
    requires small { (k : ℕ) → length (slice_index_or maps.now k []) ≤ most_words }
    ensures { result ≡ need kind maps.now }
{
    let mut needed = NOTHING;
    for map in maps {
        needed = sum(needed, need_of(kind, map));
    }
    needed
}

/// What all maps need after a change.
pub(crate) fn need_after(kind: Kind, maps: &[PlainMap], change: &Change) -> Need
    requires few { length maps.now ≤ most_modules }
    requires small { (k : ℕ) → length (slice_index_or maps.now k []) ≤ most_words }
    ensures { result ≡ need kind (changed change.now maps.now) }
{
    let mut needed = NOTHING;
    for i in 0..maps.len() {
        let after = Changed {
            map: &maps[i],
            first: change.first,
            count: change.count,
            given: change.perms[i + 1],
        };
        needed = sum(needed, need_of(kind, &after));
    }
    needed
}

/// What the maps of all rows need.
pub(crate) fn need_of_rows(kind: Kind, words: u32, rows: &[Spans]) -> Need
    requires small { words ≤ most_words }
    requires few { length rows.now ≤ most_modules }
    ensures { result ≡ need kind (list_map (row_map words) rows.now) }
{
    let mut needed = NOTHING;
    for spans in rows {
        needed = sum(needed, need_of(kind, &Row { spans, words }));
    }
    needed
}

/// Whether a need is within a limit.
pub(crate) fn is_within(needed: Need, limit: Need) -> bool
    ensures { result ≡ within needed limit }
{
    needed.upper <= limit.upper && needed.leaf <= limit.leaf && needed.spill <= limit.spill
}
