//! Tables of permissions over plain lists.
ghost use Rattle.std.specs.Prelude.{◌≡◌, ℕ, ◌+◌, ◌<◌, ◌≤◌, [], length, slice_index_or, vec_len, IfOk};
ghost use Rattle.std.specs.Prelude.{map as list_map};
ghost use Rattle.mx_words.specs.declared.tables.Kind.{Kind};
ghost use Rattle.mx_words.specs.declared.tables.Kind.TheVariants as K;
ghost use Rattle.mx_words.specs.Caches.{raised};
ghost use Rattle.mx_words.specs.Changes.{changed_map};
ghost use Rattle.mx_table.specs.Change.{given, changed};
ghost use Rattle.mx_table.specs.Tables.{most_words, most_modules, IsShaped, row_map};

use crate::maps::{PlainMap, Row, WordMap, list_of};
use crate::needs::{is_within, need_after, need_of_maps, need_of_rows};
use crate::spans::span_of;
use crate::stored::stored_of;
use mx_table::{BuildRefused, Change, PermTables};
use mx_words::{Kind, Need, NoMemory, Perm, Shown, Span, Spans};
use std::alloc::Global;
use std::marker::PhantomData;

/// A kind of tables, as a type.
pub trait PlainKind {
    // The kind.
    ghost stands_for: { Kind };

    /// The kind.
    fn kind() -> Kind
        ensures { result ≡ stands_for };
}

/// Answers as segment tables give them.
pub struct AsSegments;

impl PlainKind for AsSegments {
    ghost stands_for = { K.Segments };

    fn kind() -> Kind {
        Kind::Segments
    }
}

/// Answers as the trie with plain entries gives them.
pub struct AsMultilevel;

impl PlainKind for AsMultilevel {
    ghost stands_for = { K.Multilevel };

    fn kind() -> Kind {
        Kind::Multilevel
    }
}

/// Answers as the trie with packed entries gives them.
pub struct AsPacked;

impl PlainKind for AsPacked {
    ghost stands_for = { K.Packed };

    fn kind() -> Kind {
        Kind::Packed
    }
}

/// The permissions of all domains as plain lists, a word each. Nothing else is stored: what a walk of the tables of a
/// kind answers,
/// what they store and what they need is worked out at each call.
#[derive(Drop)]
pub struct PlainTables<K: PlainKind> {
    maps: Vec<PlainMap>,
    words: u32,
    limit: Need,
    lookups: u64,
    kind: PhantomData<K>,
    ghost kept: { IsShaped K.stands_for words limit maps.items },
}

/// A count raised by one, or as it was at its type's end.
fn one_more(count: u64) -> u64
    ensures { result ≡ raised count }
{
    if count < u64::MAX { count + 1 } else { count }
}

/// Lists of the rows' maps.
fn maps_of(alloc: Global, words: u32, rows: &[Spans]) -> Result<Vec<PlainMap>, NoMemory>
    requires { words ≤ most_words }
    ensures { IfOk result (λ v. v.items ≡ list_map (row_map words) rows.now) }
{
    let mut maps = Vec::new(alloc);
    for spans in rows {
        let map = list_of(alloc, &Row { spans, words })?;
        maps.push(map)?;
    }
    Ok(maps)
}

/// Makes a change of the map at a row.
fn change_one(map: &mut PlainMap, change: &Change, row: usize)
    requires row { row < most_modules }
    requires inside { change.now.first + change.now.count ≤ length map.old }
    ensures { map.new
        ≡ changed_map change.now.first change.now.count (given change.now (row + 1)) map.old }
{
    if let Some(perm) = change.perms[row + 1] {
        map.lay(change.first, change.count, perm);
    }
}

/// Makes a change of all maps.
fn change_all(maps: &mut Vec<PlainMap>, change: &Change)
    requires few { vec_len maps.old ≤ most_modules }
    requires inside { (k : ℕ) → k < vec_len maps.old →
        change.now.first + change.now.count ≤ length (slice_index_or maps.old.items k []) }
    ensures { maps.new.items ≡ changed change.now maps.old.items }
{
    for row in 0..maps.len() {
        change_one(&mut maps[row], change, row);
    }
}

impl<K: PlainKind> PermTables for PlainTables<K> {
    ghost kind = { K.stands_for };

    ghost maps = { λ t. t.maps.items };

    ghost size = { λ t. t.words };

    ghost limits = { λ t. t.limit };

    ghost lookups = { λ t. t.lookups };

    fn build(alloc: Global, words: u32, rows: &[Spans], limit: Need) -> Result<Self, BuildRefused> {
        let need = need_of_rows(K::kind(), words, rows);
        if !is_within(need, limit) {
            return Err(BuildRefused::TablesFull { need });
        }
        match maps_of(alloc, words, rows) {
            Ok(maps) => Ok(PlainTables {
                maps,
                words,
                limit,
                lookups: 0,
                kind: PhantomData,
            }),
            Err(NoMemory) => Err(BuildRefused::NoMemory),
        }
    }

    fn lookup(&mut self, domain: u32, word: u32) -> Span {
        let span = self.span(domain, word);
        self.lookups = one_more(self.lookups);
        span
    }

    fn span(&self, domain: u32, word: u32) -> Span {
        span_of(K::kind(), &self.maps[domain as usize - 1], word)
    }

    fn perm(&self, domain: u32, word: u32) -> Perm {
        self.maps[domain as usize - 1].at(word)
    }

    fn fits(&self, change: &Change) -> bool {
        is_within(need_after(K::kind(), &self.maps, change), self.limit)
    }

    fn apply(&mut self, change: &Change) {
        change_all(&mut self.maps, change);
    }

    fn used(&self) -> Need {
        need_of_maps(K::kind(), &self.maps)
    }

    fn limit(&self) -> Need {
        self.limit
    }

    fn words(&self) -> u32 {
        self.words
    }

    fn modules(&self) -> u32 {
        self.maps.len() as u32
    }

    fn shown(&self, domain: u32, word: u32) -> Shown {
        stored_of(K::kind(), &self.maps[domain as usize - 1], word)
    }

    ghost shaped = { λ t. t.kept };
}
