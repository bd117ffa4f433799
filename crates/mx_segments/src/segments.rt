//! Segment tables: the trait's calls, and the stored entries.
ghost use Rattle.std.specs.Prelude.{◌≡◌};
ghost use Rattle.mx_segments.specs.Kept.{IsKept};

use crate::Chains;
use crate::build::lay_rows;
use crate::chains::empty_chains;
use crate::entries::{entry_at, perm_in, run_in, shown_in};
use crate::rows::{change_all, need_after};
use crate::tally::frames_of_all;
use mx_pool::Pool;
use mx_table::{BuildRefused, Change, PermTables};
use mx_words::{Need, Perm, Shown, Span, Spans};
use std::alloc::Global;

/// Permission tables as sorted runs. Each domain has a list of entries, one for each maximal run of its map, in the
/// order of their
/// addresses, 64 to a frame. Entry `i` of a domain stands in the leaf frame `chains.get(domain, i / 64)` at place `i %
/// 64`.
///
/// The pool holds the limit's number of leaf frames and two for each domain; the taken ones are just those that the
/// entries fill.
#[derive(Drop)]
pub struct Segments {
    /// The frames in which the entries stand.
    pub leaf: Pool<64>,
    /// The frame numbers of each domain.
    pub chains: Chains,
    /// The number of RAM words.
    pub words: u32,
    /// What the tables may take.
    pub limit: Need,
    /// How many lookups were made, up to 2^64 - 1.
    pub lookups: u64,
    pub ghost kept: { IsKept leaf chains.lists chains.room words limit },
}

impl Segments {
    ghost use Rattle.std.specs.Prelude.{◌≤◌, ◌↔◌, IsNone, IfSome};
    ghost use Rattle.mx_words.specs.Runs.{runs};
    ghost use Rattle.mx_table.specs.Tables.{map_of, IsDomain};
    ghost use Rattle.mx_segments.specs.Entries.{entry_of};
    ghost use Rattle.mx_segments.specs.Kept.{maps_in};

    /// The stored entry of run `i` of a domain's map, counted from 0: the address of the run's first word, with the
    /// run's permission
    /// in bits 1..0. `None` exactly where the map has no run `i`. Domains count from 1.
    pub fn entry(&self, domain: u32, i: u32) -> Option<u32>
        requires { IsDomain (maps_in self.now.words self.now.leaf self.now.chains.lists) domain }
        ensures none { IsNone result ↔ (runs
            (map_of (maps_in self.now.words self.now.leaf self.now.chains.lists) domain) ≤ i) }
        ensures entry { IfSome result (λ e. e ≡ entry_of
            (map_of (maps_in self.now.words self.now.leaf self.now.chains.lists) domain) i) }
    {
        entry_at(&self.leaf, &self.chains, domain - 1, self.words, i)
    }
}

impl PermTables for Segments {
    ghost use Rattle.mx_words.specs.declared.tables.Kind.TheVariants as K;
    ghost use Rattle.mx_segments.specs.Kept.{maps_in};
    ghost use Rattle.mx_segments.specs.Shape.{shaped_of};

    ghost kind = { K.Segments };

    ghost maps = { λ t. maps_in t.words t.leaf t.chains.lists };

    ghost size = { λ t. t.words };

    ghost limits = { λ t. t.limit };

    ghost lookups = { λ t. t.lookups };

    fn build(alloc: Global, words: u32, rows: &[Spans], limit: Need) -> Result<Self, BuildRefused> {
        let needed = frames_of_all(rows, words);
        if limit.leaf < needed {
            return Err(BuildRefused::TablesFull {
                need: Need {
                    upper: 0,
                    leaf: needed,
                    spill: 0,
                },
            });
        }
        let count = rows.len() as u32;
        let frames = limit.leaf + 2 * count;
        let Ok(mut leaf) = Pool::new(alloc, frames) else {
            return Err(BuildRefused::NoMemory);
        };
        let room = frames.min(words.div_ceil(64));
        let Ok(mut chains) = empty_chains(alloc, count, room) else {
            return Err(BuildRefused::NoMemory);
        };
        lay_rows(&mut leaf, &mut chains, words, rows);
        Ok(Segments {
            leaf,
            chains,
            words,
            limit,
            lookups: 0,
        })
    }

    fn lookup(&mut self, domain: u32, word: u32) -> Span {
        let span = self.span(domain, word);
        self.lookups = self.lookups.saturating_add(1);
        span
    }

    fn span(&self, domain: u32, word: u32) -> Span {
        run_in(&self.leaf, &self.chains, domain - 1, self.words, word)
    }

    fn perm(&self, domain: u32, word: u32) -> Perm {
        perm_in(&self.leaf, &self.chains, domain - 1, self.words, word)
    }

    fn fits(&self, change: &Change) -> bool {
        need_after(&self.leaf, &self.chains, self.words, change) <= self.limit.leaf
    }

    fn apply(&mut self, change: &Change) {
        change_all(&mut self.leaf, &mut self.chains, self.words, change);
    }

    fn used(&self) -> Need {
        let frames = self.limit.leaf + 2 * self.chains.count();
        Need {
            upper: 0,
            leaf: frames - self.leaf.free_frames(),
            spill: 0,
        }
    }

    fn limit(&self) -> Need {
        self.limit
    }

    fn words(&self) -> u32 {
        self.words
    }

    fn modules(&self) -> u32 {
        self.chains.count()
    }

    fn shown(&self, domain: u32, word: u32) -> Shown {
        shown_in(&self.leaf, &self.chains, domain - 1, self.words, word)
    }

    ghost shaped = { λ t. shaped_of t.words t.leaf t.chains.lists t.chains.room t.limit t.kept };
}
