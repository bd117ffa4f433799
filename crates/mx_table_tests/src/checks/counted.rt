//! Segment tables that count how often they are asked for something else than a walk.
use mx_segments::Segments;
use mx_table::{BuildRefused, Change, PermTables};
use mx_words::{Need, Perm, Shown, Span, Spans};
use std::alloc::Global;
use std::cell::Cell;

/// Segment tables, and the number of their calls of `perm`, `span`, `shown` and `fits`.
#[derive(Drop)]
pub struct Counted {
    pub inner: Segments,
    asked: Cell<u64>,
}

impl Counted {
    /// The number of calls of `perm`, `span`, `shown` and `fits`.
    pub fn questions(&self) -> u64 {
        self.asked.get()
    }

    fn ask(&self) {
        self.asked.set(self.asked.get().saturating_add(1));
    }
}

impl PermTables for Counted {
    ghost use Rattle.mx_words.specs.declared.tables.Kind.TheVariants as K;
    ghost use Rattle.mx_segments.specs.Kept.{maps_in};
    ghost use Rattle.mx_segments.specs.Shape.{shaped_of};

    ghost kind = { K.Segments };

    ghost maps = { λ t. maps_in t.inner.words t.inner.leaf t.inner.chains.lists };

    ghost size = { λ t. t.inner.words };

    ghost limits = { λ t. t.inner.limit };

    ghost lookups = { λ t. t.inner.lookups };

    fn build(alloc: Global, words: u32, rows: &[Spans], limit: Need) -> Result<Self, BuildRefused> {
        match Segments::build(alloc, words, rows, limit) {
            Ok(inner) => Ok(Counted {
                inner,
                asked: Cell::new(0),
            }),
            Err(refused) => Err(refused),
        }
    }

    fn lookup(&mut self, domain: u32, word: u32) -> Span {
        self.inner.lookup(domain, word)
    }

    fn span(&self, domain: u32, word: u32) -> Span {
        self.ask();
        self.inner.span(domain, word)
    }

    fn perm(&self, domain: u32, word: u32) -> Perm {
        self.ask();
        self.inner.perm(domain, word)
    }

    fn fits(&self, change: &Change) -> bool {
        self.ask();
        self.inner.fits(change)
    }

    fn apply(&mut self, change: &Change) {
        self.inner.apply(change);
    }

    fn used(&self) -> Need {
        self.inner.used()
    }

    fn limit(&self) -> Need {
        self.inner.limit()
    }

    fn words(&self) -> u32 {
        self.inner.words()
    }

    fn modules(&self) -> u32 {
        self.inner.modules()
    }

    fn shown(&self, domain: u32, word: u32) -> Shown {
        self.ask();
        self.inner.shown(domain, word)
    }

    ghost shaped = { λ t.
        shaped_of t.inner.words t.inner.leaf t.inner.chains.lists t.inner.chains.room t.inner.limit t.inner.kept };
}
