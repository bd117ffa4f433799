//! The entries of one hart, in a ring of slots.

ghost use Rattle.std.specs.Prelude.{◌≡◌, ◌≤◌, [], length};
ghost use Rattle.mx_words.specs.Caches.{is_for, found_kept, kept_with, kept_without};
ghost use Rattle.mx_words.specs.Limits.{most_kept};

use mx_words::{MOST_KEPT, Perm, Span};
use std::marker::Model;

/// How many slots the ring has, whatever `N` is.
const SLOTS: usize = MOST_KEPT;

/// At most `N` entries, the newest first: a protection domain and a span of RAM words that its table gave. The ring has
/// `MOST_KEPT` slots, so `N` is at most that.
#[derive(Drop)]
pub struct Lookaside<const N: usize> {
    slots: [(u32, Span); SLOTS],
    newest: usize,
    len: usize,
}

impl<const N: usize> Model for Lookaside<N> {
    ghost use Rattle.std.specs.Prelude.{◌≡◌, ◌<◌, ◌≤◌, List, length};
    ghost use Rattle.mx_words.specs.Caches.{Entry};
    ghost use Rattle.mx_words.specs.Limits.{most_kept};
    ghost use Rattle.mx_caches.specs.Window.{window};

    ghost Value = { List Entry };

    ghost view = { λ l. window l.newest l.len l.slots };

    ghost invariant = { λ l. (length l.slots ≡ most_kept) × (l.newest < most_kept)
        × (l.len ≤ N) × (N ≤ most_kept) };
}

impl<const N: usize> Lookaside<N> {
    /// No entry. `N` is at most `MOST_KEPT`, the slots that the ring has.
    pub fn new() -> Lookaside<N>
        requires { N ≤ most_kept }
        ensures { result ≡ [] }
    {
        let unused = Span {
            first: 0,
            count: 0,
            perm: Perm::None,
        };
        Lookaside {
            slots: [(0, unused); SLOTS],
            newest: 0,
            len: 0,
        }
    }

    /// The span of the newest entry of `domain` that covers the RAM word `word`. `None` exactly where no entry of the
    /// domain
    /// does.
    pub fn find(&self, domain: u32, word: u32) -> Option<Span>
        ensures found { result ≡ found_kept self.now domain word }
        ensures bounded { length self.now ≤ N }
    {
        // The entries up to the ring's end, and then those from its start on: no place needs a remainder.
        let run = self.len.min(SLOTS - self.newest);
        match newest_in(&self.slots[self.newest..self.newest + run], domain, word) {
            Some(span) => Some(span),
            None => newest_in(&self.slots[..self.len - run], domain, word),
        }
    }

    /// Makes (domain, span) the newest entry. A buffer with `N` entries loses its oldest.
    pub fn keep(&mut self, domain: u32, span: Span)
        ensures { self.new ≡ kept_with N (domain, span) self.old }
    {
        self.newest = (self.newest + SLOTS - 1) % SLOTS;
        self.slots[self.newest] = (domain, span);
        self.len = (self.len + 1).min(N);
    }

    /// Removes the entries of all domains whose span shares a word with the range of `count` words from `first`. The
    /// others
    /// stay in their order, and an empty range removes none.
    pub fn drop_overlap(&mut self, first: u32, count: u32)
        ensures { self.new ≡ kept_without first count self.old }
    {
        let mut kept = 0;
        for i in 0..self.len {
            let entry = self.slots[(self.newest + i) % SLOTS];
            if !entry.1.meets(first, count) {
                self.slots[(self.newest + kept) % SLOTS] = entry;
                kept += 1;
            }
        }
        self.len = kept;
    }

    /// Removes all entries.
    pub fn clear(&mut self)
        ensures { self.new ≡ [] }
    {
        self.len = 0;
    }
}

/// The span of the first of these entries that is the domain's and covers `word`.
fn newest_in(entries: &[(u32, Span)], domain: u32, word: u32) -> Option<Span>
    ensures { result ≡ found_kept entries.now domain word }
{
    for entry in entries {
        if answers(entry, domain, word) {
            return Some(entry.1);
        }
    }
    None
}

/// Whether the entry is the domain's and its span covers `word`.
fn answers(entry: &(u32, Span), domain: u32, word: u32) -> bool
    ensures { result ≡ is_for domain word entry.now }
{
    entry.0 == domain && entry.1.covers(word)
}
