//! The places of one hart.

ghost use Rattle.std.specs.Prelude.{◌≡◌, ◌<◌, None, Some, replicate, slice_set};
ghost use Rattle.mx_words.specs.Caches.{place_count, found_in_place, places_without};

use mx_words::Span;
use std::marker::Model;

/// How many places a hart has: place 0 for its fetches, and place r for the accesses through base register r.
const PLACES: usize = 32;

/// The places of one hart, 0 to 31, each with one span of RAM words or with nothing. A place answers for its own span
/// alone.
#[derive(Drop)]
pub struct Sidecars {
    spans: [Option<Span>; PLACES],
}

impl Model for Sidecars {
    ghost use Rattle.std.specs.Prelude.{◌≡◌, List, Option, length};
    ghost use Rattle.mx_words.specs.declared.perm.Span.{Span};

    ghost Value = { List (Option Span) };

    ghost view = { λ s. s.spans };

    ghost invariant = { λ s. length s.spans ≡ 32 };
}

impl Sidecars {
    /// Places that all hold nothing.
    pub fn new() -> Sidecars
        ensures { result ≡ replicate place_count None }
    {
        Sidecars {
            spans: [None; PLACES],
        }
    }

    /// The span at `place` where it covers the RAM word `word`. `None` exactly where the place holds nothing or a span
    /// without that word.
    pub fn find(&self, place: u32, word: u32) -> Option<Span>
        requires { place < 32 }
        ensures { result ≡ found_in_place self.now place word }
    {
        let held = self.spans[place as usize];
        match held {
            Some(span) if span.covers(word) => Some(span),
            _ => None,
        }
    }

    /// Puts `span` into `place`, over what it held.
    pub fn keep(&mut self, place: u32, span: Span)
        requires { place < 32 }
        ensures { self.new ≡ slice_set self.old place (Some span) }
    {
        self.spans[place as usize] = Some(span);
    }

    /// Empties each place whose span shares a word with the range of `count` words from `first`. The others stay, and
    /// an
    /// empty range empties none.
    pub fn drop_overlap(&mut self, first: u32, count: u32)
        ensures { self.new ≡ places_without first count self.old }
    {
        for at in 0..PLACES {
            if let Some(span) = self.spans[at] {
                if span.meets(first, count) {
                    self.spans[at] = None;
                }
            }
        }
    }

    /// Empties all places.
    pub fn clear(&mut self)
        ensures { self.new ≡ replicate place_count None }
    {
        for place in 0..PLACES {
            self.spans[place] = None;
        }
    }
}
