//! What is kept for one hart.
ghost use Rattle.std.specs.Prelude.{◌≡◌, ◌+◌, ◌-◌, ◌^◌, ◌<◌, ◌≤◌, min, Some, None, slice_set};
ghost use Rattle.std.specs.Option.{option_map};
ghost use Rattle.mx_words.specs.Caches.{raised, found_in_place, found_kept};
ghost use Rattle.mx_words.specs.Limits.{most_harts, most_kept};
ghost use Rattle.mx_check.specs.Harts.{new_hart, nothing_kept, announced, heard_by, drops_range, finished};
ghost use Rattle.mx_check.specs.Harts.{leaves_domain, halts, has_heard};
ghost use Rattle.mx_check.specs.Looks.{found, after_caches, after_list, after_walk, hits_all, with_domain};
ghost use Rattle.mx_check.specs.Looks.{flight_forbids};
ghost use Rattle.mx_check.specs.Calls.{unheard_of};

use crate::Flight;
use mx_caches::{Lookaside, Sidecars};
use mx_words::{MOST_HARTS, Perm, Span};
use std::marker::Model;

/// How many checks of a hart its places answered, how many its lookaside buffer, and how many a walk of the tables. A
/// count that
/// stands at 2^64 - 1 stays there.
#[derive(Clone, Copy, PartialEq, Eq, Debug)]
pub struct Counts {
    /// Checks that a place answered.
    pub sidecar: u64,
    /// Checks that the lookaside buffer answered.
    pub lookaside: u64,
    /// Checks for which the tables were walked.
    pub walks: u64,
}

/// The caches and counts of one hart, whether it is halted, the domain that its checks name, and its call in flight.
#[derive(Drop)]
pub struct Part<const N: usize> {
    places: Sidecars,
    kept: Lookaside<N>,
    counts: Counts,
    halted: bool,
    domain: Option<u32>,
    flight: Option<Flight>,
}

impl<const N: usize> Model for Part<N> {
    ghost use Rattle.mx_check.specs.Harts.{Kept};

    ghost Value = { Kept };

    ghost view = { λ p. record {
      cache = record {
        places = p.places;
        kept = p.kept;
        sidecar = p.counts.sidecar;
        lookaside = p.counts.lookaside;
        walks = p.counts.walks;
      };
      halted = p.halted;
      domain = p.domain;
      flight = p.flight;
    } };
}

impl<const N: usize> Part<N> {
    /// Empty caches, and the given call in flight.
    pub fn new(flight: Option<Flight>) -> Part<N>
        requires { N ≤ most_kept }
        ensures { result ≡ record new_hart { flight = flight } }
    {
        Part {
            places: Sidecars::new(),
            kept: Lookaside::new(),
            counts: Counts {
                sidecar: 0,
                lookaside: 0,
                walks: 0,
            },
            halted: false,
            domain: None,
            flight,
        }
    }

    /// The permission with which a place or the list answers for a word. It is counted, and the domain is kept.
    #[inline(always)]
    pub fn answer(&mut self, place: u32, domain: u32, word: u32) -> Option<Perm>
        requires { place < 32 }
        ensures answer { result
            ≡ option_map (λ s. s.perm) (found place domain word self.old.cache) }
        ensures after { self.new ≡ after_caches place domain word self.old }
    {
        self.domain = Some(domain);
        match self.places.find(place, word) {
            Some(span) => {
                self.counts.sidecar = raised(self.counts.sidecar);
                Some(span.perm)
            }
            None => self.list_answer(place, domain, word),
        }
    }

    /// Counts so many fetches that place 0 answers, and keeps the domain.
    pub fn hit_all(&mut self, domain: u32, fetches: u64)
        ensures { self.new ≡ hits_all fetches domain self.old }
    {
        if fetches == 0 {
            return;
        }
        self.domain = Some(domain);
        self.counts.sidecar = raised_by(self.counts.sidecar, fetches);
    }

    /// The span with which place 0 answers for a word. It isn't counted.
    pub fn at_hand(&self, word: u32) -> Option<Span>
        ensures { result ≡ found_in_place self.now.cache.places 0 word }
    {
        self.places.find(0, word)
    }

    /// The permission with which the list answers for a word, which goes into the place. It is counted.
    #[inline(always)]
    fn list_answer(&mut self, place: u32, domain: u32, word: u32) -> Option<Perm>
        requires { place < 32 }
        ensures answer { result
            ≡ option_map (λ s. s.perm) (found_kept self.old.cache.kept domain word) }
        ensures after { self.new ≡ after_list place domain word self.old }
    {
        match self.kept.find(domain, word) {
            Some(newest) => {
                self.places.keep(place, newest);
                self.counts.lookaside = raised(self.counts.lookaside);
                Some(newest.perm)
            }
            None => None,
        }
    }

    /// Keeps what a walk found, unless it is barred, and counts the walk.
    pub fn keep(&mut self, place: u32, domain: u32, span: Span, barred: bool)
        requires { place < 32 }
        ensures { self.new ≡ after_walk N place domain span barred self.old }
    {
        self.counts.walks = raised(self.counts.walks);
        if !barred {
            self.places.keep(place, span);
            self.kept.keep(domain, span);
        }
    }

    /// Keeps the domain of a check that looks at no word.
    pub fn name(&mut self, domain: u32)
        ensures { self.new ≡ with_domain domain self.old }
    {
        self.domain = Some(domain);
    }

    /// Puts a call of the hart `hart` in flight.
    pub fn announce(&mut self, hart: u32, first: u32, count: u32)
        ensures { self.new ≡ announced hart first count self.old }
    {
        self.flight = Some(Flight {
            hart,
            first,
            count,
            heard: [false; MOST_HARTS],
        });
    }

    /// The range of the call in flight that the hart `by` hasn't heard.
    pub fn unheard(&self, by: u32) -> Option<(u32, u32)>
        requires { by < most_harts }
        ensures { result ≡ unheard_of by self.now.flight }
    {
        match self.flight {
            Some(flight) if !flight.heard[by as usize] => Some((flight.first, flight.count)),
            _ => None,
        }
    }

    /// Marks that the hart `by` has heard the call in flight.
    pub fn mark(&mut self, by: u32)
        requires { by < most_harts }
        ensures { self.new ≡ heard_by by self.old }
    {
        if let Some(mut flight) = self.flight {
            flight.heard[by as usize] = true;
            self.flight = Some(flight);
        }
    }

    /// Whether a span meets the range of the call in flight, where the hart `by` has heard it.
    pub fn hart_forbids(&self, by: u32, span: &Span) -> bool
        requires { by < most_harts }
        ensures { result ≡ flight_forbids by span.now self.now.flight }
    {
        match self.flight {
            Some(flight) => { flight.heard[by as usize] && span.meets(flight.first, flight.count) }
            None => false,
        }
    }

    /// Whether the hart `by` has heard the call in flight.
    pub fn heard(&self, by: u32) -> bool
        requires { by < most_harts }
        ensures { result ≡ has_heard self.now.flight by }
    {
        match self.flight {
            Some(flight) => flight.heard[by as usize],
            None => false,
        }
    }

    /// Drops the spans that meet a range.
    pub fn drop_overlap(&mut self, first: u32, count: u32)
        ensures { self.new ≡ drops_range first count self.old }
    {
        self.places.drop_overlap(first, count);
        self.kept.drop_overlap(first, count);
    }

    /// Ends the call in flight, and drops the spans that meet its range.
    pub fn finish(&mut self)
        ensures { self.new ≡ finished self.old }
    {
        if let Some(flight) = self.flight {
            self.places.drop_overlap(flight.first, flight.count);
            self.kept.drop_overlap(flight.first, flight.count);
            self.flight = None;
        }
    }

    /// Empties the places, and keeps no domain.
    pub fn leave(&mut self)
        ensures { self.new ≡ leaves_domain self.old }
    {
        self.places.clear();
        self.domain = None;
    }

    /// Counts the hart as halted.
    pub fn halt(&mut self)
        ensures { self.new ≡ halts self.old }
    {
        self.halted = true;
    }

    /// Whether the hart is halted.
    pub fn is_halted(&self) -> bool
        ensures { result ≡ self.now.halted }
    {
        self.halted
    }

    /// The call in flight.
    pub fn flight(&self) -> Option<Flight>
        ensures { result ≡ self.now.flight }
    {
        self.flight
    }

    /// The counts.
    pub fn counts(&self) -> Counts
        ensures sidecar { result.sidecar ≡ self.now.cache.sidecar }
        ensures lookaside { result.lookaside ≡ self.now.cache.lookaside }
        ensures walks { result.walks ≡ self.now.cache.walks }
    {
        self.counts
    }
}

/// One more, where it fits.
fn raised(n: u64) -> u64
    ensures { result ≡ raised n }
{
    if n < u64::MAX { n + 1 } else { n }
}

/// So many more, as far as they fit.
fn raised_by(n: u64, more: u64) -> u64
    ensures sum { result ≡ min (n + more) (2 ^ 64 - 1) }
    ensures fits { n ≤ 2 ^ 64 - 1 }
{
    n.saturating_add(more)
}
