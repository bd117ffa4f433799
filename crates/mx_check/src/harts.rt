//! What is kept for each of the harts.
ghost use Rattle.std.specs.Prelude.{◌≡◌, ◌<◌, ◌≤◌, Some, None, length, All};
ghost use Rattle.std.specs.Option.{option_map};
ghost use Rattle.mx_words.specs.Caches.{found_in_place};
ghost use Rattle.mx_words.specs.Limits.{most_harts, most_kept};
ghost use Rattle.mx_check.specs.Flights.{IsSet};
ghost use Rattle.mx_check.specs.Harts.{kept_at, at_hart, announced, heard_by, drops_range, finished, leaves_domain};
ghost use Rattle.mx_check.specs.Harts.{halts, has_heard};
ghost use Rattle.mx_check.specs.Looks.{found, after_caches, after_walk, hits_all, with_domain, hart_forbids};
ghost use Rattle.mx_check.specs.Looks.{is_forbidden};
ghost use Rattle.mx_check.specs.Calls.{unheard, hears_one, hears, hart_lets_pass, is_ready, new_harts, waiting_harts};

use crate::part::Part;
use crate::{Counts, Flight, Flights};
use mx_words::{MOST_HARTS, Perm, Span};
use std::marker::Model;

/// What is kept for each of 1 to 4 harts.
#[derive(Drop)]
pub struct KeptHarts<const N: usize> {
    parts: [Part<N>; MOST_HARTS],
    len: u32,
}

impl<const N: usize> Model for KeptHarts<N> {
    ghost use Rattle.std.specs.Prelude.{◌≡◌, ◌≤◌, List, length, take};
    ghost use Rattle.mx_words.specs.Limits.{most_harts};
    ghost use Rattle.mx_check.specs.Harts.{Kept};

    ghost Value = { List Kept };

    ghost view = { λ h. take h.len h.parts };

    ghost invariant = { λ h. (length h.parts ≡ most_harts) × (h.len ≤ most_harts) };
}

impl<const N: usize> KeptHarts<N> {
    /// So many harts that have done nothing yet, 1 to 4.
    pub fn new(harts: u32) -> KeptHarts<N>
        requires size { N ≤ most_kept }
        requires few { harts ≤ most_harts }
        ensures { result ≡ new_harts harts }
    {
        KeptHarts {
            parts: [
                Part::new(None),
                Part::new(None),
                Part::new(None),
                Part::new(None),
            ],
            len: harts,
        }
    }

    /// So many harts, 1 to 4, of which those in the list have their calls in flight.
    pub fn waiting(flights: &Flights, harts: u32) -> KeptHarts<N>
        requires size { N ≤ most_kept }
        requires few { harts ≤ most_harts }
        ensures value { result ≡ waiting_harts flights.now harts }
        ensures sets { All IsSet flights.now }
    {
        KeptHarts {
            parts: [
                Part::new(flights.of(0)),
                Part::new(flights.of(1)),
                Part::new(flights.of(2)),
                Part::new(flights.of(3)),
            ],
            len: harts,
        }
    }

    /// The number of harts.
    pub fn len(&self) -> u32
        ensures number { result ≡ length self.now }
        ensures bounded { result ≤ most_harts }
    {
        self.len
    }

    /// As `Part::answer`, for one hart.
    #[inline(always)]
    pub fn answer(&mut self, hart: u32, place: u32, domain: u32, word: u32) -> Option<Perm>
        requires hart { hart < length self.old }
        requires place { place < 32 }
        ensures answer { result
            ≡ option_map (λ s. s.perm) (found place domain word (kept_at self.old hart).cache) }
        ensures after { self.new ≡ at_hart hart (after_caches place domain word) self.old }
    {
        let part = &mut self.parts[hart as usize];
        part.answer(place, domain, word)
    }

    /// As `Part::hit_all`, for one hart.
    pub fn hit_all(&mut self, hart: u32, domain: u32, fetches: u64)
        requires { hart < length self.old }
        ensures { self.new ≡ at_hart hart (hits_all fetches domain) self.old }
    {
        let part = &mut self.parts[hart as usize];
        part.hit_all(domain, fetches);
    }

    /// As `Part::at_hand`, for one hart.
    pub fn at_hand(&self, hart: u32, word: u32) -> Option<Span>
        requires { hart < length self.now }
        ensures { result ≡ found_in_place (kept_at self.now hart).cache.places 0 word }
    {
        let part = &self.parts[hart as usize];
        part.at_hand(word)
    }

    /// As `Part::keep`, for one hart.
    pub fn keep(&mut self, hart: u32, place: u32, domain: u32, span: Span, barred: bool)
        requires hart { hart < length self.old }
        requires place { place < 32 }
        ensures { self.new ≡ at_hart hart (after_walk N place domain span barred) self.old }
    {
        let part = &mut self.parts[hart as usize];
        part.keep(place, domain, span, barred);
    }

    /// As `Part::name`, for one hart.
    pub fn name(&mut self, hart: u32, domain: u32)
        requires { hart < length self.old }
        ensures { self.new ≡ at_hart hart (with_domain domain) self.old }
    {
        let part = &mut self.parts[hart as usize];
        part.name(domain);
    }

    /// As `Part::announce`, for one hart.
    pub fn announce(&mut self, hart: u32, first: u32, count: u32)
        requires { hart < length self.old }
        ensures { self.new ≡ at_hart hart (announced hart first count) self.old }
    {
        let part = &mut self.parts[hart as usize];
        part.announce(hart, first, count);
    }

    /// As `Part::drop_overlap`, for one hart.
    pub fn drop_overlap(&mut self, hart: u32, first: u32, count: u32)
        requires { hart < length self.old }
        ensures { self.new ≡ at_hart hart (drops_range first count) self.old }
    {
        let part = &mut self.parts[hart as usize];
        part.drop_overlap(first, count);
    }

    /// As `Part::finish`, for one hart.
    pub fn finish(&mut self, hart: u32)
        requires { hart < length self.old }
        ensures { self.new ≡ at_hart hart finished self.old }
    {
        let part = &mut self.parts[hart as usize];
        part.finish();
    }

    /// As `Part::leave`, for one hart.
    pub fn leave(&mut self, hart: u32)
        requires { hart < length self.old }
        ensures { self.new ≡ at_hart hart leaves_domain self.old }
    {
        let part = &mut self.parts[hart as usize];
        part.leave();
    }

    /// As `Part::halt`, for one hart.
    pub fn halt(&mut self, hart: u32)
        requires { hart < length self.old }
        ensures { self.new ≡ at_hart hart halts self.old }
    {
        let part = &mut self.parts[hart as usize];
        part.halt();
    }

    /// Marks that the hart `by` has heard the call of a hart.
    fn mark(&mut self, hart: u32, by: u32)
        requires hart { hart < length self.old }
        requires by { by < length self.old }
        ensures { self.new ≡ at_hart hart (heard_by by) self.old }
    {
        let part = &mut self.parts[hart as usize];
        part.mark(by);
    }

    /// The call in flight of a hart.
    pub fn flight(&self, hart: u32) -> Option<Flight>
        requires { hart < length self.now }
        ensures { result ≡ (kept_at self.now hart).flight }
    {
        let part = &self.parts[hart as usize];
        part.flight()
    }

    /// Whether the call of a hart is in flight and the hart `by` has heard it.
    pub fn heard(&self, hart: u32, by: u32) -> bool
        requires hart { hart < length self.now }
        requires by { by < length self.now }
        ensures { result ≡ has_heard (kept_at self.now hart).flight by }
    {
        let part = &self.parts[hart as usize];
        part.heard(by)
    }

    /// The counts of a hart.
    pub fn counts(&self, hart: u32) -> Counts
        requires { hart < length self.now }
        ensures sidecar { result.sidecar ≡ (kept_at self.now hart).cache.sidecar }
        ensures lookaside { result.lookaside ≡ (kept_at self.now hart).cache.lookaside }
        ensures walks { result.walks ≡ (kept_at self.now hart).cache.walks }
    {
        let part = &self.parts[hart as usize];
        part.counts()
    }

    /// The range of the call of hart `i`, where the hart hasn't heard it.
    fn unheard(&self, hart: u32, i: u32) -> Option<(u32, u32)>
        requires hart { hart < length self.now }
        requires other { i < length self.now }
        ensures { result ≡ unheard hart i self.now }
    {
        if i == hart {
            return None;
        }
        let part = &self.parts[i as usize];
        part.unheard(hart)
    }

    /// Lets the hart hear the call of hart `i`: it drops its spans that meet the range.
    fn hear_one(&mut self, hart: u32, i: u32)
        requires hart { hart < length self.old }
        requires other { i < length self.old }
        ensures after { self.new ≡ hears_one hart i self.old }
        ensures same_length { length self.new ≡ length self.old }
    {
        if let Some((first, count)) = self.unheard(hart, i) {
            self.drop_overlap(hart, first, count);
            self.mark(i, hart);
        }
    }

    /// Lets the hart hear each call in flight of another hart.
    pub fn hear(&mut self, hart: u32)
        requires { hart < length self.old }
        ensures { self.new ≡ hears hart self.old }
    {
        let len = self.len();
        for i in 0..len {
            self.hear_one(hart, i);
        }
    }

    /// Whether the call of hart `i` keeps the hart from keeping a span.
    fn hart_forbids(&self, hart: u32, span: &Span, i: u32) -> bool
        requires hart { hart < length self.now }
        requires other { i < length self.now }
        ensures { result ≡ hart_forbids hart span.now self.now i }
    {
        let part = &self.parts[i as usize];
        i != hart && part.hart_forbids(hart, span)
    }

    /// Whether a span meets the range of a call in flight of another hart that the hart has heard.
    #[tactic(auto, unfolding(mx_words::specs::Counting::all_below))]
    pub fn is_forbidden(&self, hart: u32, span: &Span) -> bool
        requires { hart < length self.now }
        ensures { result ≡ is_forbidden hart span.now self.now }
    {
        let mut clear = true;
        for i in 0..self.len() {
            clear = clear && !self.hart_forbids(hart, span, i);
        }
        !clear
    }

    /// Whether hart `i` is the hart itself, is halted or has heard the call.
    fn hart_lets_pass(&self, hart: u32, flight: &Flight, i: u32) -> bool
        requires { i < length self.now }
        ensures { result ≡ hart_lets_pass hart flight.now self.now i }
    {
        let part = &self.parts[i as usize];
        i == hart || part.is_halted() || flight.heard[i as usize]
    }

    /// Whether the call of a hart may take effect: each other hart that isn't halted has heard it.
    #[tactic(auto, unfolding(mx_words::specs::Counting::all_below))]
    pub fn is_ready(&self, hart: u32) -> bool
        requires { hart < length self.now }
        ensures { result ≡ is_ready hart self.now }
    {
        let Some(flight) = self.flight(hart) else {
            return false;
        };
        let mut ready = true;
        for i in 0..self.len() {
            ready = ready && self.hart_lets_pass(hart, &flight, i);
        }
        ready
    }
}
