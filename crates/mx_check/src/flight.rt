//! Calls that are announced and haven't taken effect yet.
ghost use Rattle.std.specs.Prelude.{◌≡◌, ◌<◌, ◌≤◌, None, [], ◌∷◌, ◌++◌, length, All};
ghost use Rattle.mx_words.specs.Limits.{most_harts};
ghost use Rattle.mx_check.specs.Flights.{flight_of, IsSet};

use mx_words::MOST_HARTS;
use std::marker::Model;

/// An announced call of a hart, which changes rights on no other words than its range.
#[derive(Clone, Copy, PartialEq, Eq)]
pub struct Flight {
    /// The hart's number.
    pub hart: u32,
    /// The first RAM word of the range.
    pub first: u32,
    /// The number of words of the range, 0 for none.
    pub count: u32,
    /// By hart number, whether that hart has had a turn since the announcement.
    pub heard: [bool; MOST_HARTS],
}

/// At most four calls in flight, at most one of each hart.
#[derive(Drop)]
pub struct Flights {
    items: [Flight; MOST_HARTS],
    len: usize,
}

impl Model for Flights {
    ghost use Rattle.std.specs.Prelude.{◌≡◌, ◌≤◌, List, length, take, All};
    ghost use Rattle.mx_words.specs.Limits.{most_harts};
    ghost use Rattle.mx_check.specs.declared.flight.Flight.{Flight};

    ghost Value = { List Flight };

    ghost view = { λ f. take f.len f.items };

    ghost invariant = { λ f.
        (length f.items ≡ most_harts) × (f.len ≤ most_harts)
        × All (λ x. length x.heard ≡ most_harts) f.items };
}

impl Flights {
    /// No call.
    pub fn new() -> Flights
        ensures { result ≡ [] }
    {
        let unused = Flight {
            hart: 0,
            first: 0,
            count: 0,
            heard: [false; MOST_HARTS],
        };
        Flights {
            items: [unused; MOST_HARTS],
            len: 0,
        }
    }

    /// Appends a call. Fewer than four are held, and none of its hart.
    pub fn push(&mut self, flight: Flight)
        requires room { length self.old < most_harts }
        requires apart { flight_of self.old flight.hart ≡ None }
        ensures { self.new ≡ self.old ++ flight ∷ [] }
    {
        self.items[self.len] = flight;
        self.len += 1;
    }

    /// The call of a hart. `None` exactly where none is held.
    pub(crate) fn of(&self, hart: u32) -> Option<Flight>
        ensures value { result ≡ flight_of self.now hart }
        ensures sets { All IsSet self.now }
    {
        for i in 0..self.len {
            let flight = self.items[i];
            if flight.hart == hart {
                return Some(flight);
            }
        }
        None
    }
}
