//! The calls of an object in memory by number, and those that are to fail.
ghost use Rattle.std.specs.Prelude.{◌≡◌, ◌<◌, ◌^◌};
ghost use Rattle.mx_io.specs.Calls.{fresh_log, fails_next, after_call, with_listed};

use arrayvec::ArrayVec;
use std::marker::Model;

/// How many calls were made, and the numbers of those that are to fail: at most eight.
#[derive(Drop)]
pub(crate) struct Calls {
    made: u64,
    listed: ArrayVec<u64, 8>,
}

impl Model for Calls {
    ghost use Rattle.mx_io.specs.Calls.{CallLog};

    ghost Value = { CallLog };

    ghost view = { λ c. record { made = c.made; listed = c.listed.items } };
}

impl Calls {
    pub(crate) fn new() -> Calls
        ensures { result ≡ fresh_log }
    {
        Calls {
            made: 0,
            listed: ArrayVec::new(),
        }
    }

    /// Lists a number. One that is listed already, or a ninth, changes nothing.
    pub(crate) fn fail_at(&mut self, call: u64)
        ensures { self.new ≡ with_listed self.old call }
    {
        if !self.listed.contains(&call) && !self.listed.is_full() {
            self.listed.push(call);
        }
    }

    /// Makes one call and tells whether it is to fail.
    pub(crate) fn next(&mut self) -> bool
        ensures fails { result ≡ fails_next self.old }
        ensures after { self.new ≡ after_call self.old }
        ensures counted { self.old.made < 2 ^ 64 }
    {
        let fails = self.made < u64::MAX && self.listed.contains(&(self.made + 1));
        self.made = self.made.saturating_add(1);
        fails
    }
}
