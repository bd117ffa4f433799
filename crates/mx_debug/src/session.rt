//! A session: where the run is looked at, and what was asked so far.

ghost use Rattle.std.specs.Prelude.{◌≡◌, ◌==◌, ◌+◌, ◌<◌, ◌^◌};
ghost use Rattle.mx_debug.specs.Replies.{behind};
ghost use Rattle.std.specs.List.{list_any};
ghost use Rattle.mx_debug.specs.Session.{first_session, stopped, tells_break, tells_fault};

use crate::stop::Stop;
use crate::texts::hart_of_stop;
use arrayvec::ArrayVec;
use std::marker::Model;

/// The most breakpoints.
pub(crate) const MOST_BREAKS: usize = 1024;

/// A session.
#[derive(Drop)]
pub struct Session {
    pub(crate) made: u64,
    pub(crate) broke: bool,
    pub(crate) faulted: bool,
    pub(crate) told: u64,
    pub(crate) stop: Stop,
    pub(crate) breaks: ArrayVec<u32, MOST_BREAKS>,
    pub(crate) shown: u32,
    pub(crate) followed: u32,
    pub(crate) acknowledges: bool,
}

impl Model for Session {
    ghost use Rattle.std.specs.Prelude.{length, ◌≤◌};
    ghost use Rattle.mx_debug.specs.Session.{Session as SessionOf};

    ghost Value = { SessionOf };

    ghost view = { λ s. record {
      made = s.made;
      broke = s.broke;
      faulted = s.faulted;
      told = s.told;
      stop = s.stop;
      breaks = s.breaks.items;
      shown = s.shown;
      followed = s.followed;
      acknowledges = s.acknowledges;
    } };

    ghost invariant = { λ s. length s.breaks.items ≤ 1024 };
}

impl Session {
    /// The first: no turn was made.
    pub(crate) fn new() -> Session
        ensures { result ≡ first_session }
    {
        Session {
            made: 0,
            broke: false,
            faulted: false,
            told: 0,
            stop: Stop::Steps(0),
            breaks: ArrayVec::new(),
            shown: 0,
            followed: 0,
            acknowledges: true,
        }
    }

    /// Stands where the run stopped.
    pub(crate) fn stand_at(&mut self, found: (u64, Stop))
        ensures { self.new ≡ stopped self.old found }
    {
        let (made, stop) = found;
        self.made = made;
        self.broke = tells_break(stop);
        self.faulted = tells_fault(stop);
        self.told = self.told.max(made);
        self.stop = stop;
        self.shown = hart_of_stop(self.shown, stop);
        self.followed = hart_of_stop(self.followed, stop);
    }

    /// Stands behind the turn before which the run stopped.
    pub(crate) fn stand_behind(&mut self, found: (u64, Stop))
        requires { found.0 + 1 < 2 ^ 64 }
        ensures { self.new ≡ behind self.old found }
    {
        self.stand_at((found.0 + 1, found.1));
        self.broke = false;
        self.faulted = false;
    }
}

// Whether a stop tells that a hart is at a breakpoint, or that it is past one.
fn tells_break(stop: Stop) -> bool
    ensures { result ≡ tells_break stop }
{
    match stop {
        Stop::Breaks(_) | Stop::Faults(..) => true,
        Stop::Steps(_) | Stop::Ends | Stop::Begins | Stop::Pauses => false,
    }
}

// Whether a stop tells that the next turn traps.
fn tells_fault(stop: Stop) -> bool
    ensures { result ≡ tells_fault stop }
{
    match stop {
        Stop::Faults(..) => true,
        Stop::Breaks(_) | Stop::Steps(_) | Stop::Ends | Stop::Begins | Stop::Pauses => false,
    }
}

/// Whether an address is among those of breakpoints.
pub(crate) fn has(breaks: &[u32], pc: u32) -> bool
    ensures { result ≡ list_any (λ b. b == pc) breaks.now }
{
    breaks.iter().any(|b| *b == pc)
}
