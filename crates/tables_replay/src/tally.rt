//! What was done in a replay.
ghost use Rattle.std.specs.Prelude.{◌≡◌, ◌+◌, ◌<◌, ◌≤◌, ◌^◌};

use mx_words::Need;
use std::fmt;

/// What was done in a step.
#[derive(Clone, Copy)]
pub struct Step {
    /// Whether its change fitted and was made.
    pub made: bool,
    /// The need after it.
    pub need: Need,
}

/// What was done in a replay.
#[derive(Clone, Copy)]
pub struct Tally {
    /// What the tables may take.
    pub limit: Need,
    /// How many changes were made.
    pub made: u32,
    /// How many didn't fit.
    pub refused: u32,
    /// How often the need took a part of the limit whole.
    pub full: u32,
    /// How many words were compared, counted in each domain.
    pub compared: u64,
    /// The need at the end.
    pub need: Need,
}

impl fmt::Display for Tally {
    fn fmt<W: fmt::Write>(&self, f: &mut fmt::Formatter<W>) -> fmt::Result {
        let made = self.made;
        let refused = self.refused;
        let full = self.full;
        let compared = self.compared;
        let need = Parts(self.need);
        write!(
            f,
            "{made} changes made, {refused} refused, at the limit after {full}, {compared} words compared, need {need}"
        )
    }
}

/// A need, as its parts for upper frames, leaf frames and spill words.
#[derive(Drop)]
pub struct Parts(pub Need);

impl fmt::Display for Parts {
    fn fmt<W: fmt::Write>(&self, f: &mut fmt::Formatter<W>) -> fmt::Result {
        let Need { upper, leaf, spill } = self.0;
        write!(f, "{upper} {leaf} {spill}")
    }
}

/// Whether a part of a limit is taken whole. Where there is none of it, it isn't.
fn is_full(need: u32, limit: u32) -> bool {
    0 < limit && need == limit
}

impl Tally {
    /// Nothing was done yet.
    pub fn new(limit: Need) -> Tally
        ensures none { result.made + result.refused ≡ 0 }
        ensures full { result.full ≡ 0 }
    {
        Tally {
            limit,
            made: 0,
            refused: 0,
            full: 0,
            compared: 0,
            need: limit,
        }
    }

    /// Counts a step.
    pub fn count(&mut self, step: Step)
        requires few { self.old.made + self.old.refused + 1 < 2 ^ 32 }
        requires full { self.old.full ≤ self.old.made + self.old.refused }
        ensures counted { self.new.made + self.new.refused ≡ self.old.made + self.old.refused + 1 }
        ensures full { self.new.full ≤ self.new.made + self.new.refused }
    {
        if step.made {
            self.made += 1;
        } else {
            self.refused += 1;
        }
        if self.is_full(step.need) {
            self.full += 1;
        }
        self.need = step.need;
    }

    /// Whether a need takes a part of the limit whole.
    fn is_full(&self, need: Need) -> bool {
        is_full(need.upper, self.limit.upper)
            || is_full(need.leaf, self.limit.leaf)
            || is_full(need.spill, self.limit.spill)
    }
}
