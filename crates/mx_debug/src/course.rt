//! The run that is looked at.

ghost use Rattle.std.specs.Prelude.{◌≡◌};
ghost use Rattle.mx_debug_texts.specs.Documents.{known_by};
ghost use Rattle.mx_debug.specs.Looks.{known_of};

use crate::again::Origin;
use mx_debug_texts::Named;
use mx_turns::{Schedule, Steps};

/// The run that is looked at: the schedule, the most turns, and what its machine is booted of.
#[derive(Clone, Copy)]
pub struct Course<'a> {
    /// What names the hart of each turn.
    pub schedule: Schedule<'a>,
    /// The most turns.
    pub most: Steps,
    /// What the machine is booted of.
    pub origin: Origin<'a>,
}

impl Course<'_> {
    /// What is known of the boot.
    pub(crate) fn named(&self) -> Named<'_>
        ensures { known_by result ≡ known_of self.now.origin }
    {
        Named {
            plan: self.origin.plan,
            images: self.origin.images,
        }
    }
}
