//! What a twin run comes to.
use mx_model::TurnKind;

/// Where two machines stop to agree for a domain, or that they don't.
#[derive(Clone, Copy, PartialEq, Eq, Debug)]
pub enum TwinEnd {
    /// They don't agree after a turn.
    Ended {
        /// The turn, counted from 1; 0 is the start.
        step: u64,
        /// The hart of that turn, 0 at the start.
        hart: u32,
        /// What the turn was in the first machine, idle at the start.
        kind: TurnKind,
    },
    /// They agree after every turn that was asked.
    Agreed,
}
