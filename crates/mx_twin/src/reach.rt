//! What a turn touches, by what it was.
ghost use Rattle.std.specs.Prelude.{◌≡◌, ◌≤◌};
ghost use Rattle.mx_heap.specs.HeapState.{area_of};
ghost use Rattle.mx_model.specs.declared.values.Call.{Call};
ghost use Rattle.mx_model.specs.Serve.{service};
ghost use Rattle.mx_model.specs.State.{Core};
ghost use Rattle.mx_touched.specs.Touched.{range_area, touched_by, touched_in, word_area};
ghost use Rattle.mx_words.specs.Ranges.{most_words, range_words};
ghost use Rattle.mx_twin.specs.Told.{Names, told};

use mx_heap::Block;
use mx_model::TurnKind;
use mx_words::{
    ALLOC_CALL, EXCHANGE_CALL, FREE_CALL, GRANT_CALL, REVOKE_ALL_CALL, word_of, word_range,
};

/// Words that a turn touches by what of them it may change, and whether its hart's domain may die.
#[derive(Clone, Copy)]
pub(crate) struct Touched {
    /// The words whose bytes may change.
    pub(crate) bytes: Block,
    /// The words on which rights may change.
    pub(crate) rights: Block,
    /// The words at which a gate may be added or removed.
    pub(crate) gates: Block,
    /// Whether the hart's domain may die.
    pub(crate) death: bool,
}

/// What the next turn of a hart touches, by what it will be.
#[derive(Clone, Copy)]
pub(crate) struct Reach {
    /// The word to which the instruction at the hart's pc stores.
    pub(crate) stored: Block,
    /// What the call that the hart's registers name touches.
    pub(crate) called: Touched,
}

pub(crate) const NO_WORDS: Block = Block { first: 0, count: 0 };

const NOTHING: Touched = Touched {
    bytes: NO_WORDS,
    rights: NO_WORDS,
    gates: NO_WORDS,
    death: false,
};

/// The word that holds an address, and no word outside RAM.
pub(crate) fn word_at(address: u32, words: u32) -> Block
    requires { words ≤ most_words }
    ensures { area_of result ≡ word_area address words }
{
    match word_of(address, words) {
        Some(first) => Block { first, count: 1 },
        None => NO_WORDS,
    }
}

/// The words of a range, and none where it is no range.
pub(crate) fn range_at(address: u32, bytes: u32, words: u32) -> Block
    requires { words ≤ most_words }
    ensures { area_of result ≡ range_area (range_words address bytes words) }
{
    match word_range(address, bytes, words) {
        Some((first, count)) => Block { first, count },
        None => NO_WORDS,
    }
}

/// What a call of a number touches, of the range of its a0 and a1, the caller's heap area and the word of a0.
pub(crate) fn by_number(number: u32, range: Block, heap: Block, word: Block) -> Touched
    ensures { (c : Core) (call : Call) → Names c call range heap word →
        told result ≡ touched_by (service number) c call }
{
    match number {
        GRANT_CALL | REVOKE_ALL_CALL => Touched {
            rights: range,
            ..NOTHING
        },
        ALLOC_CALL => Touched {
            bytes: heap,
            rights: heap,
            ..NOTHING
        },
        FREE_CALL => Touched {
            rights: heap,
            ..NOTHING
        },
        // The calls gate, ungate and return_gate.
        8 | 9 | 10 => Touched {
            gates: word,
            ..NOTHING
        },
        EXCHANGE_CALL => Touched {
            bytes: word,
            ..NOTHING
        },
        _ => NOTHING,
    }
}

impl Reach {
    /// What it touched, after it was of that kind.
    pub(crate) fn touched(&self, kind: TurnKind) -> Touched
        ensures { told result ≡ touched_in kind (area_of self.now.stored) (told self.now.called) }
    {
        match kind {
            TurnKind::Ran => Touched {
                bytes: self.stored,
                ..NOTHING
            },
            TurnKind::Trapped => Touched {
                death: true,
                ..NOTHING
            },
            TurnKind::Called => self.called,
            _ => NOTHING,
        }
    }
}
