//! Answers of supervisor calls.
ghost use Rattle.std.specs.Prelude.{◌≡◌, None};
ghost use Rattle.mx_model.specs.Serve.{code};
ghost use Rattle.mx_supervisor.specs.Answers.{number, plain, refusal};

/// What a served call answers.
#[derive(Clone, Copy, PartialEq, Eq)]
pub struct Answer {
    /// What goes to a0: the call's value, or the code of its refusal modulo 2^32.
    pub a0: u32,
    /// What goes to a1, of an exchange alone.
    pub a1: Option<u32>,
    /// Whether the hart ends. True exactly for an exit that isn't refused; `a0` is then its code.
    pub stop: bool,
}

/// Why a call is refused.
#[derive(Clone, Copy, PartialEq, Eq)]
pub enum Refusal {
    /// The range or the word isn't one of RAM.
    BadRange,
    /// The caller doesn't own a word.
    NotOwner,
    /// No domain that the call may name.
    BadDomain,
    /// No permission has the number.
    BadPerm,
    /// The tables' limit is too low for the maps afterwards.
    TablesFull,
    /// The heap area has no place for the block.
    NoRoom,
    /// 1024 blocks live already.
    BlocksFull,
    /// No live block begins at the address.
    NotABlock,
    /// 256 gates stand, and none of them there.
    GatesFull,
    /// The hart has a frame on its cross stack.
    Nested,
    /// More than 4096 bytes.
    TooLong,
    /// The caller may not read or write a word.
    Denied,
    /// No call has the number.
    BadCall,
    /// The owners would form more than 4096 runs.
    OwnersFull,
    /// No gate stands there.
    NoGate,
}

impl Refusal {
    /// The code modulo 2^32.
    fn code(self) -> u32
        ensures { result ≡ code (number self) }
    {
        match self {
            Refusal::BadRange => 0xFFFF_FFFF,
            Refusal::NotOwner => 0xFFFF_FFFE,
            Refusal::BadDomain => 0xFFFF_FFFD,
            Refusal::BadPerm => 0xFFFF_FFFC,
            Refusal::TablesFull => 0xFFFF_FFFB,
            Refusal::NoRoom => 0xFFFF_FFFA,
            Refusal::BlocksFull => 0xFFFF_FFF9,
            Refusal::NotABlock => 0xFFFF_FFF8,
            Refusal::GatesFull => 0xFFFF_FFF7,
            Refusal::Nested => 0xFFFF_FFF6,
            Refusal::TooLong => 0xFFFF_FFF5,
            Refusal::Denied => 0xFFFF_FFF4,
            Refusal::BadCall => 0xFFFF_FFF3,
            Refusal::OwnersFull => 0xFFFF_FFF2,
            Refusal::NoGate => 0xFFFF_FFF1,
        }
    }
}

impl Answer {
    /// A call that is done, with its value.
    pub(crate) fn done(a0: u32) -> Answer
        ensures { result ≡ plain a0 }
    {
        Answer {
            a0,
            a1: None,
            stop: false,
        }
    }

    /// A call that is refused.
    pub(crate) fn refused(why: Refusal) -> Answer
        ensures { result ≡ refusal (number why) }
    {
        Answer::done(why.code())
    }
}
