//! Permissions of words, and spans of words that share one.
ghost use Rattle.std.specs.Prelude.{◌≡◌, ◌<◌, ◌↔◌, IfSome, IsNone};
ghost use Rattle.mx_words.specs.Caches.{covers_word, meets};
ghost use Rattle.mx_words.specs.Rights.{number, from_number, allows};

/// What a protection domain may do with one word of RAM.
#[derive(Clone, Copy, PartialEq, Eq, Debug)]
pub enum Perm {
    /// No access.
    None,
    /// Loads.
    Read,
    /// Loads and stores.
    ReadWrite,
    /// Loads and instruction fetches.
    ExecuteRead,
}

/// The kind of an access to a word.
#[derive(Clone, Copy, PartialEq, Eq)]
pub enum Access {
    /// A load.
    Read,
    /// A store.
    Write,
    /// An instruction fetch.
    Execute,
}

/// RAM words with one permission: words `first` to `first + count - 1`.
#[derive(Clone, Copy, PartialEq, Eq, Debug)]
pub struct Span {
    /// The number of the first word, 0 to 2^24 - 1.
    pub first: u32,
    /// The number of words.
    pub count: u32,
    /// The permission of each of them.
    pub perm: Perm,
}

impl Perm {
    /// The number of the permission, 0 to 3, as tables store it and supervisor calls take it.
    pub fn number(self) -> u32
        ensures { result ≡ number self }
    {
        match self {
            Perm::None => 0,
            Perm::Read => 1,
            Perm::ReadWrite => 2,
            Perm::ExecuteRead => 3,
        }
    }

    /// The permission with this number. `None` exactly above 3.
    pub fn from_number(n: u32) -> Option<Perm>
        ensures value { result ≡ from_number n }
        ensures round { IfSome result (λ p. number p ≡ n) }
        ensures above { IsNone result ↔ (3 < n) }
    {
        match n {
            0 => Some(Perm::None),
            1 => Some(Perm::Read),
            2 => Some(Perm::ReadWrite),
            3 => Some(Perm::ExecuteRead),
            _ => None,
        }
    }

    /// Whether the permission allows an access: a load needs any but none, a store read-write, a fetch execute-read.
    pub fn allows(self, access: Access) -> bool
        ensures { result ≡ allows self access }
    {
        match access {
            Access::Read => self != Perm::None,
            Access::Write => self == Perm::ReadWrite,
            Access::Execute => self == Perm::ExecuteRead,
        }
    }
}

impl Span {
    /// Whether `word` is one of the span's words.
    pub fn covers(&self, word: u32) -> bool
        ensures { result ≡ covers_word self.now word }
    {
        self.first <= word && word - self.first < self.count
    }

    /// Whether the span shares a word with the `count` words from `first` on. With an empty range it shares none.
    pub fn meets(&self, first: u32, count: u32) -> bool
        ensures { result ≡ meets self.now first count }
    {
        if self.count == 0 || count == 0 {
            return false;
        }
        if self.first < first {
            first - self.first < self.count
        } else {
            self.first - first < count
        }
    }
}
