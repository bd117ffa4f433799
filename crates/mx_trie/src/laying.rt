//! A permission for a range of words of one domain, and what is known of the words beside the range before it
//! is laid.
ghost use Rattle.std.specs.Prelude.{◌≡◌, ℕ, ◌+◌, ◌-◌, ◌*◌, ◌<◌, ◌≤◌, true, false, min, List, length};
ghost use Rattle.mx_words.specs.declared.perm.Perm.{Perm};
ghost use Rattle.mx_words.specs.Ranges.{most_words};
ghost use Rattle.mx_trie.specs.Ranges.{IsApart, IsInside};

use mx_words::{MOST_WORDS, Perm};

/// A permission for the words `first` to `end - 1` of a domain, in a RAM of `words` words.
#[derive(Clone, Copy)]
pub(crate) struct Laying {
    pub words: u32,
    pub first: u32,
    pub end: u32,
    pub perm: Perm,
    pub ghost some: { first < end },
    pub ghost inside: { end ≤ words },
    pub ghost few: { words ≤ most_words },
}

impl Laying {
    /// Whether all words `begin` to `end - 1` lie in the range.
    pub(crate) fn covers(&self, begin: u32, end: u32) -> bool
        ensures yes { result ≡ true → (self.now.first ≤ begin) × (end ≤ self.now.end) }
        ensures no { result ≡ false → IsInside self.now.first self.now.end begin end }
    {
        self.first <= begin && end <= self.end
    }

    /// Whether some of the words `begin` to `end - 1` lie in the range.
    pub(crate) fn meets(&self, begin: u32, end: u32) -> bool
        ensures yes { result ≡ true → (self.now.first < end) × (begin < self.now.end) }
        ensures no { result ≡ false → IsApart self.now.first self.now.end begin end }
    {
        self.first < end && begin < self.end
    }

    /// A word near an edge of the range that lies in the block that begins at a word.
    pub(crate) fn edge_in(&self, begin: u32) -> u32
        ensures { result ≤ most_words }
    {
        if begin < self.first {
            self.first
        } else {
            self.end
        }
    }

    /// The first word that lies in the range or at most `reach` words before it.
    pub(crate) fn near_first(&self, reach: u32) -> u32
        ensures { result ≡ self.now.first - reach }
    {
        self.first.saturating_sub(reach)
    }

    /// The last word below 2^24 that lies in the range or at most `reach` words behind it.
    pub(crate) fn near_last(&self, reach: u32) -> u32
        requires { reach ≤ 31 }
        ensures { result ≡ min (self.now.end - 1 + reach) (most_words - 1) }
    {
        (self.end - 1 + reach).min(MOST_WORDS - 1)
    }
}

/// What is known of a map beside a range before a permission is laid over it. Each number is at most 31.
#[derive(Clone, Copy)]
pub(crate) struct Beside {
    /// How many words right before the range have the range's new permission.
    pub before: u32,
    /// How many words of RAM right behind the range have it.
    pub behind: u32,
    /// The left reach of the line of the range's first word.
    pub left: u32,
    /// The right reach of the line of the range's last word.
    pub right: u32,
    /// The outer reaches of the page of the range's first word.
    pub first_page: Outer,
    /// The outer reaches of the page of the range's last word.
    pub last_page: Outer,
    pub ghost few_before: { before ≤ 31 },
    pub ghost few_behind: { behind ≤ 31 },
    pub ghost few_left: { left ≤ 31 },
    pub ghost few_right: { right ≤ 31 },
}

/// The outer reaches of a page.
#[derive(Clone, Copy)]
pub(crate) struct Outer {
    /// The left reach of its first line.
    pub left: u32,
    /// The right reach of its last line.
    pub right: u32,
    pub ghost few_left: { left ≤ 31 },
    pub ghost few_right: { right ≤ 31 },
}
