//! A map with a permission laid over a range.
ghost use Rattle.std.specs.Prelude.{◌≡◌, ℕ, ◌+◌, ◌<◌, ◌≤◌, ◌⊎◌, true, false, List, length};
ghost use Rattle.mx_words.specs.declared.perm.Perm.{Perm};
ghost use Rattle.mx_words.specs.Newest.{laid};
ghost use Rattle.mx_words.specs.Changes.{grant_of};
ghost use Rattle.mx_table.specs.Tables.{most_words};
ghost use Rattle.mx_trie.specs.Views.{IsRound};

use crate::view::View;
use mx_words::{Perm, Span};

/// The map of another view, with a permission on the words `first` to `first + count - 1`, which lie in RAM.
#[derive(Drop)]
pub(crate) struct ChangedView<'a, V: View> {
    pub under: &'a V,
    pub first: u32,
    pub count: u32,
    pub perm: Perm,
}

impl<V: View> ChangedView<'_, V> {
    /// Whether a word lies in the range.
    fn is_laid(&self, word: u32) -> bool
        requires { self.now.first + self.now.count ≤ most_words }
        ensures yes { result ≡ true → (self.now.first ≤ word) × (word < self.now.first + self.now.count) }
        ensures no { result ≡ false → (word < self.now.first) ⊎ (self.now.first + self.now.count ≤ word) }
    {
        self.first <= word && word < self.first + self.count
    }

    /// The range.
    fn laid(&self) -> Span
        ensures { result ≡ record { first = self.now.first; count = self.now.count; perm = self.now.perm } }
    {
        Span {
            first: self.first,
            count: self.count,
            perm: self.perm,
        }
    }

    /// What lies outside the range of a span round a word outside it.
    fn beside(&self, word: u32, span: Span) -> Span
        requires inside { self.now.first + self.now.count ≤ length (V.map self.now.under.now) }
        requires few { length (V.map self.now.under.now) ≤ most_words }
        requires outside { (word < self.now.first) ⊎ (self.now.first + self.now.count ≤ word) }
        requires round { IsRound (V.map self.now.under.now) word span }
        ensures { IsRound (laid (grant_of self.now.first self.now.count self.now.perm) (V.map self.now.under.now)) word
            result }
    {
        if word < self.first {
            Span {
                first: span.first,
                count: (span.first + span.count).min(self.first) - span.first,
                perm: span.perm,
            }
        } else {
            let first = span.first.max(self.first + self.count);
            Span {
                first,
                count: span.first + span.count - first,
                perm: span.perm,
            }
        }
    }
}

impl<V: View> View for ChangedView<'_, V> {
    ghost map = { λ v. laid (grant_of v.first v.count v.perm) (V.map v.under.now) };

    ghost lawful = { λ v. V.lawful v.under.now
        × ((v.first + v.count ≤ length (V.map v.under.now)) × (length (V.map v.under.now) ≤ most_words)) };

    fn around(&self, word: u32) -> Span {
        if self.is_laid(word) {
            self.laid()
        } else {
            self.beside(word, self.under.around(word))
        }
    }

    fn around_far(&self, word: u32) -> Span {
        if self.is_laid(word) {
            self.laid()
        } else {
            self.beside(word, self.under.around_far(word))
        }
    }
}
