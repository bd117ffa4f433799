//! Texts and lists of numbers in a plan.

ghost use Rattle.std.specs.Prelude.{◌≡◌, ◌<◌, ◌≤◌, List, ℕ, length, slice_get, string_bytes, IfOk};
ghost use Rattle.mx_words.specs.Limits.{most_inline_words};

use mx_words::NoMemory;
use std::alloc::Global;
use std::marker::Model;

/// A text: the name of a module, a file or a symbol.
#[derive(Drop)]
pub struct Text {
    text: String,
}

impl Model for Text {
    ghost Value = { List ℕ };

    ghost view = { λ t. string_bytes t.text };
}

impl Text {
    /// A copy of a text.
    pub fn new(alloc: Global, text: &str) -> Result<Text, NoMemory>
        ensures { IfOk result (λ t. t ≡ text.now) }
    {
        let text = String::from_str(alloc, text)?;
        Ok(Text { text })
    }

    /// The text.
    pub fn as_str(&self) -> &str
        ensures { result.now ≡ self.now }
    {
        self.text.as_str()
    }
}

/// A list of at most 65536 numbers: words of RAM, or domains.
#[derive(Drop)]
pub struct Numbers {
    items: Vec<u32>,
}

impl Model for Numbers {
    ghost Value = { List ℕ };

    ghost view = { λ n. n.items.items };

    ghost invariant = { λ n. length n.items.items ≤ most_inline_words };
}

impl Numbers {
    pub(crate) fn new(items: Vec<u32>) -> Numbers
        requires { length items.items ≤ most_inline_words }
        ensures { result ≡ items.items }
    {
        Numbers { items }
    }

    /// How many numbers there are.
    pub fn len(&self) -> u32
        ensures { result ≡ length self.now }
    {
        self.items.len() as u32
    }

    /// The number at place `i`, counted from 0 and below `len`.
    pub fn get(&self, i: u32) -> u32
        requires { i < length self.now }
        ensures { slice_get self.now i ≡ Some result }
    {
        self.items[i as usize]
    }
}
