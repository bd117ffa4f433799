//! Maps that are read word by word: a plain list, a list after a change, and a row of spans.
ghost use Rattle.std.specs.Prelude.{◌≡◌, ◌+◌, ◌≤◌, ◌++◌, List, length, take, drop, replicate, IfOk};
ghost use Rattle.mx_words.specs.declared.perm.Perm.{Perm};
ghost use Rattle.mx_words.specs.Rights.{perm_at};
ghost use Rattle.mx_words.specs.Newest.{laid, laid_at};
ghost use Rattle.mx_words.specs.Changes.{grant_of, changed_map};
ghost use Rattle.mx_table.specs.Tables.{most_words, granted, row_map};

use mx_words::{NoMemory, Perm, Span, Spans};
use std::alloc::Global;
use std::marker::Model;

/// A domain's map that is read word by word.
pub(crate) trait WordMap {
    // The permissions of RAM's words.
    ghost list: { Self → List Perm };

    /// The number of RAM words.
    fn words(&self) -> u32
        ensures { result ≡ length (list self.now) };

    /// The permission of a word, none outside RAM.
    fn at(&self, word: u32) -> Perm
        ensures { result ≡ perm_at (list self.now) word };
}

/// A domain's permissions, a word each.
#[derive(Drop)]
pub(crate) struct PlainMap {
    perms: Vec<Perm>,
}

impl Model for PlainMap {
    ghost Value = { List Perm };

    ghost view = { λ m. m.perms.items };

    ghost invariant = { λ m. length m.perms.items ≤ most_words };
}

impl WordMap for PlainMap {
    ghost list = { λ m. m };

    fn words(&self) -> u32 {
        self.perms.len() as u32
    }

    fn at(&self, word: u32) -> Perm {
        let place = word as usize;
        if place < self.perms.len() {
            self.perms[place]
        } else {
            Perm::None
        }
    }
}

impl PlainMap {
    /// Gives a permission to words `first` to `first + count - 1`.
    fn put(&mut self, first: u32, count: u32, perm: Perm)
        requires { first + count ≤ length self.old }
        ensures { self.new
            ≡ take first self.old ++ replicate count perm ++ drop (first + count) self.old }
    {
        let at = first as usize;
        let part = &mut self.perms[at..at + count as usize];
        part.fill(perm);
    }

    /// Lays a permission over words `first` to `first + count - 1`.
    pub(crate) fn lay(&mut self, first: u32, count: u32, perm: Perm)
        requires { first + count ≤ length self.old }
        ensures { self.new ≡ laid (grant_of first count perm) self.old }
    {
        self.put(first, count, perm);
    }
}

/// The list of a map's permissions.
pub(crate) fn list_of<M: WordMap>(alloc: Global, map: &M) -> Result<PlainMap, NoMemory>
    requires { length (M.list map.now) ≤ most_words }
    ensures { IfOk result (λ m. m ≡ M.list map.now) }
{
    let mut perms = Vec::new(alloc);
    for word in 0..map.words() {
        perms.push(map.at(word))?;
    }
    Ok(PlainMap { perms })
}

/// A span laid over an older permission of a word.
fn laid_at(span: Span, word: u32, older: Perm) -> Perm
    ensures { result ≡ laid_at word older (granted span) }
{
    if span.covers(word) { span.perm } else { older }
}

/// A domain's map with a permission, or none, laid over words `first` to `first + count - 1`.
#[derive(Drop)]
pub(crate) struct Changed<'a> {
    pub map: &'a PlainMap,
    pub first: u32,
    pub count: u32,
    pub given: Option<Perm>,
}

impl WordMap for Changed<'_> {
    ghost list = { λ v. changed_map v.first v.count v.given v.map.now };

    fn words(&self) -> u32 {
        self.map.words()
    }

    fn at(&self, word: u32) -> Perm {
        let older = self.map.at(word);
        if word >= self.map.words() {
            return older;
        }
        match self.given {
            Some(perm) => {
                let span = Span {
                    first: self.first,
                    count: self.count,
                    perm,
                };
                laid_at(span, word, older)
            }
            None => older,
        }
    }
}

/// The map that a row of spans gives, over a RAM of `words` words.
#[derive(Drop)]
pub(crate) struct Row<'a> {
    pub spans: &'a Spans,
    pub words: u32,
}

impl WordMap for Row<'_> {
    ghost list = { λ v. row_map v.words v.spans.now };

    fn words(&self) -> u32 {
        self.words
    }

    fn at(&self, word: u32) -> Perm {
        let mut perm = Perm::None;
        if word < self.words {
            for i in 0..self.spans.len() {
                perm = laid_at(self.spans.get(i), word, perm);
            }
        }
        perm
    }
}
