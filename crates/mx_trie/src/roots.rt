//! The root tables of all domains.
ghost use Rattle.std.specs.Prelude.{◌≡◌, ℕ, ◌-◌, ◌<◌, ◌≤◌, List, [], ◌∷◌, ◌++◌, length, slice_index, OnOk};
ghost use Rattle.mx_words.specs.Limits.{most_modules};

use mx_words::NoMemory;
use std::alloc::Global;
use std::marker::Model;

/// One upper frame number per domain, that of its root table. Domains count from 1.
#[derive(Drop)]
pub struct Roots {
    frames: Vec<u32>,
}

impl Model for Roots {
    ghost Value = { List ℕ };

    ghost view = { λ r. r.frames.items };

    ghost invariant = { λ r. length r.frames.items ≤ most_modules };
}

impl Roots {
    /// No root tables.
    pub(crate) fn new(alloc: Global) -> Roots
        ensures { result ≡ [] }
    {
        Roots {
            frames: Vec::new(alloc),
        }
    }

    /// Appends the frame of the next domain's root table. There are fewer than the greatest number of modules.
    pub(crate) fn push(&mut self, frame: u32) -> Result<(), NoMemory>
        requires { length self.old < most_modules }
        ensures { OnOk result (self.new ≡ self.old ++ frame ∷ []) }
    {
        self.frames.push(frame)?;
        Ok(())
    }

    /// The frame of a domain's root table. The domain is one of 1 to the number of domains.
    pub fn get(&self, domain: u32) -> u32
        requires first { 1 ≤ domain }
        requires last { domain ≤ length self.now }
        ensures { result ≡ slice_index self.now (domain - 1) }
    {
        self.frames[domain as usize - 1]
    }

    /// The frame of the root table of a domain, counted from 0.
    pub(crate) fn at(&self, row: u32) -> u32
        requires { row < length self.now }
        ensures { result ≡ slice_index self.now row }
    {
        self.frames[row as usize]
    }

    /// The number of domains.
    pub(crate) fn count(&self) -> u32
        ensures value { result ≡ length self.now }
        ensures few { result ≤ most_modules }
    {
        self.frames.len() as u32
    }
}
