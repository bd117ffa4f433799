//! What a plan says of modules, gates and harts.

ghost use Rattle.std.specs.Prelude.{◌≡◌, ◌<◌, ◌≤◌, List, length, slice_get};
ghost use Rattle.mx_words.specs.Limits.{most_gates};

use crate::{Numbers, Text};
use mx_words::Perm;
use std::marker::Model;

/// Where a gate stands or a hart begins.
#[derive(Drop)]
pub enum EntryPlan {
    /// A symbol of the module's image, 1 to 255 bytes.
    Symbol(Text),
    /// An address in bytes.
    Address(u32),
}

/// A list of entries, at most as many as gates may stand.
#[derive(Drop)]
pub struct Entries {
    items: Vec<EntryPlan>,
}

impl Model for Entries {
    ghost use Rattle.std.specs.Prelude.{◌≤◌, List, length};
    ghost use Rattle.mx_words.specs.Limits.{most_gates};
    ghost use Rattle.mx_manifest.specs.declared.parts.EntryPlan.{EntryPlan};

    ghost Value = { List EntryPlan };

    ghost view = { λ e. e.items.items };

    ghost invariant = { λ e. length e.items.items ≤ most_gates };
}

impl Entries {
    pub(crate) fn new(items: Vec<EntryPlan>) -> Entries
        requires { length items.items ≤ most_gates }
        ensures { result ≡ items.items }
    {
        Entries { items }
    }

    /// How many entries there are.
    pub fn len(&self) -> u32
        ensures { result ≡ length self.now }
    {
        self.items.len() as u32
    }

    /// The entry at place `i`, counted from 0 and below `len`.
    pub fn get(&self, i: u32) -> &EntryPlan
        requires { i < length self.now }
        ensures { slice_get self.now i ≡ Some result.now }
    {
        &self.items[i as usize]
    }
}

/// A call gate of a module.
#[derive(Drop)]
pub struct GatePlan {
    /// Where the gate stands in the module.
    pub entry: EntryPlan,
    /// The domains that may cross there, from 1 to the number of modules, none of them the module's own.
    pub from: Numbers,
}

/// A list of gates, at most as many as may stand.
#[derive(Drop)]
pub struct GatePlans {
    items: Vec<GatePlan>,
}

impl Model for GatePlans {
    ghost use Rattle.std.specs.Prelude.{◌≤◌, List, length};
    ghost use Rattle.mx_words.specs.Limits.{most_gates};
    ghost use Rattle.mx_manifest.specs.declared.parts.GatePlan.{GatePlan};

    ghost Value = { List GatePlan };

    ghost view = { λ g. g.items.items };

    ghost invariant = { λ g. length g.items.items ≤ most_gates };
}

impl GatePlans {
    pub(crate) fn new(items: Vec<GatePlan>) -> GatePlans
        requires { length items.items ≤ most_gates }
        ensures { result ≡ items.items }
    {
        GatePlans { items }
    }

    /// How many gates there are.
    pub fn len(&self) -> u32
        ensures { result ≡ length self.now }
    {
        self.items.len() as u32
    }

    /// The gate at place `i`, counted from 0 and below `len`.
    pub fn get(&self, i: u32) -> &GatePlan
        requires { i < length self.now }
        ensures { slice_get self.now i ≡ Some result.now }
    {
        &self.items[i as usize]
    }
}

/// The input of a module: a file, and the area of RAM that holds it at boot.
#[derive(Drop)]
pub struct InputPlan {
    /// The name of the file, 1 to 255 bytes.
    pub file: Text,
    /// The address of the area, a multiple of 4.
    pub address: u32,
    /// The words of the area, 1 to 16777216: the first tells how many bytes the file has, and those follow it.
    pub words: u32,
    /// What the module may do there: `Read` or `ReadWrite`.
    pub perm: Perm,
}

/// What a manifest says of a module. An `Option` is None exactly where its key is absent.
#[derive(Drop)]
pub struct ModulePlan {
    /// The module's name, 1 to 32 bytes out of a to z, 0 to 9 and _.
    pub name: Text,
    /// The name of its image file, 1 to 255 bytes.
    pub image: Option<Text>,
    /// The address of its inline words, a multiple of 4.
    pub at: Option<u32>,
    /// The permission of its inline words.
    pub perm: Option<Perm>,
    /// Its inline words, 1 to 65536.
    pub words: Option<Numbers>,
    /// The permission of segments that are writable and executable.
    pub wx: Option<Perm>,
    /// The address of its heap area, a multiple of 4.
    pub heap: Option<u32>,
    /// The words of its heap area.
    pub heap_words: Option<u32>,
    /// The address of its stack area, a multiple of 4.
    pub stack: Option<u32>,
    /// The words of its stack area for each hart.
    pub stack_words: Option<u32>,
    /// Its call gates.
    pub gates: GatePlans,
    /// Where its return gates stand.
    pub returns: Entries,
    /// Whether a fault ends its domain: true exactly where `on_fault` is "kill".
    pub kills: bool,
    /// Whether the supervisor owns its segments.
    pub seal: bool,
    /// Its input.
    pub input: Option<InputPlan>,
}

/// What a manifest says of a hart.
#[derive(Drop)]
pub struct HartPlan {
    /// The domain in which it begins, from 1 to the number of modules.
    pub module: u32,
    /// Where it begins; None where the manifest leaves that to the image or to `at`.
    pub entry: Option<EntryPlan>,
}
