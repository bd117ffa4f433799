//! The plan of a machine, as its manifest gives it.

ghost use Rattle.std.specs.Prelude.{◌≡◌, ◌<◌, ◌≤◌, ◌+◌, ◌%◌, length, slice_get};
ghost use Rattle.mx_words.specs.Limits.{least_ram_kib, most_ram_kib, most_upper, most_leaf, most_spill, most_quantum};
ghost use Rattle.mx_words.specs.Limits.{most_modules, most_harts, IsBuffer};
ghost use Rattle.mx_manifest.specs.InRange.{IsBetween, IsModule, IsHart, IsInRange};
ghost use Rattle.mx_manifest.specs.Plan.{Said};

use crate::{HartPlan, ModulePlan};
use mx_words::Kind;
use std::marker::Model;

/// What a manifest says, with defaults filled in and names turned into domain numbers.
#[derive(Drop)]
pub struct Plan {
    pub(crate) version: u32,
    pub(crate) ram_kib: u32,
    pub(crate) tables: Kind,
    pub(crate) upper: u32,
    pub(crate) leaf: u32,
    pub(crate) spill: u32,
    pub(crate) lookaside: u32,
    pub(crate) quantum: u32,
    pub(crate) modules: Vec<ModulePlan>,
    pub(crate) harts: Vec<HartPlan>,
}

impl Model for Plan {
    ghost use Rattle.mx_manifest.specs.Plan.{Said};

    ghost Value = { Said };

    ghost use Rattle.mx_manifest.specs.InRange.{IsInRange};
    ghost use Rattle.mx_manifest.specs.Inside.{said};

    ghost view = { said };

    ghost invariant = { λ p. IsInRange (said p) };
}

impl Plan {
    /// The version, 1 or 2.
    pub fn version(&self) -> u32
        ensures value { result ≡ self.now.version }
        ensures range { IsBetween 1 2 result }
    {
        self.version
    }

    /// The size of RAM in KiB: 64 to 65536, a multiple of 4.
    pub fn ram_kib(&self) -> u32
        ensures value { result ≡ self.now.ram_kib }
        ensures range { IsBetween least_ram_kib most_ram_kib result × (result % 4 ≡ 0) }
    {
        self.ram_kib
    }

    /// The kind of permission tables.
    pub fn tables(&self) -> Kind
        ensures { result ≡ self.now.tables }
    {
        self.tables
    }

    /// The limit of upper frames, at most 4096.
    pub fn upper(&self) -> u32
        ensures value { result ≡ self.now.upper }
        ensures most { result ≤ most_upper }
    {
        self.upper
    }

    /// The limit of leaf frames, at most 262144.
    pub fn leaf(&self) -> u32
        ensures value { result ≡ self.now.leaf }
        ensures most { result ≤ most_leaf }
    {
        self.leaf
    }

    /// The limit of spill words, at most 1048576.
    pub fn spill(&self) -> u32
        ensures value { result ≡ self.now.spill }
        ensures most { result ≤ most_spill }
    {
        self.spill
    }

    /// The size of the lookaside buffer: 8, 32 or 64 spans.
    pub fn lookaside(&self) -> u32
        ensures value { result ≡ self.now.lookaside }
        ensures sizes { IsBuffer result }
    {
        self.lookaside
    }

    /// The turns that a hart has in a row, 1 to 1000000.
    pub fn quantum(&self) -> u32
        ensures value { result ≡ self.now.quantum }
        ensures range { IsBetween 1 most_quantum result }
    {
        self.quantum
    }

    /// The number of modules, 1 to 63.
    pub fn modules(&self) -> u32
        ensures value { result ≡ length self.now.modules }
        ensures range { IsBetween 1 most_modules result }
    {
        self.modules.len() as u32
    }

    /// The number of harts, 1 to 4.
    pub fn harts(&self) -> u32
        ensures value { result ≡ length self.now.harts }
        ensures range { IsBetween 1 most_harts result }
    {
        self.harts.len() as u32
    }

    /// The module at place `i`, counted from 0 and below `modules`; its domain is `i + 1`.
    pub fn module(&self, i: u32) -> &ModulePlan
        requires { i < length self.now.modules }
        ensures value { slice_get self.now.modules i ≡ Some result.now }
        ensures range { IsModule (length self.now.modules) (i + 1) result.now }
    {
        &self.modules[i as usize]
    }

    /// The hart at place `i`, counted from 0 and below `harts`.
    pub fn hart(&self, i: u32) -> &HartPlan
        requires { i < length self.now.harts }
        ensures value { slice_get self.now.harts i ≡ Some result.now }
        ensures range { IsHart (length self.now.modules) result.now }
    {
        &self.harts[i as usize]
    }
}

/// A law: all that a plan says is in range.
pub fn plan_is_in_range(plan: &Plan)
    ensures { IsInRange plan.now }
{
    let _ = &plan.version;
}
