//! What a run keeps of a plan.

ghost use Rattle.std.specs.Prelude.{◌≡◌, ◌<◌, length, map, slice_get, Some, IfOk};
ghost use Rattle.mx_words.specs.Limits.{most_modules, most_quantum, IsBuffer};
ghost use Rattle.mx_table.specs.Tables.{IsLimit};
ghost use Rattle.mx_manifest.specs.declared.parts.ModulePlan.{ModulePlan};
ghost use Rattle.mx_manifest.specs.InRange.{IsBetween, IsName};
ghost use Rattle.mx_snapshot.specs.Kept.{IsKept, kept_of};

use mx_manifest::{Plan, Text, plan_is_in_range};
use mx_words::{Kind, Need, NoMemory};
use std::alloc::Global;
use std::marker::Model;

/// What a run keeps of a manifest's plan, and what a snapshot holds beside the state of a machine: the kind of tables
/// and their
/// limit, the size of the lookaside buffer, the quantum, and the modules' names.
#[derive(Drop)]
pub struct Kept {
    kind: Kind,
    limit: Need,
    lookaside: u32,
    quantum: u32,
    names: Vec<Text>,
}

impl Model for Kept {
    ghost use Rattle.mx_snapshot.specs.Kept.{KeptPlan};

    ghost Value = { KeptPlan };

    ghost use Rattle.mx_snapshot.specs.Kept.{IsKept, kept_in};

    ghost view = { kept_in };

    ghost invariant = { λ k. IsKept (kept_in k) };
}

impl Kept {
    /// What is kept of a plan. The names are copied, so that the plan may be dropped.
    pub fn of(alloc: Global, plan: &Plan) -> Result<Kept, NoMemory>
        ensures { IfOk result (λ kept. kept ≡ kept_of plan.now) }
    {
        plan_is_in_range(plan);
        let names = names(alloc, plan)?;
        Ok(Kept {
            kind: plan.tables(),
            limit: Need {
                upper: plan.upper(),
                leaf: plan.leaf(),
                spill: plan.spill(),
            },
            lookaside: plan.lookaside(),
            quantum: plan.quantum(),
            names,
        })
    }

    /// A plan of which these are kept, each as in a manifest.
    pub fn new(kind: Kind, limit: Need, lookaside: u32, quantum: u32, names: Vec<Text>) -> Kept
        requires { IsKept (record {
          kind = kind;
          limit = limit;
          lookaside = lookaside;
          quantum = quantum;
          names = names.items;
        }) }
        ensures { result ≡ record {
          kind = kind;
          limit = limit;
          lookaside = lookaside;
          quantum = quantum;
          names = names.items;
        } }
    {
        Kept {
            kind,
            limit,
            lookaside,
            quantum,
            names,
        }
    }

    /// The kind of permission tables.
    pub fn kind(&self) -> Kind
        ensures { result ≡ self.now.kind }
    {
        self.kind
    }

    /// The limit of the tables: at most 4096 upper frames, 262144 leaf frames and 1048576 spill words.
    pub fn limit(&self) -> Need
        ensures value { result ≡ self.now.limit }
        ensures range { IsLimit result }
    {
        self.limit
    }

    /// The size of the lookaside buffer: 8, 32 or 64 spans.
    pub fn lookaside(&self) -> u32
        ensures value { result ≡ self.now.lookaside }
        ensures sizes { IsBuffer result }
    {
        self.lookaside
    }

    /// The turns that a hart has in a row, 1 to 1000000.
    pub fn quantum(&self) -> u32
        ensures value { result ≡ self.now.quantum }
        ensures range { IsBetween 1 most_quantum result }
    {
        self.quantum
    }

    /// The number of modules, 1 to 63.
    pub fn modules(&self) -> u32
        ensures value { result ≡ length self.now.names }
        ensures range { IsBetween 1 most_modules result }
    {
        self.names.len() as u32
    }

    /// The name of the module at place `i`, counted from 0 and below `modules`; its domain is `i + 1`. It has 1 to 32
    /// bytes out of a to
    /// z, 0 to 9 and _.
    pub fn name(&self, i: u32) -> &str
        requires { i < length self.now.names }
        ensures value { slice_get self.now.names i ≡ Some result.now }
        ensures range { IsName result.now }
    {
        self.names[i as usize].as_str()
    }
}

/// The names of a plan's modules.
fn names(alloc: Global, plan: &Plan) -> Result<Vec<Text>, NoMemory>
    ensures { IfOk result
        (λ names. names.items ≡ map (λ (m : ModulePlan). m.name) plan.now.modules) }
{
    let mut names = Vec::new(alloc);
    'modules: for i in 0..plan.modules() {
        let name = Text::new(alloc, plan.module(i).name.as_str())?;
        names.push(name)?;
    }
    Ok(names)
}
