//! The machine at boot.

ghost use Rattle.std.specs.Prelude.{◌≡◌, ℕ, ◌≤◌, length, map};
ghost use Rattle.mx_manifest.specs.declared.parts.HartPlan.{HartPlan};
ghost use Rattle.mx_model.specs.State.{flat};
ghost use Rattle.mx_supervisor.specs.Parts.{parts_of};
ghost use Rattle.mx_boot.specs.Boot.{boot_state};
ghost use Rattle.mx_boot.specs.Joined.{boot_parts};
ghost use Rattle.mx_boot.specs.Laid.{IsLayout};
ghost use Rattle.mx_boot.specs.Starting.{hart_start_of, stack_area_of, stack_areas};

use crate::entries::word_at;
use crate::images::Images;
use crate::layout::Layout;
use mx_machine::{HartStart, Machine, StackArea, Stacks, Starts};
use mx_manifest::{ModulePlan, Plan, plan_is_in_range};
use mx_supervisor::Supervisor;
use mx_table::PermTables;
use mx_words::Blob;

/// The stack area of a module.
fn stack_area(plan: &ModulePlan) -> StackArea
    ensures { result ≡ stack_area_of plan.now }
{
    let kills = plan.kills;
    match plan.stack {
        Some(address) => StackArea {
            first: word_at(address),
            words: plan.stack_words.unwrap_or(0),
            kills,
        },
        None => StackArea {
            first: 0,
            words: 0,
            kills,
        },
    }
}

/// The stack areas of all modules.
fn stacks(plan: &Plan) -> Stacks
    ensures { result ≡ stack_areas plan.now }
{
    let mut stacks = Stacks::new();
    'modules: for i in 0..plan.modules() {
        stacks.push(stack_area(plan.module(i)));
    }
    stacks
}

/// Where all harts start, with the first pc of each.
fn starts(plan: &Plan, pcs: &[u32]) -> Starts
    requires { length pcs.now ≡ length plan.now.harts }
    ensures { (pc : HartPlan → ℕ) → pcs.now ≡ map pc plan.now.harts →
        result ≡ map (hart_start_of pc) plan.now.harts }
{
    let mut starts = Starts::new();
    'harts: for h in 0..plan.harts() {
        starts.push(HartStart {
            domain: plan.hart(h).module,
            pc: pcs[h as usize],
        });
    }
    starts
}

/// The machine of a plan that is laid out, over its parts.
pub(crate) fn machine_of<T: PermTables, const N: usize>(
    plan: &Plan,
    images: &Images,
    inputs: &[Blob],
    layout: &Layout,
    parts: Supervisor<T, N>,
) -> Machine<T, N>
    requires layout { IsLayout plan.now images.now layout.now }
    requires parts { parts_of T.PermTables parts ≡ boot_parts plan.now images.now inputs.now }
    ensures { result ≡ flat (boot_state plan.now images.now inputs.now) }
{
    plan_is_in_range(plan);
    let starts = starts(plan, layout.starts.as_slice());
    let stacks = stacks(plan);
    Machine::new(parts, &starts, &stacks)
}
