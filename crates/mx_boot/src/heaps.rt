//! The heaps at boot.

ghost use Rattle.std.specs.Prelude.{◌≡◌, ◌+◌, ◌≤◌, None, map, IfOk};
ghost use Rattle.mx_words.specs.Ranges.{most_words};
ghost use Rattle.mx_boot.specs.Boot.{heap_of};
ghost use Rattle.mx_boot.specs.Entries.{word_at};
ghost use Rattle.mx_boot.specs.Faults.{first_fault};
ghost use Rattle.mx_boot.specs.Joined.{heap_state};

use crate::entries::word_at;
use crate::images::Images;
use mx_heap::Heap;
use mx_manifest::{ModulePlan, Plan, plan_is_in_range};
use mx_supervisor::Heaps;
use mx_words::NoMemory;
use std::alloc::Global;

/// The heap of a module, whose area ends at most at 2^24.
fn heap(alloc: Global, plan: &ModulePlan) -> Result<Heap, NoMemory>
    requires { (heap_of plan.now).first + (heap_of plan.now).count ≤ most_words }
    ensures { IfOk result (λ heap. heap ≡ heap_state plan.now) }
{
    match plan.heap {
        Some(address) => Heap::new(alloc, word_at(address), plan.heap_words.unwrap_or(0)),
        None => Heap::new(alloc, 0, 0),
    }
}

/// The heaps of all modules, of a plan without a fault.
pub(crate) fn heaps(alloc: Global, plan: &Plan, images: &Images) -> Result<Heaps, NoMemory>
    requires { first_fault plan.now images.now ≡ None }
    ensures { IfOk result (λ heaps. heaps ≡ map heap_state plan.now.modules) }
{
    plan_is_in_range(plan);
    let mut heaps = Heaps::new();
    'modules: for i in 0..plan.modules() {
        heaps.push(heap(alloc, plan.module(i))?);
    }
    Ok(heaps)
}
