//! Supervisors of one hart over any tables.
ghost use Rattle.std.specs.Prelude.{◌≡◌, ℕ, ◌+◌, ◌<◌, ◌≤◌, length, IfSome};
ghost use Rattle.std.specs.List.{AllByRecursion};
ghost use Rattle.mx_words.specs.Limits.{most_modules, most_kept};
ghost use Rattle.mx_model.specs.Valid.{IsGate};
ghost use Rattle.mx_supervisor.specs.Parts.{parts_of};
ghost use Rattle.mx_call_tests.specs.Calls.{IsAtRest, EndsBy};

use mx_check::Checker;
use mx_gates::Gates;
use mx_heap::{Block, Heap};
use mx_memory::Ram;
use mx_owners::Owners;
use mx_supervisor::{Heaps, Supervisor};
use mx_table::{PermTables, shape_of};
use std::alloc::Global;

/// A heap in this area, with live blocks of one word from its beginning on, as many as `blocks` or as have room. `None`
/// where there
/// is no memory.
fn filled_heap(alloc: Global, area: Block, blocks: u32) -> Option<Heap>
    requires { area.first + area.count ≤ 16777216 }
    ensures first { IfSome result (λ h. h.area.first ≡ area.first) }
    ensures count { IfSome result (λ h. h.area.count ≡ area.count) }
{
    let Ok(mut heap) = Heap::new(alloc, area.first, area.count) else {
        return None;
    };
    for _ in 0..blocks {
        let _ = heap.alloc(1);
    }
    Some(heap)
}

/// The heaps of so many modules: domain 1 has one in this area, with live blocks of one word from its beginning on, as
/// many as
/// `blocks` or as have room; the other modules have none. `None` where there is no memory.
#[tactic(auto, using(crate::proofs::WorldLaws::pushed_ends))]
pub fn one_heap(alloc: Global, modules: u32, area: Block, blocks: u32) -> Option<Heaps>
    requires some { 1 ≤ modules }
    requires few { modules ≤ most_modules }
    requires inside { area.first + area.count ≤ 16777216 }
    ensures count { IfSome result (λ h. length h ≡ modules) }
    ensures areas { IfSome result (λ h. (n : ℕ) → area.first + area.count ≤ n
        → AllByRecursion (EndsBy n) h) }
{
    let heap = filled_heap(alloc, area, blocks)?;
    let mut heaps = Heaps::new();
    heaps.push(heap);
    for module in 1..modules {
        let Ok(none) = Heap::new(alloc, 0, 0) else {
            return None;
        };
        heaps.push(none);
    }
    Some(heaps)
}

/// Joins these parts to a supervisor of one hart, with a RAM of zeros. `None` where there is no memory.
pub fn machine<T: PermTables + Drop, const N: usize>(
    alloc: Global,
    tables: T,
    owners: Owners,
    gates: Gates,
    heaps: Heaps,
) -> Option<Supervisor<T, N>>
    requires buffer { N ≤ most_kept }
    requires owners { length owners ≡ T.size tables }
    requires gates { AllByRecursion (IsGate (length (T.maps tables)) (T.size tables)) gates }
    requires heaps { length heaps ≡ length (T.maps tables) }
    requires areas { AllByRecursion (EndsBy (T.size tables)) heaps }
    ensures rest { IfSome result (λ s. IsAtRest 0 1 (parts_of T.PermTables s)) }
    ensures modules { IfSome result (λ s. length (T.maps s.checker.tables) ≡ length (T.maps tables)) }
    ensures words { IfSome result (λ s. T.size s.checker.tables ≡ T.size tables) }
{
    shape_of(&tables);
    let Ok(ram) = Ram::new(alloc, tables.words()) else {
        return None;
    };
    Some(Supervisor::new(Checker::new(tables, 1), ram, owners, gates, heaps))
}
