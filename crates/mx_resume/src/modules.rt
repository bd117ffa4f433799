//! The modules of a snapshot.
ghost use Rattle.std.specs.Prelude.{◌≡◌, ◌+◌, ◌<◌, ◌≤◌, [], ◌∷◌, ◌++◌, length, List, IfOk, IfErr, OnOk};
ghost use Rattle.std.specs.Prelude.{map as list_map};
ghost use Rattle.mx_words.specs.Ranges.{most_words};
ghost use Rattle.mx_words.specs.Limits.{most_domains};
ghost use Rattle.mx_supervisor.specs.Heaps.{told_heap};
ghost use Rattle.mx_snapshot.specs.Fields.{module_in};
ghost use Rattle.mx_snapshot.specs.Reader.{list_of};
ghost use Rattle.mx_snapshot.specs.Stored.{StoredModule};
ghost use Rattle.mx_resume.specs.declared.refused.SnapshotRefused.TheVariants.{NoMemory};
ghost use Rattle.mx_resume.specs.Extents.{HasBounds};
ghost use Rattle.mx_resume.specs.Parts.{AreModulesOf, IsModuleOf, head_seen, module_in_code};
ghost use Rattle.mx_resume.specs.Taking.{TakesAs};

use crate::SnapshotRefused;
use crate::areas::{heap_words, restore_blocks, stack_words};
use crate::head::Head;
use crate::maps::{row, some_runs};
use crate::names::{new_name, text};
use crate::reading::{between, flag, number};
use mx_heap::Heap;
use mx_machine::{StackArea, Stacks};
use mx_manifest::Text;
use mx_supervisor::Heaps;
use mx_words::{MOST_BLOCKS, MOST_DOMAINS, Spans};
use std::alloc::Global;

/// The greatest number of live blocks of a heap, as a field.
const BLOCKS: u32 = MOST_BLOCKS as u32;

/// A module.
#[derive(Drop)]
pub(crate) struct Module {
    /// Its name.
    pub name: Text,
    /// Its heap area with the blocks that live.
    pub heap: Heap,
    /// Its stack area, and whether it is killing.
    pub stack: StackArea,
    /// Whether it is dead.
    pub dead: bool,
    /// The spans on which it has rights.
    pub row: Spans,
}

/// All modules, in their order.
#[derive(Drop)]
pub(crate) struct Modules {
    /// Their names.
    pub names: Vec<Text>,
    /// Their heaps.
    pub heaps: Heaps,
    /// Their stack areas, and whether they are killing.
    pub stacks: Stacks,
    /// By domain whether it is dead.
    pub dead: [bool; MOST_DOMAINS],
    /// The spans on which each has rights.
    pub rows: Vec<Spans>,
}

/// A heap over an area, without blocks.
fn heap_over(alloc: Global, first: u32, count: u32) -> Result<Heap, SnapshotRefused>
    requires { first + count ≤ most_words }
    ensures heap { IfOk result (λ heap. heap
        ≡ record { area = record { first = first; count = count }; blocks = [] }) }
    ensures memory { IfErr result (λ refused. refused ≡ NoMemory) }
{
    match Heap::new(alloc, first, count) {
        Ok(heap) => Ok(heap),
        Err(_) => Err(SnapshotRefused::NoMemory),
    }
}

/// The next module, of which the name is none of these.
#[tactic(auto, unfolding(mx_snapshot::specs::Fields::module_in))]
fn read_module(
    alloc: Global,
    bytes: &[u8],
    at: &mut usize,
    head: &Head,
    names: &[Text],
) -> Result<Module, SnapshotRefused>
    requires { HasBounds head.now }
    ensures told { IfOk result (λ m. told_heap m.heap ≡ m.heap) }
    ensures taken { (before : List StoredModule) →
        names.now ≡ list_map (λ (m : StoredModule). m.name) before →
        TakesAs IsModuleOf (module_in (head_seen head.now) before bytes.now at.old)
        at.new result }
{
    let size = between(bytes, at, 1, 32)?;
    let spelled = new_name(bytes, at, size, names)?;
    let heap_first = number(bytes, at)?;
    let heap_count = heap_words(bytes, at, head.words, heap_first)?;
    let first = number(bytes, at)?;
    let words = stack_words(bytes, at, head.words, first, head.harts)?;
    let kills = flag(bytes, at)?;
    let dead = flag(bytes, at)?;
    let count = between(bytes, at, 0, BLOCKS)?;
    let mut heap = heap_over(alloc, heap_first, heap_count)?;
    restore_blocks(bytes, at, &mut heap, count)?;
    let runs = some_runs(bytes, at)?;
    let row = row(alloc, bytes, at, head, runs)?;
    let name = text(alloc, spelled)?;
    Ok(Module {
        name,
        heap,
        stack: StackArea {
            first,
            words,
            kills,
        },
        dead,
        row,
    })
}

impl Modules {
    /// No module.
    pub(crate) fn new(alloc: Global) -> Modules
        ensures { AreModulesOf [] result }
    {
        Modules {
            names: Vec::new(alloc),
            heaps: Heaps::new(),
            stacks: Stacks::new(),
            dead: [false; MOST_DOMAINS],
            rows: Vec::new(alloc),
        }
    }

    /// Adds a module, of the domain that comes next.
    fn push(&mut self, domain: u32, added: Module) -> Result<(), SnapshotRefused>
        requires domain { domain < most_domains }
        requires told { told_heap added.heap ≡ added.heap }
        requires those { (before : List StoredModule) × (length before + 1 ≡ domain)
            × AreModulesOf before self.old }
        ensures added { (before : List StoredModule) (m : StoredModule) →
            length before + 1 ≡ domain → AreModulesOf before self.old → IsModuleOf m added →
            OnOk result (AreModulesOf (before ++ m ∷ []) self.new) }
        ensures memory { IfErr result (λ refused. refused ≡ NoMemory) }
    {
        let Module {
            name,
            heap,
            stack,
            dead,
            row,
        } = added;
        self.heaps.push(heap);
        self.stacks.push(stack);
        self.dead[domain as usize] = dead;
        match self.names.push(name) {
            Ok(()) => {}
            Err(_) => return Err(SnapshotRefused::NoMemory),
        }
        match self.rows.push(row) {
            Ok(()) => {}
            Err(_) => return Err(SnapshotRefused::NoMemory),
        }
        Ok(())
    }
}

/// Adds all modules to none.
pub(crate) fn read_modules(
    alloc: Global,
    bytes: &[u8],
    at: &mut usize,
    head: &Head,
    modules: &mut Modules,
) -> Result<(), SnapshotRefused>
    requires bounds { HasBounds head.now }
    requires none { AreModulesOf [] modules.old }
    ensures { TakesAs (λ ms done. AreModulesOf ms modules.new)
        (list_of head.now.modules (module_in (head_seen head.now)) [] bytes.now at.old)
        at.new result }
{
    'modules: for i in 0..head.modules {
        let module = read_module(alloc, bytes, at, head, modules.names.as_slice())?;
        modules.push(i + 1, module)?;
    }
    Ok(())
}
