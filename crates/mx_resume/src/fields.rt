//! All fields of a snapshot, and the machine that they give.
ghost use Rattle.std.specs.Prelude.{◌≡◌, ℕ, [], ◌*◌, ◌-◌, ◌^◌, ◌≤◌, IfOk, IfErr, Ok};
ghost use Rattle.mx_words.specs.Ranges.{most_words};
ghost use Rattle.mx_any.specs.Machines.{meaning};
ghost use Rattle.mx_snapshot.specs.Fields.{fields_in, stored_in};
ghost use Rattle.mx_snapshot.specs.Fits.{IsStored};
ghost use Rattle.mx_snapshot.specs.Kept.{IsOfPlan};
ghost use Rattle.mx_snapshot.specs.Reader.{piece};
ghost use Rattle.mx_snapshot.specs.Stored.{Stored};
ghost use Rattle.mx_resume.specs.Goes.{AreFields, IsRead, Resumes};
ghost use Rattle.mx_resume.specs.Parts.{AreFieldsOf, AreModulesOf, fields_with};
ghost use Rattle.mx_resume.specs.Snapshot.{IsRefusedBy, IsResumed, snapshot_of};
ghost use Rattle.mx_resume.specs.Taking.{IsTaken, TakesAs};

use crate::building::{Held, build};
use crate::gates::read_gates;
use crate::harts::{ResumingHarts, read_harts};
use crate::head::{Head, read_head};
use crate::modules::{Modules, read_modules};
use crate::owners::read_owners;
use crate::reading::{between, fault, piece};
use crate::{Resumed, SnapshotRefused};
use mx_gates::Gates;
use mx_memory::Ram;
use mx_owners::Owners;
use mx_snapshot::Kept;
use mx_words::{Blob, MOST_GATES, MOST_OWNER_RUNS, MOST_SNAPSHOT_BYTES};
use std::alloc::Global;

/// The greatest number of gates, as a field.
const MOST: u32 = MOST_GATES as u32;

/// The greatest number of runs of owner, as a field.
const OWNER_RUNS: u32 = MOST_OWNER_RUNS as u32;

/// How many bytes a snapshot has at most that is read.
const MOST_BYTES: usize = MOST_SNAPSHOT_BYTES as usize;

/// All that a snapshot stores.
#[derive(Drop)]
pub(crate) struct Fields {
    /// The numbers at the head.
    pub head: Head,
    /// The modules.
    pub modules: Modules,
    /// The owners of all words.
    pub owners: Owners,
    /// The gates.
    pub gates: Gates,
    /// The harts.
    pub harts: ResumingHarts,
    /// RAM.
    pub ram: Ram,
}

/// All that a snapshot stores but the modules.
#[derive(Drop)]
pub(crate) struct Others {
    /// The numbers at the head.
    pub head: Head,
    /// The owners of all words.
    pub owners: Owners,
    /// The gates.
    pub gates: Gates,
    /// The harts.
    pub harts: ResumingHarts,
    /// RAM.
    pub ram: Ram,
}

/// RAM of so many words.
fn ram(alloc: Global, bytes: &[u8], at: &mut usize, words: u32) -> Result<Ram, SnapshotRefused>
    requires { words ≤ most_words }
    ensures { IsTaken (λ ram. ram) (piece (4 * words) bytes.now at.old) at.new result }
{
    let held = piece(bytes, at, 4 * words as usize)?;
    match Ram::of(alloc, held) {
        Ok(ram) => Ok(ram),
        Err(_) => Err(SnapshotRefused::NoMemory),
    }
}

/// All fields. The modules are added to none.
#[tactic(auto, unfolding(mx_snapshot::specs::Fields::fields_in))]
fn read_fields(
    alloc: Global,
    bytes: &[u8],
    at: &mut usize,
    modules: &mut Modules,
) -> Result<Others, SnapshotRefused>
    requires { AreModulesOf [] modules.old }
    ensures { TakesAs (λ s others. AreFieldsOf s (fields_with modules.new others))
        (fields_in bytes.now at.old) at.new result }
{
    let head = read_head(bytes, at)?;
    read_modules(alloc, bytes, at, &head, modules)?;
    let runs = between(bytes, at, 1, OWNER_RUNS)?;
    let owners = read_owners(alloc, bytes, at, &head, runs)?;
    let count = between(bytes, at, 0, MOST)?;
    let gates = read_gates(bytes, at, &head, count)?;
    let harts = read_harts(bytes, at, &head, &modules.heaps)?;
    let ram = ram(alloc, bytes, at, head.words)?;
    Ok(Others {
        head,
        owners,
        gates,
        harts,
        ram,
    })
}

/// All that is stored in the bytes of a file.
#[tactic(auto, unfolding(mx_snapshot::specs::Fields::stored_in))]
fn stored(alloc: Global, bytes: &[u8]) -> Result<Fields, SnapshotRefused>
    ensures { IsRead (stored_in bytes.now) result }
{
    if MOST_BYTES < bytes.len() {
        return Err(fault(0, 1));
    }
    let mut at = 0;
    let mut modules = Modules::new(alloc);
    let others = read_fields(alloc, bytes, &mut at, &mut modules)?;
    if at < bytes.len() {
        return Err(fault(at, 5));
    }
    let Others {
        head,
        owners,
        gates,
        harts,
        ram,
    } = others;
    Ok(Fields {
        head,
        modules,
        owners,
        gates,
        harts,
        ram,
    })
}

/// Machine and plan of what is stored.
fn resume(alloc: Global, fields: Fields) -> Result<Resumed, SnapshotRefused>
    requires { AreFields fields }
    ensures { (s : Stored) → IsStored s → AreFieldsOf s fields → Resumes s result }
{
    let Fields {
        head,
        modules,
        owners,
        gates,
        harts,
        ram,
    } = fields;
    let Modules {
        names,
        heaps,
        stacks,
        dead,
        rows,
    } = modules;
    let plan = Kept::new(head.kind, head.limit, head.lookaside, head.quantum, names);
    let held = Held {
        head,
        rows,
        heaps,
        stacks,
        dead,
        owners,
        gates,
        harts,
        ram,
    };
    let machine = build(alloc, held)?;
    Ok(Resumed { machine, plan })
}

/// The machine of a snapshot's bytes, and what is kept of its plan (docs/COMMANDS.md, "The snapshot"). It comes exactly
/// where the bytes
/// have none of the faults 1 to 5 and the maps that they store fit the limit that they store: the machine is then the
/// state that is
/// stored, with empty caches and no exit codes. A fault is the first one, with the place of its field, and faults come
/// before tables;
/// only `NoMemory` has no cause in the bytes.
pub fn read_snapshot(alloc: Global, bytes: &Blob) -> Result<Resumed, SnapshotRefused>
    ensures stored { IfOk result
        (λ r. (s : Stored) × (snapshot_of bytes.now ≡ Ok s) × IsResumed s r) }
    ensures of_plan { IfOk result (λ r. IsOfPlan r.plan (meaning r.machine)) }
    ensures turns { IfOk result (λ r. (meaning r.machine).core.turns ≤ 2 ^ 63 - 1) }
    ensures refused { IfErr result (IsRefusedBy (snapshot_of bytes.now)) }
{
    let fields = stored(alloc, bytes.as_slice())?;
    resume(alloc, fields)
}
