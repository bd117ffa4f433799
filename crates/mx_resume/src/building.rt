//! The machine over the parts that a snapshot stores.
ghost use Rattle.std.specs.Prelude.{◌≡◌, ◌≤◌, All, length, IfOk, IfErr, IsTrue};
ghost use Rattle.std.specs.Prelude.{map as list_map};
ghost use Rattle.mx_words.specs.Need.{fits};
ghost use Rattle.mx_table.specs.Tables.{IsRow, row_map};
ghost use Rattle.mx_check.specs.Calls.{waiting_harts};
ghost use Rattle.mx_model.specs.State.{flat};
ghost use Rattle.mx_supervisor.specs.Parts.{parts_of};
ghost use Rattle.mx_any.specs.Machines.{meaning};
ghost use Rattle.mx_snapshot.specs.Fits.{IsStored};
ghost use Rattle.mx_snapshot.specs.Resumed.{state_of};
ghost use Rattle.mx_snapshot.specs.Stored.{Stored};
ghost use Rattle.mx_resume.specs.Extents.{HasBounds};
ghost use Rattle.mx_resume.specs.Goes.{AreParts, GivesParts, GoesFrom, GoesOn};
ghost use Rattle.mx_resume.specs.Goes.{IsHeld, IsOverfull, JoinsAs, MayFly, MayGo, MayJoin};
ghost use Rattle.mx_resume.specs.Parts.{AreHeldOf};

use crate::SnapshotRefused;
use crate::harts::ResumingHarts;
use crate::head::Head;
use mx_any::AnyMachine;
use mx_check::Checker;
use mx_gates::Gates;
use mx_machine::{HartStates, Machine, Stacks};
use mx_memory::Ram;
use mx_owners::Owners;
use mx_packed::Packed;
use mx_segments::Segments;
use mx_supervisor::{Heaps, Supervisor};
use mx_table::{BuildRefused, PermTables};
use mx_trie::{Trie, Vector};
use mx_words::{Kind, MOST_DOMAINS, Spans};
use std::alloc::Global;

/// All that is stored but the names of modules.
#[derive(Drop)]
pub(crate) struct Held {
    /// The numbers at the head.
    pub head: Head,
    /// The spans on which each module has rights.
    pub rows: Vec<Spans>,
    /// The heaps of all modules.
    pub heaps: Heaps,
    /// The stack areas of all modules, and whether they are killing.
    pub stacks: Stacks,
    /// By domain whether it is dead.
    pub dead: [bool; MOST_DOMAINS],
    /// The owners of all words.
    pub owners: Owners,
    /// The gates.
    pub gates: Gates,
    /// The harts.
    pub harts: ResumingHarts,
    /// RAM.
    pub ram: Ram,
}

/// The tables of the rows, or what they need, where that exceeds the limit.
fn tables<T: PermTables>(alloc: Global, head: &Head, rows: &[Spans]) -> Result<T, SnapshotRefused>
    requires bounds { HasBounds head.now }
    requires count { length rows.now ≡ head.now.modules }
    requires each { All (IsRow head.now.words) rows.now }
    ensures maps { IfOk result (λ t. T.maps t ≡ list_map (row_map head.now.words) rows.now) }
    ensures size { IfOk result (λ t. T.size t ≡ head.now.words) }
    ensures limit { IfOk result (λ t. T.limits t ≡ head.now.limit) }
    ensures fits { IfOk result (λ t. IsTrue (fits T.kind head.now.limit (T.maps t))) }
    ensures refused { IfErr result (IsOverfull T.kind head.now.limit
        (list_map (row_map head.now.words) rows.now)) }
{
    let limit = head.limit;
    match T::build(alloc, head.words, rows, limit) {
        Ok(tables) => Ok(tables),
        Err(BuildRefused::TablesFull { need }) => Err(SnapshotRefused::TablesFull { need, limit }),
        Err(BuildRefused::NoMemory) => Err(SnapshotRefused::NoMemory),
    }
}

/// A checker over tables, in which the harts that wait have their calls in flight.
fn check_on<T: PermTables, const N: usize>(
    tables: T,
    head: &Head,
    harts: &ResumingHarts,
) -> Checker<T, N>
    requires { MayFly (T.size tables) N head.now harts.now.flights }
    ensures { result ≡ record {
      tables = tables;
      harts = waiting_harts harts.now.flights head.now.harts;
    } }
{
    Checker::resume(tables, head.harts, &harts.flights)
}

/// A supervisor over the parts that a snapshot gives.
fn join_on<T: PermTables, const N: usize>(
    checker: Checker<T, N>,
    ram: Ram,
    owners: Owners,
    gates: Gates,
    heaps: Heaps,
) -> Supervisor<T, N>
    requires { AreParts (parts_of {N = N} T.PermTables
        (record {
          checker = checker;
          ram = ram;
          owners = owners;
          gates = gates;
          heaps = heaps;
        })) }
    ensures { result ≡ record {
      checker = checker;
      ram = ram;
      owners = owners;
      gates = gates;
      heaps = heaps;
    } }
{
    Supervisor::new(checker, ram, owners, gates, heaps)
}

/// The machine over a supervisor, with the harts, the stack areas, the dead domains and the turns that a snapshot
/// gives.
fn go_on<T: PermTables, const N: usize>(
    parts: Supervisor<T, N>,
    states: &HartStates,
    stacks: &Stacks,
    dead: &[bool; MOST_DOMAINS],
    turns: u64,
) -> Machine<T, N>
    requires { MayGo (parts_of T.PermTables parts) states.now stacks.now dead.now turns }
    ensures { (s : Stored) → GoesFrom s (parts_of T.PermTables parts)
        states.now stacks.now dead.now turns → result ≡ flat (state_of s) }
{
    Machine::resume(parts, states, stacks, dead, turns)
}

/// The parts of the machine over tables of a kind, joined; or what the tables need, where that exceeds the limit.
fn join<T: PermTables, const N: usize>(
    alloc: Global,
    head: &Head,
    rows: Vec<Spans>,
    harts: &ResumingHarts,
    ram: Ram,
    owners: Owners,
    gates: Gates,
    heaps: Heaps,
) -> Result<Supervisor<T, N>, SnapshotRefused>
    requires held { MayJoin head.now rows.items harts.now ram owners gates heaps }
    requires kind { T.kind ≡ head.now.kind }
    requires buffer { N ≡ head.now.lookaside }
    ensures { (s : Stored) → GivesParts s head.now rows.items harts.now ram owners gates heaps →
        JoinsAs (λ p. parts_of T.PermTables p) s result }
{
    match tables::<T>(alloc, head, rows.as_slice()) {
        Ok(tables) => {
            let checker = check_on::<T, N>(tables, head, harts);
            Ok(join_on(checker, ram, owners, gates, heaps))
        }
        Err(refused) => Err(refused),
    }
}

/// The machine of a variant, over tables of a type with lookaside buffers of a size.
macro_rules! made {
    ($variant:ident, $tables:ty, $buffer:literal, $alloc:expr, $held:expr) => {{
        let Held {
            head,
            rows,
            heaps,
            stacks,
            dead,
            owners,
            gates,
            harts,
            ram,
        } = $held;
        match join::<$tables, $buffer>($alloc, &head, rows, &harts, ram, owners, gates, heaps) {
            Ok(parts) => Ok(AnyMachine::$variant(go_on(
                parts,
                &harts.states,
                &stacks,
                &dead,
                head.turns,
            ))),
            Err(refused) => Err(refused),
        }
    }};
}

/// The machine over segments.
fn with_segments(alloc: Global, held: Held) -> Result<AnyMachine, SnapshotRefused>
    requires held { IsHeld held }
    requires kind { held.head.kind ≡ Kind.Segments }
    ensures { (s : Stored) → IsStored s → AreHeldOf s held → GoesOn meaning s result }
{
    match held.head.lookaside {
        8 => made!(Segments8, Segments, 8, alloc, held),
        32 => made!(Segments32, Segments, 32, alloc, held),
        _ => made!(Segments64, Segments, 64, alloc, held),
    }
}

/// The machine over multilevel tables.
fn with_multilevel(alloc: Global, held: Held) -> Result<AnyMachine, SnapshotRefused>
    requires held { IsHeld held }
    requires kind { held.head.kind ≡ Kind.Multilevel }
    ensures { (s : Stored) → IsStored s → AreHeldOf s held → GoesOn meaning s result }
{
    match held.head.lookaside {
        8 => made!(Multilevel8, Trie<Vector>, 8, alloc, held),
        32 => made!(Multilevel32, Trie<Vector>, 32, alloc, held),
        _ => made!(Multilevel64, Trie<Vector>, 64, alloc, held),
    }
}

/// The machine over packed tables.
fn with_packed(alloc: Global, held: Held) -> Result<AnyMachine, SnapshotRefused>
    requires held { IsHeld held }
    requires kind { held.head.kind ≡ Kind.Packed }
    ensures { (s : Stored) → IsStored s → AreHeldOf s held → GoesOn meaning s result }
{
    match held.head.lookaside {
        8 => made!(Packed8, Trie<Packed>, 8, alloc, held),
        32 => made!(Packed32, Trie<Packed>, 32, alloc, held),
        _ => made!(Packed64, Trie<Packed>, 64, alloc, held),
    }
}

/// The machine over tables of the kind that is stored.
pub(crate) fn build(alloc: Global, held: Held) -> Result<AnyMachine, SnapshotRefused>
    requires { IsHeld held }
    ensures { (s : Stored) → IsStored s → AreHeldOf s held → GoesOn meaning s result }
{
    match held.head.kind {
        Kind::Segments => with_segments(alloc, held),
        Kind::Multilevel => with_multilevel(alloc, held),
        Kind::Packed => with_packed(alloc, held),
    }
}
