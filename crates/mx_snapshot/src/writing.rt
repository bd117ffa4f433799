//! Snapshots written. No call takes memory.
ghost use Rattle.std.specs.Prelude.{◌≡◌};
ghost use Rattle.mx_io.specs.Sink.{Puts};
ghost use Rattle.mx_any.specs.Machines.{meaning};
ghost use Rattle.mx_tail.specs.Tail.{Passes};
ghost use Rattle.mx_snapshot.specs.Kept.{IsOfPlan};
ghost use Rattle.mx_snapshot.specs.Spelling.{front_bytes, head_bytes, sign, spelling};
ghost use Rattle.mx_snapshot.specs.Stored.{head_of, stored_of};

use crate::Kept;
use crate::edges::put_owners;
use crate::harts::{put_gates, put_harts};
use crate::modules::put_modules;
use crate::numbers::{kind_number, put_bytes, put_long, put_numbers};
use mx_any::{AnyMachine, any_machine_is_valid};
use mx_io::{Failed, Sink, put_all};
use mx_tail::Tail;

/// The first eight bytes of a snapshot, by which it is told from RAM's bytes: MXSN, and the version 1.
const SIGN: [u8; 8] = [0x4D, 0x58, 0x53, 0x4E, 1, 0, 0, 0];

/// Writes a snapshot of a machine: all but exit codes, what caches keep and count, and what a run has shown and told
/// (docs/COMMANDS.md,
/// "The snapshot"). Quantum and names are those of the plan; kind, limit and size of the lookaside buffers are the
/// machine's, and the
/// plan has the same. RAM's bytes leave in one call, all before them in writes of 4096 bytes. `Failed` comes only where
/// the sink
/// failed, which then holds a prefix of the snapshot. Takes no memory.
pub fn write_snapshot<R: Sink>(
    sink: &mut R,
    machine: &AnyMachine,
    plan: &Kept,
) -> Result<(), Failed>
    requires { IsOfPlan plan.now (meaning machine.now) }
    ensures { Puts (R.state sink.old) (R.state sink.new)
        (spelling (stored_of plan.now (meaning machine.now))) result }
{
    put_front(sink, machine, plan)?;
    put_all(sink, ram_bytes(machine))
}

// Puts all fields before RAM's bytes.
fn put_front<R: Sink>(sink: &mut R, machine: &AnyMachine, plan: &Kept) -> Result<(), Failed>
    requires { IsOfPlan plan.now (meaning machine.now) }
    ensures { Puts (R.state sink.old) (R.state sink.new)
        (front_bytes (stored_of plan.now (meaning machine.now))) result }
{
    let mut tail = Tail::new();
    put_fields(&mut tail, sink, machine, plan)?;
    tail.end(sink)
}

fn put_fields<R: Sink>(
    tail: &mut Tail,
    sink: &mut R,
    machine: &AnyMachine,
    plan: &Kept,
) -> Result<(), Failed>
    requires { IsOfPlan plan.now (meaning machine.now) }
    ensures { Passes tail.old (R.state sink.old) (R.state sink.new) tail.new
        (front_bytes (stored_of plan.now (meaning machine.now))) result }
{
    put_head(tail, sink, machine, plan)?;
    put_modules(tail, sink, machine, plan)?;
    put_owners(tail, sink, machine)?;
    put_gates(tail, sink, machine)?;
    put_harts(tail, sink, machine)
}

#[tactic(auto, unfolding(crate::specs::Spelling::head_bytes))]
fn put_head<R: Sink>(
    tail: &mut Tail,
    sink: &mut R,
    machine: &AnyMachine,
    plan: &Kept,
) -> Result<(), Failed>
    requires { IsOfPlan plan.now (meaning machine.now) }
    ensures { Passes tail.old (R.state sink.old) (R.state sink.new) tail.new
        (head_bytes (head_of plan.now (meaning machine.now))) result }
{
    let limit = plan.limit();
    put_bytes(tail, sink, &SIGN)?;
    put_numbers(
        tail,
        sink,
        &[
            machine.words(),
            kind_number(plan.kind()),
            limit.upper,
            limit.leaf,
            limit.spill,
        ],
    )?;
    put_numbers(
        tail,
        sink,
        &[
            plan.lookaside(),
            plan.quantum(),
            machine.modules(),
            machine.harts(),
        ],
    )?;
    put_long(tail, sink, machine.steps())
}

/// RAM's bytes, from the first on.
pub fn ram_bytes(machine: &AnyMachine) -> &[u8]
    ensures { result.now ≡ (meaning machine.now).core.ram }
{
    any_machine_is_valid(machine);
    machine.bytes(0, 4 * machine.words())
}
