//! The modules of a snapshot.
ghost use Rattle.std.specs.Prelude.{◌≡◌, ◌≤◌, length, flat_map};
ghost use Rattle.std.specs.List.{range_with_len};
ghost use Rattle.mx_any.specs.Machines.{meaning};
ghost use Rattle.mx_heap.specs.HeapState.{area_of};
ghost use Rattle.mx_model.specs.State.{module_at};
ghost use Rattle.mx_model.specs.Valid.{IsModule};
ghost use Rattle.mx_tail.specs.Tail.{Passes};
ghost use Rattle.mx_words.specs.FirstFit.{most_blocks};
ghost use Rattle.mx_snapshot.specs.Kept.{IsOfPlan};
ghost use Rattle.mx_snapshot.specs.Spelling.{area_bytes, block_bytes, counted, flag_bytes, module_bytes, name_bytes};
ghost use Rattle.mx_snapshot.specs.Stored.{named_module, stored_module};

use crate::Kept;
use crate::edges::put_map;
use crate::numbers::{bit, put_bytes, put_numbers};
use mx_any::{AnyMachine, any_machine_is_valid};
use mx_heap::Block;
use mx_io::{Failed, Sink};
use mx_tail::Tail;

/// Puts each module under the name that is kept of a plan.
pub(crate) fn put_modules<R: Sink>(
    tail: &mut Tail,
    sink: &mut R,
    machine: &AnyMachine,
    plan: &Kept,
) -> Result<(), Failed>
    requires { IsOfPlan plan.now (meaning machine.now) }
    ensures { Passes tail.old (R.state sink.old) (R.state sink.new) tail.new
        (flat_map (λ d. module_bytes (named_module plan.now.names (meaning machine.now) d))
        (range_with_len 1 (length (meaning machine.now).core.modules))) result }
{
    for i in 0..machine.modules() {
        put_module(tail, sink, machine, i + 1, plan.name(i))?;
    }
    Ok(())
}

#[tactic(auto, unfolding(crate::specs::Spelling::module_bytes))]
fn put_module<R: Sink>(
    tail: &mut Tail,
    sink: &mut R,
    machine: &AnyMachine,
    domain: u32,
    name: &str,
) -> Result<(), Failed>
    requires domain { IsModule (length (meaning machine.now).core.modules) domain }
    requires name { length name.now ≤ 32 }
    ensures { Passes tail.old (R.state sink.old) (R.state sink.new) tail.new
        (module_bytes (stored_module name.now (meaning machine.now) domain)) result }
{
    put_name(tail, sink, name)?;
    put_areas(tail, sink, machine, domain)?;
    put_flags(tail, sink, machine, domain)?;
    put_blocks(tail, sink, machine, domain)?;
    put_map(tail, sink, machine, domain)
}

#[tactic(auto, unfolding(crate::specs::Spelling::name_bytes))]
fn put_name<R: Sink>(tail: &mut Tail, sink: &mut R, name: &str) -> Result<(), Failed>
    requires { length name.now ≤ 32 }
    ensures { Passes tail.old (R.state sink.old) (R.state sink.new) tail.new
        (name_bytes name.now) result }
{
    put_numbers(tail, sink, &[name.len() as u32])?;
    put_bytes(tail, sink, name.as_bytes())
}

// Puts the heap area and the stack area of a domain.
#[tactic(auto, unfolding(crate::specs::Spelling::area_bytes))]
fn put_areas<R: Sink>(
    tail: &mut Tail,
    sink: &mut R,
    machine: &AnyMachine,
    domain: u32,
) -> Result<(), Failed>
    requires { IsModule (length (meaning machine.now).core.modules) domain }
    ensures { Passes tail.old (R.state sink.old) (R.state sink.new) tail.new
        (area_bytes (module_at (meaning machine.now).core domain)) result }
{
    let heap = machine.heap_area(domain);
    let stack = machine.stack_area(domain);
    put_numbers(
        tail,
        sink,
        &[heap.first, heap.count, stack.first, stack.words],
    )
}

// Puts whether a domain is killing, and whether it is dead.
#[tactic(auto, unfolding(crate::specs::Spelling::flag_bytes))]
fn put_flags<R: Sink>(
    tail: &mut Tail,
    sink: &mut R,
    machine: &AnyMachine,
    domain: u32,
) -> Result<(), Failed>
    requires { IsModule (length (meaning machine.now).core.modules) domain }
    ensures { Passes tail.old (R.state sink.old) (R.state sink.new) tail.new
        (flag_bytes (module_at (meaning machine.now).core domain)) result }
{
    let kills = bit(machine.kills(domain));
    let dead = bit(machine.dead(domain));
    put_numbers(tail, sink, &[kills, dead])
}

// Puts how many live blocks a domain has, and each by address.
#[tactic(auto, unfolding(crate::specs::Spelling::counted))]
fn put_blocks<R: Sink>(
    tail: &mut Tail,
    sink: &mut R,
    machine: &AnyMachine,
    domain: u32,
) -> Result<(), Failed>
    requires { IsModule (length (meaning machine.now).core.modules) domain }
    ensures { Passes tail.old (R.state sink.old) (R.state sink.new) tail.new
        (counted block_bytes (module_at (meaning machine.now).core domain).blocks) result }
{
    put_numbers(tail, sink, &[count_blocks(machine, domain)])?;
    put_block_list(tail, sink, machine, domain)
}

fn count_blocks(machine: &AnyMachine, domain: u32) -> u32
    requires { IsModule (length (meaning machine.now).core.modules) domain }
    ensures { result ≡ length (module_at (meaning machine.now).core domain).blocks }
{
    any_machine_is_valid(machine);
    let mut count = 0;
    'live: while machine.block(domain, count).is_some() {
        count += 1;
    }
    count
}

fn put_block_list<R: Sink>(
    tail: &mut Tail,
    sink: &mut R,
    machine: &AnyMachine,
    domain: u32,
) -> Result<(), Failed>
    requires { IsModule (length (meaning machine.now).core.modules) domain }
    ensures { Passes tail.old (R.state sink.old) (R.state sink.new) tail.new
        (flat_map block_bytes (module_at (meaning machine.now).core domain).blocks) result }
{
    any_machine_is_valid(machine);
    let mut i = 0;
    'live: while let Some(block) = machine.block(domain, i) {
        put_block(tail, sink, block)?;
        i += 1;
    }
    Ok(())
}

#[tactic(auto, unfolding(crate::specs::Spelling::block_bytes))]
fn put_block<R: Sink>(tail: &mut Tail, sink: &mut R, block: Block) -> Result<(), Failed>
    ensures { Passes tail.old (R.state sink.old) (R.state sink.new) tail.new
        (block_bytes (area_of block)) result }
{
    put_numbers(tail, sink, &[block.first, block.count])
}
