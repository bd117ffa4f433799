//! The maximal runs of permissions and of owners, found from edge to edge.
ghost use Rattle.std.specs.Prelude.{◌≡◌, ◌<◌, ◌≤◌, ◌==◌, length, flat_map};
ghost use Rattle.mx_any.specs.Machines.{meaning};
ghost use Rattle.mx_model.specs.Reads.{map_in};
ghost use Rattle.mx_model.specs.Valid.{IsModule};
ghost use Rattle.mx_tail.specs.Tail.{Passes};
ghost use Rattle.mx_words.specs.Ranges.{most_words};
ghost use Rattle.mx_words.specs.Rights.{same};
ghost use Rattle.mx_words.specs.Runs.{runs_of};
ghost use Rattle.mx_snapshot.specs.Spelling.{counted, map_run_bytes, owner_run_bytes};
ghost use Rattle.mx_snapshot.specs.Stored.{owner_runs_of, perm_runs_of, run_with};

use crate::numbers::put_numbers;
use mx_any::{AnyMachine, any_machine_is_valid};
use mx_io::{Failed, Sink};
use mx_tail::Tail;
use mx_words::Perm;

/// Puts how many maximal runs a domain's map has, and each.
#[tactic(auto, unfolding(crate::specs::Spelling::counted))]
pub(crate) fn put_map<R: Sink>(
    tail: &mut Tail,
    sink: &mut R,
    machine: &AnyMachine,
    domain: u32,
) -> Result<(), Failed>
    requires { IsModule (length (meaning machine.now).core.modules) domain }
    ensures { Passes tail.old (R.state sink.old) (R.state sink.new) tail.new
        (counted map_run_bytes (perm_runs_of (meaning machine.now) domain)) result }
{
    put_numbers(tail, sink, &[count_map_runs(machine, domain)])?;
    put_map_runs(tail, sink, machine, domain)
}

fn count_map_runs(machine: &AnyMachine, domain: u32) -> u32
    requires { IsModule (length (meaning machine.now).core.modules) domain }
    ensures { result ≡ length (perm_runs_of (meaning machine.now) domain) }
{
    any_machine_is_valid(machine);
    let mut count = 0;
    let mut word = 0;
    'runs: while word < machine.words() {
        word = machine.perm_end(domain, word);
        count += 1;
    }
    count
}

fn put_map_runs<R: Sink>(
    tail: &mut Tail,
    sink: &mut R,
    machine: &AnyMachine,
    domain: u32,
) -> Result<(), Failed>
    requires { IsModule (length (meaning machine.now).core.modules) domain }
    ensures { Passes tail.old (R.state sink.old) (R.state sink.new) tail.new
        (flat_map map_run_bytes (perm_runs_of (meaning machine.now) domain)) result }
{
    any_machine_is_valid(machine);
    let mut word = 0;
    'runs: while word < machine.words() {
        let end = machine.perm_end(domain, word);
        put_map_run(tail, sink, end - word, machine.perm(domain, word))?;
        word = end;
    }
    Ok(())
}

#[tactic(auto, unfolding(crate::specs::Spelling::map_run_bytes))]
fn put_map_run<R: Sink>(tail: &mut Tail, sink: &mut R, count: u32, perm: Perm) -> Result<(), Failed>
    requires { count ≤ most_words }
    ensures { Passes tail.old (R.state sink.old) (R.state sink.new) tail.new
        (map_run_bytes (run_with count perm)) result }
{
    put_numbers(tail, sink, &[4 * count + perm.number()])
}

/// Puts how many maximal runs of one owner there are, and each.
#[tactic(auto, unfolding(crate::specs::Spelling::counted))]
pub(crate) fn put_owners<R: Sink>(
    tail: &mut Tail,
    sink: &mut R,
    machine: &AnyMachine,
) -> Result<(), Failed>
    ensures { Passes tail.old (R.state sink.old) (R.state sink.new) tail.new
        (counted owner_run_bytes (owner_runs_of (meaning machine.now))) result }
{
    put_numbers(tail, sink, &[count_owner_runs(machine)])?;
    put_owner_runs(tail, sink, machine)
}

fn count_owner_runs(machine: &AnyMachine) -> u32
    ensures { result ≡ length (owner_runs_of (meaning machine.now)) }
{
    any_machine_is_valid(machine);
    let mut count = 0;
    let mut word = 0;
    'runs: while word < machine.words() {
        word = machine.owner_end(word);
        count += 1;
    }
    count
}

fn put_owner_runs<R: Sink>(
    tail: &mut Tail,
    sink: &mut R,
    machine: &AnyMachine,
) -> Result<(), Failed>
    ensures { Passes tail.old (R.state sink.old) (R.state sink.new) tail.new
        (flat_map owner_run_bytes (owner_runs_of (meaning machine.now))) result }
{
    any_machine_is_valid(machine);
    let mut word = 0;
    'runs: while word < machine.words() {
        let end = machine.owner_end(word);
        put_owner_run(tail, sink, end - word, machine.owner(word))?;
        word = end;
    }
    Ok(())
}

#[tactic(auto, unfolding(crate::specs::Spelling::owner_run_bytes))]
fn put_owner_run<R: Sink>(
    tail: &mut Tail,
    sink: &mut R,
    count: u32,
    owner: u32,
) -> Result<(), Failed>
    ensures { Passes tail.old (R.state sink.old) (R.state sink.new) tail.new
        (owner_run_bytes (run_with count owner)) result }
{
    put_numbers(tail, sink, &[count, owner])
}
