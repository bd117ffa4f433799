//! The command `twin`: two manifests boot, and their machines make the same turns side by side.

ghost use Rattle.std.specs.Prelude.{◌≡◌, ◌<◌, ◌≤◌, ◌^◌, true, false, length, Some, None, IfSome};
ghost use Rattle.mx_any.specs.Machines.{meaning};
ghost use Rattle.mx_io.specs.Sink.{SinkState};
ghost use Rattle.mx_model.specs.State.{State, flat};
ghost use Rattle.mx_model.specs.Valid.{IsModule};
ghost use Rattle.mx_turns.specs.Ends.{sinks};
ghost use Rattle.mx_twin.specs.Lines.{twin_line};
ghost use Rattle.mx_twin.specs.Turns.{AreAlike};
ghost use Rattle.mx_twin.specs.Twins.{twins};
ghost use Rattle.mx_commands.specs.Asked.{pair_asked};
ghost use Rattle.mx_commands.specs.Booting.{IsOfSize};
ghost use Rattle.mx_commands.specs.Commands.{after_first, comparing};
ghost use Rattle.mx_commands.specs.Compared.{alike, compared, first_unlike, is_domain};
ghost use Rattle.mx_commands.specs.Next.{reported};
ghost use Rattle.mx_commands.specs.Ends.{Continues, Ends};

use crate::booting::{Booted, take_boot};
use crate::order::Pair;
use crate::refusal::refuse;
use crate::side::Side;
use crate::status::Status;
use mx_any::AnyMachine;
use mx_io::{Failed, Sink, Store};
use mx_manifest::{Key, Plan};
use mx_turns::Steps;
use mx_twin::{run_twin, twin_line};
use std::alloc::Global;

/// Boots two manifests, one after the other, and compares what a domain sees of their machines after each turn. The
/// report is one line: that they stay alike, where they first differ, or the refusal, as `Unlike` or `NoDomain`. Where
/// memory is wanting nothing is written.
pub fn compare_manifests<S: Store, R: Sink>(
    alloc: Global,
    pair: &Pair<'_>,
    store: &mut S,
    report: &mut R,
) -> Status
    ensures { (console dump : SinkState) →
        Continues (comparing (pair_asked pair.now)) S.gives store.old store.new
        (sinks console (R.state report.old) dump) (sinks console (R.state report.new) dump) result }
{
    match take_boot(alloc, Side::First, pair.first, store, report) {
        Ok(first) => compare_with(alloc, pair, first, store, report),
        Err(status) => status,
    }
}

// Boots the second manifest, and compares its machine with the first one.
fn compare_with<S: Store, R: Sink>(
    alloc: Global,
    pair: &Pair<'_>,
    first: Booted,
    store: &mut S,
    report: &mut R,
) -> Status
    requires size { IsOfSize first.plan (meaning first.machine) }
    ensures { (s : State) → meaning first.machine ≡ flat s → (console dump : SinkState) →
        Continues (after_first (pair_asked pair.now) first.plan s) S.gives store.old store.new
        (sinks console (R.state report.old) dump) (sinks console (R.state report.new) dump) result }
{
    match take_boot(alloc, Side::Second, pair.second, store, report) {
        Ok(second) => compare_booted(pair, first, second, report),
        Err(status) => {
            let Booted { plan: _, machine } = first;
            machine.end();
            status
        }
    }
}

// Compares two machines at boot, which end then.
fn compare_booted<R: Sink>(pair: &Pair<'_>, first: Booted, second: Booted, report: &mut R) -> Status
    requires size { IsOfSize first.plan (meaning first.machine) }
    requires second { IsOfSize second.plan (meaning second.machine) }
    ensures { (s t : State) → meaning first.machine ≡ flat s → meaning second.machine ≡ flat t →
        (console dump : SinkState) → Ends (compared (pair_asked pair.now) first.plan s second.plan t)
        (sinks console (R.state report.old) dump) (sinks console (R.state report.new) dump) result }
{
    let Booted { plan, mut machine } = first;
    let Booted {
        plan: other,
        machine: mut twin,
    } = second;
    let status = compare_plans(pair, &plan, &other, &mut machine, &mut twin, report);
    machine.end();
    twin.end();
    status
}

// Compares two machines at boot, or refuses plans that differ.
fn compare_plans<R: Sink>(
    pair: &Pair<'_>,
    plan: &Plan,
    other: &Plan,
    machine: &mut AnyMachine,
    twin: &mut AnyMachine,
    report: &mut R,
) -> Status
    requires size { IsOfSize plan.now (meaning machine.old) }
    requires second { IsOfSize other.now (meaning twin.old) }
    ensures { (s t : State) → meaning machine.old ≡ flat s → meaning twin.old ≡ flat t →
        (console dump : SinkState) → Ends (compared (pair_asked pair.now) plan.now s other.now t)
        (sinks console (R.state report.old) dump) (sinks console (R.state report.new) dump) result }
{
    match first_unlike(plan, other) {
        Some(key) => refuse(report, "", Status::Unlike(key)),
        None => compare_alike(pair, plan, machine, twin, report),
    }
}

// Compares two machines at boot whose plans are alike, where the domain is one of theirs.
fn compare_alike<R: Sink>(
    pair: &Pair<'_>,
    plan: &Plan,
    machine: &mut AnyMachine,
    twin: &mut AnyMachine,
    report: &mut R,
) -> Status
    requires alike { AreAlike (meaning machine.old) (meaning twin.old) }
    requires size { IsOfSize plan.now (meaning machine.old) }
    requires unmoved { (meaning twin.old).core.turns ≡ 0 }
    ensures { (s t : State) → meaning machine.old ≡ flat s → meaning twin.old ≡ flat t →
        (console dump : SinkState) → Ends (alike (pair_asked pair.now) plan.now s t)
        (sinks console (R.state report.old) dump) (sinks console (R.state report.new) dump) result }
{
    match domain_of(plan, pair.domain) {
        Some(domain) => watch(machine, twin, domain, plan.quantum(), pair.steps, report),
        None => refuse(report, "", Status::NoDomain),
    }
}

// Makes the turns of two machines side by side, and writes where a domain first sees a difference.
fn watch<R: Sink>(
    machine: &mut AnyMachine,
    twin: &mut AnyMachine,
    domain: u32,
    quantum: u32,
    steps: Steps,
    report: &mut R,
) -> Status
    requires alike { AreAlike (meaning machine.old) (meaning twin.old) }
    requires domain { IsModule (length (meaning machine.old).core.modules) domain }
    requires quantum { 1 ≤ quantum }
    requires first { (meaning machine.old).core.turns ≡ 0 }
    requires second { (meaning twin.old).core.turns ≡ 0 }
    ensures { (console dump : SinkState) → Ends (reported (twin_line steps.count
        (twins domain quantum steps.count (meaning machine.old) (meaning twin.old))))
        (sinks console (R.state report.old) dump) (sinks console (R.state report.new) dump) result }
{
    let end = run_twin(machine, twin, domain, quantum, steps.count);
    match twin_line(report, steps.count, end) {
        Ok(()) => Status::Ran,
        Err(Failed) => Status::ReportFault,
    }
}

// The domain of a module that has this number.
fn domain_of(plan: &Plan, number: u64) -> Option<u32>
    ensures none { result ≡ None → is_domain plan.now number ≡ false }
    ensures some { IfSome result (λ d. (d ≡ number) × (is_domain plan.now number ≡ true)
        × IsModule (length plan.now.modules) d) }
{
    if number >= 1 && number <= plan.modules() as u64 {
        Some(number as u32)
    } else {
        None
    }
}

// The first key in which two plans differ that have to agree in it.
fn first_unlike(a: &Plan, b: &Plan) -> Option<Key>
    ensures { result ≡ first_unlike a.now b.now }
{
    if a.ram_kib() != b.ram_kib() {
        Some(Key::RamKib)
    } else if a.quantum() != b.quantum() {
        Some(Key::Quantum)
    } else if a.modules() != b.modules() {
        Some(Key::Module)
    } else if a.harts() != b.harts() {
        Some(Key::Hart)
    } else {
        None
    }
}
