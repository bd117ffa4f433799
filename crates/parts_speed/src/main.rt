//! Times calls of the machine's parts: `parts_speed ROUNDS` prints to stdout what the calls answered, and to stderr the
//! processor time that so many calls of each kind took.
#![tactic(auto)]

ghost use Rattle.std.specs.Prelude.{◌≤◌};
ghost use Rattle.mx_words.specs.Limits.{most_modules};
ghost use Rattle.mx_supervisor.specs.Parts.{parts_of};
ghost use Rattle.mx_call_tests.specs.Calls.{IsAtRest};

mod caches;
mod calls;
mod gates;
mod heaps;
mod images;
mod owners;

use mx_packed::Packed;
use mx_supervisor::Supervisor;
use mx_table::PermTables;
use mx_trie::Trie;
use std::alloc::Global;
use std::time::{CpuClock, Duration};
use std::{env, io};

fn main(rt: HostRuntime) -> io::Result<()> {
    let mut args = env::args(&rt)?;
    let _name = args.next();
    let rounds = args.next().and_then(|word| word.parse::<u64>().ok());
    let Some(rounds) = rounds else {
        return eprintln!(rt; "parts_speed ROUNDS");
    };
    time_gates(&rt, rounds)?;
    time_lookasides(&rt, rounds)?;
    time_sidecars(&rt, rounds)?;
    time_owners(&rt, rt.alloc(), rounds)?;
    time_heaps(&rt, rt.alloc(), rounds)?;
    time_symbols(&rt, rt.alloc())?;
    for modules in [1, 15, 63] {
        time_calls(&rt, rt.alloc(), modules, rounds)?;
    }
    Ok(())
}

/// `target` at words without a gate, with no gate, with 256 elsewhere, and with 256 in the bucket of the words that are
/// looked
/// at; at words with a gate; and `add` of the oldest of 256 gates.
fn time_gates(rt: &(impl Print + Eprint + CpuClock), rounds: u64) -> io::Result<()> {
    for count in [0, 256] {
        let gates = gates::elsewhere(count);
        let words = gates::first_words();
        let begun = rt.thread_cpu_time()?;
        let found = gates::gates_found(&gates, 1, &words, rounds);
        let ended = rt.thread_cpu_time()?;
        println!(rt; "target with {count} gates elsewhere: {found} found")?;
        tell(rt, "target", rounds, begun, ended)?;
    }
    let mut between = [0; 256];
    let mut gates = gates::in_one_bucket(&mut between);
    let words = gates::words_of(&gates);
    let begun = rt.thread_cpu_time()?;
    let found = gates::gates_found(&gates, 2, &between, rounds);
    let half = rt.thread_cpu_time()?;
    let there = gates::gates_found(&gates, 2, &words, rounds);
    let ended = rt.thread_cpu_time()?;
    println!(rt; "target with 256 gates in the same bucket: {found} found")?;
    tell(rt, "target, worst layout", rounds, begun, half)?;
    println!(rt; "target at 256 gates: {there} found")?;
    tell(rt, "target at gates", rounds, half, ended)?;
    let begun = rt.thread_cpu_time()?;
    let added = gates::gates_added(&mut gates, rounds);
    let ended = rt.thread_cpu_time()?;
    println!(rt; "add of the oldest of 256 gates: {added} added")?;
    tell(rt, "add", rounds, begun, ended)
}

/// `keep` into a lookaside buffer of 8 and of 64 entries.
fn time_lookasides(rt: &(impl Print + Eprint + CpuClock), rounds: u64) -> io::Result<()> {
    let begun = rt.thread_cpu_time()?;
    let small = caches::entries_kept::<8>(rounds);
    let between = rt.thread_cpu_time()?;
    let large = caches::entries_kept::<64>(rounds);
    let ended = rt.thread_cpu_time()?;
    println!(rt; "keep with N of 8: {small} entries")?;
    tell(rt, "keep with N of 8", rounds, begun, between)?;
    println!(rt; "keep with N of 64: {large} entries")?;
    tell(rt, "keep with N of 64", rounds, between, ended)?;
    let begun = rt.thread_cpu_time()?;
    let moved = caches::entries_in_vector(rounds);
    let ended = rt.thread_cpu_time()?;
    println!(rt; "the same in a vector: {moved} entries")?;
    tell(rt, "the same in a vector", rounds, begun, ended)
}

/// A hit in a sidecar, and the emptying of all its places.
fn time_sidecars(rt: &(impl Print + Eprint + CpuClock), rounds: u64) -> io::Result<()> {
    let begun = rt.thread_cpu_time()?;
    let hits = caches::sidecar_hits(rounds);
    let between = rt.thread_cpu_time()?;
    let emptied = caches::hits_before_clear(rounds);
    let ended = rt.thread_cpu_time()?;
    println!(rt; "find in a sidecar: {hits} hits")?;
    tell(rt, "find in a sidecar", rounds, begun, between)?;
    println!(rt; "keep, find and clear of a sidecar: {emptied} hits")?;
    tell(
        rt,
        "keep, find and clear of a sidecar",
        rounds,
        between,
        ended,
    )
}

/// `owner` and `owns` at words drawn from all of RAM, with 1, 64 and 4096 runs of owners spread over it, and `give`
/// with 4096.
fn time_owners(
    rt: &(impl Print + Eprint + CpuClock),
    alloc: Global,
    rounds: u64,
) -> io::Result<()> {
    for (runs, run) in [(1, 16777216), (64, 262144), (4096, 4096)] {
        let Some(mut owners) = owners::spread(alloc, 16777216, run) else {
            return eprintln!(rt; "no memory");
        };
        let begun = rt.thread_cpu_time()?;
        let seen = owners::owners_seen(&owners, rounds);
        let between = rt.thread_cpu_time()?;
        let owned = owners::words_owned(&owners, rounds);
        let ended = rt.thread_cpu_time()?;
        println!(rt; "owner with {runs} runs: domain 1 seen {seen} times")?;
        tell(rt, "owner", rounds, begun, between)?;
        println!(rt; "owns with {runs} runs: {owned} words owned")?;
        tell(rt, "owns", rounds, between, ended)?;
        if runs == 4096 {
            let begun = rt.thread_cpu_time()?;
            let given = owners::words_given(&mut owners, rounds);
            let ended = rt.thread_cpu_time()?;
            println!(rt; "give with 4096 runs: {given} given")?;
            tell(rt, "give", rounds, begun, ended)?;
        }
    }
    Ok(())
}

/// `place`, `alloc` and `free`, `block` and `nth` of a heap with no block, and with 1023 and a hole of one word after
/// each.
fn time_heaps(rt: &(impl Print + Eprint + CpuClock), alloc: Global, rounds: u64) -> io::Result<()> {
    for blocks in [0, 1023] {
        let Some(mut heap) = heaps::with_holes(alloc, blocks) else {
            return eprintln!(rt; "no memory");
        };
        let begun = rt.thread_cpu_time()?;
        let places = heaps::places_found(&heap, rounds);
        let placed = rt.thread_cpu_time()?;
        let ends = heaps::blocks_ended(&mut heap, rounds);
        let made = rt.thread_cpu_time()?;
        let (begin, listed) = heaps::blocks_told(&heap, rounds);
        let ended = rt.thread_cpu_time()?;
        println!(rt; "place beside {blocks} blocks: {places} found")?;
        tell(rt, "place", rounds, begun, placed)?;
        println!(rt; "alloc and free beside {blocks} blocks: {ends} ended")?;
        tell(rt, "alloc and free", rounds, placed, made)?;
        println!(rt; "block and nth beside {blocks} blocks: {begin} begun, {listed} listed")?;
        tell(rt, "block and nth", rounds, made, ended)?;
    }
    Ok(())
}

/// `symbol` over 65535 symbols whose names differ from the one that is looked for in the last letter.
fn time_symbols(rt: &(impl Print + Eprint + CpuClock), alloc: Global) -> io::Result<()> {
    for letters in [16, 4000] {
        let (Some(bytes), Some(name)) = (
            images::image(alloc, 65535, letters),
            images::name(alloc, letters),
        ) else {
            return eprintln!(rt; "no memory");
        };
        let begun = rt.thread_cpu_time()?;
        let found = images::symbols_found(&bytes, &name, 4);
        let ended = rt.thread_cpu_time()?;
        println!(rt;
            "symbol with a name of {} letters: {found} found",
            name.len()
        )?;
        tell(rt, "symbol, 65535 symbols", 4, begun, ended)?;
    }
    Ok(())
}

/// Supervisor calls through `serve`, with so many modules over packed tables of 64 MiB of RAM.
fn time_calls(
    rt: &(impl Print + Eprint + CpuClock),
    alloc: Global,
    modules: u32,
    rounds: u64,
) -> io::Result<()>
    requires some { 1 ≤ modules }
    requires few { modules ≤ most_modules }
{
    let Some(mut machine) = calls::with_modules::<Trie<Packed>, 32>(alloc, modules) else {
        return eprintln!(rt; "no memory");
    };
    println!(rt; "with {modules} modules:")?;
    time_rights(rt, &mut machine, modules, rounds)?;
    time_others(rt, &mut machine, rounds)
}

/// A grant of a word to the last module, and `alloc` with `free` of 16 words and of a page, the latter a sixty-fourth
/// as often.
fn time_rights<T: PermTables, const N: usize>(
    rt: &(impl Print + Eprint + CpuClock),
    machine: &mut Supervisor<T, N>,
    modules: u32,
    rounds: u64,
) -> io::Result<()>
    requires { IsAtRest 0 1 (parts_of T.PermTables machine.old) }
    ensures { IsAtRest 0 1 (parts_of T.PermTables machine.new) }
{
    let begun = rt.thread_cpu_time()?;
    let granted = calls::grants_done(machine, modules, rounds);
    let between = rt.thread_cpu_time()?;
    let small = calls::blocks_ended(machine, 16, rounds);
    let ended = rt.thread_cpu_time()?;
    let large = calls::blocks_ended(machine, 1024, rounds / 64);
    let last = rt.thread_cpu_time()?;
    println!(rt; "grant of a word: {granted} done")?;
    tell(rt, "grant of a word", rounds, begun, between)?;
    println!(rt; "alloc and free of 16 words: {small} ended")?;
    tell(rt, "alloc and free of 16 words", rounds, between, ended)?;
    println!(rt; "alloc and free of 1024 words: {large} ended")?;
    tell(rt, "alloc and free of 1024 words", rounds / 64, ended, last)
}

/// A transfer of a word, a query and a self.
fn time_others<T: PermTables, const N: usize>(
    rt: &(impl Print + Eprint + CpuClock),
    machine: &mut Supervisor<T, N>,
    rounds: u64,
) -> io::Result<()>
    requires { IsAtRest 0 1 (parts_of T.PermTables machine.old) }
{
    let begun = rt.thread_cpu_time()?;
    let given = calls::transfers_done(machine, rounds);
    let between = rt.thread_cpu_time()?;
    let asked = calls::queries_answered(machine, rounds);
    let ended = rt.thread_cpu_time()?;
    let told = calls::selves_told(machine, rounds);
    let last = rt.thread_cpu_time()?;
    println!(rt; "transfer of a word: {given} done")?;
    tell(rt, "transfer of a word", rounds, begun, between)?;
    println!(rt; "query: {asked} answered")?;
    tell(rt, "query", rounds, between, ended)?;
    println!(rt; "self: {told} answered")?;
    tell(rt, "self", rounds, ended, last)
}

/// One line of costs.
fn tell(
    rt: &impl Eprint,
    what: &str,
    rounds: u64,
    begun: Duration,
    ended: Duration,
) -> io::Result<()> {
    let taken = ended.checked_sub(begun).unwrap_or_default();
    eprintln!(rt;
        "{what}: rounds={rounds} microseconds={}",
        taken.as_micros()
    )
}
