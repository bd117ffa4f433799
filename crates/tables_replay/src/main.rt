//! Replays random changes of rights on the tables of each kind and on plain lists, and compares what both answer. It
//! prints a line for
//! each replay, where the three numbers of a limit and a need are those of upper frames, leaf frames and spill words.
//! It ends with
//! status 1 where an answer differs.
#![tactic(auto)]

ghost use Rattle.std.specs.Prelude.{◌≡◌, ◌<◌, ◌≤◌};
ghost use Rattle.mx_table.specs.Tables.{most_words, most_modules, IsLimit};

mod changes;
mod mix;
mod numbers;
mod places;
mod replay;
mod rows;
mod sides;
mod tally;

use mix::Mix;
use mx_packed::Packed;
use mx_plain::{AsMultilevel, AsPacked, AsSegments, PlainTables};
use mx_segments::Segments;
use mx_table::PermTables;
use mx_trie::{Trie, Vector};
use mx_words::Need;
use replay::Replay;
use std::alloc::Global;
use std::io;
use std::process::ExitCode;
use tally::Parts;

/// A limit that no replay reaches.
const AMPLE: Need = Need {
    upper: 4096,
    leaf: 4096,
    spill: 4096,
};

fn main(rt: HostRuntime) -> ExitCode {
    match kinds(&rt, rt.alloc()) {
        Ok(true) => ExitCode::SUCCESS,
        _ => ExitCode::FAILURE,
    }
}

/// All replays. The answer is whether none differed.
fn kinds(rt: &impl Print, alloc: Global) -> io::Result<bool> {
    Ok(segments(rt, alloc)? && multilevel(rt, alloc)? && replay_packed(rt, alloc)?)
}

/// The replays of segment tables: all need is for leaf frames.
fn segments(rt: &impl Print, alloc: Global) -> io::Result<bool> {
    let replays = replays(need(0, 8, 0), need(0, 4, 0), huge(8, AMPLE));
    tell::<Segments, PlainTables<AsSegments>>(rt, alloc, "segments", &replays)
}

/// The replays of tries with plain entries, which need no spill words.
fn multilevel(rt: &impl Print, alloc: Global) -> io::Result<bool> {
    let replays = replays(need(7, 36, 0), need(5, 9, 0), huge(20, need(5, 8, 0)));
    tell::<Trie<Vector>, PlainTables<AsMultilevel>>(rt, alloc, "multilevel", &replays)
}

/// The replays of tries with packed entries.
fn replay_packed(rt: &impl Print, alloc: Global) -> io::Result<bool> {
    let replays = replays(need(7, 40, 12), need(5, 9, 6), huge(20, AMPLE));
    tell::<Trie<Packed>, PlainTables<AsPacked>>(rt, alloc, "packed", &replays)
}

/// A need or a limit of so many upper frames, leaf frames and spill words.
fn need(upper: u32, leaf: u32, spill: u32) -> Need
    ensures upper { result.upper ≡ upper }
    ensures leaf { result.leaf ≡ leaf }
    ensures spill { result.spill ≡ spill }
{
    Need { upper, leaf, spill }
}

/// The large replay and the small one, each without a limit that it reaches and then with one, and a huge one.
fn replays(large_limit: Need, small_limit: Need, huge: Replay) -> [Replay; 5]
    requires large { IsLimit large_limit }
    requires small { IsLimit small_limit }
{
    [
        large(AMPLE),
        large(large_limit),
        small(AMPLE),
        small(small_limit),
        huge,
    ]
}

/// A replay of 600 changes over 64 KiB of RAM, in three domains.
fn large(limit: Need) -> Replay
    requires { IsLimit limit }
{
    Replay {
        words: 16384,
        domains: 3,
        limit,
        mix: Mix::Words,
        changes: 600,
    }
}

/// A replay of 600 changes over a RAM that ends within a line, in two domains.
fn small(limit: Need) -> Replay
    requires { IsLimit limit }
{
    Replay {
        words: 5003,
        domains: 2,
        limit,
        mix: Mix::Words,
        changes: 600,
    }
}

/// A replay of so many changes over a RAM of two regions, the second of which ends within a line, in two domains.
fn huge(changes: u32, limit: Need) -> Replay
    requires { IsLimit limit }
{
    Replay {
        words: 1_315_723,
        domains: 2,
        limit,
        mix: Mix::Regions,
        changes,
    }
}

/// Makes replays for a kind of tables and prints a line for each. The answer is whether none differed.
fn tell<T: PermTables + Drop, P: PermTables + Drop>(
    rt: &impl Print,
    alloc: Global,
    kind: &str,
    replays: &[Replay],
) -> io::Result<bool> {
    for replay in replays {
        let run = replay.run::<T, P>(alloc);
        print!(rt;
            "{kind}, {} words, {} domains, limit {}: ",
            replay.words,
            replay.domains,
            Parts(replay.limit)
        )?;
        match run {
            Ok(tally) => println!(rt; "{tally}")?,
            Err(stop) => {
                println!(rt; "{stop:?}")?;
                return Ok(false);
            }
        }
    }
    Ok(true)
}
