//! The owners of words.
ghost use Rattle.std.specs.Prelude.{◌≡◌, ℕ, ◌+◌, ◌<◌, ◌≤◌, [], length, replicate, List, true, IfOk, IfErr};
ghost use Rattle.mx_words.specs.Newest.{laid};
ghost use Rattle.mx_words.specs.Ranges.{most_words};
ghost use Rattle.mx_words.specs.Runs.{Run, most_owner_runs, owner_runs};
ghost use Rattle.mx_snapshot.specs.Fields.{owner_run_in};
ghost use Rattle.mx_snapshot.specs.Reader.{list_of, number, such};
ghost use Rattle.mx_snapshot.specs.Rules.{has_place, is_next_owner};
ghost use Rattle.mx_resume.specs.declared.refused.SnapshotRefused.TheVariants.{NoMemory};
ghost use Rattle.mx_resume.specs.Extents.{HasBounds, IsExtent, fills, last_value};
ghost use Rattle.mx_resume.specs.Parts.{AreOwnersOf, head_seen, owner_run_seen};
ghost use Rattle.mx_resume.specs.Taking.{IsTaken, TakesAs};

use crate::SnapshotRefused;
use crate::head::Head;
use crate::maps::{Extent, has_place};
use crate::reading::{number, out_of_range};
use mx_owners::Owners;
use std::alloc::Global;

/// A run of words with one owner.
#[derive(Clone, Copy)]
pub(crate) struct OwnerRun {
    /// How many words.
    pub count: u32,
    /// The owner, 0 for the supervisor.
    pub owner: u32,
}

/// How many words the next run has, behind those that were read.
fn run_words(
    bytes: &[u8],
    at: &mut usize,
    words: u32,
    so_far: Extent,
) -> Result<u32, SnapshotRefused>
    requires read { so_far.read < so_far.runs }
    requires inside { so_far.words ≤ words }
    ensures taken { (before : List (Run ℕ)) → IsExtent before so_far →
        IsTaken (λ n. n) (such (has_place words so_far.runs before) number bytes.now at.old)
        at.new result }
    ensures place { IfOk result
        (λ n. fills words so_far.runs so_far.read so_far.words n ≡ true) }
{
    let field = *at;
    let count = number(bytes, at)?;
    if !has_place(words, so_far, count) {
        return Err(out_of_range(field));
    }
    Ok(count)
}

/// The owner of the next run, another than that of the run before it.
fn run_owner(
    bytes: &[u8],
    at: &mut usize,
    modules: u32,
    last: Option<u32>,
) -> Result<u32, SnapshotRefused>
    ensures { (before : List (Run ℕ)) → last_value before ≡ last →
        IsTaken (λ n. n) (such (is_next_owner modules before) number bytes.now at.old)
        at.new result }
{
    let field = *at;
    let owner = number(bytes, at)?;
    if modules < owner || last == Some(owner) {
        return Err(out_of_range(field));
    }
    Ok(owner)
}

/// The next run.
#[tactic(auto, unfolding(mx_snapshot::specs::Fields::owner_run_in))]
fn owner_run(
    bytes: &[u8],
    at: &mut usize,
    head: &Head,
    so_far: Extent,
    last: Option<u32>,
) -> Result<OwnerRun, SnapshotRefused>
    requires read { so_far.read < so_far.runs }
    requires inside { so_far.words ≤ head.now.words }
    ensures taken { (before : List (Run ℕ)) → IsExtent before so_far → last_value before ≡ last →
        IsTaken owner_run_seen
        (owner_run_in (head_seen head.now) so_far.runs before bytes.now at.old) at.new result }
    ensures place { IfOk result
        (λ r. fills head.now.words so_far.runs so_far.read so_far.words r.count ≡ true) }
{
    let count = run_words(bytes, at, head.words, so_far)?;
    let owner = run_owner(bytes, at, head.modules, last)?;
    Ok(OwnerRun { count, owner })
}

/// Owners of which all words are the supervisor's.
fn no_owners(alloc: Global, words: u32) -> Result<Owners, SnapshotRefused>
    requires some { 0 < words }
    requires few { words ≤ most_words }
    ensures owners { IfOk result (λ owners. owners ≡ replicate words 0) }
    ensures memory { IfErr result (λ refused. refused ≡ NoMemory) }
{
    match Owners::new(alloc, words) {
        Ok(owners) => Ok(owners),
        Err(_) => Err(SnapshotRefused::NoMemory),
    }
}

/// Gives a run of words from a word on to its owner. No more than 4096 maximal runs come of it.
fn give(owners: &mut Owners, first: u32, run: OwnerRun)
    requires some { 0 < run.count }
    requires in_ram { first + run.count ≤ length owners.old }
    requires few { owner_runs (laid
        (record { first = first; count = run.count; value = run.owner }) owners.old)
        ≤ most_owner_runs }
    ensures { owners.new
        ≡ laid (record { first = first; count = run.count; value = run.owner }) owners.old }
{
    match owners.give(run.owner, first, run.count) {
        Ok(()) => {}
        Err(_) => unreachable!(),
    }
}

/// The owners of all words, by so many runs, 1 to 4096.
pub(crate) fn read_owners(
    alloc: Global,
    bytes: &[u8],
    at: &mut usize,
    head: &Head,
    runs: u32,
) -> Result<Owners, SnapshotRefused>
    requires head { HasBounds head.now }
    requires runs { runs ≤ most_owner_runs }
    ensures { TakesAs (AreOwnersOf head.now.words)
        (list_of runs (owner_run_in (head_seen head.now) runs) [] bytes.now at.old) at.new result }
{
    let mut owners = no_owners(alloc, head.words)?;
    let mut last = None;
    let mut words = 0;
    'runs: for read in 0..runs {
        let run = owner_run(bytes, at, head, Extent { runs, read, words }, last)?;
        give(&mut owners, words, run);
        words += run.count;
        last = Some(run.owner);
    }
    Ok(owners)
}
