//! The runs of a module's map.
ghost use Rattle.std.specs.Prelude.{◌≡◌, ℕ, ◌+◌, ◌<◌, ◌≤◌, ◌^◌, true, nat_lt, [], ◌∷◌, ◌++◌, length, List, None, IfOk};
ghost use Rattle.std.specs.Prelude.{IfErr, OnOk};
ghost use Rattle.mx_words.specs.declared.perm.Perm.{Perm};
ghost use Rattle.mx_words.specs.Ranges.{most_words};
ghost use Rattle.mx_words.specs.Runs.{Run};
ghost use Rattle.mx_snapshot.specs.Fields.{map_run_in, perm_by};
ghost use Rattle.mx_snapshot.specs.Reader.{list_of, number, such};
ghost use Rattle.mx_snapshot.specs.Resuming.{spans_in};
ghost use Rattle.mx_resume.specs.declared.refused.SnapshotRefused.TheVariants.{NoMemory};
ghost use Rattle.mx_resume.specs.Extents.{IsExtent, fills, last_value};
ghost use Rattle.mx_resume.specs.Parts.{head_seen, IsRowOf, run_seen};
ghost use Rattle.mx_resume.specs.Taking.{IsTaken, TakesAs};

use crate::SnapshotRefused;
use crate::head::Head;
use crate::reading::{number, out_of_range};
use mx_words::{Perm, Span, Spans};
use std::alloc::Global;

/// How far the runs of a list are read.
#[derive(Clone, Copy)]
pub(crate) struct Extent {
    /// How many runs there are.
    pub runs: u32,
    /// How many of them are read.
    pub read: u32,
    /// How many words these have.
    pub words: u32,
}

/// A run of words with one permission.
#[derive(Clone, Copy)]
pub(crate) struct MapRun {
    /// How many words.
    pub count: u32,
    /// The permission.
    pub perm: Perm,
}

/// Whether the next run of a list isn't empty, doesn't pass the end of a RAM of so many words, and ends there where it
/// is the last.
pub(crate) fn has_place(words: u32, so_far: Extent, count: u32) -> bool
    requires read { so_far.read < so_far.runs }
    requires inside { so_far.words ≤ words }
    ensures { result ≡ fills words so_far.runs so_far.read so_far.words count }
{
    let left = words - so_far.words;
    if so_far.read + 1 == so_far.runs {
        0 < count && count == left
    } else {
        0 < count && count <= left
    }
}

/// The permission with a number below 4.
fn perm_of(number: u32) -> Perm
    ensures { result ≡ perm_by number }
{
    Perm::from_number(number).unwrap_or(Perm::None)
}

/// The next run of a map, behind those that were read, of which `last` is the last one's permission.
#[tactic(auto, unfolding(mx_snapshot::specs::Fields::map_run_in))]
fn map_run(
    bytes: &[u8],
    at: &mut usize,
    head: &Head,
    so_far: Extent,
    last: Option<Perm>,
) -> Result<MapRun, SnapshotRefused>
    requires read { so_far.read < so_far.runs }
    requires inside { so_far.words ≤ head.now.words }
    ensures taken { (before : List (Run Perm)) → IsExtent before so_far → last_value before ≡ last →
        IsTaken run_seen (map_run_in (head_seen head.now) so_far.runs before bytes.now at.old)
        at.new result }
    ensures place { IfOk result
        (λ r. fills head.now.words so_far.runs so_far.read so_far.words r.count ≡ true) }
{
    let field = *at;
    let number = number(bytes, at)?;
    let run = MapRun {
        count: number / 4,
        perm: perm_of(number % 4),
    };
    if !has_place(head.words, so_far, run.count) || last == Some(run.perm) {
        return Err(out_of_range(field));
    }
    Ok(run)
}

/// Adds the span of a run that begins at a word; one without rights has none.
fn add_span(row: &mut Spans, first: u32, run: MapRun) -> Result<(), SnapshotRefused>
    requires { length row.old < 2 ^ 31 }
    ensures row { OnOk result (row.new ≡ row.old ++ spans_in first (run_seen run ∷ [])) }
    ensures memory { IfErr result (λ refused. refused ≡ NoMemory) }
{
    if run.perm == Perm::None {
        return Ok(());
    }
    let span = Span {
        first,
        count: run.count,
        perm: run.perm,
    };
    match row.push(span) {
        Ok(()) => Ok(()),
        Err(_) => Err(SnapshotRefused::NoMemory),
    }
}

/// How many runs a map has, at least one.
pub(crate) fn some_runs(bytes: &[u8], at: &mut usize) -> Result<u32, SnapshotRefused>
    ensures { IsTaken (λ n. n) (such (nat_lt 0) number bytes.now at.old) at.new result }
{
    let field = *at;
    let runs = number(bytes, at)?;
    if runs == 0 {
        return Err(out_of_range(field));
    }
    Ok(runs)
}

/// The row of a map of so many runs.
pub(crate) fn row(
    alloc: Global,
    bytes: &[u8],
    at: &mut usize,
    head: &Head,
    runs: u32,
) -> Result<Spans, SnapshotRefused>
    requires { head.now.words ≤ most_words }
    ensures { TakesAs IsRowOf
        (list_of runs (map_run_in (head_seen head.now) runs) [] bytes.now at.old) at.new result }
{
    let mut row = Spans::new(alloc);
    let mut last = None;
    let mut words = 0;
    'runs: for read in 0..runs {
        let run = map_run(bytes, at, head, Extent { runs, read, words }, last)?;
        add_span(&mut row, words, run)?;
        words += run.count;
        last = Some(run.perm);
    }
    Ok(row)
}
