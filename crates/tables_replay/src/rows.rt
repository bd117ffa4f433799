//! Random rows of spans, of which tables are built.
ghost use Rattle.std.specs.Prelude.{◌≡◌, ◌+◌, ◌*◌, ◌<◌, ◌≤◌, All, IfOk, OnOk, vec_len};
ghost use Rattle.mx_table.specs.Tables.{IsRow, most_words, most_modules};

use crate::mix::Mix;
use crate::numbers::Numbers;
use mx_words::{NoMemory, Perm, Span, Spans};
use std::alloc::Global;

/// One row for each domain.
pub fn rows(
    alloc: Global,
    numbers: &mut Numbers,
    mix: Mix,
    words: u32,
    domains: u32,
) -> Result<Vec<Spans>, NoMemory>
    requires few { words ≤ most_words }
    requires few_domains { domains ≤ most_modules }
    ensures rows { IfOk result (λ v. All (IsRow words) v.items) }
    ensures domains { IfOk result (λ v. vec_len v ≡ domains) }
{
    let mut rows = Vec::new(alloc);
    for _ in 0..domains {
        add_row(&mut rows, alloc, numbers, mix, words)?;
    }
    Ok(rows)
}

/// Puts a row behind the others.
fn add_row(
    rows: &mut Vec<Spans>,
    alloc: Global,
    numbers: &mut Numbers,
    mix: Mix,
    words: u32,
) -> Result<(), NoMemory>
    requires few { words ≤ most_words }
    requires rows { All (IsRow words) rows.old.items }
    ensures rows { OnOk result (All (IsRow words) rows.new.items) }
    ensures count { OnOk result (vec_len rows.new ≡ vec_len rows.old + 1) }
{
    let spans = numbers.below(mix.spans());
    let row = row(alloc, numbers, mix, words, spans)?;
    rows.push(row)?;
    Ok(())
}

/// A row of so many spans, or fewer where RAM ends.
fn row(
    alloc: Global,
    numbers: &mut Numbers,
    mix: Mix,
    words: u32,
    spans: u32,
) -> Result<Spans, NoMemory>
    requires few { words ≤ most_words }
    requires few_spans { spans ≤ 300 }
    ensures { IfOk result (IsRow words) }
{
    let mut row = Spans::new(alloc);
    let mut end = 0;
    for _ in 0..spans {
        let span = span(numbers, mix, end);
        if span.first + span.count > words {
            break;
        }
        row.push(span)?;
        end = span.first + span.count;
    }
    Ok(row)
}

/// A span after the end of the one before, not far from it: of a few words, or of eighths of pages or of regions.
fn span(numbers: &mut Numbers, mix: Mix, end: u32) -> Span
    requires { end ≤ most_words }
    ensures behind { end ≤ result.first }
    ensures some { 0 < result.count }
    ensures near { result.first + result.count ≤ end + 20 * 131072 }
{
    let free = end + numbers.below(50);
    let (first, count) = if numbers.below(mix.long_spans()) == 0 {
        let eighth = mix.eighth();
        (
            free.div_ceil(eighth) * eighth,
            eighth * (1 + numbers.below(16)),
        )
    } else {
        (free, 1 + numbers.below(20))
    };
    let perm = Perm::from_number(numbers.below(4)).unwrap_or(Perm::None);
    Span { first, count, perm }
}
