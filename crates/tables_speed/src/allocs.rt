//! Changes as a supervisor makes them for `alloc` and `free`, over tables of one domain or more: domain 1 gets a range
//! or loses it, and
//! all other domains have no permission there before and after.
ghost use Rattle.std.specs.Prelude.{◌≡◌, ◌+◌, ◌<◌, ◌≤◌, All, length, vec_len, IfOk, IfSome};
ghost use Rattle.mx_table.specs.Change.{IsLawful};
ghost use Rattle.mx_table.specs.Tables.{most_modules, IsRow};

use crate::calls::Range;
use mx_plain::{row, try_change};
use mx_table::{Change, PermTables};
use mx_words::{MOST_DOMAINS, MOST_WORDS, Need, NoMemory, Perm, Span, Spans};
use std::alloc::Global;

/// What the tables may take.
const LIMIT: Need = Need {
    upper: 128,
    leaf: 4096,
    spill: 4096,
};

/// Domain 1 may read 20 words from the beginning of a region on.
const SPAN: Span = Span {
    first: 0x40_0000,
    count: 20,
    perm: Perm::Read,
};

/// And as many from the beginning of the last page of another region on.
const STEP: u32 = 0x4F_FC00;

/// A row of as many such spans.
fn row_of(alloc: Global, spans: u32) -> Result<Spans, NoMemory>
    requires { spans ≤ 2 }
    ensures { IfOk result (IsRow 16777216) }
{
    row(alloc, SPAN, STEP, spans)
}

/// The rows of so many domains, of which the first has two spans and the others none.
fn rows(alloc: Global, domains: u32) -> Result<Vec<Spans>, NoMemory>
    ensures rows { IfOk result (λ v. All (IsRow 16777216) v.items) }
    ensures domains { IfOk result (λ v. vec_len v ≡ domains) }
{
    let mut rows = Vec::new(alloc);
    for domain in 0..domains {
        let spans = if domain == 0 { 2 } else { 0 };
        let row = row_of(alloc, spans)?;
        rows.push(row)?;
    }
    Ok(rows)
}

/// Tables of so many domains over 64 MiB of RAM.
pub fn tables<T: PermTables>(alloc: Global, domains: u32) -> Option<T>
    requires some { 1 ≤ domains }
    requires few { domains ≤ most_modules }
    ensures domains { IfSome result (λ t. length (T.maps t) ≡ domains) }
    ensures size { IfSome result (λ t. T.size t ≡ 16777216) }
{
    let rows = rows(alloc, domains).ok()?;
    T::build(alloc, MOST_WORDS, &rows, LIMIT).ok()
}

/// A permission for domain 1 on a range, and none for the others.
fn hand(range: Range, domains: u32, perm: Perm) -> Change
    requires some { 1 ≤ domains }
    requires few { domains ≤ most_modules }
    requires words { 0 < range.count }
    ensures { range.first + range.count ≤ 16777216 → IsLawful result 16777216 domains }
{
    let mut perms = [None; MOST_DOMAINS];
    for domain in 1..domains + 1 {
        perms[domain as usize] = Some(Perm::None);
    }
    perms[1] = Some(perm);
    Change {
        first: range.first,
        count: range.count,
        perms,
    }
}

/// How many of so many changes that give domain 1 a permission on a range, and the others none, would fit. None is
/// made.
pub fn fits<T: PermTables>(tables: &T, range: Range, domains: u32, perm: Perm, rounds: u64) -> u64
    requires some { 1 ≤ domains }
    requires few { domains ≤ most_modules }
    requires domains { length (T.maps tables.now) ≡ domains }
    requires size { T.size tables.now ≡ 16777216 }
    requires words { 0 < range.count }
    requires inside { range.first + range.count ≤ 16777216 }
    ensures { result ≤ rounds }
{
    let mut fit = 0;
    for _ in 0..rounds {
        if tables.fits(&hand(range, domains, perm)) {
            fit += 1;
        }
    }
    fit
}

/// How many of so many allocs and frees of a range, in turn, fitted and were made.
pub fn changes<T: PermTables>(tables: &mut T, range: Range, domains: u32, rounds: u64) -> u64
    requires some { 1 ≤ domains }
    requires few { domains ≤ most_modules }
    requires domains { length (T.maps tables.old) ≡ domains }
    requires size { T.size tables.old ≡ 16777216 }
    requires words { 0 < range.count }
    requires inside { range.first + range.count ≤ 16777216 }
    ensures most { result ≤ rounds }
    ensures domains { length (T.maps tables.new) ≡ domains }
    ensures size { T.size tables.new ≡ 16777216 }
{
    let mut made = 0;
    for i in 0..rounds {
        let perm = if i % 2 == 0 {
            Perm::ReadWrite
        } else {
            Perm::None
        };
        if try_change(tables, &hand(range, domains, perm)) {
            made += 1;
        }
    }
    made
}
