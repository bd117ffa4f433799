//! Sample rows of permission tables, and changes of the rights of their first domain.
ghost use Rattle.std.specs.Prelude.{◌≡◌, ℕ, ◌+◌, ◌*◌, ◌^◌, ◌<◌, ◌≤◌, [], ◌∷◌, length, Some, IsTrue, IsFalse, IfOk};
ghost use Rattle.std.specs.Prelude.{IfErr};
ghost use Rattle.mx_words.specs.Need.{fits};
ghost use Rattle.mx_table.specs.Change.{IsLawful, given, changed};
ghost use Rattle.mx_table.specs.Tables.{most_words, row_map, IsRow, IsLimit, IsRefused};

use mx_table::{BuildRefused, Change, PermTables};
use mx_words::{MOST_DOMAINS, Need, NoMemory, Perm, Span, Spans};
use std::alloc::Global;

/// A row of `count` spans like `span`, each of which begins `step` words after the one before.
pub fn row(alloc: Global, span: Span, step: u32, count: u32) -> Result<Spans, NoMemory>
    requires some { 0 < span.count }
    requires apart { span.count ≤ step }
    requires inside { span.first + step * count ≤ most_words }
    ensures row { IfOk result
        (λ r. (words : ℕ) → span.first + step * count ≤ words → IsRow words r) }
    ensures count { IfOk result (λ r. length r ≡ count) }
{
    let mut row = Spans::new(alloc);
    for i in 0..count {
        row.push(Span {
            first: span.first + step * i,
            count: span.count,
            perm: span.perm,
        })?;
    }
    Ok(row)
}

/// Tables of one domain over a RAM of `words` words.
pub fn one_domain<T: PermTables>(
    alloc: Global,
    words: u32,
    row: Spans,
    limit: Need,
) -> Result<T, BuildRefused>
    requires some_words { 1 ≤ words }
    requires few_words { words ≤ most_words }
    requires row { IsRow words row }
    requires limit { IsLimit limit }
    ensures maps { IfOk result (λ t. T.maps t ≡ row_map words row ∷ []) }
    ensures one { IfOk result (λ t. length (T.maps t) ≡ 1) }
    ensures size { IfOk result (λ t. T.size t ≡ words) }
    ensures limit { IfOk result (λ t. T.limits t ≡ limit) }
    ensures refused { IfErr result (IsRefused T.kind limit (row_map words row ∷ [])) }
{
    T::build(alloc, words, &[row], limit)
}

/// Tables of two domains over 64 KiB of RAM: domain 1 has the first span's permission on its words, and domain 2 the
/// second's.
pub fn two_domains<T: PermTables>(
    alloc: Global,
    first: Span,
    second: Span,
) -> Result<T, BuildRefused>
    requires some_first { 0 < first.count }
    requires inside_first { first.first + first.count ≤ 16384 }
    requires some_second { 0 < second.count }
    requires inside_second { second.first + second.count ≤ 16384 }
    ensures two { IfOk result (λ t. length (T.maps t) ≡ 2) }
    ensures size { IfOk result (λ t. T.size t ≡ 16384) }
{
    let rows = [one_span(alloc, first)?, one_span(alloc, second)?];
    let limit = Need {
        upper: 128,
        leaf: 4096,
        spill: 4096,
    };
    T::build(alloc, 16384, &rows, limit)
}

/// A row of one span, which lies in 64 KiB of RAM.
fn one_span(alloc: Global, span: Span) -> Result<Spans, BuildRefused>
    requires some { 0 < span.count }
    requires inside { span.first + span.count ≤ 16384 }
    ensures { IfOk result (IsRow 16384) }
{
    match row(alloc, span, span.count, 1) {
        Ok(row) => Ok(row),
        Err(_) => Err(BuildRefused::NoMemory),
    }
}

/// A permission for domain 1 on a range.
pub fn grant(first: u32, count: u32, perm: Perm) -> Change
    requires some { 0 < count }
    ensures first { result.first ≡ first }
    ensures count { result.count ≡ count }
    ensures perm { given result 1 ≡ Some perm }
    ensures lawful { (words modules : ℕ) → first + count ≤ words → 1 ≤ modules →
        IsLawful result words modules }
{
    let mut perms = [None; MOST_DOMAINS];
    perms[1] = Some(perm);
    Change {
        first,
        count,
        perms,
    }
}

/// Makes a lawful change where the tables have room for it. The answer is whether they have.
pub fn try_change<T: PermTables>(tables: &mut T, change: &Change) -> bool
    requires { IsLawful change.now (T.size tables.old) (length (T.maps tables.old)) }
    ensures room { result
        ≡ fits T.kind (T.limits tables.old) (changed change.now (T.maps tables.old)) }
    ensures made { IsTrue result → T.maps tables.new ≡ changed change.now (T.maps tables.old) }
    ensures full { IsFalse result → T.maps tables.new ≡ T.maps tables.old }
    ensures same_modules { length (T.maps tables.new) ≡ length (T.maps tables.old) }
    ensures same_size { T.size tables.new ≡ T.size tables.old }
    ensures same_limit { T.limits tables.new ≡ T.limits tables.old }
    ensures same_lookups { T.lookups tables.new ≡ T.lookups tables.old }
{
    if tables.fits(change) {
        tables.apply(change);
        true
    } else {
        false
    }
}
