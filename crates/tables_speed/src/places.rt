//! Tables of one domain, of which one region is full of small spans, and the places in it where one word changes.
ghost use Rattle.std.specs.Prelude.{◌≡◌, ◌*◌, ◌≤◌, ◌^◌, length, IfOk, IfSome};
ghost use Rattle.mx_table.specs.Tables.{IsRow};

use mx_plain::{one_domain, row};
use mx_table::PermTables;
use mx_words::{Need, NoMemory, Perm, Span, Spans};
use std::alloc::Global;

/// What the tables may take: just one upper frame more than they need, so that `fits` looks at the maps at each change.
const LIMIT: Need = Need {
    upper: 3,
    leaf: 4096,
    spill: 4096,
};

/// The first word of the region.
pub const REGION: u32 = 0x40_0000;

/// How many words it has.
pub const REGION_WORDS: u32 = 0x10_0000;

/// A row of so many spans from the region's first word on, one in each `step` words, of which each fills the first
/// half.
fn row_of(alloc: Global, words: u32, step: u32, spans: u32) -> Result<Spans, NoMemory>
    requires region { 5242880 ≤ words }
    requires some { 2 ≤ step }
    requires few { step * spans ≤ 1048576 }
    ensures { IfOk result (IsRow words) }
{
    let span = Span {
        first: REGION,
        count: step / 2,
        perm: Perm::Read,
    };
    row(alloc, span, step, spans)
}

/// Tables of one domain that may read the first half of each `step` words of the region, over a RAM of `words` words.
pub fn tables<T: PermTables>(alloc: Global, words: u32, step: u32, spans: u32) -> Option<T>
    requires region { 5242880 ≤ words }
    requires most { words ≤ 2 ^ 24 }
    requires some { 2 ≤ step }
    requires few { step * spans ≤ 1048576 }
    ensures one { IfSome result (λ t. length (T.maps t) ≡ 1) }
    ensures size { IfSome result (λ t. T.size t ≡ words) }
{
    match row_of(alloc, words, step, spans) {
        Ok(spans) => match one_domain(alloc, words, spans, LIMIT) {
            Ok(tables) => Some(tables),
            Err(_) => None,
        },
        Err(_) => None,
    }
}
