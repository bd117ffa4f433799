//! Sample tables: one domain with 256 spans all over RAM.
ghost use Rattle.std.specs.Prelude.{◌≡◌, ◌+◌, ◌*◌, ◌<◌, ◌≤◌, ◌^◌, length, IfSome};

use mx_plain::{one_domain, row};
use mx_table::PermTables;
use mx_words::{Need, Perm, Span};
use std::alloc::Global;

/// How many spans domain 1 has, at even distances.
pub const SPANS: u32 = 256;

/// What the tables may take.
const LIMIT: Need = Need {
    upper: 128,
    leaf: 4096,
    spill: 4096,
};

/// Tables of one domain which may read 20 words at the beginning of each of 256 equal parts of RAM.
pub fn tables<T: PermTables>(alloc: Global, words: u32) -> Option<T>
    requires few { 16384 ≤ words }
    requires most { words ≤ 2 ^ 24 }
    ensures one { IfSome result (λ t. length (T.maps t) ≡ 1) }
    ensures size { IfSome result (λ t. T.size t ≡ words) }
{
    let span = Span {
        first: 0,
        count: 20,
        perm: Perm::Read,
    };
    match row(alloc, span, words / SPANS, SPANS) {
        Ok(spans) => match one_domain(alloc, words, spans, LIMIT) {
            Ok(tables) => Some(tables),
            Err(_) => None,
        },
        Err(_) => None,
    }
}
