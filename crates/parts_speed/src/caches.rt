//! Calls of the caches of one hart.

ghost use Rattle.std.specs.Prelude.{◌≤◌};
ghost use Rattle.mx_words.specs.Limits.{most_kept};

use arrayvec::ArrayVec;
use mx_caches::{Lookaside, Sidecars};
use mx_words::{MOST_KEPT, Perm, Span};

/// The 16 words from a line's first word on.
fn line(i: u64) -> Span {
    Span {
        first: (i % 65536) as u32 * 16,
        count: 16,
        perm: Perm::Read,
    }
}

/// Keeps so many spans, and counts how many of the last 100 are still found.
pub fn entries_kept<const N: usize>(rounds: u64) -> u64
    requires { N ≤ most_kept }
{
    let mut buffer: Lookaside<N> = Lookaside::new();
    for i in 0..rounds {
        buffer.keep(1, line(i));
    }
    let mut kept = 0u64;
    for back in 1..101 {
        let last = line(rounds.saturating_sub(back));
        if buffer.find(1, last.first).is_some() {
            kept = kept.wrapping_add(1);
        }
    }
    kept
}

/// Keeps so many spans in a vector of `MOST_KEPT`, where the oldest is taken out first, and counts those of the last
/// 100
/// that stand in it. A lookaside buffer would be so without its ring.
pub fn entries_in_vector(rounds: u64) -> u64 {
    let mut entries: ArrayVec<Kept, MOST_KEPT> = ArrayVec::new();
    for i in 0..rounds {
        if entries.is_full() {
            entries.remove(0);
        }
        entries.push(Kept {
            domain: 1,
            first: line(i).first,
            count: 16,
        });
    }
    let mut kept = 0u64;
    for back in 1..101 {
        let last = line(rounds.saturating_sub(back));
        if entries
            .as_slice()
            .iter()
            .any(|entry| entry.first == last.first)
        {
            kept = kept.wrapping_add(1);
        }
    }
    kept
}

/// An entry of as many bytes as one of a lookaside buffer.
#[derive(Clone, Copy, Default)]
struct Kept {
    domain: u32,
    first: u32,
    count: u32,
}

/// Looks so often for a word that its place has, at each place in turn, and counts the hits.
pub fn sidecar_hits(rounds: u64) -> u64 {
    let mut places = Sidecars::new();
    for place in 0..32 {
        places.keep(place, line(3));
    }
    let mut hits = 0u64;
    for i in 0..rounds {
        if places.find((i % 32) as u32, 48 + (i % 16) as u32).is_some() {
            hits = hits.wrapping_add(1);
        }
    }
    hits
}

/// Keeps a span at a place, looks for it at another or the same one, and empties all places, so often. The answer is
/// the
/// number of hits: one look in 32 is at the same place.
pub fn hits_before_clear(rounds: u64) -> u64 {
    let mut places = Sidecars::new();
    let mut hits = 0u64;
    for i in 0..rounds {
        let span = line(i);
        places.keep((i % 32) as u32, span);
        if places.find((i / 32 % 32) as u32, span.first).is_some() {
            hits = hits.wrapping_add(1);
        }
        places.clear();
    }
    hits
}
