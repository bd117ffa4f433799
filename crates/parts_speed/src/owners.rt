//! Look-ups of owners, and changes.

ghost use Rattle.std.specs.Prelude.{◌≡◌, ◌<◌, ◌≤◌, length, IfSome};

use mx_owners::Owners;
use std::alloc::Global;

/// The owners of these words in runs of so many words each, of which domain 1 has the first, the third and so on.
/// `None` where
/// there is no memory.
pub fn spread(alloc: Global, words: u32, run: u32) -> Option<Owners>
    requires some { 0 < run }
    requires fits { run ≤ words }
    requires in_ram { words ≤ 16777216 }
    ensures { IfSome result (λ o. length o ≡ words) }
{
    let mut owners = match Owners::new(alloc, words) {
        Ok(owners) => owners,
        Err(_) => return None,
    };
    let mut first = 0;
    while first + run < words {
        let _ = owners.give(1, first, run);
        first += 2 * run;
    }
    Some(owners)
}

/// How often domain 1 was the owner of words drawn from all of RAM.
pub fn owners_seen(owners: &Owners, rounds: u64) -> u64
    requires { length owners.now ≡ 16777216 }
{
    let mut seen = 0u64;
    for i in 0..rounds {
        if owners.owner(draw(i)) == 1 {
            seen = seen.wrapping_add(1);
        }
    }
    seen
}

/// How often domain 1 owned a word drawn from all of RAM.
pub fn words_owned(owners: &Owners, rounds: u64) -> u64
    requires { length owners.now ≡ 16777216 }
{
    let mut owned = 0u64;
    for i in 0..rounds {
        if owners.owns(1, draw(i), 1) {
            owned = owned.wrapping_add(1);
        }
    }
    owned
}

/// How often a word drawn from all of RAM could be given to domain 2.
pub fn words_given(owners: &mut Owners, rounds: u64) -> u64
    requires { length owners.old ≡ 16777216 }
{
    let mut given = 0u64;
    for i in 0..rounds {
        if owners.give(2, draw(i), 1).is_ok() {
            given = given.wrapping_add(1);
        }
    }
    given
}

/// A word of RAM for each round, with no order that the processor could guess.
fn draw(i: u64) -> u32
    ensures { result < 16777216 }
{
    (i.wrapping_mul(0x9E37_79B9_7F4A_7C15) >> 40) as u32
}
