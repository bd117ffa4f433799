//! Random changes of rights.
ghost use Rattle.std.specs.Prelude.{◌<◌, ◌≤◌};
ghost use Rattle.mx_table.specs.Change.{IsLawful};
ghost use Rattle.mx_table.specs.Tables.{most_words, most_modules};
ghost use Rattle.mx_table.specs.Names.{NamesUpTo};

use crate::mix::Mix;
use crate::numbers::Numbers;
use mx_table::Change;
use mx_words::{MOST_DOMAINS, Perm};

/// The first words of the places where short changes crowd: round a page's edge, and within a page.
const CROWDS: [u32; 2] = [1000, 3300];

/// How many words a crowd has.
const CROWD: u32 = 48;

/// How many words an eighth of a region has.
const EIGHTH: u32 = 131_072;

/// A change for one domain or more.
pub fn change(numbers: &mut Numbers, mix: Mix, words: u32, domains: u32) -> Change
    requires words { 0 < words }
    requires few_words { words ≤ most_words }
    requires domains { 0 < domains }
    requires few_domains { domains ≤ most_modules }
    ensures { IsLawful result words domains }
{
    let wanted = match mix {
        Mix::Words => count(numbers, words),
        Mix::Regions => long_count(numbers, words),
    };
    let count = wanted.min(words);
    let last = words - count;
    let first = match mix {
        Mix::Words => first(numbers, last),
        Mix::Regions => far_first(numbers, last),
    };
    let perms = perms(numbers, domains);
    Change {
        first,
        count,
        perms,
    }
}

/// How many words a change has.
fn count(numbers: &mut Numbers, words: u32) -> u32
    requires words { 0 < words }
    requires few_words { words ≤ most_words }
    ensures { 0 < result }
{
    match numbers.below(256) {
        0..=175 => 1,
        176..=207 => 2 + numbers.below(8),
        208..=239 => 2 + numbers.below(60),
        240..=246 => 128 * (1 + numbers.below(8)),
        247..=253 => 1024 * (1 + numbers.below(3)),
        254 => (words + 1) / 2,
        _ => words,
    }
}

/// The first word of a change, which is at most `last`, from where it ends at RAM's end: there or near it, in a crowd,
/// or anywhere,
/// also at the edges of lines, of eighths of pages and of pages.
fn first(numbers: &mut Numbers, last: u32) -> u32
    requires { last ≤ most_words }
    ensures { result ≤ last }
{
    match numbers.below(16) {
        0 => last,
        1 => last - numbers.below(CROWD).min(last),
        2..=5 => (CROWDS[0] + numbers.below(CROWD)).min(last),
        6..=9 => (CROWDS[1] + numbers.below(CROWD)).min(last),
        10 => numbers.below(last + 1) / 16 * 16,
        11 => numbers.below(last + 1) / 128 * 128,
        12 => numbers.below(last + 1) / 1024 * 1024,
        _ => numbers.below(last + 1),
    }
}

/// How many words a change among regions has.
fn long_count(numbers: &mut Numbers, words: u32) -> u32
    requires words { 0 < words }
    requires few_words { words ≤ most_words }
    ensures { 0 < result }
{
    match numbers.below(16) {
        0..=4 => 1,
        5..=7 => 2 + numbers.below(60),
        8..=9 => 1024 * (1 + numbers.below(128)),
        10..=13 => EIGHTH * (1 + numbers.below(8)),
        14 => (words + 1) / 2,
        _ => words,
    }
}

/// The first word of a change among regions, which is at most `last`: as for the others, but in a crowd at a region's
/// edge and at the
/// edges of eighths of regions.
fn far_first(numbers: &mut Numbers, last: u32) -> u32
    requires { last ≤ most_words }
    ensures { result ≤ last }
{
    match numbers.below(8) {
        0 => last,
        1 => (8 * EIGHTH - 24 + numbers.below(CROWD)).min(last),
        2..=5 => numbers.below(last + 1) / EIGHTH * EIGHTH,
        6 => numbers.below(last + 1) / 1024 * 1024,
        _ => numbers.below(last + 1),
    }
}

/// What a change gives: to one of the domains always, to each of the others now and then.
fn perms(numbers: &mut Numbers, domains: u32) -> [Option<Perm>; MOST_DOMAINS]
    requires domains { 0 < domains }
    requires few_domains { domains ≤ most_modules }
    ensures { NamesUpTo domains result }
{
    let mut perms = [None; MOST_DOMAINS];
    let always = 1 + numbers.below(domains);
    for domain in 1..domains + 1 {
        if domain == always || numbers.below(4) == 0 {
            perms[domain as usize] = Perm::from_number(numbers.below(4));
        }
    }
    perms
}
