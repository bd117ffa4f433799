//! Packed entries: up to four runs of a line and two reaches in 32 bits.
ghost use Rattle.std.specs.Prelude.{◌≡◌, ◌≢◌, ℕ, ◌+◌, ◌-◌, ◌*◌, ◌/◌, ◌%◌, ◌<◌, ◌≤◌, List, length, Option, Some, IfSome};
ghost use Rattle.mx_words.specs.declared.perm.Perm.{Perm};
ghost use Rattle.mx_words.specs.Rights.{number};
ghost use Rattle.mx_words.specs.Ranges.{most_words};
ghost use Rattle.mx_words.specs.Reach.{most_reach};
ghost use Rattle.mx_words.specs.Runs.{runs, line_words};
ghost use Rattle.mx_trie.specs.Leaf.{form_reach, placed, line_run};
ghost use Rattle.mx_packed.specs.Pack.{pack_of, IsCoded};
ghost use Rattle.mx_trie.specs.Codes.{value_code, start_code};

use mx_words::{Perm, Span};

/// What a packed entry says of a line: its 16 permissions, and how many words right before and right after the line
/// have the
/// permission of its first and of its last word, 0 to 31 each.
#[derive(Clone, Copy, PartialEq, Eq, Debug)]
pub struct Unpacked {
    /// The permissions of the line's words.
    pub perms: [Perm; 16],
    /// The left reach.
    pub left: u32,
    /// The right reach.
    pub right: u32,
}

/// The number of runs of a line.
pub(crate) fn run_count(perms: &[Perm; 16]) -> u32
    ensures value { result ≡ runs perms.now }
    ensures few { result ≤ 16 }
{
    let mut count = 1;
    let mut place = 15;
    while place > 0 {
        place -= 1;
        if perms[place] != perms[place + 1] {
            count += 1;
        }
    }
    count
}

/// The packed entry of a line's permissions with both reaches, 0 to 31. `None` exactly for more than four runs.
pub fn pack(perms: &[Perm; 16], left: u32, right: u32) -> Option<u32>
    requires left { left ≤ most_reach }
    requires right { right ≤ most_reach }
    ensures { result ≡ pack_of perms.now left right }
{
    if run_count(perms) > 4 {
        return None;
    }
    let (values, starts) = codes(perms);
    Some(2 + 4 * values + 0x400 * starts + 0x40_0000 * right + 0x800_0000 * left)
}

/// The permissions of a line's runs, two bits each, and the starts of its second, third and fourth run, four bits each.
/// The line has at
/// most four runs.
fn codes(perms: &[Perm; 16]) -> (u32, u32)
    requires { runs perms.now ≤ 4 }
    ensures values { result.0 ≡ value_code perms.now }
    ensures starts { result.1 ≡ start_code 0 perms.now }
    ensures values_below { result.0 < 256 }
    ensures starts_below { result.1 < 4096 }
{
    let mut values = perms[15].number();
    let mut starts = 0;
    let mut place = 15;
    while place > 0 {
        place -= 1;
        let here = perms[place];
        if here != perms[place + 1] {
            values = here.number() + 4 * values;
            starts = place as u32 + 1 + 16 * starts;
        }
    }
    (values, starts)
}

/// The permission with a number, 0 to 3.
fn perm_of(n: u32) -> Perm
    requires { n < 4 }
    ensures { number result ≡ n }
{
    match Perm::from_number(n) {
        Some(perm) => perm,
        None => unreachable!(),
    }
}

/// The permissions of a line from those of its runs and from the starts of the runs.
pub(crate) fn line_of(values: u32, starts: u32) -> [Perm; 16]
    ensures { (perms : List Perm) → length perms ≡ line_words →
        values ≡ value_code perms → starts ≡ start_code 0 perms → result ≡ perms }
{
    let mut line = [Perm::None; 16];
    let mut values_left = values;
    let mut starts_left = starts;
    for place in 0..16usize {
        line[place] = perm_of(values_left % 4);
        if starts_left % 16 == place as u32 + 1 {
            values_left /= 4;
            starts_left /= 16;
        }
    }
    line
}

/// The run of a word in its line, which begins at the word `line`, from the permissions of the line's runs and from
/// their starts. The
/// starts rise, and a start of 0 stands after the last one.
pub(crate) fn run_of(values: u32, starts: u32, line: u32, word: u32) -> Span
    requires coded { IsCoded values starts }
    requires from { line ≤ word }
    requires below { word < line + line_words }
    requires room { line + line_words ≤ most_words }
    ensures { (perms : List Perm) → length perms ≡ line_words →
        values ≡ value_code perms → starts ≡ start_code 0 perms →
        result ≡ placed line (line_run perms (word - line)) }
{
    let place = word - line;
    let mut first = 0;
    let mut values_left = values;
    let mut starts_left = starts;
    while starts_left % 16 != 0 && starts_left % 16 <= place {
        first = starts_left % 16;
        values_left /= 4;
        starts_left /= 16;
    }
    let next = starts_left % 16;
    let end = if next == 0 { 16 } else { next };
    Span {
        first: line + first,
        count: end - first,
        perm: perm_of(values_left % 4),
    }
}

/// The arguments for which `pack` gives an entry. `None` exactly where it gives it for none.
pub fn unpack(entry: u32) -> Option<Unpacked>
    ensures packs { IfSome result (λ u. pack_of u.perms u.left u.right ≡ Some entry) }
    ensures left { IfSome result (λ u. u.left ≤ most_reach) }
    ensures right { IfSome result (λ u. u.right ≤ most_reach) }
    ensures all { (perms : List Perm) (left right : ℕ) →
        length perms ≡ line_words → left ≤ most_reach → right ≤ most_reach →
        pack_of perms left right ≡ Some entry →
        result ≡ Some (record { perms = perms; left = left; right = right }) }
{
    let perms = line_of(entry / 4 % 0x100, entry / 0x400 % 0x1000);
    let left = entry / 0x800_0000;
    let right = entry / 0x40_0000 % 0x20;
    match pack(&perms, left, right) {
        Some(word) if word == entry => Some(Unpacked { perms, left, right }),
        _ => None,
    }
}
