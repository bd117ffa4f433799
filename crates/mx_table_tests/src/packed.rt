//! Leaf entries of lines: what is packed into one, and the trait's calls on each form.
ghost use Rattle.std.specs.Prelude.{◌≤◌};

use mx_packed::{Packed, Unpacked, pack, unpack};
use mx_trie::{LeafForm, Vector};
use mx_words::Perm;
use std::process::Abort;

const N: Perm = Perm::None;

const R: Perm = Perm::Read;

const W: Perm = Perm::ReadWrite;

/// Read on five words.
static FIVE_READ: [Perm; 16] = [R, R, R, R, R, N, N, N, N, N, N, N, N, N, N, N];

/// Read on the first word.
static FIRST_READ: [Perm; 16] = [R, N, N, N, N, N, N, N, N, N, N, N, N, N, N, N];

static FOUR_RUNS: [Perm; 16] = [N, R, W, N, N, N, N, N, N, N, N, N, N, N, N, N];

static FIVE_RUNS: [Perm; 16] = [N, R, W, N, N, N, N, N, N, N, N, N, N, N, N, R];

// A line with its reaches is stored as this entry, and read back from it.
fn stands_for(rt: &impl Abort, perms: [Perm; 16], left: u32, right: u32, entry: u32)
    requires left { left ≤ 31 }
    requires right { right ≤ 31 }
{
    assert_eq!(rt; pack(&perms, left, right), Some(entry));
    assert_eq!(rt; unpack(entry), Some(Unpacked { perms, left, right }));
}

// No line is stored as this entry.
fn is_no_line(rt: &impl Abort, entry: u32) {
    assert_eq!(rt; unpack(entry), None);
}

#[test]
fn stored_lines(rt: HostRuntime) {
    stands_for(&rt, FIVE_READ, 31, 31, 0xFFC0_1406);
    stands_for(&rt, FIVE_READ, 31, 0, 0xF800_1406);
    stands_for(&rt, FIRST_READ, 0, 31, 0x07C0_0406);
    stands_for(&rt, FOUR_RUNS, 16, 31, 0x87CC_8492);
    assert_eq!(rt; pack(&FIVE_RUNS, 0, 0), None);
    // A plain entry, a spill entry, runs out of order, and two runs with one permission.
    is_no_line(&rt, 0);
    is_no_line(&rt, 3);
    is_no_line(&rt, 2 + 0x4400);
    is_no_line(&rt, 2 + 0x400);
}

// The entry of the line, its spill word, and the run of a word, through the bound.
fn stored<L: LeafForm>(perms: &[Perm; 16]) -> (u32, Option<u32>) {
    let entry = L::entry(perms, 0, 0, 9);
    (entry, L::spill_of(entry))
}

#[test]
fn forms_of_a_line(rt: HostRuntime) {
    let spills = [
        Packed::needs_spill(&FOUR_RUNS),
        Packed::needs_spill(&FIVE_RUNS),
        Vector::needs_spill(&FIVE_RUNS),
    ];
    assert_eq!(rt; spills, [false, true, false]);
    let entries = [
        stored::<Packed>(&FIVE_RUNS),
        stored::<Packed>(&FOUR_RUNS),
        stored::<Vector>(&FIVE_RUNS),
    ];
    assert_eq!(rt;
        entries,
        [(0x27, Some(9)), (0x000C_8492, None), (0x4000_0024, None)]
    );
}
