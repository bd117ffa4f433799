//! Segment tables: the stored entries, and the trait's calls.
ghost use Rattle.std.specs.Prelude.{◌≡◌, ◌<◌, ◌≤◌, length, IfOk};
ghost use Rattle.mx_table.specs.Tables.{IsRow};

use crate::examples::granted;
use crate::shapes::of_segments;
use mx_segments::Segments;
use mx_table::{BuildRefused, PermTables};
use mx_words::{Level, Need, NoMemory, Perm, Shown, Span, Spans};
use std::alloc::Global;

// Tables of one domain over 16384 words.
fn one_domain(alloc: Global, row: Spans, leaf: u32) -> Result<Segments, BuildRefused>
    requires row { IsRow 16384 row }
    requires leaf { leaf ≤ 1000 }
    ensures one { IfOk result
        (λ t. length (⟦<Segments as PermTables>⟧.maps t) ≡ 1) }
    ensures words { IfOk result (λ t. t.words ≡ 16384) }
{
    let limit = Need {
        upper: 0,
        leaf,
        spill: 0,
    };
    mx_plain::one_domain(alloc, 16384, row, limit)
}

// A row with read-write on words 1024 to 1027.
fn four_words(alloc: Global) -> Result<Spans, NoMemory>
    ensures { IfOk result (IsRow 16384) }
{
    let mut row = Spans::new(alloc);
    row.push(Span {
        first: 1024,
        count: 4,
        perm: Perm::ReadWrite,
    })?;
    Ok(row)
}

// The first four entries of domain 1.
fn entries(tables: &Segments) -> [Option<u32>; 4]
    requires { length (⟦<Segments as PermTables>⟧.maps tables.now) ≡ 1 }
{
    [
        tables.entry(1, 0),
        tables.entry(1, 1),
        tables.entry(1, 2),
        tables.entry(1, 3),
    ]
}

// How many frames the entries of domain 1 stand in, and the first two words of the first of them.
fn first_frame(tables: &Segments) -> Option<(u32, u32, u32)>
    requires { length (⟦<Segments as PermTables>⟧.maps tables.now) ≡ 1 }
{
    let frames = tables.chains.frames(1);
    if frames == 0 {
        return None;
    }
    let frame = tables.chains.get(1, 0);
    let first = tables.leaf.get(frame, 0);
    let second = tables.leaf.get(frame, 1);
    Some((frames, first, second))
}

// What the trait's readers tell of tables of one domain, and of a word of them.
fn readings<T: PermTables>(tables: &T, word: u32) -> (u32, u32, Need, Need, Shown)
    requires domain { length (T.maps tables.now) ≡ 1 }
    requires word { word < T.size tables.now }
{
    let shown = tables.shown(1, word);
    (
        tables.words(),
        tables.modules(),
        tables.limit(),
        tables.used(),
        shown,
    )
}

type Seen = (
    [Option<u32>; 4],
    [Option<u32>; 4],
    (u32, u32, Need, Need, Shown),
);

// The entries of domain 1 before and after read-write on words 1028 to 1031, and what is read then.
fn before_and_after(alloc: Global) -> Option<Seen> {
    let row = four_words(alloc).ok()?;
    let mut tables = one_domain(alloc, row, 1).ok()?;
    let before = entries(&tables);
    if !granted(&mut tables, 1028, 4, Perm::ReadWrite) {
        return None;
    }
    let after = entries(&tables);
    let readings = readings(&tables, 1025);
    Some((before, after, readings))
}

// Two permissions, a span and the counts after its lookup.
fn looked_up(alloc: Global) -> Option<(Perm, Perm, Span, (u32, u64))> {
    let row = four_words(alloc).ok()?;
    let mut tables = one_domain(alloc, row, 1).ok()?;
    let inside = tables.perm(1, 1027);
    let behind = tables.perm(1, 1028);
    let span = tables.lookup(1, 16383);
    Some((inside, behind, span, of_segments(&tables)))
}

// The frames of domain 1.
fn frames_of_four_words(alloc: Global) -> Option<(u32, u32, u32)> {
    let row = four_words(alloc).ok()?;
    first_frame(&one_domain(alloc, row, 1).ok()?)
}

// What refuses tables without a leaf frame.
fn without_frames(alloc: Global) -> Option<BuildRefused> {
    let row = four_words(alloc).ok()?;
    one_domain(alloc, row, 0).err()
}

#[test]
fn segment_entries(rt: HostRuntime) {
    let seen = before_and_after(rt.alloc());
    let before = [
        Some(0x8000_0000),
        Some(0x8000_1002),
        Some(0x8000_1010),
        None,
    ];
    let after = [
        Some(0x8000_0000),
        Some(0x8000_1002),
        Some(0x8000_1020),
        None,
    ];
    let need = Need {
        upper: 0,
        leaf: 1,
        spill: 0,
    };
    let shown = Shown {
        level: Level::Segment,
        first: 1024,
        count: 8,
        stored: 0x8000_1002,
    };
    let readings = (16384, 1, need, need, shown);
    assert_eq!(rt; seen, Some((before, after, readings)));
}

#[test]
fn entries_stand_in_a_domain_s_frames(rt: HostRuntime) {
    let seen = frames_of_four_words(rt.alloc());
    assert_eq!(rt; seen, Some((1, 0x8000_0000, 0x8000_1002)));
}

#[test]
fn lookups_are_counted(rt: HostRuntime) {
    let seen = looked_up(rt.alloc());
    let span = Span {
        first: 1028,
        count: 15356,
        perm: Perm::None,
    };
    let told = (16384, 1);
    assert_eq!(rt; seen, Some((Perm::ReadWrite, Perm::None, span, told)));
}

#[test]
fn full_tables_are_refused(rt: HostRuntime) {
    let need = Need {
        upper: 0,
        leaf: 1,
        spill: 0,
    };
    let seen = without_frames(rt.alloc());
    assert_eq!(rt; seen, Some(BuildRefused::TablesFull { need }));
}
