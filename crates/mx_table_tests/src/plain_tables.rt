//! Plain tables of two domains over 3000 words, of each kind; what is read of them is worked out by hand.
ghost use Rattle.std.specs.Prelude.{◌≡◌, ◌+◌, ◌<◌, ◌≤◌, length, IfOk, IfSome};
ghost use Rattle.mx_table.specs.Tables.{IsDomain, IsRow};

use mx_plain::{AsMultilevel, AsPacked, AsSegments, PlainTables, grant, try_change};
use mx_table::{BuildRefused, PermTables};
use mx_words::{Level, Need, NoMemory, Perm, Shown, Span, Spans};
use std::alloc::Global;
use std::test::Fail;

const SIZE: u32 = 3000;

const LIMIT: Need = Need {
    upper: 10,
    leaf: 10,
    spill: 10,
};

// Makes a change for domain 1 of two, where it fits.
fn give<T: PermTables>(tables: &mut T, first: u32, count: u32, perm: Perm) -> Option<()>
    requires two { length (T.maps tables.old) ≡ 2 }
    requires some { 0 < count }
    requires inside { first + count ≤ T.size tables.old }
    ensures two { length (T.maps tables.new) ≡ 2 }
    ensures size { T.size tables.new ≡ T.size tables.old }
{
    if try_change(tables, &grant(first, count, perm)) {
        Some(())
    } else {
        None
    }
}

// A row of one span.
fn one_span(alloc: Global, span: Span) -> Result<Spans, NoMemory>
    requires some { 0 < span.count }
    requires inside { span.first + span.count ≤ 3000 }
    ensures { IfOk result (IsRow 3000) }
{
    let mut row = Spans::new(alloc);
    row.push(span)?;
    Ok(row)
}

// Tables of two rows: in the first one the words 0 to 127 may be fetched, the second one is empty.
fn two_rows<T: PermTables>(alloc: Global) -> Option<T>
    ensures two { IfSome result (λ t. length (T.maps t) ≡ 2) }
    ensures size { IfSome result (λ t. T.size t ≡ 3000) }
{
    let code = Span {
        first: 0,
        count: 128,
        perm: Perm::ExecuteRead,
    };
    let row = one_span(alloc, code).ok()?;
    T::build(alloc, SIZE, &[row, Spans::new(alloc)], LIMIT).ok()
}

// Domain 1 may fetch words 0 to 127, read 1030 to 1032, 1057 and 1059, and write 1050; domain 2 has no permission.
fn two_domains<T: PermTables + Drop>(alloc: Global) -> Option<T>
    ensures two { IfSome result (λ t. length (T.maps t) ≡ 2) }
    ensures size { IfSome result (λ t. T.size t ≡ 3000) }
{
    let mut tables = two_rows::<T>(alloc)?;
    give(&mut tables, 1030, 3, Perm::Read)?;
    give(&mut tables, 1050, 1, Perm::ReadWrite)?;
    give(&mut tables, 1057, 1, Perm::Read)?;
    give(&mut tables, 1059, 1, Perm::Read)?;
    Some(tables)
}

/// The permission of a word, the span round it and the item that decides it.
type Reading = (Perm, Span, Shown);

// What is read of a word.
fn read<T: PermTables>(tables: &mut T, domain: u32, word: u32) -> Reading
    requires domain { IsDomain (T.maps tables.old) domain }
    requires word { word < T.size tables.old }
    ensures maps { T.maps tables.new ≡ T.maps tables.old }
    ensures size { T.size tables.new ≡ T.size tables.old }
{
    let perm = tables.perm(domain, word);
    let span = tables.lookup(domain, word);
    (perm, span, tables.shown(domain, word))
}

fn expectation(
    perm: Perm,
    span: (u32, u32),
    level: Level,
    item: (u32, u32),
    stored: u32,
) -> Reading {
    (
        perm,
        Span {
            first: span.0,
            count: span.1,
            perm,
        },
        Shown {
            level,
            first: item.0,
            count: item.1,
            stored,
        },
    )
}

/// What tables take, what is read of three words, and their numbers of words and of modules and their limit.
type OfSegments = (Need, [Reading; 3], (u32, u32, Need));

// The same of words inside two spans of domain 1, and of the last word of domain 2.
fn read_of_segments<T: PermTables + Drop>(alloc: Global) -> Option<OfSegments> {
    let mut tables = two_domains::<T>(alloc)?;
    let code = read(&mut tables, 1, 100);
    let data = read(&mut tables, 1, 1031);
    let last = read(&mut tables, 2, 2999);
    let numbers = (tables.words(), tables.modules(), tables.limit());
    Some((tables.used(), [code, data, last], numbers))
}

#[test]
fn plain_segments(rt: HostRuntime) {
    let seen = read_of_segments::<PlainTables<AsSegments>>(rt.alloc());
    let need = Need {
        upper: 0,
        leaf: 2,
        spill: 0,
    };
    let level = Level::Segment;
    let code = expectation(Perm::ExecuteRead, (0, 128), level, (0, 128), 0x8000_0003);
    let data = expectation(Perm::Read, (1030, 3), level, (1030, 3), 0x8000_1019);
    let last = expectation(Perm::None, (0, 3000), level, (0, 3000), 0x8000_0000);
    assert_eq!(rt; seen, Some((need, [code, data, last], (SIZE, 2, LIMIT))));
}

// What tables take, and what is read of a word of an even line, of words between and in the spans of other lines, and
// of each
// domain's last word.
fn read_of_multilevel<T: PermTables + Drop>(alloc: Global) -> Option<(Need, [Reading; 5])> {
    let mut tables = two_domains::<T>(alloc)?;
    let code = read(&mut tables, 1, 100);
    let between = read(&mut tables, 1, 1035);
    let data = read(&mut tables, 1, 1057);
    let last = read(&mut tables, 1, 2999);
    let other = read(&mut tables, 2, 2999);
    Some((tables.used(), [code, between, data, last, other]))
}

#[test]
fn plain_multilevel(rt: HostRuntime) {
    let seen = read_of_multilevel::<PlainTables<AsMultilevel>>(rt.alloc());
    let need = Need {
        upper: 3,
        leaf: 1,
        spill: 0,
    };
    let code = expectation(Perm::ExecuteRead, (0, 128), Level::Mid, (0, 1024), 13);
    let between = expectation(Perm::None, (1033, 7), Level::Leaf, (1024, 16), 86016);
    let data = expectation(Perm::Read, (1057, 1), Level::Leaf, (1056, 16), 68);
    let last = expectation(Perm::None, (2944, 56), Level::Mid, (2048, 952), 1);
    let other = expectation(Perm::None, (0, 3000), Level::Root, (0, 3000), 1);
    assert_eq!(rt; seen, Some((need, [code, between, data, last, other])));
}

// What tables take, and what is read of two words of a line with its reaches, and of one of a line with a spill word.
fn read_of_packed<T: PermTables + Drop>(alloc: Global) -> Option<(Need, [Reading; 3])> {
    let mut tables = two_domains::<T>(alloc)?;
    let before = read(&mut tables, 1, 1026);
    let behind = read(&mut tables, 1, 1035);
    let spilled = read(&mut tables, 1, 1057);
    Some((tables.used(), [before, behind, spilled]))
}

#[test]
fn plain_packed(rt: HostRuntime) {
    let seen = read_of_packed::<PlainTables<AsPacked>>(rt.alloc());
    let need = Need {
        upper: 3,
        leaf: 1,
        spill: 1,
    };
    let line = (1024, 16);
    let before = expectation(Perm::None, (993, 37), Level::Leaf, line, 4_202_846_226);
    let behind = expectation(Perm::None, (1033, 17), Level::Leaf, line, 4_202_846_226);
    let spilled = expectation(Perm::Read, (1057, 1), Level::Spill, (1056, 16), 68);
    assert_eq!(rt; seen, Some((need, [before, behind, spilled])));
}

#[test]
fn full_tables_are_refused(rt: HostRuntime) -> Result<(), Fail> {
    let limit = Need {
        upper: 0,
        leaf: 1,
        spill: 0,
    };
    let rows = [Spans::new(rt.alloc()), Spans::new(rt.alloc())];
    let need = Need {
        upper: 0,
        leaf: 2,
        spill: 0,
    };
    assert_eq!(rt;
        PlainTables::<AsSegments>::build(rt.alloc(), SIZE, &rows, limit).err(),
        Some(BuildRefused::TablesFull { need })
    );
    Ok(())
}
