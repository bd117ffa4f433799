//! Worked examples of tables of one domain over 64 KiB of RAM, for each kind of tables.
ghost use Rattle.std.specs.Prelude.{◌≡◌, ◌+◌, ◌*◌, ◌<◌, ◌≤◌, length, IfOk};
ghost use Rattle.mx_words.specs.declared.tables.Kind.TheVariants as K;
ghost use Rattle.mx_table.specs.Tables.{IsRow, IsLimit};
ghost use Rattle.mx_trie.specs.Read.{read_maps};

use mx_packed::Packed;
use mx_plain::{grant, row, try_change};
use mx_segments::Segments;
use mx_table::{BuildRefused, PermTables};
use mx_trie::{Trie, Vector};
use mx_words::{Level, Need, NoMemory, Perm, Shown, Span, Spans};
use std::alloc::Global;
use std::test::Fail;

/// 64 KiB of RAM.
const WORDS: u32 = 16384;

/// What most tables here may take.
const AMPLE: Need = Need {
    upper: 128,
    leaf: 4096,
    spill: 4096,
};

/// Just what a trie needs in which one page isn't even.
const ONE_PAGE: Need = Need {
    upper: 2,
    leaf: 1,
    spill: 0,
};

/// What a trie needs in which all words have one permission.
const NO_PAGE: Need = Need {
    upper: 1,
    leaf: 0,
    spill: 0,
};

/// One frame of 64 segment entries.
const ONE_FRAME: Need = Need {
    upper: 0,
    leaf: 1,
    spill: 0,
};

/// Tables of one domain.
fn one_domain<T: PermTables>(alloc: Global, row: Spans, limit: Need) -> Result<T, BuildRefused>
    requires row { IsRow 16384 row }
    requires limit { IsLimit limit }
    ensures one { IfOk result (λ t. length (T.maps t) ≡ 1) }
    ensures size { IfOk result (λ t. T.size t ≡ 16384) }
{
    mx_plain::one_domain(alloc, WORDS, row, limit)
}

/// Gives domain 1 a permission on a range, if the tables have room for it. The answer is whether they have.
pub(crate) fn granted<T: PermTables>(tables: &mut T, first: u32, count: u32, perm: Perm) -> bool
    requires one { length (T.maps tables.old) ≡ 1 }
    requires some { 0 < count }
    requires inside { first + count ≤ T.size tables.old }
    ensures one { length (T.maps tables.new) ≡ 1 }
    ensures same_size { T.size tables.new ≡ T.size tables.old }
{
    try_change(tables, &grant(first, count, perm))
}

/// Whether a grant of one word had room, and what the tables take then.
fn step<T: PermTables>(tables: &mut T, word: u32, perm: Perm) -> (bool, Need)
    requires one { length (T.maps tables.old) ≡ 1 }
    requires size { T.size tables.old ≡ 16384 }
    requires word { word < 16384 }
    ensures one { length (T.maps tables.new) ≡ 1 }
    ensures size { T.size tables.new ≡ 16384 }
{
    let room = granted(tables, word, 1, perm);
    (room, tables.used())
}

/// A row of one span.
fn one_span(alloc: Global, first: u32, count: u32, perm: Perm) -> Result<Spans, NoMemory>
    requires some { 0 < count }
    requires inside { first + count ≤ 16384 }
    ensures { IfOk result (IsRow 16384) }
{
    let span = Span { first, count, perm };
    row(alloc, span, count, 1)
}

/// A row with read on the first 2^20 words and read-write on the next.
fn two_regions(alloc: Global) -> Result<Spans, NoMemory>
    ensures { IfOk result (IsRow 2097152) }
{
    let mut row = Spans::new(alloc);
    row.push(Span {
        first: 0,
        count: 0x10_0000,
        perm: Perm::Read,
    })?;
    row.push(Span {
        first: 0x10_0000,
        count: 0x10_0000,
        perm: Perm::ReadWrite,
    })?;
    Ok(row)
}

/// A row of single words with read, the first of them word 0.
fn single_words(alloc: Global, step: u32, count: u32) -> Result<Spans, NoMemory>
    requires some { 0 < step }
    requires inside { step * count ≤ 16384 }
    ensures { IfOk result (IsRow 16384) }
{
    let word = Span {
        first: 0,
        count: 1,
        perm: Perm::Read,
    };
    row(alloc, word, step, count)
}

/// What a trie takes of which domain 1 may read word 0, and then whether each of three grants had room and what is
/// taken after it:
/// read on the first word of the next page, none on word 0, and the first grant once more.
fn one_page_at_a_time<T: PermTables>(tables: &mut T) -> [(bool, Need); 4]
    requires one { length (T.maps tables.old) ≡ 1 }
    requires size { T.size tables.old ≡ 16384 }
{
    let start = tables.used();
    let second = step(tables, 1024, Perm::Read);
    let freed = step(tables, 0, Perm::None);
    let again = step(tables, 1024, Perm::Read);
    [(true, start), second, freed, again]
}

/// The grant on the next page has no room until the first page is even again.
static ONE_PAGE_AT_A_TIME: [(bool, Need); 4] = [
    (true, ONE_PAGE),
    (false, ONE_PAGE),
    (true, NO_PAGE),
    (true, ONE_PAGE),
];

/// The same of a trie that is full then.
fn full_trie<T: PermTables + Drop>(alloc: Global) -> Option<[(bool, Need); 4]> {
    let row = single_words(alloc, 1, 1).ok()?;
    let mut tables = one_domain::<T>(alloc, row, ONE_PAGE).ok()?;
    Some(one_page_at_a_time(&mut tables))
}

#[test]
fn a_full_trie_takes_a_page_where_another_becomes_even(rt: HostRuntime) {
    let multilevel = full_trie::<Trie<Vector>>(rt.alloc());
    let packed = full_trie::<Trie<Packed>>(rt.alloc());
    assert_eq!(rt; [multilevel, packed], [Some(ONE_PAGE_AT_A_TIME); 2]);
}

/// What segments take of which domain 1 may read 32 words, each two words after the one before, and then whether each
/// of five grants
/// had room and what is taken after it: read on the word after these, none on word 0, the first once more, none on the
/// second of the
/// words, and the first once more.
fn one_run_at_a_time(alloc: Global) -> Option<[(bool, Need); 6]> {
    let row = single_words(alloc, 2, 32).ok()?;
    let mut tables = one_domain::<Segments>(alloc, row, ONE_FRAME).ok()?;
    let start = tables.used();
    let beyond = step(&mut tables, 64, Perm::Read);
    let first = step(&mut tables, 0, Perm::None);
    let still = step(&mut tables, 64, Perm::Read);
    let second = step(&mut tables, 2, Perm::None);
    let room = step(&mut tables, 64, Perm::Read);
    Some([(true, start), beyond, first, still, second, room])
}

/// The grant of the thirty-third word has no room until two others have lost theirs.
const ONE_RUN_AT_A_TIME: [(bool, Need); 6] = [
    (true, ONE_FRAME),
    (false, ONE_FRAME),
    (true, ONE_FRAME),
    (false, ONE_FRAME),
    (true, ONE_FRAME),
    (true, ONE_FRAME),
];

// 32 words apart, with read, and what lies after each: 64 runs, which fill a frame. One more such word makes 66 runs,
// one fewer 62.
// Without word 0 there are 63, since the words from 0 on to the next one become the first run.
#[test]
fn full_segments_take_a_run_where_others_join(rt: HostRuntime) -> Result<(), Fail> {
    let seen = one_run_at_a_time(rt.alloc()).ok_or("no tables")?;
    assert_eq!(rt; seen, ONE_RUN_AT_A_TIME);
    Ok(())
}

/// What refuses tables of this row.
fn refusal<T: PermTables + Drop>(
    alloc: Global,
    step: u32,
    count: u32,
    limit: Need,
) -> Option<BuildRefused>
    requires some { 0 < step }
    requires inside { step * count ≤ 16384 }
    requires limit { IsLimit limit }
{
    let row = single_words(alloc, step, count).ok()?;
    one_domain::<T>(alloc, row, limit).err()
}

// Words 0 and 1024 lie in two pages of one region; 33 words apart make 66 runs.
#[test]
fn tables_beyond_the_limit_are_not_built(rt: HostRuntime) -> Result<(), Fail> {
    let need = Need {
        upper: 2,
        leaf: 2,
        spill: 0,
    };
    let two_pages = Some(BuildRefused::TablesFull { need });
    let multilevel = refusal::<Trie<Vector>>(rt.alloc(), 1024, 2, ONE_PAGE);
    assert_eq!(rt; multilevel, two_pages);
    let packed = refusal::<Trie<Packed>>(rt.alloc(), 1024, 2, ONE_PAGE);
    assert_eq!(rt; packed, two_pages);
    let need = Need {
        upper: 0,
        leaf: 2,
        spill: 0,
    };
    let segments = refusal::<Segments>(rt.alloc(), 2, 33, ONE_FRAME);
    assert_eq!(rt; segments, Some(BuildRefused::TablesFull { need }));
    Ok(())
}

/// The entry of a line.
fn line(first: u32, stored: u32) -> Shown {
    Shown {
        level: Level::Leaf,
        first,
        count: 16,
        stored,
    }
}

/// The entries of two lines at the end of a page and the beginning of the next, of which domain 1 may read words up to
/// that end's
/// line: the first line's, whether read on the first word of the second had room, and both lines' after it.
fn over_a_page<T: PermTables + Drop>(alloc: Global) -> Option<(Shown, bool, [Shown; 2])> {
    let row = one_span(alloc, 976, 37, Perm::Read).ok()?;
    let mut tables = one_domain::<T>(alloc, row, AMPLE).ok()?;
    let before = tables.shown(1, 1008);
    let room = granted(&mut tables, 1024, 1, Perm::Read);
    Some((before, room, [tables.shown(1, 1008), tables.shown(1, 1024)]))
}

#[test]
fn an_entry_reaches_over_a_page(rt: HostRuntime) {
    let seen = over_a_page::<Trie<Packed>>(rt.alloc());
    let after = [line(1008, 0xF800_1406), line(1024, 0x07C0_0406)];
    assert_eq!(rt; seen, Some((line(1008, 0xFFC0_1406), true, after)));
}

/// Gives domain 1 a permission on a word of the line from word 16 on. The answer is whether there was room, the item
/// that decides the
/// line then, and how many spill words are taken.
fn spilled<T: PermTables>(tables: &mut T, word: u32, perm: Perm) -> (bool, Shown, u32)
    requires one { length (T.maps tables.old) ≡ 1 }
    requires size { T.size tables.old ≡ 16384 }
    requires word { word < 16384 }
    ensures one { length (T.maps tables.new) ≡ 1 }
    ensures size { T.size tables.new ≡ 16384 }
{
    let room = granted(tables, word, 1, perm);
    (room, tables.shown(1, 16), tables.used().spill)
}

/// Whether a line had room for a third run, and what `spilled` answers when it gets a fourth, then a fifth, and loses
/// that again. The
/// line had one run of no permission before.
fn spilled_and_back<T: PermTables + Drop>(
    alloc: Global,
) -> Option<(bool, [(bool, Shown, u32); 3])> {
    let mut tables = one_domain::<T>(alloc, Spans::new(alloc), AMPLE).ok()?;
    let (third, _, _) = spilled(&mut tables, 17, Perm::Read);
    let fourth = spilled(&mut tables, 18, Perm::ReadWrite);
    let fifth = spilled(&mut tables, 31, Perm::Read);
    let back = spilled(&mut tables, 31, Perm::None);
    Some((third, [fourth, fifth, back]))
}

#[test]
fn a_line_of_five_runs_has_a_spill_word(rt: HostRuntime) {
    let seen = spilled_and_back::<Trie<Packed>>(rt.alloc());
    let four = (true, line(16, 0x87CC_8492), 0);
    let spill = Shown {
        level: Level::Spill,
        first: 16,
        count: 16,
        stored: 0x4000_0024,
    };
    assert_eq!(rt; seen, Some((true, [four, (true, spill, 1), four])));
}

/// The numbers of words and of modules, the limit and what is taken, and the items that decide two words.
type Readings = (u32, u32, Need, Need, [Shown; 2]);

/// What the readers tell of tables of one domain, and of two of its words.
fn readings<T: PermTables>(tables: &T) -> Readings
    requires one { length (T.maps tables.now) ≡ 1 }
    requires size { T.size tables.now ≡ 16384 }
{
    let items = [tables.shown(1, 1025), tables.shown(1, 4095)];
    (
        tables.words(),
        tables.modules(),
        tables.limit(),
        tables.used(),
        items,
    )
}

/// The same of tables with read-write on words 1024 to 1027, the first of a page.
fn readings_of_four_words<T: PermTables + Drop>(alloc: Global) -> Option<Readings> {
    let row = one_span(alloc, 1024, 4, Perm::ReadWrite).ok()?;
    let tables = one_domain::<T>(alloc, row, AMPLE).ok()?;
    Some(readings(&tables))
}

/// The vector of a page without rights.
const EVEN_PAGE: Shown = Shown {
    level: Level::Mid,
    first: 3072,
    count: 1024,
    stored: 1,
};

/// The readings of a trie with this entry of the line of the four words.
fn told_by_trie(stored: u32) -> Option<Readings> {
    let items = [line(1024, stored), EVEN_PAGE];
    Some((16384, 1, AMPLE, ONE_PAGE, items))
}

#[test]
fn tries_tell_what_they_hold(rt: HostRuntime) {
    let multilevel = readings_of_four_words::<Trie<Vector>>(rt.alloc());
    let packed = readings_of_four_words::<Trie<Packed>>(rt.alloc());
    let want = [told_by_trie(0x0000_00AA), told_by_trie(0x07C0_100A)];
    assert_eq!(rt; [multilevel, packed], want);
}

/// The entry of a run.
fn run(first: u32, count: u32, stored: u32) -> Shown {
    Shown {
        level: Level::Segment,
        first,
        count,
        stored,
    }
}

#[test]
fn segments_tell_what_they_hold(rt: HostRuntime) {
    let items = [run(1024, 4, 0x8000_1002), run(1028, 15356, 0x8000_1010)];
    let segments = readings_of_four_words::<Segments>(rt.alloc());
    assert_eq!(rt; segments, Some((16384, 1, AMPLE, ONE_FRAME, items)));
}

/// The word at a place of domain 1's root table.
fn in_root(tables: &Trie<Vector>, place: u32) -> u32
    requires one { length (read_maps K.Multilevel tables.now.upper tables.now.leaf tables.now.spill tables.now.words
        tables.now.roots) ≡ 1 }
    requires place { place < 1024 }
{
    let root = tables.roots.get(1);
    tables.upper.get(root, place)
}

/// Tables of one domain over 8 MiB of RAM.
fn wide_domain<T: PermTables>(alloc: Global, row: Spans) -> Result<T, BuildRefused>
    requires { IsRow 2097152 row }
    ensures { IfOk result (λ t. length (T.maps t) ≡ 1) }
{
    mx_plain::one_domain(alloc, 0x20_0000, row, AMPLE)
}

/// The words at three places of a root table: of the first 2^20 words of RAM, on which domain 1 has read, of as many
/// after them, on
/// which it has read-write, and at place 0.
fn in_root_of_two_regions(alloc: Global) -> Option<[u32; 3]> {
    let row = two_regions(alloc).ok()?;
    let tables = wide_domain::<Trie<Vector>>(alloc, row).ok()?;
    Some([
        in_root(&tables, 512),
        in_root(&tables, 513),
        in_root(&tables, 0),
    ])
}

// RAM begins at 0x80000000, which is 512 times 4 MiB.
#[test]
fn a_root_entry_stands_at_the_place_of_its_addresses(rt: HostRuntime) {
    let words = in_root_of_two_regions(rt.alloc());
    assert_eq!(rt; words, Some([0x0001_5555, 0x0002_AAA9, 0]));
}
