//! Times calls of permission tables: `tables_speed KIND ROUNDS`, with KIND segments, multilevel or packed, prints to
//! stdout what the
//! calls answered, which is the same for each kind, and to stderr the processor time that so many calls of each took.
#![tactic(auto)]

ghost use Rattle.std.specs.Prelude.{◌≡◌, ◌+◌, ◌*◌, ◌/◌, ◌<◌, ◌≤◌, ◌^◌, length};
ghost use Rattle.mx_words.specs.Limits.{most_modules};

mod allocs;
mod calls;
mod places;
mod sample;

use calls::Range;
use mx_packed::Packed;
use mx_segments::Segments;
use mx_table::PermTables;
use mx_trie::{Trie, Vector};
use mx_words::{Kind, Perm};
use std::alloc::Global;
use std::time::{CpuClock, Duration};
use std::{env, io};

fn main(rt: HostRuntime) -> io::Result<()> {
    let mut args = env::args(&rt)?;
    let _name = args.next();
    let kind = args.next().and_then(|word| kind_of(word.as_str()));
    let rounds = args.next().and_then(|word| word.parse::<u64>().ok());
    let (Some(kind), Some(rounds)) = (kind, rounds) else {
        return eprintln!(rt; "tables_speed KIND ROUNDS, with KIND segments, multilevel or packed");
    };
    match kind {
        Kind::Segments => time_kind::<Segments>(&rt, rt.alloc(), rounds),
        Kind::Multilevel => time_kind::<Trie<Vector>>(&rt, rt.alloc(), rounds),
        Kind::Packed => time_kind::<Trie<Packed>>(&rt, rt.alloc(), rounds),
    }
}

/// The kind of this name.
fn kind_of(name: &str) -> Option<Kind> {
    match name {
        "segments" => Some(Kind::Segments),
        "multilevel" => Some(Kind::Multilevel),
        "packed" => Some(Kind::Packed),
        _ => None,
    }
}

/// Times the calls over tables of 64 KiB and of 64 MiB of RAM.
fn time_kind<T: PermTables + Drop>(
    rt: &(impl Print + Eprint + CpuClock),
    alloc: Global,
    rounds: u64,
) -> io::Result<()> {
    time_size::<T>(rt, alloc, 1 << 14, rounds)?;
    time_size::<T>(rt, alloc, 1 << 24, rounds)?;
    for domains in [1, 15, 63] {
        time_domains::<T>(rt, alloc, domains, rounds)?;
    }
    time_places::<T>(rt, alloc, 64, 16_384, rounds)?;
    time_places::<T>(rt, alloc, 256, 4_096, rounds)
}

/// Times changes of one word in a region full of so many spans, one in each `step` words: at its start, in its middle
/// and at its end,
/// each time in the middle of the words after a span.
fn time_places<T: PermTables + Drop>(
    rt: &(impl Print + Eprint + CpuClock),
    alloc: Global,
    step: u32,
    spans: u32,
    rounds: u64,
) -> io::Result<()>
    requires some { 4 ≤ step }
    requires small { step ≤ 1024 }
    requires few { step * spans ≤ 1048576 }
{
    let Some(mut tables) = places::tables::<T>(alloc, 1 << 24, step, spans) else {
        return eprintln!(rt; "no memory");
    };
    let between = step / 2 + step / 4;
    let last = places::REGION_WORDS - step;
    time_place(rt, &mut tables, "start", between, step, rounds)?;
    time_place(
        rt,
        &mut tables,
        "middle",
        places::REGION_WORDS / 2 + between,
        step,
        rounds,
    )?;
    time_place(rt, &mut tables, "end", last + between, step, rounds)
}

/// Changes of the word `at` of the region: `fits` alone where it gets a right, `fits` with `apply` where it gets it and
/// loses it in turn,
/// and `fits` alone where it loses it.
fn time_place<T: PermTables>(
    rt: &(impl Print + Eprint + CpuClock),
    tables: &mut T,
    place: &str,
    at: u32,
    step: u32,
    rounds: u64,
) -> io::Result<()>
    requires inside { at < 1048576 }
    requires one { length (T.maps tables.old) ≡ 1 }
    requires size { T.size tables.old ≡ 16777216 }
    ensures one { length (T.maps tables.new) ≡ 1 }
    ensures size { T.size tables.new ≡ 16777216 }
{
    let range = Range {
        first: places::REGION + at,
        count: 1,
    };
    let begun = rt.thread_cpu_time()?;
    let fit = allocs::fits(tables, range, 1, Perm::ReadWrite, rounds);
    let between = rt.thread_cpu_time()?;
    let made = allocs::changes(tables, range, 1, rounds);
    let ended = rt.thread_cpu_time()?;
    println!(rt;
        "a word at the {place} of a region, spans each {step} words: {fit} fit, {made} made"
    )?;
    tell_alloc(rt, "place-fits", place, step, 1, rounds, begun, between)?;
    tell_alloc(rt, "place-apply", place, step, 1, rounds, between, ended)?;
    time_loss(rt, tables, place, range, step, rounds)
}

/// `fits` alone of changes by which a range of the region loses its right. It gets it before and loses it afterwards.
fn time_loss<T: PermTables>(
    rt: &(impl Print + Eprint + CpuClock),
    tables: &mut T,
    place: &str,
    range: Range,
    step: u32,
    rounds: u64,
) -> io::Result<()>
    requires words { 0 < range.count }
    requires inside { range.first + range.count ≤ 16777216 }
    requires one { length (T.maps tables.old) ≡ 1 }
    requires size { T.size tables.old ≡ 16777216 }
    ensures one { length (T.maps tables.new) ≡ 1 }
    ensures size { T.size tables.new ≡ 16777216 }
{
    let given = allocs::changes(tables, range, 1, 1);
    let begun = rt.thread_cpu_time()?;
    let fit = allocs::fits(tables, range, 1, Perm::None, rounds);
    let ended = rt.thread_cpu_time()?;
    let taken = allocs::changes(tables, range, 1, 2);
    println!(rt; "and without its right: {fit} fit, {} made", given + taken)?;
    tell_alloc(rt, "place-loss", place, step, 1, rounds, begun, ended)
}

/// Times allocs of 16 words, 1 MiB and 64 MiB over tables of so many domains, each at a usual place and at a worst one:
/// for 16 words the
/// first page of a region and the last page of one of which all other pages are even; for more, whole regions' eighths
/// and whole
/// regions, and ranges that begin a few words after.
fn time_domains<T: PermTables + Drop>(
    rt: &(impl Print + Eprint + CpuClock),
    alloc: Global,
    domains: u32,
    rounds: u64,
) -> io::Result<()>
    requires some { 1 ≤ domains }
    requires few { domains ≤ most_modules }
{
    let Some(mut tables) = allocs::tables::<T>(alloc, domains) else {
        return eprintln!(rt; "no memory");
    };
    let at = |first, count| Range { first, count };
    time_allocs(
        rt,
        &mut tables,
        "usual",
        at(0x40_0200, 0x10),
        domains,
        rounds,
    )?;
    time_allocs(
        rt,
        &mut tables,
        "worst",
        at(0x8F_FE00, 0x10),
        domains,
        rounds,
    )?;
    time_allocs(
        rt,
        &mut tables,
        "usual",
        at(0x60_0000, 0x4_0000),
        domains,
        rounds,
    )?;
    time_allocs(
        rt,
        &mut tables,
        "worst",
        at(0x60_0008, 0x4_0000),
        domains,
        rounds,
    )?;
    time_allocs(rt, &mut tables, "usual", at(0, 0x100_0000), domains, rounds)?;
    time_allocs(rt, &mut tables, "worst", at(1, 0xFF_FFFE), domains, rounds)
}

/// `fits` alone, and `fits` with `apply`, of allocs and frees of a range, as often as makes about `rounds` lines of 16
/// words, and at
/// least twice.
fn time_allocs<T: PermTables>(
    rt: &(impl Print + Eprint + CpuClock),
    tables: &mut T,
    place: &str,
    range: Range,
    domains: u32,
    rounds: u64,
) -> io::Result<()>
    requires some { 1 ≤ domains }
    requires few { domains ≤ most_modules }
    requires domains { length (T.maps tables.old) ≡ domains }
    requires size { T.size tables.old ≡ 16777216 }
    requires words { 16 ≤ range.count }
    requires inside { range.first + range.count ≤ 16777216 }
    ensures domains { length (T.maps tables.new) ≡ domains }
    ensures size { T.size tables.new ≡ 16777216 }
{
    let count = range.count;
    let rounds = (rounds / u64::from(count / 16)).max(2);
    let begun = rt.thread_cpu_time()?;
    let fit = allocs::fits(tables, range, domains, Perm::ReadWrite, rounds);
    let between = rt.thread_cpu_time()?;
    let made = allocs::changes(tables, range, domains, rounds);
    let ended = rt.thread_cpu_time()?;
    println!(rt; "alloc of {count} in {domains} domains, {place}: {fit} fit, {made} made")?;
    tell_alloc(rt, "fits", place, count, domains, rounds, begun, between)?;
    tell_alloc(rt, "alloc", place, count, domains, rounds, between, ended)
}

/// Times the calls over tables of a RAM of `words` words: changes are of a word, of a page, and of 4 MiB where RAM is
/// larger.
fn time_size<T: PermTables + Drop>(
    rt: &(impl Print + Eprint + CpuClock),
    alloc: Global,
    words: u32,
    rounds: u64,
) -> io::Result<()>
    requires few { 16384 ≤ words }
    requires most { words ≤ 2 ^ 24 }
{
    let Some(mut tables) = sample::tables::<T>(alloc, words) else {
        return eprintln!(rt; "no memory");
    };
    time_reads(rt, &mut tables, words, rounds)?;
    time_changes(rt, &mut tables, words, 1, rounds)?;
    time_changes(rt, &mut tables, words, 1024, rounds)?;
    if words / 2 >= 1 << 20 {
        time_changes(rt, &mut tables, words, 1 << 20, rounds)?;
    }
    Ok(())
}

/// `perm` and `lookup` at words in and after each span.
fn time_reads<T: PermTables>(
    rt: &(impl Print + Eprint + CpuClock),
    tables: &mut T,
    words: u32,
    rounds: u64,
) -> io::Result<()>
    requires few { 16384 ≤ words }
    requires most { words ≤ 2 ^ 24 }
    requires one { length (T.maps tables.old) ≡ 1 }
    requires size { T.size tables.old ≡ words }
    ensures one { length (T.maps tables.new) ≡ 1 }
    ensures size { T.size tables.new ≡ words }
{
    let begun = rt.thread_cpu_time()?;
    let seen = calls::perms(tables, words, rounds);
    let between = rt.thread_cpu_time()?;
    let found = calls::lookups(tables, words, rounds);
    let ended = rt.thread_cpu_time()?;
    println!(rt; "perm in {words} words: {seen} allowed")?;
    println!(rt; "lookup in {words} words: {found} allowed")?;
    tell(rt, "perm", words, 1, rounds, begun, between)?;
    tell(rt, "lookup", words, 1, rounds, between, ended)
}

/// `fits` alone, and `fits` with `apply`, of changes of `count` words from the middle of RAM on, as often as makes
/// about `rounds`
/// lines of 16 words, and at least twice.
fn time_changes<T: PermTables>(
    rt: &(impl Print + Eprint + CpuClock),
    tables: &mut T,
    words: u32,
    count: u32,
    rounds: u64,
) -> io::Result<()>
    requires some { 0 < count }
    requires half { count ≤ words / 2 }
    requires one { length (T.maps tables.old) ≡ 1 }
    requires size { T.size tables.old ≡ words }
    ensures one { length (T.maps tables.new) ≡ 1 }
    ensures size { T.size tables.new ≡ words }
{
    let first = words / 2;
    let range = Range { first, count };
    let rounds = (rounds / u64::from(count / 16 + 1)).max(2);
    let begun = rt.thread_cpu_time()?;
    let fit = calls::count_fits(tables, range, rounds);
    let between = rt.thread_cpu_time()?;
    let made = calls::count_made(tables, range, rounds);
    let ended = rt.thread_cpu_time()?;
    println!(rt; "fits of {count} in {words} words: {fit} fit")?;
    println!(rt; "apply of {count} in {words} words: {made} made")?;
    tell(rt, "fits", words, count, rounds, begun, between)?;
    tell(rt, "apply", words, count, rounds, between, ended)
}

/// One line of costs.
fn tell(
    rt: &impl Eprint,
    call: &str,
    words: u32,
    count: u32,
    rounds: u64,
    begun: Duration,
    ended: Duration,
) -> io::Result<()> {
    let taken = ended.checked_sub(begun).unwrap_or_default();
    eprintln!(rt;
        "name={call}-{count}-{words} rounds={rounds} microseconds={}",
        taken.as_micros()
    )
}

/// One line of costs of allocs.
fn tell_alloc(
    rt: &impl Eprint,
    call: &str,
    place: &str,
    count: u32,
    domains: u32,
    rounds: u64,
    begun: Duration,
    ended: Duration,
) -> io::Result<()> {
    let taken = ended.checked_sub(begun).unwrap_or_default();
    eprintln!(rt;
        "name={call}-{count}-{domains}-{place} rounds={rounds} microseconds={}",
        taken.as_micros()
    )
}
