//! Lines of what the tables take and store, and of the counts.
ghost use Rattle.std.specs.Prelude.{◌≡◌, ◌+◌, ◌<◌, ◌≤◌, length};
ghost use Rattle.mx_io.specs.Sink.{Puts};
ghost use Rattle.mx_words.specs.Caches.{Cache};
ghost use Rattle.mx_words.specs.Ranges.{most_words};
ghost use Rattle.mx_model.specs.Valid.{IsModule};
ghost use Rattle.mx_tail.specs.Tail.{Passes};
ghost use Rattle.mx_report.specs.Lines.{kind_name, tables_line, level_name, shown_line, counts_text};
ghost use Rattle.mx_report.specs.Texts.{all_items, counts_lines, domain_map, flat_told, has_rights, shown_lines};
ghost use Rattle.mx_report.specs.Texts.{shown_text, table_lines};

use crate::lines::end_lines;
use crate::words::address;
use crate::{Tail, put_pieces};
use mx_check::Counts;
use mx_io::{Failed, Piece, Sink};
use mx_machine::{Machine, machine_is_valid};
use mx_table::PermTables;
use mx_words::{Kind, Level, Need, Perm, Shown};

/// Puts the line of what the tables take, with the name of their kind and their limit, and a line for each of their
/// stored items
/// that has a word of RAM with a permission.
pub fn table_lines<R: Sink, T: PermTables, const N: usize>(
    sink: &mut R,
    machine: &Machine<T, N>,
    kind: Kind,
    limit: Need,
) -> Result<(), Failed>
    ensures { Puts (R.state sink.old) (R.state sink.new)
        (table_lines kind limit machine.now.core (flat_told machine.now)) result }
{
    let mut tail = Tail::new();
    let put = put_tables(&mut tail, sink, machine, kind, limit);
    end_lines(&mut tail, sink, put)
}

/// Puts a line with the counts of each hart.
pub fn counts_lines<R: Sink, T: PermTables, const N: usize>(
    sink: &mut R,
    machine: &Machine<T, N>,
) -> Result<(), Failed>
    ensures { Puts (R.state sink.old) (R.state sink.new) (counts_lines machine.now.core) result }
{
    let mut tail = Tail::new();
    let put = put_counts(&mut tail, sink, machine);
    end_lines(&mut tail, sink, put)
}

pub(crate) fn put_tables<R: Sink, T: PermTables, const N: usize>(
    tail: &mut Tail,
    sink: &mut R,
    machine: &Machine<T, N>,
    kind: Kind,
    limit: Need,
) -> Result<(), Failed>
    ensures { Passes tail.old (R.state sink.old) (R.state sink.new) tail.new
        (table_lines kind limit machine.now.core (flat_told machine.now)) result }
{
    put_used(tail, sink, kind, &machine.used(), &limit)?;
    put_items(tail, sink, machine)
}

fn kind_name(kind: Kind) -> &'static str
    ensures { result.now ≡ kind_name kind }
{
    match kind {
        Kind::Segments => "segments",
        Kind::Multilevel => "multilevel",
        Kind::Packed => "packed",
    }
}

#[tactic(auto, unfolding(crate::specs::Lines::tables_line))]
fn put_used<R: Sink>(
    tail: &mut Tail,
    sink: &mut R,
    kind: Kind,
    used: &Need,
    limit: &Need,
) -> Result<(), Failed>
    ensures { Passes tail.old (R.state sink.old) (R.state sink.new) tail.new
        (tables_line kind used.now limit.now) result }
{
    put_pieces(
        tail,
        sink,
        &[
            Piece::Text("tables kind="),
            Piece::Text(kind_name(kind)),
            Piece::Text(" upper="),
            Piece::Number(used.upper as u64),
            Piece::Text("/"),
            Piece::Number(limit.upper as u64),
            Piece::Text(" leaf="),
            Piece::Number(used.leaf as u64),
            Piece::Text("/"),
            Piece::Number(limit.leaf as u64),
            Piece::Text(" spill="),
            Piece::Number(used.spill as u64),
            Piece::Text("/"),
            Piece::Number(limit.spill as u64),
            Piece::Text("\n"),
        ],
    )
}

// Puts the lines of all domains' items.
fn put_items<R: Sink, T: PermTables, const N: usize>(
    tail: &mut Tail,
    sink: &mut R,
    machine: &Machine<T, N>,
) -> Result<(), Failed>
    ensures { Passes tail.old (R.state sink.old) (R.state sink.new) tail.new
        (all_items machine.now.core (flat_told machine.now)) result }
{
    for i in 0..machine.modules() {
        put_domain_items(tail, sink, machine, i + 1)?;
    }
    Ok(())
}

fn put_domain_items<R: Sink, T: PermTables, const N: usize>(
    tail: &mut Tail,
    sink: &mut R,
    machine: &Machine<T, N>,
    domain: u32,
) -> Result<(), Failed>
    requires { IsModule (length machine.now.core.modules) domain }
    ensures { Passes tail.old (R.state sink.old) (R.state sink.new) tail.new
        (shown_lines domain machine.now.core.kind (domain_map machine.now domain)) result }
{
    machine_is_valid(machine);
    let mut word = 0;
    'items: while word < machine.words() {
        let item = machine.shown(domain, word);
        put_item(tail, sink, machine, domain, &item)?;
        word = item.first + item.count;
    }
    Ok(())
}

// Puts the line of an item. One of no permission has none.
fn put_item<R: Sink, T: PermTables, const N: usize>(
    tail: &mut Tail,
    sink: &mut R,
    machine: &Machine<T, N>,
    domain: u32,
    item: &Shown,
) -> Result<(), Failed>
    requires domain { IsModule (length machine.now.core.modules) domain }
    requires inside { item.now.first + item.now.count ≤ machine.now.core.size }
    ensures { Passes tail.old (R.state sink.old) (R.state sink.new) tail.new
        (shown_text domain (domain_map machine.now domain) item.now) result }
{
    machine_is_valid(machine);
    if has_rights(machine, domain, item.first, item.count) {
        put_shown(tail, sink, domain, item)
    } else {
        Ok(())
    }
}

// Whether a domain has a right on some of `count` words from `first` on. It goes from span to span.
fn has_rights<T: PermTables, const N: usize>(
    machine: &Machine<T, N>,
    domain: u32,
    first: u32,
    count: u32,
) -> bool
    requires domain { IsModule (length machine.now.core.modules) domain }
    requires inside { first + count ≤ machine.now.core.size }
    ensures { result ≡ has_rights (domain_map machine.now domain) first count }
{
    machine_is_valid(machine);
    let end = first + count;
    let mut word = first;
    'spans: while word < end {
        let span = machine.span(domain, word);
        if span.perm != Perm::None {
            return true;
        }
        word = span.first + span.count;
    }
    false
}

fn level_name(level: Level) -> &'static str
    ensures { result.now ≡ level_name level }
{
    match level {
        Level::Segment => "segment",
        Level::Root => "root",
        Level::Mid => "mid",
        Level::Leaf => "leaf",
        Level::Spill => "spill",
    }
}

#[tactic(auto, unfolding(crate::specs::Lines::shown_line))]
fn put_shown<R: Sink>(
    tail: &mut Tail,
    sink: &mut R,
    domain: u32,
    item: &Shown,
) -> Result<(), Failed>
    requires { item.now.first ≤ most_words }
    ensures { Passes tail.old (R.state sink.old) (R.state sink.new) tail.new
        (shown_line domain item.now) result }
{
    put_pieces(
        tail,
        sink,
        &[
            Piece::Text("shown "),
            Piece::Number(domain as u64),
            Piece::Text(" "),
            Piece::Text(level_name(item.level)),
            Piece::Text(" "),
            Piece::Hex(address(item.first)),
            Piece::Text(" "),
            Piece::Hex(item.stored),
            Piece::Text("\n"),
        ],
    )
}

pub(crate) fn put_counts<R: Sink, T: PermTables, const N: usize>(
    tail: &mut Tail,
    sink: &mut R,
    machine: &Machine<T, N>,
) -> Result<(), Failed>
    ensures { Passes tail.old (R.state sink.old) (R.state sink.new) tail.new
        (counts_lines machine.now.core) result }
{
    for hart in 0..machine.harts() {
        put_hart_counts(tail, sink, hart, &machine.counts(hart))?;
    }
    Ok(())
}

#[tactic(auto, unfolding(crate::specs::Lines::counts_text))]
fn put_hart_counts<R: Sink>(
    tail: &mut Tail,
    sink: &mut R,
    hart: u32,
    counts: &Counts,
) -> Result<(), Failed>
    ensures { Passes tail.old (R.state sink.old) (R.state sink.new) tail.new
        (counts_text hart counts.now.sidecar counts.now.lookaside counts.now.walks) result }
{
    put_pieces(
        tail,
        sink,
        &[
            Piece::Text("counts "),
            Piece::Number(hart as u64),
            Piece::Text(" sidecar="),
            Piece::Number(counts.sidecar),
            Piece::Text(" lookaside="),
            Piece::Number(counts.lookaside),
            Piece::Text(" walks="),
            Piece::Number(counts.walks),
            Piece::Text("\n"),
        ],
    )
}
