//! The closing lines of a run's report.
ghost use Rattle.std.specs.Prelude.{◌≡◌, ℕ, List, length, map};
ghost use Rattle.mx_model.specs.State.{State, flat};
ghost use Rattle.mx_tail.specs.Tail.{Passes};
ghost use Rattle.mx_report.specs.Texts.{all_harts, all_domains, asked_lines, closing, flat_closing, flat_told};
ghost use Rattle.mx_report.specs.Texts.{tables_asked, counts_asked};
ghost use Rattle.mx_report.specs.declared.lines.EndState.{EndState as End};
ghost use Rattle.mx_report.specs.declared.closing.Options.{Options as Asked};

use crate::lines::{put_end, put_hart};
use crate::maps::put_domain;
use crate::owners::put_owners;
use crate::tables::{put_counts, put_tables};
use crate::{EndState, Tail};
use mx_io::{Failed, Sink};
use mx_machine::Machine;
use mx_table::PermTables;
use mx_words::{Kind, Need};

/// What the report shows beside the lines that each run has.
#[derive(Clone, Copy)]
pub struct Options {
    /// What the tables take and store.
    pub tables: bool,
    /// The counts of each hart.
    pub counts: bool,
}

/// Puts the closing lines of a run's report through a buffer. The names are those of the modules in order. The kind is
/// that of the
/// tables, and the limit theirs.
pub fn put_closing<R: Sink, T: PermTables, const N: usize>(
    tail: &mut Tail,
    sink: &mut R,
    machine: &Machine<T, N>,
    names: &[&str],
    end: EndState,
    kind: Kind,
    limit: Need,
    options: Options,
) -> Result<(), Failed>
    requires names { length names.now ≡ length machine.now.core.modules }
    requires kind { kind ≡ machine.now.core.kind }
    requires limit { limit ≡ machine.now.core.limit }
    ensures { Passes tail.old (R.state sink.old) (R.state sink.new) tail.new
        (flat_closing (map (λ name. name.now) names.now) end options machine.now) result }
{
    put_end(tail, sink, machine.steps(), end)?;
    put_harts(tail, sink, machine)?;
    put_domains(tail, sink, machine, names)?;
    put_owners(tail, sink, machine)?;
    put_asked(tail, sink, machine, kind, limit, options)
}

// Puts the lines that are asked beside those that each run has.
fn put_asked<R: Sink, T: PermTables, const N: usize>(
    tail: &mut Tail,
    sink: &mut R,
    machine: &Machine<T, N>,
    kind: Kind,
    limit: Need,
    options: Options,
) -> Result<(), Failed>
    ensures { Passes tail.old (R.state sink.old) (R.state sink.new) tail.new
        (asked_lines options kind limit machine.now.core (flat_told machine.now)) result }
{
    put_asked_tables(tail, sink, machine, kind, limit, options)?;
    put_asked_counts(tail, sink, machine, options)
}

// Puts the lines of each hart.
fn put_harts<R: Sink, T: PermTables, const N: usize>(
    tail: &mut Tail,
    sink: &mut R,
    machine: &Machine<T, N>,
) -> Result<(), Failed>
    ensures { Passes tail.old (R.state sink.old) (R.state sink.new) tail.new
        (all_harts machine.now.core) result }
{
    for hart in 0..machine.harts() {
        put_hart(tail, sink, hart, &machine.hart(hart))?;
    }
    Ok(())
}

// Puts the lines of each domain.
fn put_domains<R: Sink, T: PermTables, const N: usize>(
    tail: &mut Tail,
    sink: &mut R,
    machine: &Machine<T, N>,
    names: &[&str],
) -> Result<(), Failed>
    requires { length names.now ≡ length machine.now.core.modules }
    ensures { Passes tail.old (R.state sink.old) (R.state sink.new) tail.new
        (all_domains (map (λ name. name.now) names.now) machine.now.core
        (flat_told machine.now)) result }
{
    for i in 0..machine.modules() {
        put_domain(tail, sink, machine, i + 1, names[i as usize])?;
    }
    Ok(())
}

fn put_asked_tables<R: Sink, T: PermTables, const N: usize>(
    tail: &mut Tail,
    sink: &mut R,
    machine: &Machine<T, N>,
    kind: Kind,
    limit: Need,
    options: Options,
) -> Result<(), Failed>
    ensures { Passes tail.old (R.state sink.old) (R.state sink.new) tail.new
        (tables_asked options kind limit machine.now.core (flat_told machine.now)) result }
{
    if options.tables {
        put_tables(tail, sink, machine, kind, limit)
    } else {
        Ok(())
    }
}

fn put_asked_counts<R: Sink, T: PermTables, const N: usize>(
    tail: &mut Tail,
    sink: &mut R,
    machine: &Machine<T, N>,
    options: Options,
) -> Result<(), Failed>
    ensures { Passes tail.old (R.state sink.old) (R.state sink.new) tail.new
        (counts_asked options machine.now.core) result }
{
    if options.counts {
        put_counts(tail, sink, machine)
    } else {
        Ok(())
    }
}

/// A law: the closing lines of a state, by its lists of grants and gives, are those of its flat state, by its maps and
/// owners.
pub fn closing_of_a_flat_state()
    ensures { (names : List (List ℕ)) (end : End) (options : Asked) (s : State) →
        closing names end options s ≡ flat_closing names end options (flat s) }
{}
