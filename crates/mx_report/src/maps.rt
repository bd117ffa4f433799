//! Lines of a domain and of its map.
ghost use Rattle.std.specs.Prelude.{◌≡◌, ◌<◌, ◌≤◌, ◌+◌, length};
ghost use Rattle.mx_io.specs.Sink.{Puts};
ghost use Rattle.mx_words.specs.Ranges.{most_words};
ghost use Rattle.mx_model.specs.State.{module_at};
ghost use Rattle.mx_model.specs.Valid.{IsModule};
ghost use Rattle.mx_tail.specs.Tail.{Passes};
ghost use Rattle.mx_report.specs.Lines.{dead_text, domain_head, permission_name, map_line, map_text};
ghost use Rattle.mx_report.specs.Texts.{domain_lines, domain_map, map_lines};

use crate::lines::end_lines;
use crate::words::address;
use crate::{Tail, put_pieces};
use mx_io::{Failed, Piece, Sink};
use mx_machine::{Machine, machine_is_valid};
use mx_table::PermTables;
use mx_words::Perm;

/// Puts the lines of a domain, a module's number: its name, and the runs of its map.
pub fn domain_lines<R: Sink, T: PermTables, const N: usize>(
    sink: &mut R,
    machine: &Machine<T, N>,
    domain: u32,
    name: &str,
) -> Result<(), Failed>
    requires { IsModule (length machine.now.core.modules) domain }
    ensures { Puts (R.state sink.old) (R.state sink.new)
        (domain_lines domain name.now (module_at machine.now.core domain).dead
        (domain_map machine.now domain)) result }
{
    let mut tail = Tail::new();
    let put = put_domain(&mut tail, sink, machine, domain, name);
    end_lines(&mut tail, sink, put)
}

#[tactic(auto, unfolding(crate::specs::Texts::domain_lines))]
pub(crate) fn put_domain<R: Sink, T: PermTables, const N: usize>(
    tail: &mut Tail,
    sink: &mut R,
    machine: &Machine<T, N>,
    domain: u32,
    name: &str,
) -> Result<(), Failed>
    requires { IsModule (length machine.now.core.modules) domain }
    ensures { Passes tail.old (R.state sink.old) (R.state sink.new) tail.new
        (domain_lines domain name.now (module_at machine.now.core domain).dead
        (domain_map machine.now domain)) result }
{
    put_head(tail, sink, domain, name, machine.dead(domain))?;
    put_maps(tail, sink, machine, domain)
}

fn dead_text(dead: bool) -> &'static str
    ensures { result.now ≡ dead_text dead }
{
    if dead { " dead\n" } else { "\n" }
}

#[tactic(auto, unfolding(crate::specs::Lines::domain_head))]
fn put_head<R: Sink>(
    tail: &mut Tail,
    sink: &mut R,
    domain: u32,
    name: &str,
    dead: bool,
) -> Result<(), Failed>
    ensures { Passes tail.old (R.state sink.old) (R.state sink.new) tail.new
        (domain_head domain name.now dead) result }
{
    put_pieces(
        tail,
        sink,
        &[
            Piece::Text("domain "),
            Piece::Number(domain as u64),
            Piece::Text(" "),
            Piece::Text(name),
            Piece::Text(dead_text(dead)),
        ],
    )
}

fn put_maps<R: Sink, T: PermTables, const N: usize>(
    tail: &mut Tail,
    sink: &mut R,
    machine: &Machine<T, N>,
    domain: u32,
) -> Result<(), Failed>
    requires { IsModule (length machine.now.core.modules) domain }
    ensures { Passes tail.old (R.state sink.old) (R.state sink.new) tail.new
        (map_lines domain (domain_map machine.now domain)) result }
{
    machine_is_valid(machine);
    let mut word = 0;
    'runs: while word < machine.words() {
        let end = machine.perm_end(domain, word);
        put_map(tail, sink, domain, word, end, machine.perm(domain, word))?;
        word = end;
    }
    Ok(())
}

fn permission_name(perm: Perm) -> &'static str
    ensures { result.now ≡ permission_name perm }
{
    match perm {
        Perm::None => "-",
        Perm::Read => "r",
        Perm::ReadWrite => "rw",
        Perm::ExecuteRead => "rx",
    }
}

// Puts the line of a run. One of no permission has none.
fn put_map<R: Sink>(
    tail: &mut Tail,
    sink: &mut R,
    domain: u32,
    first: u32,
    end: u32,
    perm: Perm,
) -> Result<(), Failed>
    requires first { first ≤ most_words }
    requires end { end ≤ most_words }
    ensures { Passes tail.old (R.state sink.old) (R.state sink.new) tail.new
        (map_text domain first end perm) result }
{
    match perm {
        Perm::None => Ok(()),
        Perm::Read => put_map_line(tail, sink, domain, first, end, perm),
        Perm::ReadWrite => put_map_line(tail, sink, domain, first, end, perm),
        Perm::ExecuteRead => put_map_line(tail, sink, domain, first, end, perm),
    }
}

#[tactic(auto, unfolding(crate::specs::Lines::map_line))]
fn put_map_line<R: Sink>(
    tail: &mut Tail,
    sink: &mut R,
    domain: u32,
    first: u32,
    end: u32,
    perm: Perm,
) -> Result<(), Failed>
    requires first { first ≤ most_words }
    requires end { end ≤ most_words }
    ensures { Passes tail.old (R.state sink.old) (R.state sink.new) tail.new
        (map_line domain first end perm) result }
{
    put_pieces(
        tail,
        sink,
        &[
            Piece::Text("map "),
            Piece::Number(domain as u64),
            Piece::Text(" "),
            Piece::Hex(address(first)),
            Piece::Text(" "),
            Piece::Hex(address(end)),
            Piece::Text(" "),
            Piece::Text(permission_name(perm)),
            Piece::Text("\n"),
        ],
    )
}
