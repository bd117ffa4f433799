//! Lines of owners.
ghost use Rattle.std.specs.Prelude.{◌≡◌, ◌≤◌};
ghost use Rattle.mx_io.specs.Sink.{Puts};
ghost use Rattle.mx_words.specs.Ranges.{most_words};
ghost use Rattle.mx_tail.specs.Tail.{Passes};
ghost use Rattle.mx_report.specs.Lines.{owner_line, owner_text};
ghost use Rattle.mx_report.specs.Texts.{owner_lines};

use crate::lines::end_lines;
use crate::words::address;
use crate::{Tail, put_pieces};
use mx_io::{Failed, Piece, Sink};
use mx_machine::{Machine, machine_is_valid};
use mx_table::PermTables;

/// Puts a line for each run of words that have one owner, a module.
pub fn owner_lines<R: Sink, T: PermTables, const N: usize>(
    sink: &mut R,
    machine: &Machine<T, N>,
) -> Result<(), Failed>
    ensures { Puts (R.state sink.old) (R.state sink.new) (owner_lines machine.now.owners) result }
{
    let mut tail = Tail::new();
    let put = put_owners(&mut tail, sink, machine);
    end_lines(&mut tail, sink, put)
}

pub(crate) fn put_owners<R: Sink, T: PermTables, const N: usize>(
    tail: &mut Tail,
    sink: &mut R,
    machine: &Machine<T, N>,
) -> Result<(), Failed>
    ensures { Passes tail.old (R.state sink.old) (R.state sink.new) tail.new
        (owner_lines machine.now.owners) result }
{
    machine_is_valid(machine);
    let mut word = 0;
    'runs: while word < machine.words() {
        let end = machine.owner_end(word);
        put_owner(tail, sink, word, end, machine.owner(word))?;
        word = end;
    }
    Ok(())
}

// Puts the line of a run. One of the supervisor has none.
fn put_owner<R: Sink>(
    tail: &mut Tail,
    sink: &mut R,
    first: u32,
    end: u32,
    owner: u32,
) -> Result<(), Failed>
    requires first { first ≤ most_words }
    requires end { end ≤ most_words }
    ensures { Passes tail.old (R.state sink.old) (R.state sink.new) tail.new
        (owner_text first end owner) result }
{
    if owner == 0 {
        Ok(())
    } else {
        put_owner_line(tail, sink, first, end, owner)
    }
}

#[tactic(auto, unfolding(crate::specs::Lines::owner_line))]
fn put_owner_line<R: Sink>(
    tail: &mut Tail,
    sink: &mut R,
    first: u32,
    end: u32,
    owner: u32,
) -> Result<(), Failed>
    requires first { first ≤ most_words }
    requires end { end ≤ most_words }
    ensures { Passes tail.old (R.state sink.old) (R.state sink.new) tail.new
        (owner_line first end owner) result }
{
    put_pieces(
        tail,
        sink,
        &[
            Piece::Text("owner "),
            Piece::Hex(address(first)),
            Piece::Text(" "),
            Piece::Hex(address(end)),
            Piece::Text(" "),
            Piece::Number(owner as u64),
            Piece::Text("\n"),
        ],
    )
}
