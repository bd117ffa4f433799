//! Numbers and bytes put through a buffer. Numbers are little-endian.
ghost use Rattle.std.specs.Prelude.{◌≡◌};
ghost use Rattle.mx_image.specs.Image.{little_endian};
ghost use Rattle.mx_tail.specs.Tail.{Passes};
ghost use Rattle.mx_words.specs.Counting.{bit};
ghost use Rattle.mx_snapshot.specs.Spelling.{kind_number, numbers, status_number};

use mx_io::{Failed, Sink};
use mx_machine::HartStatus;
use mx_tail::Tail;
use mx_words::Kind;

/// Puts numbers of 4 bytes each.
pub(crate) fn put_numbers<R: Sink>(
    tail: &mut Tail,
    sink: &mut R,
    values: &[u32],
) -> Result<(), Failed>
    ensures { Passes tail.old (R.state sink.old) (R.state sink.new) tail.new
        (numbers values.now) result }
{
    for value in values {
        put_number(tail, sink, *value)?;
    }
    Ok(())
}

fn put_number<R: Sink>(tail: &mut Tail, sink: &mut R, value: u32) -> Result<(), Failed>
    ensures { Passes tail.old (R.state sink.old) (R.state sink.new) tail.new
        (little_endian 4 value) result }
{
    put_bytes(tail, sink, &value.to_le_bytes())
}

/// Puts a number of 8 bytes, that of the turns.
pub(crate) fn put_long<R: Sink>(tail: &mut Tail, sink: &mut R, turns: u64) -> Result<(), Failed>
    ensures { Passes tail.old (R.state sink.old) (R.state sink.new) tail.new
        (little_endian 8 turns) result }
{
    put_bytes(tail, sink, &turns.to_le_bytes())
}

/// Puts bytes.
#[tactic(auto, using(mx_tail::proofs::PassLaws::passes_adds))]
pub(crate) fn put_bytes<R: Sink>(tail: &mut Tail, sink: &mut R, bytes: &[u8]) -> Result<(), Failed>
    ensures { Passes tail.old (R.state sink.old) (R.state sink.new) tail.new bytes.now result }
{
    tail.put(sink, bytes)
}

/// The number of an answer: 1 for true.
pub(crate) fn bit(answer: bool) -> u32
    ensures { result ≡ bit answer }
{
    if answer { 1 } else { 0 }
}

/// The number of a kind of tables.
pub(crate) fn kind_number(kind: Kind) -> u32
    ensures { result ≡ kind_number kind }
{
    match kind {
        Kind::Segments => 0,
        Kind::Multilevel => 1,
        Kind::Packed => 2,
    }
}

/// The number of a status.
pub(crate) fn status_number(status: HartStatus) -> u32
    ensures { result ≡ status_number status }
{
    match status {
        HartStatus::Running => 0,
        HartStatus::Waiting => 1,
        HartStatus::Halted => 2,
    }
}
