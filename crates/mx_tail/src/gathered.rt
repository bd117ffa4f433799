//! Texts put on a sink through a buffer, so that many lines leave in one write.
ghost use Rattle.std.specs.Prelude.{◌<◌, length};
ghost use Rattle.std.specs.Char.{encode_utf8};
ghost use Rattle.mx_io.specs.Sink.{Puts};
ghost use Rattle.mx_io.specs.Piece.{shown_character, shown_name, piece_text, pieces_text};
ghost use Rattle.mx_tail.specs.Tail.{Passes, piece_bytes};

use crate::Tail;
use itoa::Buffer;
use mx_io::{Failed, Piece, Sink, hex_digits, hex_number, shown_character};

/// Puts the text of the pieces on a sink, in one write where it has at most 4096 bytes and the sink takes them at once.
pub fn put_line<S: Sink>(sink: &mut S, pieces: &[Piece<'_>]) -> Result<(), Failed>
    ensures { Puts (S.state sink.old) (S.state sink.new) (pieces_text pieces.now) result }
{
    let mut tail = Tail::new();
    put_pieces(&mut tail, sink, pieces)?;
    tail.end(sink)
}

/// Puts the texts of the pieces through a buffer, one after another. Pieces of 4096 bytes leave for the sink, and what
/// is after them
/// is held.
pub fn put_pieces<R: Sink>(
    tail: &mut Tail,
    sink: &mut R,
    pieces: &[Piece<'_>],
) -> Result<(), Failed>
    ensures passes { Passes tail.old (R.state sink.old) (R.state sink.new) tail.new
        (pieces_text pieces.now) result }
    ensures few { length tail.new < piece_bytes }
{
    // No effect at run time. The proof reads from it that fewer than 4096 bytes are held.
    let _held = tail.len();
    for piece in pieces {
        put_piece(tail, sink, piece)?;
    }
    Ok(())
}

fn put_piece<R: Sink>(tail: &mut Tail, sink: &mut R, piece: &Piece<'_>) -> Result<(), Failed>
    ensures passes { Passes tail.old (R.state sink.old) (R.state sink.new) tail.new
        (piece_text piece.now) result }
    ensures few { length tail.new < piece_bytes }
{
    match *piece {
        Piece::Text(text) => put_bytes(tail, sink, text.as_bytes()),
        Piece::Name(name) => put_name(tail, sink, name),
        Piece::Number(number) => put_bytes(tail, sink, Buffer::new().format(number).as_bytes()),
        Piece::Signed(number) => put_bytes(tail, sink, Buffer::new().format(number).as_bytes()),
        Piece::Hex(number) => put_bytes(tail, sink, &hex_number(number)),
        Piece::Digits(number) => put_bytes(tail, sink, &hex_digits(number)),
    }
}

fn put_name<R: Sink>(tail: &mut Tail, sink: &mut R, name: &str) -> Result<(), Failed>
    ensures passes { Passes tail.old (R.state sink.old) (R.state sink.new) tail.new
        (shown_name name.now) result }
    ensures few { length tail.new < piece_bytes }
{
    // No effect at run time. The proof reads from it that fewer than 4096 bytes are held.
    let _held = tail.len();
    for character in name.chars() {
        put_character(tail, sink, character)?;
    }
    Ok(())
}

fn put_character<R: Sink>(tail: &mut Tail, sink: &mut R, character: char) -> Result<(), Failed>
    ensures passes { Passes tail.old (R.state sink.old) (R.state sink.new) tail.new
        (encode_utf8 (shown_character character)) result }
    ensures few { length tail.new < piece_bytes }
{
    let mut bytes = [0; 4];
    let shown = shown_character(character).encode_utf8(&mut bytes);
    put_bytes(tail, sink, shown.as_bytes())
}

fn put_bytes<R: Sink>(tail: &mut Tail, sink: &mut R, bytes: &[u8]) -> Result<(), Failed>
    ensures passes { Passes tail.old (R.state sink.old) (R.state sink.new) tail.new
        bytes.now result }
    ensures few { length tail.new < piece_bytes }
{
    tail.put(sink, bytes)
}
