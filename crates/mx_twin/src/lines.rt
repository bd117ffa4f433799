//! The line of a twin run.
ghost use Rattle.std.specs.Prelude.{◌≡◌};
ghost use Rattle.mx_io.specs.Sink.{Puts};
ghost use Rattle.mx_tail.specs.Tail.{Passes, piece_bytes};
ghost use Rattle.mx_twin.specs.Lines.{twin_line};

use crate::TwinEnd;
use mx_io::{Failed, Piece, Sink};
use mx_tail::{Tail, put_pieces};
use mx_trace::kind_name;

/// Puts the line of a twin run over so many steps: `twin agreed steps=N`, or `twin ended step=S hart=H kind=K`. Where a
/// write fails, a
/// prefix of the line was appended.
pub fn twin_line<R: Sink>(sink: &mut R, steps: u64, end: TwinEnd) -> Result<(), Failed>
    ensures { Puts (R.state sink.old) (R.state sink.new) (twin_line steps end) result }
{
    let mut tail = Tail::new();
    put_twin(&mut tail, sink, steps, end)?;
    tail.end(sink)
}

/// Puts the line through a buffer.
#[tactic(auto, unfolding(crate::specs::Lines::twin_line))]
fn put_twin<R: Sink>(tail: &mut Tail, sink: &mut R, steps: u64, end: TwinEnd) -> Result<(), Failed>
    ensures { Passes tail.old (R.state sink.old) (R.state sink.new) tail.new
        (twin_line steps end) result }
{
    match end {
        TwinEnd::Agreed => put_pieces(
            tail,
            sink,
            &[
                Piece::Text("twin agreed steps="),
                Piece::Number(steps),
                Piece::Text("\n"),
            ],
        ),
        TwinEnd::Ended { step, hart, kind } => put_pieces(
            tail,
            sink,
            &[
                Piece::Text("twin ended step="),
                Piece::Number(step),
                Piece::Text(" hart="),
                Piece::Number(hart as u64),
                Piece::Text(" kind="),
                Piece::Text(kind_name(kind)),
                Piece::Text("\n"),
            ],
        ),
    }
}
