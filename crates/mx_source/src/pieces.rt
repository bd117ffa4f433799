//! The operands of a statement, one after the other.
ghost use Rattle.std.specs.Prelude.{◌≡◌, ◌≤◌, ◌+◌, length, map, option_map, IfSome};
ghost use Rattle.std.specs.Iterator.{YieldsFirstRef, item_count};
ghost use Rattle.mx_source.specs.Characters.{trim};
ghost use Rattle.mx_source.specs.Operands.{pieces_of, single_of, pair_of, triple_of};
ghost use Rattle.mx_source.specs.OperandViews.{later_parts, pieces_in, pieces_left, single_view, pair_view};
ghost use Rattle.mx_source.specs.OperandViews.{triple_view};

use crate::characters::{mark_place, trim};

/// The operands that are left of a statement: the parts of a text between commas outside quotes, none where there is no
/// text.
#[derive(Clone, Copy)]
pub struct Pieces<'a> {
    /// The text of the operands that are left, none where there are none.
    rest: Option<&'a [u8]>,
}

impl<'a> Pieces<'a> {
    /// All operands of a statement, whose text this is.
    #[tactic(auto, unfolding(crate::specs::Operands::pieces_of))]
    pub fn of(operands: &'a [u8]) -> Pieces<'a>
        ensures { pieces_left result ≡ pieces_of operands.now }
    {
        if operands.is_empty() {
            Pieces { rest: None }
        } else {
            Pieces {
                rest: Some(operands),
            }
        }
    }
}

impl<'a> Iterator for Pieces<'a> {
    type Item = &'a [u8];

    ghost next_gives = { YieldsFirstRef pieces_left };

    ghost remaining = { item_count pieces_left };

    #[tactic(auto, using(crate::proofs::Steps::piece_steps))]
    fn next(&mut self) -> Option<&'a [u8]> {
        let rest = self.rest?;
        let end = mark_place(b',', rest);
        self.rest = text_after(rest, end);
        Some(trim(&rest[..end]))
    }
}

/// What stands after the comma at a place, if there is one.
#[tactic(auto, unfolding(crate::specs::OperandViews::later_parts))]
fn text_after(text: &[u8], place: usize) -> Option<&[u8]>
    ensures { pieces_in result ≡ map trim (later_parts 44 text.now place) }
{
    if place < text.len() {
        Some(&text[place + 1..])
    } else {
        None
    }
}

/// The one operand. `None` exactly where there isn't one operand.
#[tactic(auto, using(crate::proofs::Steps::single_steps))]
pub fn single(operands: &[u8]) -> Option<&[u8]>
    ensures single { option_map single_view result ≡ single_of (pieces_of operands.now) }
    ensures shorter { IfSome result (λ piece. length piece.now ≤ length operands.now) }
{
    let mut pieces = Pieces::of(operands);
    let first = pieces.next()?;
    match pieces.next() {
        None => Some(first),
        Some(_) => None,
    }
}

/// The two operands. `None` exactly where there aren't two.
pub fn pair(operands: &[u8]) -> Option<(&[u8], &[u8])>
    ensures { option_map pair_view result ≡ pair_of (pieces_of operands.now) }
{
    let mut pieces = Pieces::of(operands);
    let first = pieces.next()?;
    let second = pieces.next()?;
    match pieces.next() {
        None => Some((first, second)),
        Some(_) => None,
    }
}

/// The three operands. `None` exactly where there aren't three.
pub fn triple(operands: &[u8]) -> Option<(&[u8], &[u8], &[u8])>
    ensures { option_map triple_view result ≡ triple_of (pieces_of operands.now) }
{
    let mut pieces = Pieces::of(operands);
    let first = pieces.next()?;
    let second = pieces.next()?;
    let third = pieces.next()?;
    match pieces.next() {
        None => Some((first, second, third)),
        Some(_) => None,
    }
}

/// How many operands there are.
#[tactic(auto, using(crate::proofs::Steps::count_steps))]
pub fn piece_count(operands: &[u8]) -> usize
    ensures count { result ≡ length (pieces_of operands.now) }
    ensures bound { result ≤ length operands.now + 1 }
{
    Pieces::of(operands).count()
}
