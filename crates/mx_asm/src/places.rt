//! Where the bytes of each line stand.
ghost use Rattle.std.specs.Prelude.{◌≡◌, ◌≤◌, ◌<◌, ◌+◌, ◌*◌, ◌^◌, length, option_map, IfSome};
ghost use Rattle.mx_source.specs.Operands.{pieces_of};
ghost use Rattle.mx_asm.specs.Places.{address_number, address_of, ascii_of, size_of, place_listed, place_after, start};
ghost use Rattle.mx_asm.specs.Places.{at_segment, with_size};
ghost use Rattle.mx_source.specs.LineViews.{statement_view, IsShort};

use mx_source::{Keyword, Number, Statement, piece_count, read_number, single, text_size};

/// A place in a program: how many segments are begun, the address of the next byte in the present one, and the bytes of
/// all.
#[derive(Clone, Copy)]
pub(crate) struct Place {
    pub(crate) segments: u32,
    pub(crate) here: u64,
    pub(crate) total: u64,
}

/// Before the first line.
pub(crate) fn start() -> Place
    ensures { result ≡ start }
{
    Place {
        segments: 0,
        here: 0,
        total: 0,
    }
}

/// The number that is the one operand.
#[tactic(auto, unfolding(crate::specs::Places::address_number))]
pub(crate) fn address_number(operands: &[u8]) -> Option<Number>
    ensures number { result ≡ address_number (pieces_of operands.now) }
    ensures bound { IfSome result (λ n. n.magnitude ≤ 2 ^ 33) }
{
    read_number(single(operands)?)
}

/// The address that it is, 0 where it is none.
#[tactic(auto, unfolding(crate::specs::Places::address_of))]
pub(crate) fn address(operands: &[u8]) -> u64
    ensures address { result ≡ address_of (pieces_of operands.now) }
    ensures bound { result ≤ 2 ^ 33 }
{
    address_number(operands).map_or(0, |number| number.magnitude)
}

/// How many bytes the text has that is the one operand.
#[tactic(auto, unfolding(crate::specs::Places::ascii_of))]
pub(crate) fn ascii_size(operands: &[u8]) -> Option<usize>
    ensures size { result ≡ option_map length (ascii_of (pieces_of operands.now)) }
    ensures bound { IfSome result (λ n. n ≤ length operands.now) }
{
    text_size(single(operands)?)
}

/// How many bytes a statement has at an address.
#[tactic(auto, unfolding(crate::specs::Places::size_of))]
pub(crate) fn size(keyword: Keyword, operands: &[u8], here: u64) -> u64
    requires { length operands.now ≤ 2 ^ 20 }
    ensures size { result ≡ size_of keyword (pieces_of operands.now) here }
    ensures bound { result ≤ 2 ^ 34 }
{
    match keyword {
        Keyword::Text | Keyword::Data => 0,
        Keyword::At => address(operands).saturating_sub(here),
        Keyword::Word => 4 * piece_count(operands) as u64,
        Keyword::Byte => piece_count(operands) as u64,
        Keyword::Ascii => ascii_size(operands).unwrap_or(0) as u64,
        Keyword::Li | Keyword::La => 8,
        Keyword::Inst(_) => 4,
    }
}

/// The place after a statement. Each statement begins at most one segment and adds at most 2^34 to an address.
pub(crate) fn place_after(statement: Statement<'_>, place: Place) -> Place
    requires short { IsShort (2 ^ 20) statement }
    requires begun { place.segments < 2 ^ 31 }
    requires here { place.here < 2 ^ 62 }
    requires total { place.total < 2 ^ 62 }
    ensures after { result ≡ place_after (statement_view statement.entry) place }
    ensures begun { result.segments ≤ place.segments + 1 }
    ensures here { result.here ≤ place.here + 2 ^ 34 }
    ensures total { result.total ≤ place.total + 2 ^ 34 }
{
    match statement {
        Statement::Listed(keyword, operands) => place_listed(keyword, operands, place),
        _ => place,
    }
}

/// The place after a listed statement.
#[tactic(auto, unfolding(crate::specs::Places::place_listed))]
fn place_listed(keyword: Keyword, operands: &[u8], place: Place) -> Place
    requires short { length operands.now ≤ 2 ^ 20 }
    requires begun { place.segments < 2 ^ 31 }
    requires here { place.here < 2 ^ 62 }
    requires total { place.total < 2 ^ 62 }
    ensures after { result ≡ place_listed keyword (pieces_of operands.now) place }
    ensures begun { result.segments ≤ place.segments + 1 }
    ensures here { result.here ≤ place.here + 2 ^ 34 }
    ensures total { result.total ≤ place.total + 2 ^ 34 }
{
    match keyword {
        Keyword::Text | Keyword::Data => Place {
            segments: place.segments + 1,
            here: address(operands),
            total: place.total,
        },
        _ => {
            let size = size(keyword, operands, place.here);
            Place {
                segments: place.segments,
                here: place.here + size,
                total: place.total + size,
            }
        }
    }
}
