//! The operands of a statement by their forms.
ghost use Rattle.std.specs.Prelude.{◌≡◌, ◌≢◌, ◌<◌, ◌==◌, length, position, slice_index, option_map, IfSome};
ghost use Rattle.std.specs.List.{list_all};
ghost use Rattle.mx_source.specs.Characters.{is_in_name};
ghost use Rattle.mx_source.specs.Operands.{is_name, is_operand, indexed_of, name_between};
ghost use Rattle.mx_source.specs.OperandViews.{indexed_view};

use crate::characters::{begins_name, is_in_name, trim};
use crate::number::{Number, read_number};
use crate::texts::text_size;

/// Whether a text has the form of a label: a letter or `_`, then letters, digits or `_`, at most 64 bytes.
#[tactic(auto, unfolding(crate::specs::Operands::is_name))]
pub fn is_name(text: &[u8]) -> bool
    ensures { result ≡ is_name text.now }
{
    !text.is_empty() && text.len() <= MOST_NAME && begins_name(text[0]) && are_in_name(text)
}

/// The bytes of the longest name.
const MOST_NAME: usize = 64;

fn are_in_name(text: &[u8]) -> bool
    ensures { result ≡ list_all is_in_name text.now }
{
    text.iter().all(|c| is_in_name(*c))
}

/// A number, and the name that stands in round brackets after it.
#[derive(Clone, Copy)]
pub struct Indexed<'a> {
    /// The number, which is added to the register.
    pub number: Number,
    /// What stands in the brackets: a name, which may be no register's.
    pub name: &'a [u8],
}

/// The number and the name that a text is.
#[tactic(auto, unfolding(crate::specs::Operands::indexed_of))]
pub fn read_indexed(text: &[u8]) -> Option<Indexed<'_>>
    ensures { option_map indexed_view result ≡ indexed_of text.now }
{
    let first = place_of(text, b'(')?;
    let last = place_of(text, b')')?;
    let number = read_number(trim(&text[..first]))?;
    let name = name_between(text, first, last)?;
    Some(Indexed { number, name })
}

/// The place of the first such character.
fn place_of(text: &[u8], wanted: u8) -> Option<usize>
    ensures place { result ≡ position (λ c. c == wanted) text.now }
    ensures found { IfSome result (λ k. k < length text.now) }
    ensures wanted { IfSome result (λ k. slice_index text.now k ≡ wanted) }
{
    text.iter().position(|c| *c == wanted)
}

/// The name between two places of a text, the second of which is its end.
#[tactic(auto, unfolding(crate::specs::Operands::name_between))]
fn name_between(text: &[u8], first: usize, last: usize) -> Option<&[u8]>
    requires first { first < length text.now }
    requires last { last < length text.now }
    requires apart { first ≢ last }
    ensures { option_map (λ n. n.now) result ≡ name_between text.now first last }
{
    if last + 1 != text.len() {
        return None;
    }
    let name = trim(&text[first + 1..last]);
    if is_name(name) { Some(name) } else { None }
}

/// Whether a part of a line is an operand.
pub fn is_operand(text: &[u8]) -> bool
    ensures { result ≡ is_operand text.now }
{
    is_name(text)
        || read_number(text).is_some()
        || text_size(text).is_some()
        || read_indexed(text).is_some()
}
