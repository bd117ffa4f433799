//! The faults of a source by line and number.
ghost use Rattle.std.specs.Prelude.{◌≡◌, ◌≤◌, ◌<◌, ◌+◌, ◌^◌, length, option_map, Some, None, if◌then◌else◌};
ghost use Rattle.std.specs.Option.{option_or};
ghost use Rattle.mx_source.specs.Operands.{pieces_of};
ghost use Rattle.mx_source.specs.Numbers.{fits};
ghost use Rattle.mx_asm.specs.Faults.{at_line, lesser_fault, least_fault, value_fault, word_fault, byte_fault};
ghost use Rattle.mx_asm.specs.Faults.{some_fault, address_fault, fields_fault, operand_fault, label_fault};
ghost use Rattle.mx_asm.specs.Faults.{begins_segment, is_aligned, is_at, label_place_fault, is_full, place_fault};
ghost use Rattle.mx_asm.specs.Faults.{line_fault, offset_fits, offset_fault, fault_from, offset_from};
ghost use Rattle.mx_source.specs.FieldViews.{value_view, fields_view};
ghost use Rattle.mx_asm.specs.LabelViews.{labels_view};
ghost use Rattle.mx_source.specs.LineViews.{label_view, statement_view, IsShort};
ghost use Rattle.mx_asm.specs.Denoted.{first_fault, labels_of_source};

use crate::instructions::offset;
use crate::labels::{Labels, definition};
use crate::places::{Place, address, address_number, ascii_size, place_after, size, start};
use mx_source::{
    Fields, Keyword, Number, Pieces, Range, Statement, Value, address_range, byte_range, fits,
    form_range, label_fields, read_fields, read_line, read_number, read_value, value_fields,
    word_range,
};
use mx_words::MOST_SEGMENT_BYTES;

/// A fault: its line, counted from 1, and its number.
#[derive(Clone, Copy)]
pub(crate) struct SourceFault {
    pub(crate) line: u32,
    pub(crate) number: u32,
}

/// The greatest number of segments, as a place counts them.
const MOST_SEGMENTS: u32 = mx_words::MOST_SEGMENTS as u32;
/// The address after the last one.
const ADDRESS_END: u64 = 0x1_0000_0000;

/// The lesser of two fault numbers, where there are any.
fn lesser_fault(a: Option<u32>, b: Option<u32>) -> Option<u32>
    ensures { result ≡ lesser_fault a b }
{
    match (a, b) {
        (Some(a), Some(b)) => Some(a.min(b)),
        (None, b) => b,
        (a, None) => a,
    }
}

/// 3 where a number is out of its range.
fn range_fault(range: Range, number: Number) -> Option<u32>
    ensures { result ≡ (if fits range number then None else Some 3) }
{
    if fits(range, number) { None } else { Some(3) }
}

/// 3 for a number out of its range, 4 for a label that isn't defined.
fn value_fault(labels: &Labels<'_>, range: Range, value: Value<'_>) -> Option<u32>
    ensures { result ≡ value_fault (labels_view labels.now) range (value_view value.entry) }
{
    match value {
        Value::Number(number) => range_fault(range, number),
        Value::Label(name) => match definition(labels, name) {
            Some(_) => None,
            None => Some(4),
        },
    }
}

/// The fault of one value of `.word`.
fn word_fault(labels: &Labels<'_>, text: &[u8]) -> Option<u32>
    ensures { result ≡ word_fault (labels_view labels.now) text.now }
{
    match read_value(text) {
        Some(value) => value_fault(labels, word_range(), value),
        None => Some(2),
    }
}

/// The fault of one number of `.byte`.
fn byte_fault(text: &[u8]) -> Option<u32>
    ensures { result ≡ byte_fault text.now }
{
    match read_number(text) {
        Some(number) => range_fault(byte_range(), number),
        None => Some(2),
    }
}

/// The least fault of the values of `.word`.
#[tactic(auto, using(crate::proofs::FaultLaws::fault_steps))]
fn words_fault(labels: &Labels<'_>, operands: &[u8]) -> Option<u32>
    ensures { result ≡ some_fault (word_fault (labels_view labels.now)) (pieces_of operands.now) }
{
    if operands.is_empty() {
        return Some(2);
    }
    let mut fault = None;
    'pieces: for piece in Pieces::of(operands) {
        fault = lesser_fault(fault, word_fault(labels, piece));
    }
    fault
}

/// The least fault of the numbers of `.byte`.
#[tactic(auto, using(crate::proofs::FaultLaws::fault_steps))]
fn bytes_fault(operands: &[u8]) -> Option<u32>
    ensures { result ≡ some_fault byte_fault (pieces_of operands.now) }
{
    if operands.is_empty() {
        return Some(2);
    }
    let mut fault = None;
    'pieces: for piece in Pieces::of(operands) {
        fault = lesser_fault(fault, byte_fault(piece));
    }
    fault
}

/// The fault of an address.
fn address_fault(operands: &[u8]) -> Option<u32>
    ensures { result ≡ address_fault (pieces_of operands.now) }
{
    match address_number(operands) {
        Some(number) => range_fault(address_range(), number),
        None => Some(2),
    }
}

/// The fault of fields with a value in a range.
fn fields_fault(labels: &Labels<'_>, range: Range, found: Option<Fields<'_>>) -> Option<u32>
    ensures { result
        ≡ fields_fault (labels_view labels.now) range (option_map fields_view found.entry) }
{
    match found {
        Some(fields) => value_fault(labels, range, fields.value),
        None => Some(2),
    }
}

/// The faults 2 to 4 of a statement's operands.
#[tactic(auto, unfolding(crate::specs::Faults::operand_fault))]
fn operand_fault(labels: &Labels<'_>, keyword: Keyword, operands: &[u8]) -> Option<u32>
    ensures { result ≡ operand_fault (labels_view labels.now) keyword (pieces_of operands.now) }
{
    match keyword {
        Keyword::Text | Keyword::Data | Keyword::At => address_fault(operands),
        Keyword::Word => words_fault(labels, operands),
        Keyword::Byte => bytes_fault(operands),
        Keyword::Ascii => match ascii_size(operands) {
            Some(_) => None,
            None => Some(2),
        },
        Keyword::Li => fields_fault(labels, word_range(), value_fields(operands)),
        Keyword::La => fields_fault(labels, word_range(), label_fields(operands)),
        Keyword::Inst(form) => fields_fault(labels, form_range(form), read_fields(form, operands)),
    }
}

/// 5 where an earlier line defines the label.
#[tactic(auto, unfolding(crate::specs::Faults::label_fault))]
fn label_fault(labels: &Labels<'_>, number: u32, label: Option<&[u8]>) -> Option<u32>
    ensures { result ≡ label_fault (labels_view labels.now) number (label_view label.entry) }
{
    let place = definition(labels, label?)?;
    if place.line == number { None } else { Some(5) }
}

/// Whether a statement begins a segment.
fn begins_segment(keyword: Keyword) -> bool
    ensures { result ≡ begins_segment keyword }
{
    matches!(keyword, Keyword::Text | Keyword::Data)
}

/// Whether a statement must stand at a multiple of 4.
fn is_aligned(keyword: Keyword) -> bool
    ensures { result ≡ is_aligned keyword }
{
    matches!(
        keyword,
        Keyword::Word | Keyword::Li | Keyword::La | Keyword::Inst(_)
    )
}

/// Whether a statement is `.at`.
fn is_at(keyword: Keyword) -> bool
    ensures { result ≡ is_at keyword }
{
    matches!(keyword, Keyword::At)
}

/// The faults of a label on a line of its own: 6 before the first segment, 10 at 2^32.
fn label_place_fault(label: Option<&[u8]>, place: Place) -> Option<u32>
    ensures { result ≡ label_place_fault (label_view label.entry) place }
{
    if label.is_some() && place.segments == 0 {
        return Some(6);
    }
    if label.is_some() && ADDRESS_END <= place.here {
        return Some(10);
    }
    None
}

/// The faults 6 to 10 of a listed statement, and of a label before it.
#[tactic(auto, unfolding(crate::specs::Faults::place_fault))]
fn place_fault(label: Option<&[u8]>, keyword: Keyword, operands: &[u8], place: Place) -> Option<u32>
    requires short { length operands.now ≤ 2 ^ 20 }
    requires here { place.here < 2 ^ 62 }
    requires total { place.total < 2 ^ 62 }
    ensures { result ≡ place_fault (label_view label.entry) keyword (pieces_of operands.now) place }
{
    let begins = begins_segment(keyword);
    let address = address(operands);
    let size = size(keyword, operands, place.here);
    if place.segments == 0 && (label.is_some() || !begins) {
        return Some(6);
    }
    if begins && address % 4 != 0 || is_aligned(keyword) && place.here % 4 != 0 {
        return Some(7);
    }
    if is_at(keyword) && address < place.here {
        return Some(8);
    }
    if begins && MOST_SEGMENTS <= place.segments {
        return Some(9);
    }
    if is_full(label, place, size) {
        return Some(10);
    }
    None
}

/// Whether there are too many bytes, a segment passes 2^32, or a label stands there.
fn is_full(label: Option<&[u8]>, place: Place, size: u64) -> bool
    requires size { size ≤ 2 ^ 34 }
    requires here { place.here < 2 ^ 62 }
    requires total { place.total < 2 ^ 62 }
    ensures { result ≡ is_full (label_view label.entry) place size }
{
    MOST_SEGMENT_BYTES < place.total + size
        || ADDRESS_END < place.here + size
        || label.is_some() && ADDRESS_END <= place.here
}

/// The least fault of a line, offsets to labels aside.
#[tactic(auto, unfolding(crate::specs::Faults::line_fault))]
fn line_fault(
    labels: &Labels<'_>,
    number: u32,
    place: Place,
    label: Option<&[u8]>,
    statement: Statement<'_>,
) -> Option<u32>
    requires short { IsShort (2 ^ 20) statement }
    requires here { place.here < 2 ^ 62 }
    requires total { place.total < 2 ^ 62 }
    ensures { result ≡ line_fault (labels_view labels.now) number place
        (label_view label.entry) (statement_view statement.entry) }
{
    match statement {
        Statement::Absent => label_fault(labels, number, label).or(label_place_fault(label, place)),
        Statement::Unlisted => Some(1),
        Statement::Listed(keyword, operands) => operand_fault(labels, keyword, operands)
            .or(label_fault(labels, number, label))
            .or(place_fault(label, keyword, operands, place)),
    }
}

/// Whether an instruction's number, or its offset to a label, is in its range.
fn offset_fits(labels: &Labels<'_>, here: u64, keyword: Keyword, operands: &[u8]) -> bool
    ensures { result ≡ offset_fits (labels_view labels.now) here keyword (pieces_of operands.now) }
{
    let Keyword::Inst(form) = keyword else {
        return true;
    };
    match read_fields(form, operands) {
        Some(fields) => fits(form_range(form), offset(labels, here, fields.value)),
        None => true,
    }
}

/// 3 where an offset to a label is out of its range.
#[tactic(auto, unfolding(crate::specs::Faults::offset_fault))]
fn offset_fault(labels: &Labels<'_>, place: Place, statement: Statement<'_>) -> Option<u32>
    ensures { result
        ≡ offset_fault (labels_view labels.now) place (statement_view statement.entry) }
{
    match statement {
        Statement::Listed(keyword, operands)
            if !offset_fits(labels, place.here, keyword, operands) => Some(3),
        _ => None,
    }
}

/// The first fault of a source, whose labels these are; offsets to labels are judged only where no line has another
/// one.
#[tactic(auto, unfolding(crate::specs::Denoted::first_fault))]
pub(crate) fn first_fault(source: &str, labels: &Labels<'_>) -> Option<SourceFault>
    requires size { length source.now ≤ 2 ^ 20 }
    requires labels { labels_view labels.now ≡ labels_of_source source.now }
    ensures { result ≡ first_fault source.now }
{
    let mut place = start();
    let mut line_number = 1;
    let mut offset = None;
    'lines: for text in source.lines() {
        let line = read_line(text.as_bytes());
        if let Some(number) = line_fault(labels, line_number, place, line.label, line.statement) {
            return Some(SourceFault {
                line: line_number,
                number,
            });
        }
        offset = first_offset(
            offset,
            line_number,
            offset_fault(labels, place, line.statement),
        );
        place = place_after(line.statement, place);
        line_number += 1;
    }
    offset
}

/// A fault that is there, or else one of a later line.
fn first_offset(fault: Option<SourceFault>, line: u32, number: Option<u32>) -> Option<SourceFault>
    ensures { result ≡ option_or fault (at_line line number) }
{
    match (fault, number) {
        (None, Some(number)) => Some(SourceFault { line, number }),
        _ => fault,
    }
}
