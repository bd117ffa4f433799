//! The bytes of a program.
ghost use Rattle.std.specs.Prelude.{◌≡◌, ◌≤◌, ◌<◌, ◌+◌, ◌^◌, ◌*◌, ◌∷◌, [], false, length, None, OnOk, IfOk, IsSome};
ghost use Rattle.std.specs.Prelude.{IsTrue, IfSome, map, option_map, replicate, unwrap_or};
ghost use Rattle.std.specs.Option.{option_map_or};
ghost use Rattle.mx_image.specs.Program.{byte_count, with_bytes, with_entry};
ghost use Rattle.mx_image.specs.Image.{words};
ghost use Rattle.mx_source.specs.Operands.{pieces_of, quoted_bytes, text_of};
ghost use Rattle.mx_source.specs.Fields.{fields_of};
ghost use Rattle.mx_source.specs.LineViews.{label_view, statement_view};
ghost use Rattle.mx_source.specs.FieldViews.{fields_view, AreRegisters};
ghost use Rattle.mx_asm.specs.Places.{size_of, ascii_of};
ghost use Rattle.mx_asm.specs.Faults.{operand_fault, offset_fits};
ghost use Rattle.mx_asm.specs.Ready.{IsReady, IsReadyFor, IsGrown};
ghost use Rattle.mx_asm.specs.LabelViews.{labels_view};
ghost use Rattle.mx_asm.specs.Denoted.{word_of_value, byte_of_number, pair_words, inst_word, bytes_of, with_defined};
ghost use Rattle.mx_asm.specs.Denoted.{with_statement, with_begun, with_listed, program_of, first_fault};
ghost use Rattle.mx_asm.specs.Denoted.{labels_of_source};

use crate::instructions::{inst_word, pair_words, value_bits};
use crate::labels::{LabelPlace, Labels, definition};
use crate::places::{Place, address, place_after, start};
use mx_image::{ProgramBuilder, Segment};
use mx_source::{
    Fields, Form, Keyword, Pieces, Statement, escape_byte, label_fields, number_bits, read_fields,
    read_line, read_number, read_value, single, value_fields,
};
use mx_words::{Blob, NoMemory};
use std::alloc::Global;

/// The flags of `.text`: readable and executable.
const CODE: u32 = 5;
/// The flags of `.data`: readable and writable.
const DATA: u32 = 6;
/// A piece of zero bytes.
const ZEROS: [u8; 256] = [0; 256];
/// How many they are.
const ZEROS_SIZE: u64 = 256;

/// The program that a source without faults denotes, whose labels these are.
pub(crate) fn program<'a>(
    alloc: Global,
    source: &'a str,
    labels: &Labels<'a>,
) -> Result<ProgramBuilder<'a>, NoMemory>
    requires size { length source.now ≤ 2 ^ 20 }
    requires labels { labels_view labels.now ≡ labels_of_source source.now }
    requires faultless { first_fault source.now ≡ None }
    ensures { IfOk result (λ p. p ≡ program_of source.now) }
{
    let mut program = ProgramBuilder::new(alloc);
    let mut place = start();
    'lines: for text in source.lines() {
        let line = read_line(text.as_bytes());
        add_label(&mut program, line.label, place.here)?;
        add_statement(alloc, &mut program, labels, place, line.statement)?;
        place = place_after(line.statement, place);
    }
    set_start(&mut program, definition(labels, b"start"));
    Ok(program)
}

/// Adds the label of a line.
fn add_label<'a>(
    program: &mut ProgramBuilder<'a>,
    label: Option<&'a [u8]>,
    here: u64,
) -> Result<(), NoMemory>
    requires { IsSome label → here < 2 ^ 32 }
    ensures { OnOk result (program.new ≡ with_defined (label_view label.entry) here program.old) }
{
    match label {
        Some(name) => program.add_label(name, here as u32),
        None => Ok(()),
    }
}

/// Makes the label `start`, if there is one, the address at which the program begins.
fn set_start(program: &mut ProgramBuilder<'_>, start: Option<LabelPlace>)
    requires { IfSome start (λ place. place.address < 2 ^ 32) }
    ensures { program.new
        ≡ option_map_or (λ place. with_entry place.address program.old) start program.old }
{
    if let Some(place) = start {
        program.set_entry(place.address as u32);
    }
}

/// Adds what the statement of a line says.
fn add_statement(
    alloc: Global,
    program: &mut ProgramBuilder<'_>,
    labels: &Labels<'_>,
    place: Place,
    statement: Statement<'_>,
) -> Result<(), NoMemory>
    requires segments { place.segments ≡ length program.old.segments }
    requires ready { IsReady (labels_view labels.now) place (statement_view statement) program.old }
    ensures { OnOk result (program.new
        ≡ with_statement (labels_view labels.now) place.here
        (statement_view statement.entry) program.old) }
{
    match statement {
        Statement::Listed(keyword, operands) => add_listed(
            alloc, program, labels, place, keyword, operands,
        ),
        _ => Ok(()),
    }
}

/// Adds what a listed statement says.
#[tactic(auto, unfolding(crate::specs::Denoted::with_listed))]
fn add_listed(
    alloc: Global,
    program: &mut ProgramBuilder<'_>,
    labels: &Labels<'_>,
    place: Place,
    keyword: Keyword,
    operands: &[u8],
) -> Result<(), NoMemory>
    requires segments { place.segments ≡ length program.old.segments }
    requires ready { IsReadyFor (labels_view labels.now) place keyword
        (pieces_of operands.now) program.old }
    ensures { OnOk result (program.new
        ≡ with_listed (labels_view labels.now) place.here keyword
        (pieces_of operands.now) program.old) }
{
    match keyword {
        Keyword::Text => begin(alloc, program, CODE, address(operands), place.segments),
        Keyword::Data => begin(alloc, program, DATA, address(operands), place.segments),
        _ => add_content(program, labels, place.here, keyword, operands),
    }
}

/// Begins a segment, whose address is the entry where it is the first.
fn begin(
    alloc: Global,
    program: &mut ProgramBuilder<'_>,
    flags: u32,
    address: u64,
    begun: u32,
) -> Result<(), NoMemory>
    requires begun { begun ≡ length program.old.segments }
    requires address { address < 2 ^ 32 }
    ensures { OnOk result (program.new ≡ with_begun flags address program.old) }
{
    let address = address as u32;
    if begun == 0 {
        program.set_entry(address);
    }
    program.add_segment(Segment {
        address,
        flags,
        bytes: Blob::new(alloc),
    })
}

/// Adds the bytes of a statement at an address.
#[tactic(auto, unfolding(crate::specs::Denoted::bytes_of, crate::specs::Places::size_of, crate::specs::Faults::operand_fault))]
fn add_content(
    program: &mut ProgramBuilder<'_>,
    labels: &Labels<'_>,
    here: u64,
    keyword: Keyword,
    operands: &[u8],
) -> Result<(), NoMemory>
    requires begun { 0 < length program.old.segments }
    requires faultless { operand_fault (labels_view labels.now) keyword (pieces_of operands.now)
        ≡ None }
    requires fits { IsTrue
        (offset_fits (labels_view labels.now) here keyword (pieces_of operands.now)) }
    requires room { byte_count program.old.segments
        + size_of keyword (pieces_of operands.now) here ≤ 2 ^ 23 }
    ensures { OnOk result (program.new
        ≡ with_bytes (bytes_of (labels_view labels.now) here keyword (pieces_of operands.now))
        program.old) }
{
    match keyword {
        Keyword::Text | Keyword::Data => Ok(()),
        Keyword::At => add_zeros(program, address(operands).saturating_sub(here)),
        Keyword::Word => add_values(program, labels, operands),
        Keyword::Byte => add_numbers(program, operands),
        Keyword::Ascii => add_ascii(program, operands),
        Keyword::Li => add_pair(program, labels, value_fields(operands)),
        Keyword::La => add_pair(program, labels, label_fields(operands)),
        Keyword::Inst(form) => add_inst(program, labels, here, form, operands),
    }
}

/// Adds zero bytes, piece by piece.
fn add_zeros(program: &mut ProgramBuilder<'_>, count: u64) -> Result<(), NoMemory>
    requires begun { 0 < length program.old.segments }
    requires room { byte_count program.old.segments + count ≤ 2 ^ 31 }
    ensures { OnOk result (program.new ≡ with_bytes (replicate count 0) program.old) }
{
    let mut left = count;
    'pieces: while left > 0 {
        let piece = left.min(ZEROS_SIZE);
        program.add_bytes(&ZEROS[..piece as usize])?;
        left -= piece;
    }
    Ok(())
}

/// Adds a word.
fn add_word(program: &mut ProgramBuilder<'_>, word: u32) -> Result<(), NoMemory>
    requires begun { 0 < length program.old.segments }
    requires room { byte_count program.old.segments + 4 ≤ 2 ^ 31 }
    ensures bytes { OnOk result (program.new ≡ with_bytes (words (word ∷ [])) program.old) }
    ensures grown { OnOk result (IsGrown program.old 4 program.new) }
{
    program.add_bytes(&word.to_le_bytes())
}

/// Adds the values of `.word`.
fn add_values(
    program: &mut ProgramBuilder<'_>,
    labels: &Labels<'_>,
    operands: &[u8],
) -> Result<(), NoMemory>
    requires begun { 0 < length program.old.segments }
    requires room { byte_count program.old.segments + 4 * length (pieces_of operands.now) ≤ 2 ^ 31 }
    ensures { OnOk result (program.new
        ≡ with_bytes (words (map (word_of_value (labels_view labels.now)) (pieces_of operands.now)))
        program.old) }
{
    'pieces: for piece in Pieces::of(operands) {
        add_word(program, value_word(labels, piece))?;
    }
    Ok(())
}

/// The word of one value of `.word`.
fn value_word(labels: &Labels<'_>, piece: &[u8]) -> u32
    ensures { result ≡ word_of_value (labels_view labels.now) piece.now }
{
    match read_value(piece) {
        Some(value) => value_bits(labels, value),
        None => 0,
    }
}

/// Adds the numbers of `.byte`.
fn add_numbers(program: &mut ProgramBuilder<'_>, operands: &[u8]) -> Result<(), NoMemory>
    requires begun { 0 < length program.old.segments }
    requires room { byte_count program.old.segments + length (pieces_of operands.now) ≤ 2 ^ 31 }
    ensures { OnOk result (program.new
        ≡ with_bytes (map byte_of_number (pieces_of operands.now)) program.old) }
{
    'pieces: for piece in Pieces::of(operands) {
        program.add_byte(number_byte(piece))?;
    }
    Ok(())
}

/// The byte of one number of `.byte`.
fn number_byte(piece: &[u8]) -> u8
    ensures { result ≡ byte_of_number piece.now }
{
    read_number(piece).map_or(0, |number| (number_bits(number) % 256) as u8)
}

/// Adds the bytes of the text that is the one operand.
#[tactic(auto, unfolding(crate::specs::Places::ascii_of, mx_source::specs::Operands::text_of))]
fn add_ascii(program: &mut ProgramBuilder<'_>, operands: &[u8]) -> Result<(), NoMemory>
    requires begun { 0 < length program.old.segments }
    requires text { IsSome (ascii_of (pieces_of operands.now)) }
    requires room { byte_count program.old.segments
        + length (unwrap_or (ascii_of (pieces_of operands.now)) []) ≤ 2 ^ 31 }
    ensures { OnOk result (program.new
        ≡ with_bytes (unwrap_or (ascii_of (pieces_of operands.now)) []) program.old) }
{
    match single(operands) {
        Some(text) => add_text(program, text),
        None => Ok(()),
    }
}

/// Adds the bytes of a text in quotes.
#[tactic(auto, unfolding(mx_source::specs::Operands::text_of))]
fn add_text(program: &mut ProgramBuilder<'_>, text: &[u8]) -> Result<(), NoMemory>
    requires begun { 0 < length program.old.segments }
    requires text { IsSome (text_of text.now) }
    requires room { byte_count program.old.segments
        + length (unwrap_or (text_of text.now) []) ≤ 2 ^ 31 }
    ensures { OnOk result (program.new
        ≡ with_bytes (unwrap_or (text_of text.now) []) program.old) }
{
    if text.is_empty() {
        return Ok(());
    }
    add_quoted(program, &text[1..])
}

/// Adds the bytes of a text after its opening `"`.
fn add_quoted(program: &mut ProgramBuilder<'_>, text: &[u8]) -> Result<(), NoMemory>
    requires begun { 0 < length program.old.segments }
    requires text { IsSome (quoted_bytes false text.now) }
    requires room { byte_count program.old.segments
        + length (unwrap_or (quoted_bytes false text.now) []) ≤ 2 ^ 31 }
    ensures { OnOk result (program.new
        ≡ with_bytes (unwrap_or (quoted_bytes false text.now) []) program.old) }
{
    let mut escape = false;
    'characters: for c in text {
        if escape {
            program.add_byte(escape_byte(*c).unwrap_or(0))?;
            escape = false;
        } else if *c == b'"' {
            return Ok(());
        } else if *c == b'\\' {
            escape = true;
        } else {
            program.add_byte(*c)?;
        }
    }
    Ok(())
}

/// Adds the two words that load a value.
fn add_pair(
    program: &mut ProgramBuilder<'_>,
    labels: &Labels<'_>,
    found: Option<Fields<'_>>,
) -> Result<(), NoMemory>
    requires begun { 0 < length program.old.segments }
    requires room { byte_count program.old.segments + 8 ≤ 2 ^ 31 }
    requires registers { IfSome found (λ f. AreRegisters (fields_view f)) }
    ensures { OnOk result (program.new
        ≡ with_bytes (option_map_or (λ f. words (pair_words (labels_view labels.now) f))
        (option_map fields_view found.entry) []) program.old) }
{
    match found {
        Some(fields) => {
            let [upper, low] = pair_words(labels, fields);
            add_word(program, upper)?;
            add_word(program, low)
        }
        None => Ok(()),
    }
}

/// Adds the word of an instruction.
fn add_inst(
    program: &mut ProgramBuilder<'_>,
    labels: &Labels<'_>,
    here: u64,
    form: Form,
    operands: &[u8],
) -> Result<(), NoMemory>
    requires begun { 0 < length program.old.segments }
    requires room { byte_count program.old.segments + 4 ≤ 2 ^ 31 }
    requires fits { IsTrue (offset_fits (labels_view labels.now) here
        (Keyword.Inst form) (pieces_of operands.now)) }
    ensures { OnOk result (program.new
        ≡ with_bytes
        (option_map_or (λ f. words (inst_word (labels_view labels.now) here form f ∷ []))
        (fields_of form (pieces_of operands.now)) []) program.old) }
{
    match read_fields(form, operands) {
        Some(fields) => add_word(program, inst_word(labels, here, form, fields)),
        None => Ok(()),
    }
}
