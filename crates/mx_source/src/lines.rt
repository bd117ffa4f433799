//! How a line is split.
ghost use Rattle.std.specs.Prelude.{◌≡◌, ◌≤◌, length};
ghost use Rattle.std.specs.List.{list_all, prefix_len};
ghost use Rattle.mx_source.specs.Characters.{is_in_name, is_in_word, trim};
ghost use Rattle.mx_source.specs.Operands.{is_operand, pieces_of};
ghost use Rattle.mx_source.specs.Lines.{statement_of, is_word, line_with_word, line_with_label, line_with_name};
ghost use Rattle.mx_source.specs.Lines.{line_by_colon, trimmed_line, line_of, other_form};
ghost use Rattle.mx_source.specs.LineViews.{line_view, label_view, statement_view, IsShort, AreShort};

use crate::characters::{is_in_name, is_in_word, trim, trim_start, without_comment};
use crate::mnemonics::{Keyword, find_keyword};
use crate::operands::{is_name, is_operand};
use crate::pieces::Pieces;

/// The statement of a line.
#[derive(Clone, Copy)]
pub enum Statement<'a> {
    /// There is none.
    Absent,
    /// One that isn't listed.
    Unlisted,
    /// One that is, and the text of its operands.
    Listed(Keyword, &'a [u8]),
}

/// A line: the name of its label, and its statement.
#[derive(Clone, Copy)]
pub struct Line<'a> {
    /// The name before the colon, if there is one, whatever follows.
    pub label: Option<&'a [u8]>,
    /// What the rest of the line says.
    pub statement: Statement<'a>,
}

/// A line whose rest behind its label has another form.
fn other_form<'a>(label: Option<&'a [u8]>) -> Line<'a>
    ensures line { line_view result ≡ other_form (label_view label.entry) }
    ensures short { AreShort 0 result }
{
    Line {
        label,
        statement: Statement::Unlisted,
    }
}

/// The line that a text is.
#[tactic(auto, unfolding(crate::specs::Lines::line_of))]
pub fn read_line(text: &[u8]) -> Line<'_>
    ensures line { line_view result ≡ line_of text.now }
    ensures short { AreShort (length text.now) result }
{
    trimmed_line(trim(without_comment(text)))
}

/// The line of a text without comment and without blanks at its ends.
#[tactic(auto, unfolding(crate::specs::Lines::trimmed_line, crate::specs::Lines::line_by_colon))]
fn trimmed_line(text: &[u8]) -> Line<'_>
    ensures line { line_view result ≡ trimmed_line text.now }
    ensures short { AreShort (length text.now) result }
{
    let size = name_size(text);
    let after = trim_start(&text[size..]);
    if !after.is_empty() && after[0] == b':' {
        line_with_name(&text[..size], trim_start(&after[1..]))
    } else {
        line_with_label(None, text)
    }
}

/// How many characters of a name a text begins with.
fn name_size(text: &[u8]) -> usize
    ensures size { result ≡ prefix_len is_in_name text.now }
    ensures within { result ≤ length text.now }
{
    'characters: for (i, c) in text.iter().enumerate() {
        if !is_in_name(*c) {
            return i;
        }
    }
    text.len()
}

/// How many characters of a statement's word a text begins with.
fn word_size(text: &[u8]) -> usize
    ensures size { result ≡ prefix_len is_in_word text.now }
    ensures within { result ≤ length text.now }
{
    'characters: for (i, c) in text.iter().enumerate() {
        if !is_in_word(*c) {
            return i;
        }
    }
    text.len()
}

/// The line with a name before its colon.
#[tactic(auto, unfolding(crate::specs::Lines::line_with_name))]
fn line_with_name<'a>(name: &'a [u8], text: &'a [u8]) -> Line<'a>
    ensures line { line_view result ≡ line_with_name name.now text.now }
    ensures short { AreShort (length text.now) result }
{
    if is_name(name) {
        line_with_label(Some(name), text)
    } else {
        other_form(None)
    }
}

/// The line with a label, whose statement is this text.
#[tactic(auto, unfolding(crate::specs::Lines::line_with_label))]
fn line_with_label<'a>(label: Option<&'a [u8]>, text: &'a [u8]) -> Line<'a>
    ensures line { line_view result ≡ line_with_label (label_view label.entry) text.now }
    ensures short { AreShort (length text.now) result }
{
    if text.is_empty() {
        return Line {
            label,
            statement: Statement::Absent,
        };
    }
    let size = word_size(text);
    line_with_word(label, &text[..size], trim_start(&text[size..]))
}

/// The line with a label and a word, whose operands are this text.
#[tactic(auto, unfolding(crate::specs::Lines::line_with_word))]
fn line_with_word<'a>(label: Option<&'a [u8]>, word: &'a [u8], operands: &'a [u8]) -> Line<'a>
    ensures line { line_view result
        ≡ line_with_word (label_view label.entry) word.now operands.now }
    ensures short { AreShort (length operands.now) result }
{
    if !is_word(word) || !are_operands(operands) {
        return other_form(label);
    }
    Line {
        label,
        statement: read_statement(word, operands),
    }
}

/// Whether a text is a statement's word: a name, or a point and a name.
#[tactic(auto, unfolding(crate::specs::Lines::is_word))]
fn is_word(text: &[u8]) -> bool
    ensures { result ≡ is_word text.now }
{
    is_name(text) || (!text.is_empty() && text[0] == b'.' && is_name(&text[1..]))
}

/// Whether all parts between commas are operands.
fn are_operands(operands: &[u8]) -> bool
    ensures { result ≡ list_all is_operand (pieces_of operands.now) }
{
    'pieces: for piece in Pieces::of(operands) {
        if !is_operand(piece) {
            return false;
        }
    }
    true
}

/// What a word and operands say.
#[tactic(auto, unfolding(crate::specs::Lines::statement_of))]
fn read_statement<'a>(word: &'a [u8], operands: &'a [u8]) -> Statement<'a>
    ensures statement { statement_view result ≡ statement_of word.now (pieces_of operands.now) }
    ensures short { IsShort (length operands.now) result }
{
    match find_keyword(word) {
        Some(keyword) => Statement::Listed(keyword, operands),
        None => Statement::Unlisted,
    }
}
