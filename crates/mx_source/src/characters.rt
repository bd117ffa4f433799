//! The characters of a source by their bytes, blanks, and marks outside quotes.
ghost use Rattle.std.specs.Prelude.{◌≡◌, ◌≤◌, length};
ghost use Rattle.mx_source.specs.Characters.{is_blank, begins_name, is_in_name, is_in_word, is_printed, trim_start};
ghost use Rattle.mx_source.specs.Characters.{trim_end, trim, quotes_after, is_mark, mark_place, without_comment};
ghost use Rattle.mx_source.specs.declared.characters.Quotes.TheVariants.{Outside};

/// Where a character stands: outside quotes, inside them, or inside them right after a `\`.
#[derive(Clone, Copy)]
pub enum Quotes {
    /// Outside quotes, where marks count.
    Outside,
    /// In a text in quotes, which the next `"` ends.
    Inside,
    /// In a text in quotes, right after a `\`: this character ends nothing, also if it is a `"`.
    Escape,
}

/// Whether a character is a space or a tab.
pub fn is_blank(c: u8) -> bool
    ensures { result ≡ is_blank c }
{
    c == b' ' || c == b'\t'
}

/// Whether a name may begin with a character: a letter or `_`.
pub fn begins_name(c: u8) -> bool
    ensures { result ≡ begins_name c }
{
    c.is_ascii_alphabetic() || c == b'_'
}

/// Whether a character may stand in a name: a letter, a digit or `_`.
pub fn is_in_name(c: u8) -> bool
    ensures { result ≡ is_in_name c }
{
    begins_name(c) || c.is_ascii_digit()
}

/// Whether a character may stand in a statement's word: one of a name, or the point of a directive.
pub fn is_in_word(c: u8) -> bool
    ensures { result ≡ is_in_word c }
{
    is_in_name(c) || c == b'.'
}

/// Whether ASCII prints a character.
pub fn is_printed(c: u8) -> bool
    ensures { result ≡ is_printed c }
{
    b' ' <= c && c <= b'~'
}

/// A text without the blanks at its front.
#[tactic(auto, using(crate::proofs::Steps::trim_steps))]
pub fn trim_start(text: &[u8]) -> &[u8]
    ensures trimmed { result.now ≡ trim_start text.now }
    ensures shorter { length result.now ≤ length text.now }
{
    'blanks: for (i, c) in text.iter().enumerate() {
        if !is_blank(*c) {
            return &text[i..];
        }
    }
    &text[text.len()..]
}

/// A text without the blanks at its end.
pub fn trim_end(text: &[u8]) -> &[u8]
    ensures trimmed { result.now ≡ trim_end text.now }
    ensures shorter { length result.now ≤ length text.now }
{
    let mut end = text.len();
    'blanks: while end > 0 && is_blank(text[end - 1]) {
        end -= 1;
    }
    &text[..end]
}

/// A text without blanks at its ends.
pub fn trim(text: &[u8]) -> &[u8]
    ensures trimmed { result.now ≡ trim text.now }
    ensures shorter { length result.now ≤ length text.now }
{
    trim_end(trim_start(text))
}

/// Where a character leaves the text.
fn quotes_after(quotes: Quotes, c: u8) -> Quotes
    ensures { result ≡ quotes_after quotes c }
{
    match quotes {
        Quotes::Outside if c == b'"' => Quotes::Inside,
        Quotes::Outside => Quotes::Outside,
        Quotes::Inside if c == b'"' => Quotes::Outside,
        Quotes::Inside if c == b'\\' => Quotes::Escape,
        Quotes::Inside => Quotes::Inside,
        Quotes::Escape => Quotes::Inside,
    }
}

/// Whether a character that stands there is a mark outside quotes.
fn is_mark(mark: u8, quotes: Quotes, c: u8) -> bool
    ensures { result ≡ is_mark mark quotes c }
{
    match quotes {
        Quotes::Outside => c == mark,
        _ => false,
    }
}

/// How many characters stand before the first mark outside quotes.
#[tactic(auto, using(crate::proofs::Steps::mark_steps))]
pub fn mark_place(mark: u8, text: &[u8]) -> usize
    ensures place { result ≡ mark_place mark Outside text.now }
    ensures within { result ≤ length text.now }
{
    let mut quotes = Quotes::Outside;
    'characters: for (i, c) in text.iter().enumerate() {
        if is_mark(mark, quotes, *c) {
            return i;
        }
        quotes = quotes_after(quotes, *c);
    }
    text.len()
}

/// A line without its comment.
pub fn without_comment(line: &[u8]) -> &[u8]
    ensures rest { result.now ≡ without_comment line.now }
    ensures shorter { length result.now ≤ length line.now }
{
    &line[..mark_place(b'#', line)]
}
