//! Texts in quotes.
ghost use Rattle.std.specs.Prelude.{◌≡◌, ◌≤◌, ◌+◌, ◌^◌, ◌<◌, length, option_map, is_some, IsSome, IfSome, OnOk, false};
ghost use Rattle.mx_source.specs.Operands.{escape_byte, quoted_bytes, text_of};

use crate::characters::is_printed;

/// The byte that a character after `\` stands for. `None` exactly for another character than `n`, `0`, `"` and `\`.
pub fn escape_byte(c: u8) -> Option<u8>
    ensures { result ≡ escape_byte c }
{
    match c {
        b'n' => Some(b'\n'),
        b'0' => Some(0),
        b'"' => Some(b'"'),
        b'\\' => Some(b'\\'),
        _ => None,
    }
}

/// How many bytes a text in quotes has, if it is one: printed ASCII, with the escapes `\n`, `\0`, `\"` and `\\`.
#[tactic(auto, unfolding(crate::specs::Operands::text_of))]
pub fn text_size(text: &[u8]) -> Option<usize>
    ensures size { result ≡ option_map length (text_of text.now) }
    ensures bound { IfSome result (λ n. n ≤ length text.now) }
{
    if text.is_empty() || text[0] != b'"' {
        return None;
    }
    quoted_size(&text[1..])
}

fn quoted_size(text: &[u8]) -> Option<usize>
    ensures size { result ≡ option_map length (quoted_bytes false text.now) }
    ensures bound { IfSome result (λ n. n ≤ length text.now) }
{
    let mut escape = false;
    let mut size = 0;
    'characters: for (i, c) in text.iter().enumerate() {
        if escape {
            escape_byte(*c)?;
            size += 1;
            escape = false;
        } else if *c == b'"' {
            return if i + 1 == text.len() {
                Some(size)
            } else {
                None
            };
        } else if *c == b'\\' {
            escape = true;
        } else if is_printed(*c) {
            size += 1;
        } else {
            return None;
        }
    }
    None
}
