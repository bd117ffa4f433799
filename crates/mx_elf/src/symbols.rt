//! The values of symbols.

ghost use Rattle.std.specs.Prelude.{◌≡◌, ◌+◌, ◌*◌, ◌/◌, ◌<◌, ◌≤◌, ℕ, List, length, drop, find, ◌==◌, IfSome};
ghost use Rattle.std.specs.Prelude.{option_map, option_and_then};
ghost use Rattle.mx_elf.specs.Field.{places};
ghost use Rattle.mx_elf.specs.Header.{e_shoff, e_shnum, sh_type};
ghost use Rattle.mx_elf.specs.Symbol.{has_sections, symbol_table_of, section_place, section_bytes, HasNoZero};
ghost use Rattle.mx_elf.specs.Symbol.{begins_with_name, is_defined, value_of, symbol_of};

use crate::field::{half_at, word_at};
use crate::layout::{
    E_SHENTSIZE, E_SHNUM, E_SHOFF, HEADER_SIZE, SECTION_HEADER_SIZE, SH_LINK, SH_OFFSET, SH_SIZE,
    SH_TYPE, SHT_SYMTAB, ST_SHNDX, ST_VALUE, SYMBOL_SIZE,
};

/// The value of the first symbol of the file that is defined (its section isn't number 0) and has this name, which ends
/// at a zero byte inside the string section.
///
/// The first section of type 2 is the symbol table, and the section that its sh_link numbers holds the names. `None`
/// where no symbol is so, and where one of the two sections is missing or passes the file's end, and where there are no
/// section headers, or their size isn't 40, or they pass the file's end (System V gABI, "Sections" and "Symbol Table").
#[tactic(auto, unfolding(crate::specs::Symbol::symbol_of))]
pub fn symbol(bytes: &[u8], name: &str) -> Option<u32>
    ensures { result ≡ symbol_of bytes.now name.now }
{
    let (symbols, strings) = sections(bytes)?;
    find_value(symbols, strings, name.as_bytes())
}

/// The symbols of the file and the strings that hold their names.
#[tactic(auto, unfolding(crate::specs::Symbol::symbol_of))]
pub(crate) fn sections(bytes: &[u8]) -> Option<(&[u8], &[u8])>
    ensures { (name : List ℕ) →
        symbol_of bytes.now name ≡ option_and_then (λ s. value_of s.0.now s.1.now name) result }
{
    let table = symbol_table(bytes)?;
    let symbols = section(bytes, table)?;
    let strings_at = section_header(bytes, word_at(bytes, table + SH_LINK))?;
    let strings = section(bytes, strings_at)?;
    Some((symbols, strings))
}

/// Whether the file has section headers, of the usual size and all inside it.
fn has_sections(bytes: &[u8]) -> bool
    ensures { result ≡ has_sections bytes.now }
{
    if bytes.len() < HEADER_SIZE {
        return false;
    }
    let count = half_at(bytes, E_SHNUM) as usize;
    let size = half_at(bytes, E_SHENTSIZE) as usize;
    let end = word_at(bytes, E_SHOFF) as usize + SECTION_HEADER_SIZE * count;
    count != 0 && size == SECTION_HEADER_SIZE && end <= bytes.len()
}

/// The place of the symbol table's header.
#[tactic(auto, unfolding(crate::specs::Symbol::symbol_table_of))]
fn symbol_table(bytes: &[u8]) -> Option<usize>
    ensures exact { result ≡ symbol_table_of bytes.now }
    ensures whole { IfSome result (λ _. 52 ≤ length bytes.now) }
    ensures inside { IfSome result (λ _. e_shoff bytes.now
        + 40 * e_shnum bytes.now ≤ length bytes.now) }
    ensures header { IfSome result (λ at. at + 40 ≤ length bytes.now) }
{
    if !has_sections(bytes) {
        return None;
    }
    let first = word_at(bytes, E_SHOFF) as usize;
    find_symbol_table(bytes, first, half_at(bytes, E_SHNUM) as usize)
}

/// The place of the first header of a symbol table among `count` section headers, the first of which stands at `first`.
fn find_symbol_table(bytes: &[u8], first: usize, count: usize) -> Option<usize>
    requires { first + 40 * count ≤ length bytes.now }
    ensures exact { result ≡ find (λ at. sh_type bytes.now at == 2) (places first 40 count) }
    ensures header { IfSome result (λ at. at + 40 ≤ length bytes.now) }
{
    'headers: for k in 0..count {
        let at = first + SECTION_HEADER_SIZE * k;
        if word_at(bytes, at + SH_TYPE) == SHT_SYMTAB {
            return Some(at);
        }
    }
    None
}

/// The place of the header of the section with a number.
#[tactic(auto, unfolding(crate::specs::Symbol::section_place))]
fn section_header(bytes: &[u8], number: u32) -> Option<usize>
    requires whole { 52 ≤ length bytes.now }
    requires inside { e_shoff bytes.now + 40 * e_shnum bytes.now ≤ length bytes.now }
    ensures exact { result ≡ section_place bytes.now number }
    ensures header { IfSome result (λ at. at + 40 ≤ length bytes.now) }
{
    if number >= half_at(bytes, E_SHNUM) as u32 {
        return None;
    }
    Some(word_at(bytes, E_SHOFF) as usize + SECTION_HEADER_SIZE * number as usize)
}

/// The bytes of the section whose header stands at `at`, if they lie in the file.
#[tactic(auto, unfolding(crate::specs::Symbol::section_bytes))]
fn section(bytes: &[u8], at: usize) -> Option<&[u8]>
    requires { at + 40 ≤ length bytes.now }
    ensures { option_map (λ s. s.now) result ≡ section_bytes bytes.now at }
{
    let start = word_at(bytes, at + SH_OFFSET) as usize;
    let end = start + word_at(bytes, at + SH_SIZE) as usize;
    if end > bytes.len() {
        return None;
    }
    Some(&bytes[start..end])
}

/// The value of the first symbol that is defined and has this name. A name with a zero byte in it is no symbol's.
fn find_value(symbols: &[u8], strings: &[u8], name: &[u8]) -> Option<u32>
    ensures { result ≡ value_of symbols.now strings.now name.now }
{
    if name.contains(&0) {
        return None;
    }
    find_named(symbols, strings, name)
}

/// The value of the first symbol that is defined and has this name, in which no byte is zero.
#[tactic(auto, unfolding(crate::specs::Symbol::value_of))]
fn find_named(symbols: &[u8], strings: &[u8], name: &[u8]) -> Option<u32>
    requires { HasNoZero name.now }
    ensures { result ≡ value_of symbols.now strings.now name.now }
{
    let count = symbols.len() / SYMBOL_SIZE;
    'symbols: for k in 0..count {
        let at = SYMBOL_SIZE * k;
        if is_defined(symbols, strings, name, at) {
            return Some(word_at(symbols, at + ST_VALUE));
        }
    }
    None
}

/// Whether the symbol at `at` is defined and has this name.
fn is_defined(symbols: &[u8], strings: &[u8], name: &[u8], at: usize) -> bool
    requires inside { at + 16 ≤ length symbols.now }
    requires name { HasNoZero name.now }
    ensures { result ≡ is_defined symbols.now strings.now name.now at }
{
    half_at(symbols, at + ST_SHNDX) != 0 && has_name(strings, word_at(symbols, at), name)
}

/// Whether the string at place `at` is this name, in which no byte is zero.
fn has_name(strings: &[u8], at: u32, name: &[u8]) -> bool
    requires { HasNoZero name.now }
    ensures { result ≡ begins_with_name (drop at strings.now) name.now }
{
    let at = at as usize;
    at <= strings.len() && begins_with_name(&strings[at..], name)
}

/// Whether these strings begin with this name, in which no byte is zero, and a zero byte. That byte is looked at first:
/// few
/// strings of a file end just there.
fn begins_with_name(strings: &[u8], name: &[u8]) -> bool
    requires { HasNoZero name.now }
    ensures { result ≡ begins_with_name strings.now name.now }
{
    if name.len() >= strings.len() {
        return false;
    }
    if strings[name.len()] != 0 {
        return false;
    }
    &strings[..name.len()] == name
}
