//! The values of several symbols, found in one walk over a file's symbols.

ghost use Rattle.std.specs.Prelude.{◌≡◌, ◌≢◌, ◌+◌, ◌≤◌, ℕ, Bool, true, false, Option, None, Some, List, [], length};
ghost use Rattle.std.specs.Prelude.{drop, is_some, not, if◌then◌else◌, IfOk, option_map};
ghost use Rattle.std.specs.List.{list_any};
ghost use Rattle.std.specs.Option.{option_map_or, option_or};
ghost use Rattle.std.specs.Str.{bytes_eq};
ghost use Rattle.mx_elf.specs.Known.{HoldsIn, AreShort, known_in, told_of, value_here};
ghost use Rattle.mx_elf.specs.Symbol.{begins_with_name, symbol_of, value_of};

use crate::field::{half_at, word_at};
use crate::layout::{ST_SHNDX, ST_VALUE, SYMBOL_SIZE};
use crate::symbols::{sections, symbol};
use memchr::memchr;
use mx_words::NoMemory;
use std::alloc::Global;
use std::collections::HashMap;
use std::marker::Model;

/// Values by names; None where no symbol of that name was found.
type Values<'a> = HashMap<&'a [u8], Option<u32>>;

/// The values of some symbols of a file, by their names.
#[derive(Drop)]
pub struct Symbols<'a> {
    values: Values<'a>,
}

impl<'a> Model for Symbols<'a> {
    ghost use Rattle.std.specs.Prelude.{ℕ, List, Option};
    ghost use Rattle.mx_elf.specs.Known.{told_by};

    ghost Value = { List (List ℕ × Option ℕ) };

    ghost view = { λ s. told_by s.values };
}

impl<'a> Symbols<'a> {
    /// Those of no name.
    pub fn none(alloc: Global) -> Symbols<'a>
        ensures { result ≡ [] }
    {
        Symbols {
            values: HashMap::new(alloc),
        }
    }

    /// Those of these names, found in one walk over the symbols of the file. Usually a name costs what its hash does,
    /// however many
    /// names are asked for. The hash has a fixed key: names chosen so that their hashes collide cost a comparison with
    /// each other name
    /// that is asked for, and a module's gates and returns together can ask for at most 512 names.
    pub fn find(alloc: Global, bytes: &[u8], names: &[&'a str]) -> Result<Symbols<'a>, NoMemory>
        ensures names { IfOk result (λ symbols. (name : List ℕ) →
            is_some (told_of symbols name) ≡ list_any (λ n. bytes_eq name n.now) names.now) }
        ensures values { IfOk result (HoldsIn bytes.now) }
    {
        let mut values = unknown(alloc, names)?;
        look_up(&mut values, bytes, longest(names));
        Ok(Symbols { values })
    }

    /// The value of the symbol of a name in that file, as `symbol` tells it. A name that wasn't asked for is searched
    /// for.
    pub fn value(&self, bytes: &[u8], name: &str) -> Option<u32>
        requires { HoldsIn bytes.now self.now }
        ensures { result ≡ symbol_of bytes.now name.now }
    {
        match self.values.get(name.as_bytes()) {
            Some(value) => *value,
            None => symbol(bytes, name),
        }
    }
}

/// Names without a value.
fn unknown<'a>(alloc: Global, names: &[&'a str]) -> Result<Values<'a>, NoMemory>
    ensures { IfOk result (λ values. (name : List ℕ) → known_in values name
        ≡ (if list_any (λ n. bytes_eq name n.now) names.now then Some None else None)) }
{
    let mut values = HashMap::new(alloc);
    'names: for name in names {
        values.insert(name.as_bytes(), None)?;
    }
    Ok(values)
}

/// How many bytes the longest name has.
fn longest(names: &[&str]) -> usize
    ensures { (name : List ℕ) → list_any (λ n. bytes_eq name n.now) names.now ≡ true →
        length name ≤ result }
{
    let mut most = 0;
    'names: for name in names {
        most = most.max(name.len());
    }
    most
}

/// Gives each name, none of which has a value or is longer than `longest`, the value of the file's symbol of that name.
fn look_up(values: &mut Values, bytes: &[u8], longest: usize)
    requires unknown { (name : List ℕ) (value : Option ℕ) → known_in values.old name ≡ Some value →
        value ≡ None }
    requires short { AreShort longest values.old }
    ensures { (name : List ℕ) → known_in values.new name
        ≡ option_map (λ _. symbol_of bytes.now name) (known_in values.old name) }
{
    if let Some((symbols, strings)) = sections(bytes) {
        walk(values, symbols, strings, longest);
    }
}

/// Gives each name, none of which has a value or is longer than `longest`, the value of the first symbol that is
/// defined and has it.
fn walk(values: &mut Values, symbols: &[u8], strings: &[u8], longest: usize)
    requires unknown { (name : List ℕ) (value : Option ℕ) → known_in values.old name ≡ Some value →
        value ≡ None }
    requires short { AreShort longest values.old }
    ensures { (name : List ℕ) → known_in values.new name
        ≡ option_map (λ _. value_of symbols.now strings.now name) (known_in values.old name) }
{
    let count = symbols.len() / SYMBOL_SIZE;
    'symbols: for k in 0..count {
        note(values, symbols, strings, longest, SYMBOL_SIZE * k);
    }
}

/// Gives the name of the symbol at `at`, if that is defined, its value, unless an earlier symbol gave it one.
fn note(values: &mut Values, symbols: &[u8], strings: &[u8], longest: usize, at: usize)
    requires inside { at + 16 ≤ length symbols.now }
    requires short { AreShort longest values.old }
    ensures { (name : List ℕ) → known_in values.new name
        ≡ option_map (λ v. option_or v (value_here symbols.now strings.now name at))
        (known_in values.old name) }
{
    if half_at(symbols, at + ST_SHNDX) == 0 {
        return;
    }
    if let Some(name) = name_at(strings, word_at(symbols, at), longest) {
        give(values, name, word_at(symbols, at + ST_VALUE));
    }
}

/// Gives a name, if it is asked for, a value, unless it has one.
fn give(values: &mut Values, name: &[u8], value: u32)
    ensures { (q : List ℕ) → known_in values.new q
        ≡ option_map (λ v. option_or v (if bytes_eq name.now q then Some value else None))
        (known_in values.old q) }
{
    if let Some(place) = values.get_mut(name) {
        if place.is_none() {
            *place = Some(value);
        }
    }
}

/// The name at place `at` of the strings, if it has at most `longest` bytes.
fn name_at(strings: &[u8], at: u32, longest: usize) -> Option<&[u8]>
    ensures { (name : List ℕ) → length name ≤ longest →
        begins_with_name (drop at strings.now) name
        ≡ option_map_or (λ n. bytes_eq n.now name) result false }
{
    let at = at as usize;
    if at > strings.len() {
        return None;
    }
    first_name(&strings[at..], longest)
}

/// The name with which these strings begin, if it has at most `longest` bytes.
fn first_name(strings: &[u8], longest: usize) -> Option<&[u8]>
    ensures { (name : List ℕ) → length name ≤ longest →
        begins_with_name strings.now name ≡ option_map_or (λ n. bytes_eq n.now name) result false }
{
    let most = if longest < strings.len() {
        longest + 1
    } else {
        strings.len()
    };
    match memchr(0, &strings[..most]) {
        Some(end) => Some(&strings[..end]),
        None => None,
    }
}
