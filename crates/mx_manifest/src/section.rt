//! A table of a manifest: the top table, or the value in an array that stands for another table.

ghost use Rattle.std.specs.Prelude.{◌≡◌, map, option_map, option_copied, option_and_then, not, length};
ghost use Rattle.std.specs.List.{list_all};
ghost use Rattle.toml.specs.Data.{get, as_table};
ghost use Rattle.toml.specs.View.{view, table_view};
ghost use Rattle.mx_manifest.specs.Keys.{key_text};
ghost use Rattle.mx_manifest.specs.Reads.{value_at, has, names_in, number_of, elements, elements_at, number_at};
ghost use Rattle.mx_manifest.specs.Reads.{text_at};
ghost use Rattle.mx_manifest.specs.Section.{section_view};

use crate::Key;
use toml::{Table, Value};

/// A table of a manifest. A value that is no table has no keys.
#[derive(Clone, Copy)]
pub(crate) enum Section<'a> {
    /// The top table.
    Top(&'a Table),
    /// An element of an array of tables.
    Inner(&'a Value),
}

impl<'a> Section<'a> {
    /// The value at a name.
    #[tactic(auto, using(toml::proofs::Views::table_get))]
    pub fn get(self, name: &str) -> Option<&'a Value>
        ensures { option_map (λ v. view v.now) result ≡ get name.now (section_view self.entry) }
    {
        match self {
            Section::Top(table) => table.get(name),
            Section::Inner(value) => value.get(name),
        }
    }

    /// The value at a key.
    pub fn value_at(self, key: Key) -> Option<&'a Value>
        ensures { option_map (λ v. view v.now) result ≡ value_at key (section_view self.entry) }
    {
        self.get(key.name())
    }

    /// Whether a key is there.
    pub fn has(self, key: Key) -> bool
        ensures { result ≡ has key (section_view self.entry) }
    {
        self.value_at(key).is_some()
    }

    /// The table itself, where it is one.
    pub fn table(self) -> Option<&'a Table>
        ensures { option_map (λ t. table_view t.now) result ≡ as_table (section_view self.entry) }
    {
        match self {
            Section::Top(table) => Some(table),
            Section::Inner(value) => value.as_table(),
        }
    }

    /// The elements of the array at a key; none where there is no array.
    pub fn elements_at(self, key: Key) -> &'a [Value]
        ensures { map view result.now ≡ elements_at key (section_view self.entry) }
    {
        match self.value_at(key) {
            Some(value) => elements(value),
            None => &[],
        }
    }

    /// The number of 32 bits at a key.
    pub fn number_at(self, key: Key) -> Option<u32>
        ensures { result ≡ number_at key (section_view self.entry) }
    {
        self.value_at(key).and_then(number_of)
    }

    /// The text at a key.
    pub fn text_at(self, key: Key) -> Option<&'a str>
        ensures { option_copied result ≡ text_at key (section_view self.entry) }
    {
        self.value_at(key).and_then(Value::as_str)
    }
}

/// The elements of an array; none of any other value.
#[tactic(auto, using(crate::proofs::Values::listed_view))]
pub(crate) fn elements(value: &Value) -> &[Value]
    ensures { map view result.now ≡ elements (view value.now) }
{
    match value.as_array() {
        Some(array) => array.as_slice(),
        None => &[],
    }
}

/// A number of 32 bits.
pub(crate) fn number_of(value: &Value) -> Option<u32>
    ensures { result ≡ number_of (view value.now) }
{
    match value.as_integer() {
        Some(n) if 0 <= n && n <= 4294967295 => Some(n as u32),
        _ => None,
    }
}
