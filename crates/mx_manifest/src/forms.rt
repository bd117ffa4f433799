//! The TOML types and the ranges of values.

ghost use Rattle.std.specs.Prelude.{◌≡◌, ◌&&◌, map, length, nat_le};
ghost use Rattle.std.specs.List.{list_all};
ghost use Rattle.toml.specs.Data.{as_str, as_integer};
ghost use Rattle.toml.specs.View.{view};
ghost use Rattle.mx_manifest.specs.Forms.{is_within, is_integer, is_aligned, is_choice, is_address, is_name_byte};
ghost use Rattle.mx_manifest.specs.Forms.{is_text, is_entry_typed, is_entry, is_item_typed, is_item, is_typed};
ghost use Rattle.mx_manifest.specs.Forms.{is_ranged};

use crate::row::{Form, ItemForm, TextForm};
use crate::section::elements;
use toml::Value;

/// Whether a value has the TOML type of a form; an array's elements count too.
pub(crate) fn is_typed(form: Form, value: &Value) -> bool
    ensures { result ≡ is_typed form (view value.now) }
{
    match form {
        Form::Integer(_, _) | Form::Aligned(_, _) | Form::Choice(_, _, _) => value.is_integer(),
        Form::Text(_) => value.is_str(),
        Form::Boolean => value.is_bool(),
        Form::Entry => is_entry_typed(value),
        Form::Array(_, _, item) => value.is_array() && are_typed(item, elements(value)),
    }
}

/// Whether a value lies in the range of a form; an array's length and elements count too.
pub(crate) fn is_ranged(form: Form, value: &Value) -> bool
    ensures { result ≡ is_ranged form (view value.now) }
{
    match form {
        Form::Integer(low, high) => is_number(low, high, value),
        Form::Aligned(low, high) => is_aligned_number(low, high, value),
        Form::Choice(a, b, c) => is_chosen(a, b, c, value),
        Form::Text(text) => is_text_value(text, value),
        Form::Boolean => true,
        Form::Entry => is_entry(value),
        Form::Array(low, high, item) => is_array(low, high, item, elements(value)),
    }
}

fn are_typed(item: ItemForm, values: &[Value]) -> bool
    ensures { result ≡ list_all (λ v. is_item_typed item (view v)) values.now }
{
    values.iter().all(|value| is_item_typed(item, value))
}

fn is_item_typed(item: ItemForm, value: &Value) -> bool
    ensures { result ≡ is_item_typed item (view value.now) }
{
    match item {
        ItemForm::Table => value.is_table(),
        ItemForm::Word => value.is_integer(),
        ItemForm::Text => value.is_str(),
        ItemForm::Entry => is_entry_typed(value),
    }
}

fn is_array(low: u32, high: u32, item: ItemForm, values: &[Value]) -> bool
    ensures { result
        ≡ (is_within low high (length values.now)
        && list_all (λ v. is_item item (view v)) values.now) }
{
    low as usize <= values.len() && values.len() <= high as usize && are_items(item, values)
}

fn are_items(item: ItemForm, values: &[Value]) -> bool
    ensures { result ≡ list_all (λ v. is_item item (view v)) values.now }
{
    values.iter().all(|value| is_item(item, value))
}

fn is_item(item: ItemForm, value: &Value) -> bool
    ensures { result ≡ is_item item (view value.now) }
{
    match item {
        ItemForm::Table | ItemForm::Text => true,
        ItemForm::Word => is_number(0, u32::MAX, value),
        ItemForm::Entry => is_entry(value),
    }
}

fn is_number(low: u32, high: u32, value: &Value) -> bool
    ensures { result ≡ is_ranged (Form.Integer low high) (view value.now) }
{
    value.as_integer().is_some_and(|n| is_integer(low, high, n))
}

fn is_aligned_number(low: u32, high: u32, value: &Value) -> bool
    ensures { result ≡ is_ranged (Form.Aligned low high) (view value.now) }
{
    value
        .as_integer()
        .is_some_and(|n| is_integer(low, high, n) && is_aligned(n))
}

fn is_chosen(a: u32, b: u32, c: u32, value: &Value) -> bool
    ensures { result ≡ is_ranged (Form.Choice a b c) (view value.now) }
{
    value.as_integer().is_some_and(|n| is_choice(a, b, c, n))
}

fn is_text_value(form: TextForm, value: &Value) -> bool
    ensures { result ≡ is_ranged (Form.Text form) (view value.now) }
{
    value.as_str().is_some_and(|text| is_text(form, text))
}

fn is_integer(low: u32, high: u32, n: i64) -> bool
    ensures { result ≡ is_integer low high n }
{
    i64::from(low) <= n && n <= i64::from(high)
}

fn is_aligned(n: i64) -> bool
    ensures { result ≡ is_aligned n }
{
    0 <= n && n as u64 % 4 == 0
}

fn is_choice(a: u32, b: u32, c: u32, n: i64) -> bool
    ensures { result ≡ is_choice a b c n }
{
    n == i64::from(a) || n == i64::from(b) || n == i64::from(c)
}

fn is_text(form: TextForm, text: &str) -> bool
    ensures { result ≡ is_text form text.now }
{
    match form {
        TextForm::Any => true,
        TextForm::Tables => text == "segments" || text == "multilevel" || text == "packed",
        TextForm::ModuleName => is_module_name(text.as_bytes()),
        TextForm::FileName => is_file_name(text.as_bytes()),
        TextForm::Permission => text == "r" || text == "rw" || text == "rx",
        TextForm::ImagePermission => text == "rw" || text == "rx",
        TextForm::OnFault => text == "return" || text == "kill",
        TextForm::InputPermission => text == "r" || text == "rw",
    }
}

fn is_module_name(bytes: &[u8]) -> bool
    ensures { result ≡ is_text TextForm.ModuleName bytes.now }
{
    1 <= bytes.len() && bytes.len() <= 32 && are_name_bytes(bytes)
}

fn are_name_bytes(bytes: &[u8]) -> bool
    ensures { result ≡ list_all is_name_byte bytes.now }
{
    bytes.iter().all(|byte| is_name_byte(*byte))
}

fn is_name_byte(byte: u8) -> bool
    ensures { result ≡ is_name_byte byte }
{
    byte.is_ascii_lowercase() || byte.is_ascii_digit() || byte == b'_'
}

fn is_file_name(bytes: &[u8]) -> bool
    ensures { result ≡ is_text TextForm.FileName bytes.now }
{
    1 <= bytes.len() && bytes.len() <= 255 && bytes[0] != b'-'
}

fn is_entry_typed(value: &Value) -> bool
    ensures { result ≡ is_entry_typed (view value.now) }
{
    value.is_str() || value.is_integer()
}

/// A text of 1 to 255 bytes, or an address.
fn is_entry(value: &Value) -> bool
    ensures { result ≡ is_entry (view value.now) }
{
    match value.as_str() {
        Some(text) => 1 <= text.len() && text.len() <= 255,
        None => is_number(0, u32::MAX, value),
    }
}
