//! Tables, arrays and values of a manifest.

ghost use Rattle.std.specs.Prelude.{◌≡◌, ◌≤◌, [], ◌∷◌, map, length, IfOk, OnOk};
ghost use Rattle.toml.specs.Data.{push_item, string};
ghost use Rattle.toml.specs.View.{items_view, table_view, view};
ghost use Rattle.mx_mill.specs.Building.{with_member};
ghost use Rattle.mx_mill.specs.Table.{list, number};

use mx_words::NoMemory;
use std::alloc::Global;
use toml::value::Array;
use toml::{Table, Value};

/// Puts a value at a key of a table.
pub(crate) fn put(alloc: Global, table: &mut Table, key: &str, value: Value) -> Result<(), NoMemory>
    ensures { OnOk result
        (table_view table.new ≡ with_member key.now (view value) (table_view table.old)) }
{
    let key = String::from_str(alloc, key)?;
    table.insert(key, value)?;
    Ok(())
}

/// Adds a value at the end of an array.
#[tactic(auto, using(crate::proofs::TableLaws::items_pushed))]
pub(crate) fn add(array: &mut Array, value: Value) -> Result<(), NoMemory>
    ensures { OnOk result (items_view array.new.items
        ≡ push_item (items_view array.old.items) (view value)) }
{
    array.push(value)?;
    Ok(())
}

/// A number.
pub(crate) fn number(n: u32) -> Value
    ensures { view result ≡ number n }
{
    Value::Integer(i64::from(n))
}

/// A text.
pub(crate) fn text(alloc: Global, text: &str) -> Result<Value, NoMemory>
    ensures { IfOk result (λ v. view v ≡ string text.now) }
{
    Ok(Value::string(alloc, text)?)
}

/// An array of one value.
pub(crate) fn single(alloc: Global, value: Value) -> Result<Value, NoMemory>
    ensures { IfOk result (λ v. view v ≡ list (view value ∷ [])) }
{
    let mut array = Vec::new(alloc);
    add(&mut array, value)?;
    Ok(Value::Array(array))
}

/// An array of numbers.
pub(crate) fn numbers(alloc: Global, words: &[u32]) -> Result<Value, NoMemory>
    ensures { IfOk result (λ v. view v ≡ list (map number words.now)) }
{
    let mut array = Vec::new(alloc);
    'words: for word in words {
        add(&mut array, number(*word))?;
    }
    Ok(Value::Array(array))
}
