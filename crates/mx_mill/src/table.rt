//! The manifest as a table.

ghost use Rattle.std.specs.Prelude.{◌≡◌, ◌+◌, ◌≤◌, map, IfOk};
ghost use Rattle.std.specs.List.{range_with_len};
ghost use Rattle.toml.specs.Data.{string};
ghost use Rattle.toml.specs.View.{items_of, items_view, table_view, view};
ghost use Rattle.mx_mill.specs.Draws.{draws};
ghost use Rattle.mx_mill.specs.Table.{gate_table, hart_table, mill_table, module_table, name};
ghost use Rattle.mx_mill.specs.Words.{hart_count, mill_words, module_count, words_by};

use crate::Draws;
use crate::building::{add, number, numbers, put, single, text};
use crate::draws::draw;
use crate::words::{HARTS, MODULES, base, module_before, words};
use itoa::Buffer;
use mx_words::NoMemory;
use std::alloc::Global;
use toml::value::Array;
use toml::{Table, Value};

// The name of a module.
fn name(alloc: Global, domain: u32) -> Result<Value, NoMemory>
    ensures { IfOk result (λ v. view v ≡ string (name domain)) }
{
    let mut name = String::from_str(alloc, "m")?;
    name.push_str(Buffer::new().format(domain))?;
    Ok(Value::String(name))
}

// The gate of a module.
fn gate(alloc: Global, domain: u32) -> Result<Value, NoMemory>
    requires from { 1 ≤ domain }
    requires to { domain ≤ module_count }
    ensures { IfOk result (λ v. view v ≡ gate_table domain) }
{
    let from = single(alloc, name(alloc, module_before(domain))?)?;
    let mut table = Table::new(alloc);
    put(alloc, &mut table, "entry", number(base(domain) + 64))?;
    put(alloc, &mut table, "from", from)?;
    Ok(Value::Table(table))
}

// A module, with its words by its draws.
fn module_of(alloc: Global, domain: u32, draws: Draws) -> Result<Value, NoMemory>
    requires from { 1 ≤ domain }
    requires to { domain ≤ module_count }
    requires words { draws.words ≤ 16 }
    requires domain { draws.domain ≤ module_count }
    requires right { draws.right ≤ 3 }
    ensures { IfOk result (λ v. view v ≡ module_table domain (mill_words domain draws)) }
{
    let at = base(domain);
    let mut table = Table::new(alloc);
    put(alloc, &mut table, "at", number(at))?;
    let gates = single(alloc, gate(alloc, domain)?)?;
    put(alloc, &mut table, "gates", gates)?;
    put(alloc, &mut table, "heap", number(at + 0x2000))?;
    put(alloc, &mut table, "heap_words", number(1024))?;
    put(alloc, &mut table, "name", name(alloc, domain)?)?;
    put(alloc, &mut table, "perm", text(alloc, "rx")?)?;
    let returns = single(alloc, number(at + 68))?;
    put(alloc, &mut table, "returns", returns)?;
    let words = numbers(alloc, &words(domain, draws))?;
    put(alloc, &mut table, "words", words)?;
    Ok(Value::Table(table))
}

// The modules, with the draws that begin with k.
fn modules(alloc: Global, k: u32) -> Result<Array, NoMemory>
    ensures { IfOk result (λ ms. items_view ms.items
        ≡ items_of (map (λ i. module_table i (words_by (draws k) i))
        (range_with_len 1 module_count))) }
{
    let mut modules = Vec::new(alloc);
    let mut number = k;
    'modules: for i in 0..MODULES {
        let (draws, later) = draw(number);
        add(&mut modules, module_of(alloc, i + 1, draws)?)?;
        number = later;
    }
    Ok(modules)
}

// The hart that begins in a module.
fn hart(alloc: Global, domain: u32) -> Result<Value, NoMemory>
    ensures { IfOk result (λ v. view v ≡ hart_table domain) }
{
    let name = name(alloc, domain)?;
    let mut table = Table::new(alloc);
    put(alloc, &mut table, "module", name)?;
    Ok(Value::Table(table))
}

// The harts.
fn harts(alloc: Global) -> Result<Array, NoMemory>
    ensures { IfOk result (λ hs. items_view hs.items
        ≡ items_of (map hart_table (range_with_len 1 hart_count))) }
{
    let mut harts = Vec::new(alloc);
    'harts: for i in 0..HARTS {
        add(&mut harts, hart(alloc, i + 1)?)?;
    }
    Ok(harts)
}

/// The manifest for a number.
pub(crate) fn mill_table(alloc: Global, k: u32) -> Result<Table, NoMemory>
    ensures { IfOk result (λ t. table_view t ≡ mill_table k) }
{
    let harts = harts(alloc)?;
    let modules = modules(alloc, k)?;
    let mut table = Table::new(alloc);
    put(alloc, &mut table, "hart", Value::Array(harts))?;
    put(alloc, &mut table, "module", Value::Array(modules))?;
    put(alloc, &mut table, "ram_kib", number(1024))?;
    put(alloc, &mut table, "version", number(1))?;
    Ok(table)
}
