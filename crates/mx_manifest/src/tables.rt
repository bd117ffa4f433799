//! Step 1 of the tests: faults 2 to 6, table by table.

ghost use Rattle.std.specs.Prelude.{◌≡◌, ◌≤◌, ◌++◌, map, length, string_bytes};
ghost use Rattle.std.specs.List.{list_all};
ghost use Rattle.std.specs.Map.{keys_of};
ghost use Rattle.toml.specs.View.{view, table_view};
ghost use Rattle.mx_words.specs.Limits.{most_modules, most_harts};
ghost use Rattle.mx_manifest.specs.Keys.{name_text, name_key};
ghost use Rattle.mx_manifest.specs.Reads.{names_in};
ghost use Rattle.mx_manifest.specs.Faults.{fault_where, is_asked, value_fault, row_fault, rows_fault, is_listed};
ghost use Rattle.mx_manifest.specs.Faults.{unlisted_fault, table_fault, gate_fault, first_of, image_fault};
ghost use Rattle.mx_manifest.specs.Faults.{module_fault, placed, each_fault, tables_fault};
ghost use Rattle.mx_manifest.specs.Rows.{top_rows, early_rows, late_rows, gate_rows, hart_rows};
ghost use Rattle.mx_manifest.specs.Section.{section_view};

use crate::forms::{is_ranged, is_typed};
use crate::row::{Asked, Name, Row, Version};
use crate::rows::{early_rows, gate_rows, hart_rows, late_rows_one, late_rows_two, top_rows};
use crate::section::Section;
use crate::{BootFault, Key, Part, Place};
use toml::{Table, Value};

/// A fault in a table, and the key at which it is told.
#[derive(Clone, Copy)]
pub(crate) struct KeyFault {
    pub number: u32,
    pub key: Key,
}

/// A fault at a key, where a test holds.
pub(crate) fn fault_where(test: bool, number: u32, key: Key) -> Option<KeyFault>
    ensures { result ≡ fault_where test number key }
{
    if test {
        Some(KeyFault { number, key })
    } else {
        None
    }
}

/// The fault with its place.
pub(crate) fn placed(part: Part, index: u32, fault: Option<KeyFault>) -> Option<BootFault>
    ensures { result ≡ placed part index fault }
{
    fault.map(|fault| BootFault {
        number: fault.number,
        place: Place {
            part,
            index,
            key: fault.key,
        },
        detail: 0,
    })
}

impl Name {
    fn text(self) -> &'static str
        ensures { result.now ≡ name_text self }
    {
        match self {
            Name::Of(key) => key.name(),
            Name::From => "from",
        }
    }

    fn key(self) -> Key
        ensures { result ≡ name_key self }
    {
        match self {
            Name::Of(key) => key,
            Name::From => Key::Gates,
        }
    }
}

fn is_asked(asked: Asked, table: Section) -> bool
    ensures { result ≡ is_asked asked (section_view table.entry) }
{
    match asked {
        Asked::Always => true,
        Asked::Never => false,
        Asked::With(key) => table.has(key),
        Asked::Without(key) => !table.has(key),
        Asked::WithAny(a, b, c) => table.has(a) || table.has(b) || table.has(c),
        Asked::WithoutAny(a, b, c) => !(table.has(a) || table.has(b) || table.has(c)),
    }
}

/// Fault 3 of a key that is missing, faults 4 and 5 of one that is there.
fn row_fault(table: Section, row: Row) -> Option<KeyFault>
    ensures { result ≡ row_fault (section_view table.entry) row }
{
    let key = row.name.key();
    match table.get(row.name.text()) {
        None => fault_where(is_asked(row.asked, table), 3, key),
        Some(value) => {
            if !is_typed(row.form, value) {
                Some(KeyFault { number: 4, key })
            } else if !is_ranged(row.form, value) {
                Some(KeyFault { number: 5, key })
            } else {
                None
            }
        }
    }
}

/// The first fault of the keys of some rows.
fn rows_fault(rows: &[Row], table: Section) -> Option<KeyFault>
    ensures { result ≡ rows_fault rows.now (section_view table.entry) }
{
    for row in rows {
        if let Some(fault) = row_fault(table, *row) {
            return Some(fault);
        }
    }
    None
}

fn is_listed(rows: &[Row], name: &str) -> bool
    ensures { result ≡ is_listed rows.now name.now }
{
    rows.iter().any(|row| row.name.text() == name)
}

/// Whether all keys of a table stand in one of two lists of rows.
fn are_listed(rows: &[Row], more: &[Row], members: &Table) -> bool
    ensures { result
        ≡ list_all (λ k. is_listed (rows.now ++ more.now) (string_bytes k))
        (keys_of members.now.entries) }
{
    members
        .keys()
        .all(|name| is_listed_by(rows, more, name.as_str()))
}

#[tactic(auto, using(crate::proofs::Values::is_listed_append))]
fn is_listed_by(rows: &[Row], more: &[Row], name: &str) -> bool
    ensures { result ≡ is_listed (rows.now ++ more.now) name.now }
{
    is_listed(rows, name) || is_listed(more, name)
}

/// The same, where the table is one.
fn has_listed_keys(rows: &[Row], more: &[Row], table: Section) -> bool
    ensures { result
        ≡ list_all (is_listed (rows.now ++ more.now)) (names_in (section_view table.entry)) }
{
    match table.table() {
        Some(members) => are_listed(rows, more, members),
        None => true,
    }
}

/// Fault 2: a key that neither of two lists of rows has.
fn unlisted_fault(rows: &[Row], more: &[Row], table: Section) -> Option<KeyFault>
    ensures { result ≡ unlisted_fault (rows.now ++ more.now) (section_view table.entry) }
{
    let all = has_listed_keys(rows, more, table);
    fault_where(!all, 2, Key::NoKey)
}

/// The first fault of a table that isn't a module's.
#[tactic(auto, unfolding(crate::specs::Faults::table_fault))]
fn table_fault(rows: &[Row], table: Section) -> Option<KeyFault>
    ensures { result ≡ table_fault rows.now (section_view table.entry) }
{
    if let Some(fault) = unlisted_fault(rows, &[], table) {
        return Some(fault);
    }
    rows_fault(rows, table)
}

fn gate_fault(version: Version, gate: Section) -> Option<KeyFault>
    ensures { result ≡ gate_fault version (section_view gate.entry) }
{
    table_fault(&gate_rows(version), gate).map(|fault| KeyFault {
        number: fault.number,
        key: Key::Gates,
    })
}

/// The first fault inside a module's gates, gate by gate.
fn gates_fault(version: Version, gates: &[Value]) -> Option<KeyFault>
    ensures { result ≡ first_of (map (gate_fault version) (map view gates.now)) }
{
    for gate in gates {
        if let Some(fault) = gate_fault(version, Section::Inner(gate)) {
            return Some(fault);
        }
    }
    None
}

/// Fault 6: `image` beside `at`, `perm` or `words`, or `wx` without `image`.
fn image_fault(section: Section) -> Option<KeyFault>
    ensures { result ≡ image_fault (section_view section.entry) }
{
    let image = section.has(Key::Image);
    let inline = section.has(Key::At) || section.has(Key::Perm) || section.has(Key::Words);
    if image && inline {
        return Some(KeyFault {
            number: 6,
            key: Key::Image,
        });
    }
    fault_where(section.has(Key::Wx) && !image, 6, Key::Wx)
}

fn late_fault(version: Version, section: Section) -> Option<KeyFault>
    ensures { result ≡ rows_fault (late_rows version) (section_view section.entry) }
{
    match version {
        Version::One => rows_fault(&late_rows_one(), section),
        Version::Two => rows_fault(&late_rows_two(), section),
    }
}

fn unlisted_module_fault(version: Version, section: Section) -> Option<KeyFault>
    ensures { result
        ≡ unlisted_fault (early_rows version ++ late_rows version) (section_view section.entry) }
{
    let early = early_rows(version);
    match version {
        Version::One => unlisted_fault(&early, &late_rows_one(), section),
        Version::Two => unlisted_fault(&early, &late_rows_two(), section),
    }
}

/// The first fault of a module's table.
#[tactic(auto, unfolding(crate::specs::Faults::module_fault))]
fn module_fault(version: Version, section: Section) -> Option<KeyFault>
    ensures { result ≡ module_fault version (section_view section.entry) }
{
    if let Some(fault) = unlisted_module_fault(version, section) {
        return Some(fault);
    }
    if let Some(fault) = rows_fault(&early_rows(version), section) {
        return Some(fault);
    }
    if let Some(fault) = gates_fault(version, section.elements_at(Key::Gates)) {
        return Some(fault);
    }
    if let Some(fault) = late_fault(version, section) {
        return Some(fault);
    }
    image_fault(section)
}

/// The first fault of the modules' tables.
#[tactic(auto, unfolding(crate::specs::Faults::each_fault))]
fn modules_fault(version: Version, modules: &[Value]) -> Option<BootFault>
    requires { length modules.now ≤ most_modules }
    ensures { result ≡ each_fault Part.Module (λ n. module_fault version) (map view modules.now) }
{
    for (i, module) in modules.iter().enumerate() {
        let fault = module_fault(version, Section::Inner(module));
        if let Some(fault) = placed(Part::Module, i as u32 + 1, fault) {
            return Some(fault);
        }
    }
    None
}

/// The first fault of the harts' tables.
#[tactic(auto, unfolding(crate::specs::Faults::each_fault))]
fn harts_fault(harts: &[Value]) -> Option<BootFault>
    requires { length harts.now ≤ most_harts }
    ensures { result ≡ each_fault Part.Hart (λ n. table_fault hart_rows) (map view harts.now) }
{
    let rows = hart_rows();
    for (i, hart) in harts.iter().enumerate() {
        let fault = table_fault(&rows, Section::Inner(hart));
        if let Some(fault) = placed(Part::Hart, i as u32 + 1, fault) {
            return Some(fault);
        }
    }
    None
}

/// The first fault of the top table.
fn top_fault(version: Version, top: Section) -> Option<KeyFault>
    ensures { result ≡ table_fault (top_rows version) (section_view top.entry) }
{
    table_fault(&top_rows(version), top)
}

/// The first fault of the top table, of the modules' tables, or of the harts' tables.
pub(crate) fn tables_fault(version: Version, top: Section) -> Option<BootFault>
    ensures { result ≡ tables_fault version (section_view top.entry) }
{
    let fault = top_fault(version, top);
    if let Some(fault) = placed(Part::Manifest, 0, fault) {
        return Some(fault);
    }
    let modules = top.elements_at(Key::Module);
    let harts = top.elements_at(Key::Hart);
    if let Some(fault) = modules_fault(version, modules) {
        return Some(fault);
    }
    harts_fault(harts)
}
