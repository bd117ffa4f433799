//! The plan of a manifest without a fault.

ghost use Rattle.std.specs.Prelude.{◌≡◌, ◌≤◌, map, length, option_map, option_copied, unwrap_or, option_and_then};
ghost use Rattle.std.specs.Prelude.{codes, false, IfOk, IfSome};
ghost use Rattle.std.specs.Option.{option_map_or};
ghost use Rattle.std.specs.Str.{bytes_eq};
ghost use Rattle.toml.specs.Data.{as_bool};
ghost use Rattle.toml.specs.View.{view};
ghost use Rattle.mx_words.specs.Limits.{most_modules, most_gates, most_inline_words};
ghost use Rattle.mx_manifest.specs.Reads.{value_at, number_of, number_at, text_at, text_of};
ghost use Rattle.mx_manifest.specs.Faults.{domain_of, version_of, module_names};
ghost use Rattle.mx_manifest.specs.InRange.{Each, IsInRange};
ghost use Rattle.mx_manifest.specs.Short.{HasShortLists};
ghost use Rattle.mx_manifest.specs.Plan.{kind_named, perm_named, input_plan, entry_plan, gate_plan, word_list};
ghost use Rattle.mx_manifest.specs.Plan.{module_plan, hart_plan, version_number, plan_of};
ghost use Rattle.mx_manifest.specs.Section.{section_view};

use crate::names::{Names, from_values, hart_domain, module_name, text_of};
use crate::row::Version;
use crate::section::{Section, elements, number_of};
use crate::{
    Entries, EntryPlan, GatePlan, GatePlans, HartPlan, InputPlan, Key, ModulePlan, Numbers, Plan,
    Text,
};
use mx_words::{Kind, NoMemory, Perm};
use std::alloc::Global;
use toml::Value;

fn kind_named(text: &str) -> Kind
    ensures { result ≡ kind_named text.now }
{
    if text == "segments" {
        Kind::Segments
    } else if text == "multilevel" {
        Kind::Multilevel
    } else {
        Kind::Packed
    }
}

fn perm_named(text: &str) -> Perm
    ensures { result ≡ perm_named text.now }
{
    if text == "rw" {
        Perm::ReadWrite
    } else if text == "rx" {
        Perm::ExecuteRead
    } else {
        Perm::Read
    }
}

fn perm_at(table: Section, key: Key) -> Option<Perm>
    ensures { result ≡ option_map perm_named (text_at key (section_view table.entry)) }
{
    table.text_at(key).map(perm_named)
}

fn number_or(table: Section, key: Key, default: u32) -> u32
    ensures { result ≡ unwrap_or (number_at key (section_view table.entry)) default }
{
    table.number_at(key).unwrap_or(default)
}

fn copy_text(alloc: Global, table: Section, key: Key) -> Result<Option<Text>, NoMemory>
    ensures { IfOk result (λ text. text ≡ text_at key (section_view table.entry)) }
{
    match table.text_at(key) {
        Some(text) => Ok(Some(Text::new(alloc, text)?)),
        None => Ok(None),
    }
}

fn entry_plan(alloc: Global, value: &Value) -> Result<EntryPlan, NoMemory>
    ensures { IfOk result (λ entry. entry ≡ entry_plan (view value.now)) }
{
    match value.as_str() {
        Some(text) => Ok(EntryPlan::Symbol(Text::new(alloc, text)?)),
        None => match number_of(value) {
            Some(address) => Ok(EntryPlan::Address(address)),
            None => Ok(EntryPlan::Address(0)),
        },
    }
}

fn entries(alloc: Global, values: &[Value]) -> Result<Entries, NoMemory>
    requires { length values.now ≤ most_gates }
    ensures { IfOk result (λ entries. entries ≡ map entry_plan (map view values.now)) }
{
    let mut entries = Vec::new(alloc);
    for value in values {
        entries.push(entry_plan(alloc, value)?)?;
    }
    Ok(Entries::new(entries))
}

fn word(value: &Value) -> u32
    ensures { result ≡ unwrap_or (number_of (view value.now)) 0 }
{
    number_of(value).unwrap_or(0)
}

fn words(alloc: Global, section: Section) -> Result<Option<Numbers>, NoMemory>
    requires { IfSome (option_map word_list (value_at Key.Words (section_view section)))
        (λ words. length words ≤ most_inline_words) }
    ensures { IfOk result
        (λ words. words ≡ option_map word_list (value_at Key.Words (section_view section.entry))) }
{
    match section.value_at(Key::Words) {
        Some(value) => Ok(Some(word_list(alloc, elements(value))?)),
        None => Ok(None),
    }
}

fn word_list(alloc: Global, values: &[Value]) -> Result<Numbers, NoMemory>
    requires { length values.now ≤ most_inline_words }
    ensures { IfOk result
        (λ words. words ≡ map (λ word. unwrap_or (number_of word) 0) (map view values.now)) }
{
    let words: Vec<u32> = values.iter().map(|value| word(value)).collect(alloc)?;
    Ok(Numbers::new(words))
}

fn domains(alloc: Global, names: &Names, values: &[Value]) -> Result<Numbers, NoMemory>
    requires names { length names.now ≤ most_modules }
    requires few { length values.now ≤ most_inline_words }
    ensures { IfOk result
        (λ domains. domains ≡ map (domain_of names.now) (map text_of (map view values.now))) }
{
    let domains: Vec<u32> = values
        .iter()
        .map(|value| names.domain(text_of(value)))
        .collect(alloc)?;
    Ok(Numbers::new(domains))
}

fn gate_plan(alloc: Global, names: &Names, gate: Section) -> Result<GatePlan, NoMemory>
    requires names { length names.now ≤ most_modules }
    requires few { length (gate_plan names.now (section_view gate)).from ≤ most_inline_words }
    ensures { IfOk result (λ plan. plan ≡ gate_plan names.now (section_view gate.entry)) }
{
    let entry = match gate.value_at(Key::Entry) {
        Some(value) => entry_plan(alloc, value)?,
        None => EntryPlan::Address(0),
    };
    let from = domains(alloc, names, from_values(gate))?;
    Ok(GatePlan { entry, from })
}

fn gate_plans(alloc: Global, names: &Names, gates: &[Value]) -> Result<GatePlans, NoMemory>
    requires names { length names.now ≤ most_modules }
    requires few { length gates.now ≤ most_gates }
    requires froms { Each (λ gate. length gate.from ≤ most_inline_words)
        (map (gate_plan names.now) (map view gates.now)) }
    ensures { IfOk result (λ plans. plans ≡ map (gate_plan names.now) (map view gates.now)) }
{
    let mut plans = Vec::new(alloc);
    for gate in gates {
        let plan = gate_plan(alloc, names, Section::Inner(gate))?;
        plans.push(plan)?;
    }
    Ok(GatePlans::new(plans))
}

fn kills(section: Section) -> bool
    ensures { result
        ≡ option_map_or (bytes_eq (codes "kill")) (text_at Key.OnFault (section_view section.entry))
        false }
{
    section
        .text_at(Key::OnFault)
        .is_some_and(|text| text == "kill")
}

fn is_sealed(section: Section) -> bool
    ensures { result
        ≡ unwrap_or (option_and_then as_bool (value_at Key.Seal (section_view section.entry)))
        false }
{
    section
        .value_at(Key::Seal)
        .and_then(Value::as_bool)
        .unwrap_or(false)
}

/// A module's input, where it has one.
fn input_plan(alloc: Global, section: Section) -> Result<Option<InputPlan>, NoMemory>
    ensures { IfOk result (λ input. input ≡ input_plan (section_view section.entry)) }
{
    match section.text_at(Key::Input) {
        Some(file) => Ok(Some(InputPlan {
            file: Text::new(alloc, file)?,
            address: number_or(section, Key::InputAt, 0),
            words: number_or(section, Key::InputWords, 0),
            perm: perm_at(section, Key::InputPerm).unwrap_or(Perm::Read),
        })),
        None => Ok(None),
    }
}

fn module_plan(alloc: Global, names: &Names, section: Section) -> Result<ModulePlan, NoMemory>
    requires names { length names.now ≤ most_modules }
    requires short { HasShortLists (module_plan names.now (section_view section)) }
    ensures { IfOk result (λ plan. plan ≡ module_plan names.now (section_view section.entry)) }
{
    let name = Text::new(alloc, module_name(section))?;
    let image = copy_text(alloc, section, Key::Image)?;
    let words = words(alloc, section)?;
    let gates = gate_plans(alloc, names, section.elements_at(Key::Gates))?;
    let returns = entries(alloc, section.elements_at(Key::Returns))?;
    let input = input_plan(alloc, section)?;
    Ok(ModulePlan {
        name,
        image,
        at: section.number_at(Key::At),
        perm: perm_at(section, Key::Perm),
        words,
        wx: perm_at(section, Key::Wx),
        heap: section.number_at(Key::Heap),
        heap_words: section.number_at(Key::HeapWords),
        stack: section.number_at(Key::Stack),
        stack_words: section.number_at(Key::StackWords),
        gates,
        returns,
        kills: kills(section),
        seal: is_sealed(section),
        input,
    })
}

fn module_plans(
    alloc: Global,
    names: &Names,
    modules: &[Value],
) -> Result<Vec<ModulePlan>, NoMemory>
    requires names { length names.now ≤ most_modules }
    requires short { Each HasShortLists (map (module_plan names.now) (map view modules.now)) }
    ensures { IfOk result
        (λ plans. plans.items ≡ map (module_plan names.now) (map view modules.now)) }
{
    let mut plans = Vec::new(alloc);
    for module in modules {
        let plan = module_plan(alloc, names, Section::Inner(module))?;
        plans.push(plan)?;
    }
    Ok(plans)
}

fn hart_plan(alloc: Global, names: &Names, hart: Section) -> Result<HartPlan, NoMemory>
    requires { length names.now ≤ most_modules }
    ensures { IfOk result (λ plan. plan ≡ hart_plan names.now (section_view hart.entry)) }
{
    let entry = match hart.value_at(Key::Entry) {
        Some(value) => Some(entry_plan(alloc, value)?),
        None => None,
    };
    let module = hart_domain(names, hart);
    Ok(HartPlan { module, entry })
}

fn hart_plans(alloc: Global, names: &Names, harts: &[Value]) -> Result<Vec<HartPlan>, NoMemory>
    requires { length names.now ≤ most_modules }
    ensures { IfOk result (λ plans. plans.items ≡ map (hart_plan names.now) (map view harts.now)) }
{
    let mut plans = Vec::new(alloc);
    for hart in harts {
        let plan = hart_plan(alloc, names, Section::Inner(hart))?;
        plans.push(plan)?;
    }
    Ok(plans)
}

fn version_number(version: Version) -> u32
    ensures { result ≡ version_number version }
{
    match version {
        Version::One => 1,
        Version::Two => 2,
    }
}

fn kind_at(top: Section) -> Kind
    ensures { result
        ≡ option_map_or kind_named (text_at Key.Tables (section_view top.entry)) Kind.Packed }
{
    top.text_at(Key::Tables).map_or(Kind::Packed, kind_named)
}

/// The plan of a manifest whose version and names are known.
pub(crate) fn plan_of(
    alloc: Global,
    version: Version,
    names: &Names,
    top: Section,
) -> Result<Plan, NoMemory>
    requires version { version ≡ version_of (section_view top) }
    requires names { names.now ≡ module_names (section_view top) }
    requires few { length names.now ≤ most_modules }
    requires in_range { IsInRange (plan_of (section_view top)) }
    ensures { IfOk result (λ plan. plan ≡ plan_of (section_view top.entry)) }
{
    let modules = module_plans(alloc, names, top.elements_at(Key::Module))?;
    let harts = hart_plans(alloc, names, top.elements_at(Key::Hart))?;
    Ok(Plan {
        version: version_number(version),
        ram_kib: number_or(top, Key::RamKib, 64),
        tables: kind_at(top),
        upper: number_or(top, Key::Upper, 128),
        leaf: number_or(top, Key::Leaf, 4096),
        spill: number_or(top, Key::Spill, 4096),
        lookaside: number_or(top, Key::Lookaside, 32),
        quantum: number_or(top, Key::Quantum, 1),
        modules,
        harts,
    })
}
