//! Steps 2 and 3 of the tests: the names of modules, and the names by which gates and harts mean them.

ghost use Rattle.std.specs.Prelude.{◌≡◌, ◌≤◌, ◌++◌, [], ◌∷◌, List, ℕ, map, length, not, if◌then◌else◌, IfOk, IfErr};
ghost use Rattle.std.specs.Prelude.{OnOk, unwrap_or};
ghost use Rattle.std.specs.List.{list_all, list_any};
ghost use Rattle.std.specs.Str.{bytes_eq};
ghost use Rattle.toml.specs.View.{view};
ghost use Rattle.mx_words.specs.Limits.{most_modules, most_harts};
ghost use Rattle.mx_manifest.specs.Judged.{Tells};
ghost use Rattle.mx_manifest.specs.Reads.{text_at, text_of};
ghost use Rattle.mx_manifest.specs.Faults.{each_fault, module_name, domain_of, repeat_fault, from_texts, is_other};
ghost use Rattle.mx_manifest.specs.Faults.{is_from_others, from_fault, hart_domain, hart_fault, modules, harts};
ghost use Rattle.mx_manifest.specs.Faults.{module_names, names_fault};
ghost use Rattle.mx_manifest.specs.Section.{section_view};

use crate::reading::ManifestFault;
use crate::section::{Section, elements};
use crate::tables::{KeyFault, fault_where, placed};
use crate::{BootFault, Key, Part};
use indexmap::IndexSet;
use mx_words::NoMemory;
use std::alloc::Global;
use std::marker::Model;
use toml::Value;

/// The names of modules, each once, in their order.
#[derive(Drop)]
pub(crate) struct Names<'a> {
    set: IndexSet<&'a str>,
}

impl<'a> Model for Names<'a> {
    ghost Value = { List (List ℕ) };

    ghost view = { λ n. map (λ name. name.now) n.set.keys };
}

impl<'a> Names<'a> {
    fn new(alloc: Global) -> Names<'a>
        ensures { result ≡ [] }
    {
        Names {
            set: IndexSet::new(alloc),
        }
    }

    /// Adds a name at the end. The answer is false where it was there already.
    fn add(&mut self, name: &'a str) -> Result<bool, NoMemory>
        ensures fresh { IfOk result (λ fresh. fresh ≡ not (list_any (bytes_eq name.now) self.old)) }
        ensures added { IfOk result
            (λ fresh. self.new ≡ (if fresh then self.old ++ name.now ∷ [] else self.old)) }
    {
        let fresh = self.set.insert(name)?;
        Ok(fresh)
    }

    /// The number of the module with a name, from 1; 0 where there is none.
    pub fn domain(&self, name: &str) -> u32
        requires { length self.now ≤ most_modules }
        ensures { result ≡ domain_of self.now name.now }
    {
        self.set.get_index_of(name).map_or(0, |i| i as u32 + 1)
    }
}

/// The name of a module.
pub(crate) fn module_name<'a>(section: Section<'a>) -> &'a str
    ensures { result.now ≡ module_name (section_view section.entry) }
{
    section.text_at(Key::Name).unwrap_or("")
}

/// The names of all modules, or fault 7 of the first module that has an earlier module's name.
#[tactic(auto, unfolding(crate::specs::Faults::each_fault))]
fn read_names<'a>(alloc: Global, modules: &'a [Value]) -> Result<Names<'a>, ManifestFault>
    requires { length modules.now ≤ most_modules }
    ensures names { IfOk result (λ names. names ≡ map module_name (map view modules.now)) }
    ensures apart { let names = map module_name (map view modules.now) in
        OnOk result (each_fault Part.Module (repeat_fault names) (map view modules.now) ≡ None) }
    ensures fault { let names = map module_name (map view modules.now) in
        IfErr result (Tells (each_fault Part.Module (repeat_fault names) (map view modules.now))) }
{
    let mut names = Names::new(alloc);
    for (i, module) in modules.iter().enumerate() {
        let Ok(fresh) = names.add(module_name(Section::Inner(module))) else {
            return Err(ManifestFault::NoMemory);
        };
        let repeat = fault_where(!fresh, 7, Key::Name);
        if let Some(fault) = placed(Part::Module, i as u32 + 1, repeat) {
            return Err(ManifestFault::Fault(fault));
        }
    }
    Ok(names)
}

/// The text that a value is; empty for any other value.
pub(crate) fn text_of(value: &Value) -> &str
    ensures { result.now ≡ text_of (view value.now) }
{
    value.as_str().unwrap_or("")
}

/// The elements of a gate's `from`.
pub(crate) fn from_values<'a>(gate: Section<'a>) -> &'a [Value]
    ensures { map text_of (map view result.now) ≡ from_texts (section_view gate.entry) }
{
    match gate.get("from") {
        Some(value) => elements(value),
        None => &[],
    }
}

/// Whether a name is that of a module other than module `n`.
fn is_other(names: &Names, n: u32, name: &str) -> bool
    requires { length names.now ≤ most_modules }
    ensures { result ≡ is_other names.now n name.now }
{
    let domain = names.domain(name);
    domain != 0 && domain != n
}

fn are_others(names: &Names, n: u32, values: &[Value]) -> bool
    requires { length names.now ≤ most_modules }
    ensures { result ≡ list_all (λ v. is_other names.now n (text_of (view v))) values.now }
{
    values
        .iter()
        .all(|value| is_other(names, n, text_of(value)))
}

fn is_from_others(names: &Names, n: u32, gate: Section) -> bool
    requires { length names.now ≤ most_modules }
    ensures { result ≡ is_from_others names.now n (section_view gate.entry) }
{
    are_others(names, n, from_values(gate))
}

fn are_from_others(names: &Names, n: u32, gates: &[Value]) -> bool
    requires { length names.now ≤ most_modules }
    ensures { result ≡ list_all (λ v. is_from_others names.now n (view v)) gates.now }
{
    gates
        .iter()
        .all(|gate| is_from_others(names, n, Section::Inner(gate)))
}

/// Fault 8 of module `n`: a name in `from` is no other module's.
fn from_fault(names: &Names, n: u32, section: Section) -> Option<KeyFault>
    requires { length names.now ≤ most_modules }
    ensures { result ≡ from_fault names.now n (section_view section.entry) }
{
    let all = are_from_others(names, n, section.elements_at(Key::Gates));
    fault_where(!all, 8, Key::Gates)
}

/// The first fault 8 of the modules.
#[tactic(auto, unfolding(crate::specs::Faults::each_fault))]
fn froms_fault(names: &Names, modules: &[Value]) -> Option<BootFault>
    requires few { length modules.now ≤ most_modules }
    requires names { length names.now ≤ most_modules }
    ensures { result ≡ each_fault Part.Module (from_fault names.now) (map view modules.now) }
{
    for (i, module) in modules.iter().enumerate() {
        let n = i as u32 + 1;
        let fault = from_fault(names, n, Section::Inner(module));
        if let Some(fault) = placed(Part::Module, n, fault) {
            return Some(fault);
        }
    }
    None
}

/// The name of a hart's module.
fn home_name<'a>(hart: Section<'a>) -> &'a str
    ensures { result.now ≡ unwrap_or (text_at Key.Module (section_view hart.entry)) [] }
{
    hart.text_at(Key::Module).unwrap_or("")
}

/// The domain that a hart names; 0 where there is none.
pub(crate) fn hart_domain(names: &Names, hart: Section) -> u32
    requires { length names.now ≤ most_modules }
    ensures { result ≡ hart_domain names.now (section_view hart.entry) }
{
    names.domain(home_name(hart))
}

/// The first fault 8 of the harts.
#[tactic(auto, unfolding(crate::specs::Faults::each_fault))]
fn homes_fault(names: &Names, harts: &[Value]) -> Option<BootFault>
    requires few { length harts.now ≤ most_harts }
    requires names { length names.now ≤ most_modules }
    ensures { result ≡ each_fault Part.Hart (λ n. hart_fault names.now) (map view harts.now) }
{
    for (i, hart) in harts.iter().enumerate() {
        let lost = hart_domain(names, Section::Inner(hart)) == 0;
        let fault = fault_where(lost, 8, Key::Module);
        if let Some(fault) = placed(Part::Hart, i as u32 + 1, fault) {
            return Some(fault);
        }
    }
    None
}

/// The names of the modules, where each is one module's and all names in gates and harts are found; else the first
/// fault 7 or 8.
pub(crate) fn resolve_names<'a>(alloc: Global, top: Section<'a>) -> Result<Names<'a>, ManifestFault>
    requires modules { length (modules (section_view top)) ≤ most_modules }
    requires harts { length (harts (section_view top)) ≤ most_harts }
    ensures names { IfOk result (λ names. names ≡ module_names (section_view top.entry)) }
    ensures clear { let top = section_view top.entry in
        OnOk result (names_fault (module_names top) top ≡ None) }
    ensures fault { let top = section_view top.entry in
        IfErr result (Tells (names_fault (module_names top) top)) }
{
    let modules = top.elements_at(Key::Module);
    let names = read_names(alloc, modules)?;
    if let Some(fault) = froms_fault(&names, modules) {
        return Err(ManifestFault::Fault(fault));
    }
    if let Some(fault) = homes_fault(&names, top.elements_at(Key::Hart)) {
        return Err(ManifestFault::Fault(fault));
    }
    Ok(names)
}
