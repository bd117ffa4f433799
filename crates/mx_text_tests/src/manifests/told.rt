//! What a plan tells.

use super::judge;
use crate::checks::same;
use mx_manifest::{
    Entries, EntryPlan, GatePlans, HartPlan, ManifestFault, ModulePlan, Numbers, Plan, Text,
};
use mx_plan::read_plan;
use std::alloc::Global;
use std::fmt;
use std::fmt::{Formatter, InlineText};

/// A manifest in which each key stands.
const WHOLE: &str = "version = 2
ram_kib = 1024
tables = \"segments\"
upper = 1
leaf = 2
spill = 3
lookaside = 8
quantum = 4

[[module]]
name = \"a\"
image = \"a.elf\"
wx = \"rx\"
heap = 0x80040000
heap_words = 5
stack = 0x80050000
stack_words = 6
gates = [{ entry = \"receive\", from = [\"b\", \"c\"] }, { entry = 0x80000010, from = [\"c\"] }]
returns = [\"back\", 8]
on_fault = \"kill\"
seal = true
input = \"a.in\"
input_at = 0x80060000
input_words = 7
input_perm = \"rw\"

[[module]]
name = \"b\"
at = 0x80001000
perm = \"rw\"
words = [1, 2, 3]
input = \"b.in\"
input_at = 0x80002000
input_words = 1

[[module]]
name = \"c\"
image = \"c.elf\"

[[hart]]
module = \"c\"

[[hart]]
module = \"a\"
entry = \"idle\"
";

/// What a plan says, shown as text.
#[derive(Clone, Copy)]
struct Told<'a>(&'a Plan);

impl<'a> fmt::Display for Told<'a> {
    fn fmt<W: fmt::Write>(&self, f: &mut Formatter<W>) -> fmt::Result {
        let plan = self.0;
        show_top(f, plan)?;
        for i in 0..plan.modules() {
            show_module(f, plan.module(i))?;
        }
        for i in 0..plan.harts() {
            show_hart(f, plan.hart(i))?;
        }
        Ok(())
    }
}

/// Values, each after a space.
fn show_all<W: fmt::Write, T: fmt::Debug + Copy>(
    f: &mut Formatter<W>,
    values: &[T],
) -> fmt::Result {
    for value in values {
        write!(f, " {value:?}")?;
    }
    Ok(())
}

fn show_top<W: fmt::Write>(f: &mut Formatter<W>, plan: &Plan) -> fmt::Result {
    let version = plan.version();
    write!(f, "{version}")?;
    show_all(f, &[plan.ram_kib()])?;
    show_all(f, &[plan.tables()])?;
    show_all(f, &[plan.upper(), plan.leaf(), plan.spill()])?;
    show_all(f, &[plan.lookaside(), plan.quantum()])?;
    f.write_str("\n")
}

fn show_module<W: fmt::Write>(f: &mut Formatter<W>, module: &ModulePlan) -> fmt::Result {
    show_source(f, module)?;
    show_areas(f, module)?;
    show_gates(f, &module.gates)?;
    show_returns(f, &module.returns)
}

/// A module's name, and from where its words come.
fn show_source<W: fmt::Write>(f: &mut Formatter<W>, module: &ModulePlan) -> fmt::Result {
    let image = match &module.image {
        Some(image) => image.as_str(),
        None => "-",
    };
    f.write_str("module ")?;
    f.write_str(module.name.as_str())?;
    f.write_str(" ")?;
    f.write_str(image)?;
    show_all(f, &[module.at])?;
    show_all(f, &[module.perm])?;
    show_all(f, &[module.wx])?;
    show_words(f, module)
}

fn show_words<W: fmt::Write>(f: &mut Formatter<W>, module: &ModulePlan) -> fmt::Result {
    match &module.words {
        Some(words) => show_numbers(f, words)?,
        None => f.write_str(" -")?,
    }
    f.write_str("\n")
}

fn show_areas<W: fmt::Write>(f: &mut Formatter<W>, module: &ModulePlan) -> fmt::Result {
    let heap = module.heap;
    write!(f, "{heap:?}")?;
    show_all(f, &[module.heap_words, module.stack, module.stack_words])?;
    show_all(f, &[module.kills, module.seal])?;
    show_input(f, module)
}

fn show_input<W: fmt::Write>(f: &mut Formatter<W>, module: &ModulePlan) -> fmt::Result {
    match &module.input {
        Some(input) => {
            f.write_str(" ")?;
            f.write_str(input.file.as_str())?;
            show_all(f, &[input.address, input.words])?;
            show_all(f, &[input.perm])?;
        }
        None => f.write_str(" -")?,
    }
    f.write_str("\n")
}

fn show_numbers<W: fmt::Write>(f: &mut Formatter<W>, numbers: &Numbers) -> fmt::Result {
    for i in 0..numbers.len() {
        let number = numbers.get(i);
        write!(f, " {number}")?;
    }
    Ok(())
}

fn show_entry<W: fmt::Write>(f: &mut Formatter<W>, entry: &EntryPlan) -> fmt::Result {
    match entry {
        EntryPlan::Symbol(name) => f.write_str(name.as_str()),
        EntryPlan::Address(address) => write!(f, "{address}"),
    }
}

fn show_gates<W: fmt::Write>(f: &mut Formatter<W>, gates: &GatePlans) -> fmt::Result {
    for i in 0..gates.len() {
        let gate = gates.get(i);
        f.write_str("gate ")?;
        show_entry(f, &gate.entry)?;
        f.write_str(" from")?;
        show_numbers(f, &gate.from)?;
        f.write_str("\n")?;
    }
    Ok(())
}

fn show_returns<W: fmt::Write>(f: &mut Formatter<W>, returns: &Entries) -> fmt::Result {
    for i in 0..returns.len() {
        f.write_str("return ")?;
        show_entry(f, returns.get(i))?;
        f.write_str("\n")?;
    }
    Ok(())
}

fn show_hart<W: fmt::Write>(f: &mut Formatter<W>, hart: &HartPlan) -> fmt::Result {
    let module = hart.module;
    write!(f, "hart {module} ")?;
    match &hart.entry {
        Some(entry) => show_entry(f, entry)?,
        None => f.write_str("-")?,
    }
    f.write_str("\n")
}

/// What `WHOLE` says: domains are numbered from 1, and addresses are decimal.
const SAID: &str = "2 1024 Segments 1 2 3 8 4
module a a.elf None None Some(ExecuteRead) -
Some(2147745792) Some(5) Some(2147811328) Some(6) true true a.in 2147876864 7 ReadWrite
gate receive from 2 3
gate 2147483664 from 3
return back
return 8
module b - Some(2147487744) Some(ReadWrite) None 1 2 3
None None None None false false b.in 2147491840 1 Read
module c c.elf None None None -
None None None None false false -
hart 3 -
hart 1 idle
";

/// What a plan says.
fn plan_text(plan: Result<Plan, ManifestFault>) -> InlineText<1024> {
    match plan {
        Ok(plan) => InlineText::of(Told(&plan)),
        Err(_) => InlineText::of("refused"),
    }
}

#[test]
fn tells_what_each_key_says(rt: HostRuntime) {
    let said = plan_text(judge(rt.alloc(), &[WHOLE]));
    same(&rt, "the whole", said.as_str(), SAID);
}

#[test]
fn tells_what_the_bytes_of_a_file_say(rt: HostRuntime) {
    let said = plan_text(read_plan(rt.alloc(), WHOLE.as_bytes()));
    same(&rt, "the whole", said.as_str(), SAID);
}

/// What a copy of a text says.
fn copy_text(alloc: Global, text: &str) -> InlineText<32> {
    match Text::new(alloc, text) {
        Ok(copy) => InlineText::of(copy.as_str()),
        Err(_) => InlineText::of("refused"),
    }
}

#[test]
fn a_copy_of_a_text_says_the_same(rt: HostRuntime) {
    let said = copy_text(rt.alloc(), "m_2");
    same(&rt, "a name", said.as_str(), "m_2");
}
