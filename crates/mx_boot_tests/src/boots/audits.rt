//! Audits of machines at boot and after some turns. Expected reports are written by hand from the rules.

use super::{IN_M, THREE, booted, turn};
use crate::layouts::{File, manifest};
use mx_audit::{audit, write_audit};
use mx_boot::{AnyMachine, BootRefused};
use mx_io::Bytes;
use mx_model::Events;
use std::alloc::Global;
use std::test::Fail;

/// Two modules, each with a gate into the other: a jump to the other's gate, and EBREAK.
const CIRCLE: &str = "[[module]]
name = \"a\"
at = 0x80000000
perm = \"rx\"
words = [0x800012B7, 0x000280E7, 0x00100073]
gates = [{ entry = 0x80000000, from = [\"b\"] }]
[[module]]
name = \"b\"
at = 0x80001000
perm = \"rx\"
words = [0x800002B7, 0x000280E7, 0x00100073]
gates = [{ entry = 0x80001000, from = [\"a\"] }]
";

const IN_A: &str = "[[hart]]\nmodule = \"a\"\n";

/// The same without the gate back.
const CROSSED: &str = "[[module]]
name = \"a\"
at = 0x80000000
perm = \"rx\"
words = [0x800012B7, 0x000280E7, 0x00100073]
[[module]]
name = \"b\"
at = 0x80001000
perm = \"rx\"
words = [0x00100073]
gates = [{ entry = 0x80001000, from = [\"a\"] }]
";

/// Gates from the last module into the second and from there into the first, which stands first in the list of gates;
/// and gates of
/// two modules to which none leads.
const CHAIN: &str = "[[module]]
name = \"end\"
at = 0x80000000
perm = \"rw\"
words = [0]
gates = [{ entry = 0x80000000, from = [\"middle\"] }]
[[module]]
name = \"middle\"
at = 0x80000008
perm = \"rx\"
words = [0]
gates = [{ entry = 0x80000008, from = [\"a\", \"apart\"] }]
[[module]]
name = \"apart\"
at = 0x80000010
perm = \"rw\"
words = [0, 0]
gates = [{ entry = 0x80000010, from = [\"behind\"] }]
[[module]]
name = \"behind\"
at = 0x80000018
perm = \"rx\"
words = [0]
gates = [{ entry = 0x80000018, from = [\"apart\"] }]
[[module]]
name = \"a\"
at = 0x8000001C
perm = \"r\"
words = [0]
";

/// Modules, harts, the turns of hart 0, the names, and the report of the audit then.
static CASES: [(&str, &str, u32, &[&str], &str); 6] = [
    (
        THREE,
        IN_M,
        0,
        &["m"],
        "live 1 m\nsealed 0x8000000c 0x80010000\nsealed words=16381\n",
    ),
    // The same after its exit: a halted hart still has its domain.
    (
        THREE,
        IN_M,
        3,
        &["m"],
        "live 1 m\nsealed 0x8000000c 0x80010000\nsealed words=16381\n",
    ),
    (
        CIRCLE,
        IN_A,
        0,
        &["a", "b"],
        "live 1 a\nlive 2 b\nsealed 0x8000000c 0x80001000\nsealed 0x8000100c 0x80010000\nsealed words=16378\n",
    ),
    // In the second module, from which a frame leads back.
    (
        CROSSED,
        IN_A,
        3,
        &["a", "b"],
        "live 1 a\nlive 2 b\nsealed 0x8000000c 0x80001000\nsealed 0x80001004 0x80010000\nsealed words=16380\n",
    ),
    // There from the start, with no way back.
    (
        CROSSED,
        "[[hart]]\nmodule = \"b\"\n",
        0,
        &["a", "b"],
        "live 2 b\nsealed 0x80000000 0x80001000\nsealed 0x80001004 0x80010000\nsealed words=16383\n",
    ),
    (
        CHAIN,
        IN_A,
        0,
        &["end", "middle", "apart", "behind", "a"],
        "live 1 end\nlive 2 middle\nlive 5 a\nsealed 0x80000004 0x80000008\nsealed 0x8000000c 0x8000001c\nsealed 0x80000020 0x80010000\nsealed words=16381\n",
    ),
];

/// The report of the audit of a machine after so many turns of hart 0.
fn report(alloc: Global, machine: &mut AnyMachine, turns: u32, names: &[&str]) -> Option<Bytes> {
    let mut out = Events::new();
    for _ in 0..turns {
        turn(machine, 0, &mut out);
    }
    let found = audit(alloc, machine).ok()?;
    let mut sink = Bytes::new(alloc, 4096).ok()?;
    write_audit(&mut sink, &found, names).ok()?;
    Some(sink)
}

/// The same of the machine of a text, or why it boots none.
fn reported(
    alloc: Global,
    text: &str,
    turns: u32,
    names: &[&str],
) -> Result<Option<Bytes>, BootRefused> {
    match booted(
        alloc,
        text,
        &[File::None, File::None, File::None, File::None, File::None],
    ) {
        Ok(mut machine) => {
            let told = report(alloc, &mut machine, turns, names);
            machine.end();
            Ok(told)
        }
        Err(refused) => Err(refused),
    }
}

fn is_reported(alloc: Global, text: &str, turns: u32, names: &[&str], want: &str) -> bool {
    match reported(alloc, text, turns, names) {
        Ok(Some(sink)) => sink.as_slice() == want.as_bytes(),
        _ => false,
    }
}

#[test]
fn an_audit_tells_live_domains_and_sealed_words(rt: HostRuntime) -> Result<(), Fail> {
    for (modules, harts, turns, names, want) in &CASES {
        let text = manifest(rt.alloc(), modules, harts)?;
        let told = is_reported(rt.alloc(), text.as_str(), *turns, names, want);
        assert!(rt; told, "{modules} {turns}");
    }
    Ok(())
}

#[test]
fn all_words_of_a_sealed_module_are_sealed(rt: HostRuntime) -> Result<(), Fail> {
    let module = format!(in rt.alloc(); "{THREE}seal = true\n")?;
    let text = manifest(rt.alloc(), module.as_str(), IN_M)?;
    let told = is_reported(
        rt.alloc(),
        text.as_str(),
        0,
        &["m"],
        "live 1 m\nsealed 0x80000000 0x80010000\nsealed words=16384\n",
    );
    assert!(rt; told);
    Ok(())
}
