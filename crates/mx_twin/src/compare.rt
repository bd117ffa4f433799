//! What a domain sees of two machines, compared.
ghost use Rattle.std.specs.Prelude.{◌≡◌, ◌<◌, ◌&&◌, not, length};
ghost use Rattle.mx_model.specs.Reads.{flat_reads};
ghost use Rattle.mx_model.specs.Valid.{IsModule};
ghost use Rattle.mx_any.specs.Machines.{meaning};
ghost use Rattle.mx_touched.specs.Touched.{AreIn};
ghost use Rattle.mx_touched.specs.Views.{same_death, same_views};
ghost use Rattle.mx_touched.specs.Pairs.{fails, flat_agrees, flat_same_touched, is_compared};
ghost use Rattle.mx_twin.specs.Told.{told};
ghost use Rattle.mx_twin.specs.Turns.{AreAlike};

use crate::gates::{same_gates, same_targets};
use crate::harts::{is_compared, same_hart};
use crate::reach::Touched;
use crate::words::sees_all;
use mx_any::{AnyMachine, any_machine_is_valid};

/// Whether a domain is dead in both or in neither.
fn same_death(a: &AnyMachine, b: &AnyMachine, domain: u32) -> bool
    requires alike { AreAlike (meaning a.now) (meaning b.now) }
    requires domain { IsModule (length (meaning a.now).core.modules) domain }
    ensures { result ≡ same_death (meaning a.now).core (meaning b.now).core domain }
{
    if a.dead(domain) {
        b.dead(domain)
    } else {
        !b.dead(domain)
    }
}

/// Whether a domain sees what was touched alike. It lies in RAM.
pub(crate) fn same_touched(a: &AnyMachine, b: &AnyMachine, domain: u32, touched: &Touched) -> bool
    requires alike { AreAlike (meaning a.now) (meaning b.now) }
    requires domain { IsModule (length (meaning a.now).core.modules) domain }
    requires inside { AreIn (meaning a.now).core.size (told touched.now) }
    ensures { result
        ≡ flat_same_touched domain (meaning a.now) (meaning b.now) (told touched.now) }
{
    sees_all(a, b, domain, touched.bytes.first, touched.bytes.count)
        && sees_all(a, b, domain, touched.rights.first, touched.rights.count)
        && same_targets(a, b, domain, touched.gates.first, touched.gates.count)
        && (!touched.death || same_death(a, b, domain))
}

/// Whether a domain sees all alike: its rights, its death, its gates, and the bytes of each word that it may read.
pub(crate) fn same_views(a: &AnyMachine, b: &AnyMachine, domain: u32) -> bool
    requires alike { AreAlike (meaning a.now) (meaning b.now) }
    requires domain { IsModule (length (meaning a.now).core.modules) domain }
    ensures { result
        ≡ same_views (flat_reads (meaning a.now)) (meaning a.now).core
        (flat_reads (meaning b.now)) (meaning b.now).core domain }
{
    sees_all(a, b, domain, 0, a.words()) && same_death(a, b, domain) && same_gates(a, b, domain)
}

/// Whether two machines agree for a hart.
fn agrees(a: &AnyMachine, b: &AnyMachine, hart: u32) -> bool
    requires alike { AreAlike (meaning a.now) (meaning b.now) }
    requires hart { hart < length (meaning a.now).core.harts }
    ensures { result ≡ flat_agrees (meaning a.now) (meaning b.now) hart }
{
    any_machine_is_valid(a);
    any_machine_is_valid(b);
    same_hart(a, b, hart) && same_views(a, b, a.hart(hart).domain)
}

/// Whether a hart is compared and the machines don't agree for it.
fn differs(a: &AnyMachine, b: &AnyMachine, domain: u32, hart: u32) -> bool
    requires alike { AreAlike (meaning a.now) (meaning b.now) }
    requires hart { hart < length (meaning a.now).core.harts }
    ensures { result
        ≡ (is_compared domain (meaning a.now) (meaning b.now) hart
        && not (flat_agrees (meaning a.now) (meaning b.now) hart)) }
{
    is_compared(a, b, domain, hart) && !agrees(a, b, hart)
}

/// Whether agreement fails for a domain: for some hart that in either machine isn't halted and is in it.
pub(crate) fn fails(a: &AnyMachine, b: &AnyMachine, domain: u32) -> bool
    requires { AreAlike (meaning a.now) (meaning b.now) }
    ensures { result ≡ fails domain (meaning a.now) (meaning b.now) }
{
    for hart in 0..a.harts() {
        if differs(a, b, domain, hart) {
            return true;
        }
    }
    false
}
