//! Harts of two machines: which are compared for a domain, and whether one is the same in both.
ghost use Rattle.std.specs.Prelude.{◌≡◌, ◌<◌, length};
ghost use Rattle.mx_model.specs.State.{hart_at};
ghost use Rattle.mx_any.specs.Machines.{meaning};
ghost use Rattle.mx_touched.specs.Pairs.{any_compared, is_compared, is_inside};
ghost use Rattle.mx_touched.specs.Views.{same_hart};
ghost use Rattle.mx_twin.specs.Turns.{AreAlike};

use crate::same::{same_regs, same_status};
use mx_any::AnyMachine;
use mx_machine::HartStatus;

/// Whether a hart isn't halted and is in a domain.
fn is_inside(machine: &AnyMachine, domain: u32, hart: u32) -> bool
    requires { hart < length (meaning machine.now).core.harts }
    ensures { result ≡ is_inside domain (hart_at (meaning machine.now).core hart) }
{
    let view = machine.hart(hart);
    match view.status {
        HartStatus::Halted => false,
        _ => view.domain == domain,
    }
}

/// Whether a hart is compared for a domain: whether it is so in either machine.
pub(crate) fn is_compared(a: &AnyMachine, b: &AnyMachine, domain: u32, hart: u32) -> bool
    requires alike { AreAlike (meaning a.now) (meaning b.now) }
    requires hart { hart < length (meaning a.now).core.harts }
    ensures { result ≡ is_compared domain (meaning a.now) (meaning b.now) hart }
{
    is_inside(a, domain, hart) || is_inside(b, domain, hart)
}

/// Whether any hart is compared.
pub(crate) fn any_compared(a: &AnyMachine, b: &AnyMachine, domain: u32) -> bool
    requires { AreAlike (meaning a.now) (meaning b.now) }
    ensures { result ≡ any_compared domain (meaning a.now) (meaning b.now) }
{
    for hart in 0..a.harts() {
        if is_compared(a, b, domain, hart) {
            return true;
        }
    }
    false
}

/// Whether a hart has the same standing, pc, registers and domain in both.
pub(crate) fn same_hart(a: &AnyMachine, b: &AnyMachine, hart: u32) -> bool
    requires alike { AreAlike (meaning a.now) (meaning b.now) }
    requires hart { hart < length (meaning a.now).core.harts }
    ensures { result
        ≡ same_hart (hart_at (meaning a.now).core hart) (hart_at (meaning b.now).core hart) }
{
    let x = a.hart(hart);
    let y = b.hart(hart);
    same_status(x.status, y.status)
        && x.pc == y.pc
        && same_regs(&x.regs, &y.regs)
        && x.domain == y.domain
}
