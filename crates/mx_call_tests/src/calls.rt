//! Supervisor calls of a hart that is alone: one that changes rights is announced and takes effect at once.
ghost use Rattle.std.specs.Prelude.{◌≡◌, true, false, []};
ghost use Rattle.mx_words.specs.Announced.{is_announced};
ghost use Rattle.mx_supervisor.specs.Parts.{parts_of};
ghost use Rattle.mx_supervisor.specs.Served.{KeepsSizes};
ghost use Rattle.mx_call_tests.specs.Calls.{IsAtRest};

use mx_model::{Call, Events};
use mx_supervisor::{Answer, Supervisor, is_announced};
use mx_table::PermTables;

/// A call of hart 0 in domain 1, without a frame on its cross stack.
pub fn own_call(number: u32, args: [u32; 4]) -> Call
    ensures { result ≡
        record { number = number; args = args; hart = 0; domain = 1; nested = false } }
{
    Call {
        number,
        args,
        hart: 0,
        domain: 1,
        nested: false,
    }
}

/// Serves a call of a supervisor's only hart. A call that changes rights is announced first; no other hart has to hear
/// it. What
/// stood in `out` is dropped, and the call's console bytes are put there.
pub fn play<T: PermTables, const N: usize>(
    machine: &mut Supervisor<T, N>,
    call: &Call,
    out: &mut Events,
) -> Answer
    requires { IsAtRest call.now.hart call.now.domain (parts_of T.PermTables machine.old) }
    ensures rest { IsAtRest call.now.hart call.now.domain (parts_of T.PermTables machine.new) }
    ensures sizes { KeepsSizes (parts_of T.PermTables machine.old)
        (parts_of T.PermTables machine.new) }
{
    out.clear();
    if is_announced(call.number) {
        play_announced(machine, call, out)
    } else {
        machine.serve(call, out)
    }
}

/// Announces a call and serves it.
fn play_announced<T: PermTables, const N: usize>(
    machine: &mut Supervisor<T, N>,
    call: &Call,
    out: &mut Events,
) -> Answer
    requires rest { IsAtRest call.now.hart call.now.domain (parts_of T.PermTables machine.old) }
    requires announced { is_announced call.now.number ≡ true }
    requires empty { out.old.bytes ≡ [] }
    ensures rest { IsAtRest call.now.hart call.now.domain (parts_of T.PermTables machine.new) }
    ensures sizes { KeepsSizes (parts_of T.PermTables machine.old)
        (parts_of T.PermTables machine.new) }
{
    let (first, count) = machine.announced(call);
    machine.checker.announce(call.hart, first, count);
    machine.serve(call, out)
}
