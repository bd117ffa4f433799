//! Words of RAM as a domain sees them in two machines: compared from run to run, bytes by slices.
ghost use Rattle.std.specs.Prelude.{◌≡◌, ℕ, ◌+◌, ◌-◌, ◌<◌, ◌≤◌, ◌&&◌, ◌||◌, not, length};
ghost use Rattle.std.specs.List.{list_all, range_with_len};
ghost use Rattle.mx_laws.specs.Comparison.{same_word};
ghost use Rattle.mx_model.specs.Reads.{flat_reads};
ghost use Rattle.mx_model.specs.Valid.{IsModule};
ghost use Rattle.mx_any.specs.Machines.{meaning};
ghost use Rattle.mx_touched.specs.Views.{sees_same};
ghost use Rattle.mx_words.specs.declared.perm.Access.TheVariants as A;
ghost use Rattle.mx_words.specs.Rights.{allows, same};
ghost use Rattle.mx_twin.specs.Runs.{IsSeenRun};
ghost use Rattle.mx_twin.specs.Turns.{AreAlike};

use crate::same::same_slices;
use mx_any::{AnyMachine, any_machine_is_valid};
use mx_words::{Access, Perm};

/// Whether the words from `at` up to `end` have the same bytes in both.
fn same_bytes(a: &AnyMachine, b: &AnyMachine, at: u32, end: u32) -> bool
    requires alike { AreAlike (meaning a.now) (meaning b.now) }
    requires some { at ≤ end }
    requires inside { end ≤ (meaning a.now).core.size }
    ensures { result
        ≡ list_all (same_word (meaning a.now).core (meaning b.now).core)
        (range_with_len at (end - at)) }
{
    any_machine_is_valid(a);
    any_machine_is_valid(b);
    let count = end - at;
    same_slices(a.bytes(4 * at, 4 * count), b.bytes(4 * at, 4 * count))
}

/// The permission of a domain on a word, and the end of words from it on that all have it. The next word behind them
/// may have it too.
fn run_at(machine: &AnyMachine, domain: u32, at: u32) -> (Perm, u32)
    requires domain { IsModule (length (meaning machine.now).core.modules) domain }
    requires inside { at < (meaning machine.now).core.size }
    ensures more { at < result.1 }
    ensures alike { (w : ℕ) → at ≤ w → w < result.1 →
        (flat_reads (meaning machine.now)).perm domain w ≡ result.0 }
{
    any_machine_is_valid(machine);
    let span = machine.span(domain, at);
    (span.perm, span.first + span.count)
}

/// The lesser of two numbers.
fn lesser(x: u32, y: u32) -> u32
    ensures first { result ≤ x }
    ensures second { result ≤ y }
    ensures more { (n : ℕ) → n < x → n < y → n < result }
{
    if x < y { x } else { y }
}

/// Whether two permissions are the same, and the words from `at` up to `end` have the same bytes where these allow a
/// read.
fn same_run(a: &AnyMachine, b: &AnyMachine, at: u32, end: u32, one: Perm, other: Perm) -> bool
    requires alike { AreAlike (meaning a.now) (meaning b.now) }
    requires some { at ≤ end }
    requires inside { end ≤ (meaning a.now).core.size }
    ensures { result
        ≡ (same one other && (not (allows one A.Read)
        || list_all (same_word (meaning a.now).core (meaning b.now).core)
        (range_with_len at (end - at)))) }
{
    one == other && (!one.allows(Access::Read) || same_bytes(a, b, at, end))
}

/// The end of words from `at` on, up to `end` at most, that a domain sees alike in both. `None` exactly where it
/// doesn't see all up to
/// `end` alike, and that shows at once.
fn seen_run(a: &AnyMachine, b: &AnyMachine, domain: u32, at: u32, end: u32) -> Option<u32>
    requires alike { AreAlike (meaning a.now) (meaning b.now) }
    requires domain { IsModule (length (meaning a.now).core.modules) domain }
    requires some { at < end }
    requires inside { end ≤ (meaning a.now).core.size }
    ensures { IsSeenRun domain (meaning a.now) (meaning b.now) at end result }
{
    let one = run_at(a, domain, at);
    let other = run_at(b, domain, at);
    let next = lesser(end, lesser(one.1, other.1));
    if same_run(a, b, at, next, one.0, other.0) {
        Some(next)
    } else {
        None
    }
}

/// Whether a domain sees the words from `first` on, `count` of them, alike in both: the same permission on each, and
/// the same bytes
/// where it may read.
pub(crate) fn sees_all(a: &AnyMachine, b: &AnyMachine, domain: u32, first: u32, count: u32) -> bool
    requires alike { AreAlike (meaning a.now) (meaning b.now) }
    requires domain { IsModule (length (meaning a.now).core.modules) domain }
    requires inside { first + count ≤ (meaning a.now).core.size }
    ensures { result ≡ list_all
        (sees_same (flat_reads (meaning a.now)) (meaning a.now).core (flat_reads (meaning b.now))
        (meaning b.now).core domain) (range_with_len first count) }
{
    any_machine_is_valid(a);
    let end = first + count;
    let mut at = first;
    'runs: while at < end {
        match seen_run(a, b, domain, at, end) {
            Some(next) => at = next,
            None => return false,
        }
    }
    true
}
