//! Runs of a checker over any tables, step by step.
ghost use Rattle.std.specs.Prelude.{◌≡◌, ℕ, ◌≤◌, length, true, Some, None};
ghost use Rattle.mx_check.specs.Calls.{is_ready};
ghost use Rattle.mx_check.specs.Conditions.{MayLook};
ghost use Rattle.mx_table.specs.Change.{IsLawful};
ghost use Rattle.mx_table_tests.specs.Revoke.{called, IsReader};

use mx_check::{Checker, Counts};
use mx_table::{Change, PermTables};
use mx_words::{Access, MOST_DOMAINS, Perm, RAM_BASE};

/// A check of word 0 by hart 0 at place 5 in a domain, which the hart then leaves.
fn visit<T: PermTables, const N: usize>(
    checker: &mut Checker<T, N>,
    domain: u32,
    access: Access,
) -> bool
    requires free { (d : ℕ) → MayLook 0 d checker.old.harts }
    requires two { length (T.maps checker.old.tables) ≡ 2 }
    requires first { 1 ≤ domain }
    requires last { domain ≤ 2 }
    ensures free { (d : ℕ) → MayLook 0 d checker.new.harts }
    ensures two { length (T.maps checker.new.tables) ≡ 2 }
{
    let answer = checker.may(0, 5, domain, RAM_BASE, access);
    checker.leave_domain(0);
    answer
}

/// What hart 0 finds at place 5 for word 0: domain 1 may not write it, domain 2 may write it, and domain 1 may read it
/// and not write it. Then the hart's counts.
pub fn visits<T: PermTables, const N: usize>(checker: &mut Checker<T, N>) -> ([bool; 4], Counts)
    requires free { (d : ℕ) → MayLook 0 d checker.old.harts }
    requires two { length (T.maps checker.old.tables) ≡ 2 }
{
    let first = visit(checker, 1, Access::Write);
    let second = visit(checker, 2, Access::Write);
    let third = checker.may(0, 5, 1, RAM_BASE, Access::Read);
    let fourth = checker.may(0, 5, 1, RAM_BASE, Access::Write);
    ([first, second, third, fourth], checker.counts(0))
}

/// None on words 1024 to 1027 for domain 2.
pub fn withdrawal() -> Change
    ensures lawful { IsLawful result 16384 2 }
    ensures first { result.first ≡ 1024 }
    ensures count { result.count ≡ 4 }
{
    let mut perms = [None; MOST_DOMAINS];
    perms[2] = Some(Perm::None);
    Change {
        first: 1024,
        count: 4,
        perms,
    }
}

/// Hart 1 hears every call in flight.
fn listen<T: PermTables, const N: usize>(checker: &mut Checker<T, N>)
    requires reader { IsReader checker.old.harts }
    ensures reader { IsReader checker.new.harts }
    ensures may { MayLook 1 2 checker.new.harts }
    ensures same_call { called checker.new.harts ≡ called checker.old.harts }
    ensures same_tables { checker.new.tables ≡ checker.old.tables }
{
    checker.hear(1);
}

/// Whether domain 2 may read word 1024, as hart 1 finds at place 5, and hart 1's counts then.
fn look<T: PermTables, const N: usize>(checker: &mut Checker<T, N>) -> (bool, Counts)
    requires reader { IsReader checker.old.harts }
    requires may { MayLook 1 2 checker.old.harts }
    requires two { length (T.maps checker.old.tables) ≡ 2 }
    ensures reader { IsReader checker.new.harts }
    ensures may { MayLook 1 2 checker.new.harts }
    ensures same_call { called checker.new.harts ≡ called checker.old.harts }
    ensures two { length (T.maps checker.new.tables) ≡ 2 }
    ensures same_size { T.size checker.new.tables ≡ T.size checker.old.tables }
{
    let answer = checker.may(1, 5, 2, RAM_BASE + 4096, Access::Read);
    (answer, checker.counts(1))
}

/// Hart 0 announces a call on words 1024 to 1027.
fn call<T: PermTables, const N: usize>(checker: &mut Checker<T, N>)
    requires reader { IsReader checker.old.harts }
    requires none { called checker.old.harts ≡ None }
    requires size { T.size checker.old.tables ≡ 16384 }
    ensures reader { IsReader checker.new.harts }
    ensures range { called checker.new.harts ≡ Some (1024, 4) }
    ensures same_tables { checker.new.tables ≡ checker.old.tables }
{
    checker.announce(0, 1024, 4);
}

/// The ready call of hart 0 withdraws domain 2's rights on its words and ends. The answer is whether the tables had
/// room.
fn withdraw<T: PermTables, const N: usize>(checker: &mut Checker<T, N>) -> bool
    requires reader { IsReader checker.old.harts }
    requires may { MayLook 1 2 checker.old.harts }
    requires range { called checker.old.harts ≡ Some (1024, 4) }
    requires ready { is_ready 0 checker.old.harts ≡ true }
    requires size { T.size checker.old.tables ≡ 16384 }
    requires two { length (T.maps checker.old.tables) ≡ 2 }
    ensures reader { IsReader checker.new.harts }
    ensures may { MayLook 1 2 checker.new.harts }
    ensures two { length (T.maps checker.new.tables) ≡ 2 }
{
    let change = withdrawal();
    match checker.change(0, &change) {
        Ok(()) => {
            checker.finish(0);
            true
        }
        Err(_) => false,
    }
}

/// What hart 1 finds at five checks of word 1024, and its counts after each: before hart 0's call is announced, twice
/// while it is in flight and heard, and twice after hart 0 withdrew the right. `None` where the call isn't ready or
/// the tables have no room.
pub fn withdrawn<T: PermTables, const N: usize>(
    checker: &mut Checker<T, N>,
) -> Option<[(bool, Counts); 5]>
    requires reader { IsReader checker.old.harts }
    requires none { called checker.old.harts ≡ None }
    requires size { T.size checker.old.tables ≡ 16384 }
    requires two { length (T.maps checker.old.tables) ≡ 2 }
{
    listen(checker);
    let first = look(checker);
    call(checker);
    listen(checker);
    let second = look(checker);
    listen(checker);
    let third = look(checker);
    if !checker.ready(0) || !withdraw(checker) {
        return None;
    }
    let fourth = look(checker);
    let fifth = look(checker);
    Some([first, second, third, fourth, fifth])
}
