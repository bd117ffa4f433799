//! The calls that change rights: grant, revoke_all, alloc and free.
ghost use Rattle.std.specs.Prelude.{◌≡◌, ℕ, ◌+◌, ◌-◌, ◌<◌, ◌≤◌, [], true, false, length, slice_set, Option, Some, None};
ghost use Rattle.mx_words.specs.declared.perm.Perm.{Perm};
ghost use Rattle.mx_words.specs.declared.perm.Perm.TheVariants as P;
ghost use Rattle.mx_words.specs.Changes.{changed_maps};
ghost use Rattle.mx_words.specs.Need.{fits};
ghost use Rattle.mx_words.specs.Limits.{most_modules, most_domains};
ghost use Rattle.mx_words.specs.Calls.{grant_call, revoke_all_call, alloc_call, free_call};
ghost use Rattle.mx_table.specs.Change.{IsLawful};
ghost use Rattle.mx_table.specs.Tables.{IsDomain};
ghost use Rattle.mx_model.specs.Serve.{to_one, none_but, own_alone, none_at_all, serve_grant, serve_revoke_all};
ghost use Rattle.mx_model.specs.Serve.{serve_alloc, serve_free};
ghost use Rattle.mx_supervisor.specs.Parts.{parts_of, IsSound};
ghost use Rattle.mx_supervisor.specs.Rights.{Gives, none_else};
ghost use Rattle.mx_supervisor.specs.Served.{range_of, IsIn, HasAnnounced, Does};

use crate::answer::Refusal;
use crate::{Answer, Supervisor};
use mx_heap::HeapError;
use mx_model::Call;
use mx_table::{Change, PermTables};
use mx_words::{MOST_DOMAINS, Perm, RAM_BASE};

/// Puts what a domain gets into the array of a change.
fn put_right(perms: &mut [Option<Perm>; MOST_DOMAINS], domain: u32, right: Option<Perm>)
    requires { domain < most_domains }
    ensures { perms.new ≡ slice_set perms.old domain right }
{
    perms[domain as usize] = right;
}

/// A permission for one domain on a range.
fn to_one(first: u32, count: u32, domain: u32, perm: Perm) -> Change
    requires some { 1 ≤ domain }
    requires few { domain ≤ most_modules }
    ensures { (modules : ℕ) → domain ≤ modules →
        Gives result first count modules (to_one domain perm) }
{
    let mut perms = [None; MOST_DOMAINS];
    put_right(&mut perms, domain, Some(perm));
    Change {
        first,
        count,
        perms,
    }
}

/// What each module gets by a change that takes the rights of all others than the caller; the caller gets `own`.
fn none_else(first: u32, count: u32, caller: u32, own: Option<Perm>, modules: u32) -> Change
    requires { modules ≤ most_modules }
    ensures { Gives result first count modules (none_else caller own) }
{
    let mut perms = [None; MOST_DOMAINS];
    for domain in 1..modules + 1 {
        put_right(&mut perms, domain, right_for(domain, caller, own));
    }
    Change {
        first,
        count,
        perms,
    }
}

/// What one module gets by it.
fn right_for(domain: u32, caller: u32, own: Option<Perm>) -> Option<Perm>
    ensures { result ≡ none_else caller own domain }
{
    if domain == caller {
        own
    } else {
        Some(Perm::None)
    }
}

/// None for all modules but the caller.
fn none_but(first: u32, count: u32, caller: u32, modules: u32) -> Change
    requires { modules ≤ most_modules }
    ensures { Gives result first count modules (none_but caller) }
{
    none_else(first, count, caller, None, modules)
}

/// Read-write for the caller and none for the others.
fn own_alone(first: u32, count: u32, caller: u32, modules: u32) -> Change
    requires { modules ≤ most_modules }
    ensures { Gives result first count modules (own_alone caller) }
{
    none_else(first, count, caller, Some(Perm::ReadWrite), modules)
}

/// None for all modules, the caller too.
fn none_at_all(first: u32, count: u32, caller: u32, modules: u32) -> Change
    requires { modules ≤ most_modules }
    ensures { Gives result first count modules none_at_all }
{
    none_else(first, count, caller, Some(Perm::None), modules)
}

impl<T: PermTables, const N: usize> Supervisor<T, N> {
    /// Makes a change of the caller's ready call, inside its range. False, with nothing changed, exactly where the maps
    /// would then
    /// exceed the tables' limit.
    fn try_change(&mut self, call: &Call, change: &Change) -> bool
        requires announced { HasAnnounced (parts_of T.PermTables self.old) call.now }
        requires lawful { IsLawful change.now (T.size self.old.checker.tables)
            (length (T.maps self.old.checker.tables)) }
        requires inside { IsIn change.now.first change.now.count
            (range_of (parts_of T.PermTables self.old) call.now) }
        ensures fits { (first count : ℕ) (given : ℕ → Option Perm) →
            Gives change.now first count (length (T.maps self.old.checker.tables)) given →
            fits T.kind (T.limits self.old.checker.tables)
            (changed_maps first count given (T.maps self.old.checker.tables)) ≡ result }
        ensures done { (first count : ℕ) (given : ℕ → Option Perm) →
            Gives change.now first count (length (T.maps self.old.checker.tables)) given →
            result ≡ true → parts_of T.PermTables self.new ≡ record (parts_of T.PermTables self.old)
            { maps = changed_maps first count given (T.maps self.old.checker.tables) } }
        ensures kept { result ≡ false →
            parts_of T.PermTables self.new ≡ parts_of T.PermTables self.old }
    {
        self.checker.change(call.hart, change).is_ok()
    }

    /// Call 3: a permission for one module on the caller's words.
    pub(crate) fn grant(&mut self, call: &Call) -> Answer
        requires sound { IsSound (parts_of T.PermTables self.old) }
        requires domain { IsDomain (T.maps self.old.checker.tables) call.now.domain }
        requires announced { HasAnnounced (parts_of T.PermTables self.old) call.now }
        requires number { call.now.number ≡ grant_call }
        ensures { Does T.PermTables self.old self.new serve_grant call.now [] result }
    {
        let Some((first, count)) = self.arg_range(call) else {
            return Answer::refused(Refusal::BadRange);
        };
        let [_, _, domain, number] = call.args;
        if !self.is_module(domain) {
            return Answer::refused(Refusal::BadDomain);
        }
        let Some(perm) = Perm::from_number(number) else {
            return Answer::refused(Refusal::BadPerm);
        };
        if !self.owns(call, first, count) {
            return Answer::refused(Refusal::NotOwner);
        }
        let change = to_one(first, count, domain, perm);
        if !self.try_change(call, &change) {
            return Answer::refused(Refusal::TablesFull);
        }
        Answer::done(0)
    }

    /// Call 4: no right on the caller's words for any other module.
    pub(crate) fn revoke_all(&mut self, call: &Call) -> Answer
        requires sound { IsSound (parts_of T.PermTables self.old) }
        requires domain { IsDomain (T.maps self.old.checker.tables) call.now.domain }
        requires announced { HasAnnounced (parts_of T.PermTables self.old) call.now }
        requires number { call.now.number ≡ revoke_all_call }
        ensures { Does T.PermTables self.old self.new serve_revoke_all call.now [] result }
    {
        let Some((first, count)) = self.arg_range(call) else {
            return Answer::refused(Refusal::BadRange);
        };
        if !self.owns(call, first, count) {
            return Answer::refused(Refusal::NotOwner);
        }
        let change = none_but(first, count, call.domain, self.modules());
        if !self.try_change(call, &change) {
            return Answer::refused(Refusal::TablesFull);
        }
        Answer::done(0)
    }

    /// Call 6: a zero-filled block in the caller's heap area, for the caller alone.
    pub(crate) fn alloc(&mut self, call: &Call) -> Answer
        requires sound { IsSound (parts_of T.PermTables self.old) }
        requires domain { IsDomain (T.maps self.old.checker.tables) call.now.domain }
        requires announced { HasAnnounced (parts_of T.PermTables self.old) call.now }
        requires number { call.now.number ≡ alloc_call }
        ensures { Does T.PermTables self.old self.new serve_alloc call.now [] result }
    {
        let [words, _, _, _] = call.args;
        if words == 0 {
            return Answer::refused(Refusal::BadRange);
        }
        let first = match self.heaps.place(call.domain, words) {
            Ok(first) => first,
            Err(HeapError::NoRoom) => return Answer::refused(Refusal::NoRoom),
            Err(HeapError::BlocksFull) => return Answer::refused(Refusal::BlocksFull),
        };
        let change = own_alone(first, words, call.domain, self.modules());
        if !self.try_change(call, &change) {
            return Answer::refused(Refusal::TablesFull);
        }
        self.heaps.alloc(call.domain, first, words);
        self.ram.clear_words(first, words);
        Answer::done(RAM_BASE + 4 * first)
    }

    /// Call 7: a block of the caller ends, and no module has a right on its words.
    pub(crate) fn free(&mut self, call: &Call) -> Answer
        requires sound { IsSound (parts_of T.PermTables self.old) }
        requires domain { IsDomain (T.maps self.old.checker.tables) call.now.domain }
        requires announced { HasAnnounced (parts_of T.PermTables self.old) call.now }
        requires number { call.now.number ≡ free_call }
        ensures { Does T.PermTables self.old self.new serve_free call.now [] result }
    {
        let Some((first, count)) = self.arg_block(call) else {
            return Answer::refused(Refusal::NotABlock);
        };
        let change = none_at_all(first, count, call.domain, self.modules());
        if !self.try_change(call, &change) {
            return Answer::refused(Refusal::TablesFull);
        }
        self.heaps.free(call.domain, first);
        Answer::done(0)
    }
}
