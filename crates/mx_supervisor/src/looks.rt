//! The calls that look at words: write and exchange.
ghost use Rattle.std.specs.Prelude.{◌≡◌, ℕ, ◌+◌, ◌-◌, ◌*◌, ◌<◌, ◌≤◌, ◌++◌, ◌∷◌, ◌||◌, nat_lt, [], not, true, false};
ghost use Rattle.std.specs.Prelude.{length, take, drop, Some};
ghost use Rattle.std.specs.List.{list_all, range_with_len};
ghost use Rattle.mx_words.specs.Limits.{most_written};
ghost use Rattle.mx_words.specs.Ranges.{ram_base, address_of};
ghost use Rattle.mx_words.specs.Rights.{allows, perm_at};
ghost use Rattle.mx_words.specs.declared.perm.Access.{Access};
ghost use Rattle.mx_words.specs.declared.perm.Access.TheVariants as A;
ghost use Rattle.mx_words.specs.Bytes.{number_at, put_at};
ghost use Rattle.mx_table.specs.Tables.{IsDomain};
ghost use Rattle.mx_check.specs.Conditions.{MayLook};
ghost use Rattle.mx_model.specs.Checks.{arg, looked};
ghost use Rattle.mx_model.specs.Reads.{Reads, flat_reads, map_in};
ghost use Rattle.mx_model.specs.Serve.{may_read, look_of, write_outside, write_words, bytes_at, serve_write};
ghost use Rattle.mx_model.specs.Serve.{serve_exchange};
ghost use Rattle.mx_model.specs.State.{Core};
ghost use Rattle.mx_supervisor.specs.Looks.{HasLooked, HasRead};
ghost use Rattle.mx_supervisor.specs.Parts.{parts_of, core_of, flat_of, IsSound};
ghost use Rattle.mx_supervisor.specs.Served.{Does};

use crate::answer::Refusal;
use crate::{Answer, Supervisor};
use mx_model::{Call, Events};
use mx_table::PermTables;
use mx_words::{Access, MOST_WRITTEN, RAM_BASE};

/// The place of a hart's caches that serves the accesses of supervisor calls.
const PLACE: u32 = 10;

/// How many bytes one call writes at most.
const BYTES: u32 = MOST_WRITTEN as u32;

impl<T: PermTables, const N: usize> Supervisor<T, N> {
    /// Call 2: bytes of RAM for the console.
    pub(crate) fn write(&mut self, call: &Call, out: &mut Events) -> Answer
        requires sound { IsSound (parts_of T.PermTables self.old) }
        requires domain { IsDomain (T.maps self.old.checker.tables) call.now.domain }
        requires may { MayLook call.now.hart call.now.domain self.old.checker.harts }
        requires empty { out.old.bytes ≡ [] }
        ensures does { Does T.PermTables
            self.old self.new serve_write call.now out.new.bytes result }
        ensures note { out.new.note ≡ out.old.note }
    {
        let [addr, count, _, _] = call.args;
        if count > BYTES {
            return Answer::refused(Refusal::TooLong);
        }
        if count == 0 {
            return Answer::done(0);
        }
        if self.is_outside(addr, count) {
            return Answer::refused(Refusal::BadRange);
        }
        let first = (addr - RAM_BASE) / 4;
        let behind = (addr - RAM_BASE + count + 3) / 4;
        if !self.may_read(call, first, behind) {
            return Answer::refused(Refusal::Denied);
        }
        self.print(addr, count, out);
        Answer::done(count)
    }

    /// Call 13: a word of RAM exchanged for another.
    pub(crate) fn exchange(&mut self, call: &Call) -> Answer
        requires sound { IsSound (parts_of T.PermTables self.old) }
        requires domain { IsDomain (T.maps self.old.checker.tables) call.now.domain }
        requires may { MayLook call.now.hart call.now.domain self.old.checker.harts }
        ensures { Does T.PermTables self.old self.new serve_exchange call.now [] result }
    {
        let Some(word) = self.arg_word(call) else {
            return Answer::refused(Refusal::BadRange);
        };
        if !self.look(call, word, Access::Write) {
            return Answer::refused(Refusal::Denied);
        }
        let [_, value, _, _] = call.args;
        let old = self.put(word, value);
        Answer {
            a0: 0,
            a1: Some(old),
            stop: false,
        }
    }

    /// Whether some of the bytes lie outside RAM.
    fn is_outside(&self, addr: u32, count: u32) -> bool
        requires { IsSound (parts_of T.PermTables self.now) }
        ensures { (nat_lt addr ram_base
            || nat_lt (ram_base + 4 * T.size self.now.checker.tables) (addr + count)) ≡ result }
    {
        let size = 4 * self.checker.tables().words();
        addr < RAM_BASE || addr - RAM_BASE > size || count > size - (addr - RAM_BASE)
    }

    /// Whether the caller may read each word that the bytes touch. It looks at them from the lowest on, and stops at
    /// the first that
    /// it may not read.
    fn may_read(&mut self, call: &Call, first: u32, behind: u32) -> bool
        requires sound { IsSound (parts_of T.PermTables self.old) }
        requires domain { IsDomain (T.maps self.old.checker.tables) call.now.domain }
        requires may { MayLook call.now.hart call.now.domain self.old.checker.harts }
        requires inside { behind ≤ T.size self.old.checker.tables }
        ensures read { HasRead call.now (range_with_len first (behind - first))
            (parts_of T.PermTables self.old) (parts_of T.PermTables self.new) }
        ensures answer { (rest : Core) →
            list_all (may_read (flat_reads (flat_of rest (parts_of T.PermTables self.old)))
            call.now.domain) (range_with_len first (behind - first)) ≡ result }
    {
        for word in first..behind {
            if !self.look(call, word, Access::Read) {
                return false;
            }
        }
        true
    }

    /// Whether the caller may access a word of RAM.
    fn look(&mut self, call: &Call, word: u32, access: Access) -> bool
        requires sound { IsSound (parts_of T.PermTables self.old) }
        requires domain { IsDomain (T.maps self.old.checker.tables) call.now.domain }
        requires may { MayLook call.now.hart call.now.domain self.old.checker.harts }
        requires inside { word < T.size self.old.checker.tables }
        ensures looked { HasLooked call.now word (parts_of T.PermTables self.old)
            (parts_of T.PermTables self.new) }
        ensures answer { allows (perm_at (map_in (T.size self.old.checker.tables)
            (T.maps self.old.checker.tables) call.now.domain) word) access ≡ result }
    {
        self.checker
            .may(call.hart, PLACE, call.domain, RAM_BASE + 4 * word, access)
    }

    /// Puts the bytes from an address on into `out`.
    fn print(&self, addr: u32, count: u32, out: &mut Events)
        requires begins { ram_base ≤ addr }
        requires inside { addr + count ≤ ram_base + length self.now.ram }
        requires few { count ≤ most_written }
        requires empty { out.old.bytes ≡ [] }
        ensures { out.new
            ≡ record out.old { bytes = take count (drop (addr - ram_base) self.now.ram) } }
    {
        let at = addr - RAM_BASE;
        for i in 0..count {
            out.push(self.ram.byte(at + i));
        }
    }

    /// Puts a number into a word, and tells the one that was there.
    fn put(&mut self, word: u32, value: u32) -> u32
        requires sound { IsSound (parts_of T.PermTables self.old) }
        requires inside { word < T.size self.old.checker.tables }
        ensures old { result ≡ number_at self.old.ram (4 * word) 4 }
        ensures put { parts_of T.PermTables self.new ≡ record (parts_of T.PermTables self.old)
            { ram = put_at self.old.ram (4 * word) 4 value } }
    {
        let old = self.ram.word(word);
        self.ram.store(RAM_BASE + 4 * word, 4, value);
        old
    }
}
