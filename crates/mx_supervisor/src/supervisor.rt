//! The supervisor and its calls by their numbers.
ghost use Rattle.std.specs.Prelude.{◌≡◌, ℕ, ◌-◌, ◌<◌, ◌≤◌, [], true, false, length, slice_get, Option, None, IfSome};
ghost use Rattle.std.specs.List.{AllByRecursion};
ghost use Rattle.std.specs.Option.{option_map};
ghost use Rattle.mx_words.specs.Announced.{is_announced};
ghost use Rattle.mx_table.specs.Tables.{IsDomain};
ghost use Rattle.mx_check.specs.Conditions.{MayLook, IsWithin};
ghost use Rattle.mx_check.specs.Harts.{kept_at};
ghost use Rattle.mx_heap.specs.HeapState.{area_of};
ghost use Rattle.mx_model.specs.Serve.{serve, serve_exit};
ghost use Rattle.mx_model.specs.Valid.{IsGate};
ghost use Rattle.mx_supervisor.specs.Heaps.{heap_at};
ghost use Rattle.mx_supervisor.specs.Looks.{KeepsHarts};
ghost use Rattle.mx_supervisor.specs.Parts.{Parts, parts_of, AreJoined, IsSound};
ghost use Rattle.mx_supervisor.specs.Served.{range_of, MayServe, ServesAs, IsSpared, KeepsSizes, Does, flight_after};
ghost use Rattle.mx_supervisor.specs.Served.{served_row, HasAnnounced, Meets};
ghost use Rattle.mx_supervisor.specs.Answers.{is_refusal};

use crate::answer::Refusal;
use crate::service::Service;
use crate::words::{announced_range, is_announced};
use crate::{Answer, Heaps};
use mx_check::{Checker, flights_of};
use mx_gates::Gates;
use mx_heap::Block;
use mx_memory::Ram;
use mx_model::{Call, Events, Gate};
use mx_owners::Owners;
use mx_table::PermTables;

/// The checker of all accesses, RAM, the owners of its words, the gates, and one heap per module, an empty one where a
/// module has
/// none. Checker, RAM and owners have the same number of words.
#[derive(Drop)]
pub struct Supervisor<T: PermTables, const N: usize> {
    /// The permission tables after the harts' caches, and the calls in flight.
    pub checker: Checker<T, N>,
    /// RAM.
    pub ram: Ram,
    /// The owner of each word of RAM.
    pub owners: Owners,
    /// The gates.
    pub gates: Gates,
    /// One heap per module, in the modules' order.
    pub heaps: Heaps,
}

impl<T: PermTables, const N: usize> Supervisor<T, N> {
    /// Joins the parts. Checker, RAM and owners have the same number of words, there is one heap per module, whose area
    /// lies in RAM,
    /// and each gate is for a word of RAM and between modules.
    pub fn new(
        checker: Checker<T, N>,
        ram: Ram,
        owners: Owners,
        gates: Gates,
        heaps: Heaps,
    ) -> Supervisor<T, N>
        requires joined { AreJoined (parts_of {N = N} T.PermTables
            (record {
              checker = checker;
              ram = ram;
              owners = owners;
              gates = gates;
              heaps = heaps;
            })) }
        requires gates { AllByRecursion
            (IsGate (length (T.maps checker.tables)) (T.size checker.tables)) gates }
        ensures { result
            ≡ record {
              checker = checker;
              ram = ram;
              owners = owners;
              gates = gates;
              heaps = heaps;
            } }
    {
        Supervisor {
            checker,
            ram,
            owners,
            gates,
            heaps,
        }
    }

    /// The range that a call may change, which is announced for it: the first word and the number of words. For calls 3
    /// and 4 it
    /// is the range of a0 and a1, for calls 6 and 7 the caller's heap area, and (0, 0) for nothing. The number is one
    /// of these.
    pub fn announced(&self, call: &Call) -> (u32, u32)
        requires joined { AreJoined (parts_of T.PermTables self.now) }
        requires announced { is_announced call.now.number ≡ true }
        requires domain { IsDomain (T.maps self.now.checker.tables) call.now.domain }
        ensures range { result ≡ range_of (parts_of T.PermTables self.now) call.now }
        ensures within { IsWithin result.0 result.1 (T.size self.now.checker.tables) }
    {
        let [addr, size, _, _] = call.args;
        let words = self.checker.tables().words();
        announced_range(call.number, addr, size, words, self.heaps.area(call.domain))
    }

    /// Serves a call (docs/MACHINE.md, "Supervisor calls"). A call 3, 4, 6 or 7 was announced with its range and is
    /// ready, and is
    /// no longer in flight afterwards; for another call the hart may look at words in its domain. No console bytes
    /// stand in `out`,
    /// and those of the call are put there.
    pub fn serve(&mut self, call: &Call, out: &mut Events) -> Answer
        requires joined { AreJoined (parts_of T.PermTables self.old) }
        requires domain { IsDomain (T.maps self.old.checker.tables) call.now.domain }
        requires may { MayServe (parts_of T.PermTables self.old) call.now }
        requires empty { out.old.bytes ≡ [] }
        ensures served { ServesAs serve call.now (parts_of T.PermTables self.old)
            (parts_of T.PermTables self.new) out.new.bytes result }
        ensures refused { is_refusal result ≡ true → IsSpared (parts_of T.PermTables self.old)
            (parts_of T.PermTables self.new) out.new.bytes }
        ensures note { out.new.note ≡ out.old.note }
        ensures harts { KeepsHarts call.now (flight_after call.now self.old.checker.harts)
            self.old.checker.harts self.new.checker.harts }
        ensures again { MayLook call.now.hart call.now.domain self.old.checker.harts →
            MayLook call.now.hart call.now.domain self.new.checker.harts }
        ensures sizes { KeepsSizes (parts_of T.PermTables self.old)
            (parts_of T.PermTables self.new) }
        ensures sound { IsSound (parts_of T.PermTables self.new) }
    {
        let answer = self.serve_row(call, out);
        if is_announced(call.number) {
            self.checker.finish(call.hart);
        }
        answer
    }

    /// A call by its number. One that was announced stays in flight.
    fn serve_row(&mut self, call: &Call, out: &mut Events) -> Answer
        requires sound { IsSound (parts_of T.PermTables self.old) }
        requires domain { IsDomain (T.maps self.old.checker.tables) call.now.domain }
        requires may { MayServe (parts_of T.PermTables self.old) call.now }
        requires empty { out.old.bytes ≡ [] }
        ensures does { Does T.PermTables
            self.old self.new served_row call.now out.new.bytes result }
        ensures note { out.new.note ≡ out.old.note }
    {
        // There are at most four harts, so that call 12 can tell its hart.
        flights_of(&self.checker);
        match Service::of(call.number) {
            Service::Exit => exit(call),
            Service::Write => self.write(call, out),
            Service::Grant => self.grant(call),
            Service::RevokeAll => self.revoke_all(call),
            Service::Transfer => self.transfer(call),
            Service::Alloc => self.alloc(call),
            Service::Free => self.free(call),
            Service::AddGate => self.add_gate(call),
            Service::RemoveGate => self.remove_gate(call),
            Service::AddReturnGate => self.add_return_gate(call),
            Service::Query => self.query(call),
            Service::Identify => Answer::done(256 * call.hart + call.domain),
            Service::Exchange => self.exchange(call),
            Service::Unknown => Answer::refused(Refusal::BadCall),
        }
    }

    /// The gate at place `i` of the list, counted from 0. `None` exactly where `i` isn't below the number of gates.
    pub fn gate(&self, i: u32) -> Option<Gate>
        ensures { result ≡ slice_get self.now.gates i }
    {
        self.gates.get(i)
    }

    /// The live block of a domain at place `i`, in the order of their addresses. `None` exactly where no more than `i`
    /// live.
    pub fn block(&self, domain: u32, i: u32) -> Option<Block>
        requires { IsDomain (T.maps self.now.checker.tables) domain }
        ensures { option_map area_of result ≡ slice_get (heap_at self.now.heaps domain).blocks i }
    {
        self.heaps.nth(domain, i)
    }

    /// The heap area of a domain, (0, 0) for none.
    pub fn heap_area(&self, domain: u32) -> Block
        requires { IsDomain (T.maps self.now.checker.tables) domain }
        ensures { area_of result ≡ (heap_at self.now.heaps domain).area }
    {
        self.heaps.area(domain)
    }
}

/// Call 1: the hart ends, unless it has a frame on its cross stack.
fn exit(call: &Call) -> Answer
    ensures { (p : Parts) → IsSound p →
        Meets (λ r c call. serve_exit c call) call.now (kept_at p.harts call.now.hart).flight
        p p [] result }
{
    if call.nested {
        return Answer::refused(Refusal::Nested);
    }
    let [code, _, _, _] = call.args;
    Answer {
        a0: code,
        a1: None,
        stop: true,
    }
}
