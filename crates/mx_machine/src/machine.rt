//! The machine.
ghost use Rattle.std.specs.Prelude.{◌≡◌, ◌≢◌, ℕ, ◌+◌, ◌-◌, ◌^◌, ◌<◌, ◌≤◌, length};
ghost use Rattle.std.specs.List.{AllByRecursion};
ghost use Rattle.mx_model.specs.Reads.{flat_reads};
ghost use Rattle.mx_model.specs.Run.{flat_kind, flat_made, flat_turn};
ghost use Rattle.mx_model.specs.State.{State, flat, hart_at};
ghost use Rattle.mx_model.specs.Valid.{IsGate};
ghost use Rattle.mx_laws.specs.After.{frames_at};
ghost use Rattle.mx_laws.specs.Crossing.{FramesAfter};
ghost use Rattle.mx_laws.specs.Foreign.{ForeignAfter};
ghost use Rattle.mx_laws.specs.Quiet.{AddsNothing};
ghost use Rattle.mx_supervisor.specs.Parts.{parts_of, AreJoined};
ghost use Rattle.mx_machine.specs.Starts.{MayResume, MayStart, resumed, started};
ghost use Rattle.mx_machine.specs.Turning.{IsStretch, IsTold, IsTurn, KeepsBytes, turns_of};

use crate::bare::Bare;
use crate::bus::HartBus;
use crate::harts::Harts;
use crate::starts::{starts_of, states_of};
use crate::{HartStates, Stacks, Starts, Stretch};
use mx_check::flights_of;
use mx_coherence::spans_are_coherent;
use mx_laws::{quiet_turns, turns_keep_foreign_words, turns_keep_frames, turns_of_twins};
use mx_memory::bytes_of;
use mx_model::{Events, TurnKind, flat_of_a_turn, turns_keep_validity};
use mx_supervisor::{Supervisor, heaps_of};
use mx_table::{PermTables, shape_of};
use mx_words::MOST_DOMAINS;
use std::marker::Model;

/// A machine of 1 to 4 harts over a supervisor. What it means is a flat state of the abstract machine
/// (docs/MACHINE.md): RAM's bytes,
/// one map per module, the owner of each word, gates, blocks, harts with their frames, and how many turns were made.
///
/// Hart numbers are below the number of harts, domains are those of the modules, from 1 on, words are below those of
/// RAM and places
/// of bytes below four times that, unless a call says otherwise.
#[derive(Drop)]
pub struct Machine<T: PermTables, const N: usize> {
    pub(crate) bare: Bare<T, N>,
}

impl<T: PermTables, const N: usize> Model for Machine<T, N> {
    ghost use Rattle.mx_model.specs.State.{Flat};

    ghost Value = { Flat };

    ghost use Rattle.mx_machine.specs.Held.{meaning};
    ghost use Rattle.mx_machine.specs.Ties.{IsWhole};

    ghost view = { λ m. meaning m.bare };

    ghost invariant = { λ m. IsWhole m.bare };
}

impl<T: PermTables, const N: usize> Machine<T, N> {
    /// A machine that starts: its harts stand at their starts with all registers zero but x2, the address after the
    /// stack area of
    /// their domain for them. The supervisor's parts belong together, and each gate is for a word of RAM and between
    /// modules. There is
    /// one start for each hart of the checker, which has done nothing yet, and one stack area for each module, which
    /// lies in RAM for
    /// all harts or has no words.
    pub fn new(parts: Supervisor<T, N>, starts: &Starts, stacks: &Stacks) -> Machine<T, N>
        requires joined { AreJoined (parts_of T.PermTables parts) }
        requires gates { AllByRecursion
            (IsGate (length (T.maps parts.checker.tables)) (T.size parts.checker.tables))
            parts.gates }
        requires may { MayStart (parts_of T.PermTables parts) starts.now stacks.now }
        ensures { result ≡ started (parts_of T.PermTables parts) starts.now stacks.now }
    {
        spans_are_coherent();
        shape_of(parts.checker.tables());
        bytes_of(&parts.ram);
        heaps_of(&parts.heaps);
        let _few_gates = parts.gates.get(0);
        starts_of(starts);
        Machine {
            bare: Bare {
                harts: Harts::start(starts, stacks),
                stacks: stacks.copy(),
                dead: [false; MOST_DOMAINS],
                steps: 0,
                waiting: false,
                bus: HartBus {
                    supervisor: parts,
                    hart: 0,
                    domain: 0,
                },
            },
        }
    }

    /// A machine that goes on as it was left. The supervisor's parts, gates and stack areas are as for `new`. There is
    /// one hart state
    /// for each hart of the checker, in which the caches are empty, no hart is halted, and a call is in flight for
    /// exactly the harts
    /// that wait: that of their registers. `dead` is true for modules alone, and at most 2^63 - 1 turns were made.
    pub fn resume(
        parts: Supervisor<T, N>,
        harts: &HartStates,
        stacks: &Stacks,
        dead: &[bool; MOST_DOMAINS],
        steps: u64,
    ) -> Machine<T, N>
        requires joined { AreJoined (parts_of T.PermTables parts) }
        requires gates { AllByRecursion
            (IsGate (length (T.maps parts.checker.tables)) (T.size parts.checker.tables))
            parts.gates }
        requires may { MayResume (parts_of T.PermTables parts) harts.now stacks.now dead.now steps }
        ensures { result ≡ resumed (parts_of T.PermTables parts)
            harts.now stacks.now dead.now steps }
    {
        spans_are_coherent();
        shape_of(parts.checker.tables());
        flights_of(&parts.checker);
        bytes_of(&parts.ram);
        heaps_of(&parts.heaps);
        let _few_gates = parts.gates.get(0);
        states_of(harts);
        let left = Harts::resume(harts);
        let waiting = left.any_waits();
        let mut bare = Bare {
            harts: left,
            stacks: stacks.copy(),
            dead: *dead,
            steps,
            waiting,
            bus: HartBus {
                supervisor: parts,
                hart: 0,
                domain: 0,
            },
        };
        bare.halt_left();
        Machine { bare }
    }

    /// One turn of the hart of that number, which may be none (docs/MACHINE.md, "One turn"). What stood in `out` is
    /// dropped; the
    /// console bytes and the note of the turn are put there. Fewer than 2^64 - 1 turns were made.
    ///
    /// Isolation: the turn leaves the words that the hart's domain may not write, but for a new block of an alloc,
    /// which lies in the
    /// domain's own heap area and is zero; and it keeps the hart's frames, pushes one with its fifteen registers, or
    /// gives up the top
    /// one and goes on as that says.
    pub fn step(&mut self, hart: u32, out: &mut Events) -> TurnKind
        requires { self.old.core.turns < 2 ^ 64 - 1 }
        ensures turn { self.new ≡ flat_turn self.old hart }
        ensures out { IsTold (flat_made self.old hart) out.new }
        ensures kind { result ≡ flat_kind self.old hart }
        ensures state { (s : State) → self.old ≡ flat s → IsTurn s hart self.new out.new result }
        ensures foreign { ForeignAfter (flat_reads self.old) self.old.core hart self.new.core }
        ensures bytes { KeepsBytes result self.old self.new }
        ensures frames { FramesAfter (hart_at self.old.core hart) (hart_at self.new.core hart) }
        ensures others { (h : ℕ) → h ≢ hart →
            frames_at self.new.core h ≡ frames_at self.old.core h }
    {
        flat_of_a_turn();
        turns_keep_validity();
        spans_are_coherent();
        turns_keep_foreign_words();
        turns_keep_frames();
        turns_of_twins();
        self.bare.step(hart, out)
    }

    /// Turns of the hart of that number in a row, at least one and at most so many: it makes turns until one doesn't
    /// just carry out
    /// an instruction, or so many are made. Each is a turn as `step` makes it; what stands in `out` is of the last
    /// alone. Those before
    /// it add nothing: no right, no owner, no console byte and no note. There is at least one to make, and fewer than
    /// 2^64 turns are
    /// made with them.
    pub fn run_on(&mut self, hart: u32, most: u64, out: &mut Events) -> Stretch
        requires some { 1 ≤ most }
        requires few { self.old.core.turns + most < 2 ^ 64 }
        ensures stretch { IsStretch self.old hart most self.new out.new result }
        ensures quiet { (i : ℕ) → i < result.ran →
            AddsNothing (flat_made (turns_of hart self.old i) hart) }
    {
        quiet_turns();
        self.bare.run_on(hart, most, out)
    }
}
