//! The search backward: again from the boot, and the last stop is kept.

ghost use Rattle.std.specs.Prelude.{◌≡◌, ◌+◌, ◌-◌, ◌^◌, ◌<◌, ◌≤◌, ◌==◌, [], Ok, IfOk, IfSome, if◌then◌else◌};
ghost use Rattle.mx_any.specs.Machines.{meaning};
ghost use Rattle.mx_boot.specs.Boot.{boot_of};
ghost use Rattle.mx_boot.specs.Inputs.{AreInputs};
ghost use Rattle.mx_model.specs.State.{State};
ghost use Rattle.mx_turns.specs.Running.{HasTurns, schedule_of};
ghost use Rattle.mx_debug.specs.Looks.{IsAt, IsRunBy};
ghost use Rattle.mx_debug.specs.Back.{bottom, found_by, is_sought, row_back, sought_by};
ghost use Rattle.mx_debug.specs.Back.{backward as backward_from, last_stop as last_stop_from};
ghost use Rattle.mx_debug.specs.Entries.{IsClear};
ghost use Rattle.mx_debug.specs.Session.{Looked};

use crate::again::{Origin, machine_at};
use crate::rows::{is_clear, last_stood, singles_left};
use crate::search::{is_trapped, run_on, stands_at};
use crate::stop::Stop;
use mx_any::{AnyMachine, any_machine_is_valid};
use mx_machine::Stretch;
use mx_model::{Events, TurnKind};
use mx_turns::{Schedule, begin, later, next_hart};
use mx_words::NoMemory;
use std::alloc::Global;

/// What a search backward is asked.
#[derive(Clone, Copy)]
pub struct Seeking<'a> {
    /// What names the hart of each turn.
    pub schedule: Schedule<'a>,
    /// The addresses of the breakpoints.
    pub breaks: &'a [u32],
    /// The hart that goes back a turn, if one does.
    pub hart: Option<u32>,
    /// The most turns of the run.
    pub most: u64,
}

/// Where a run stops when one goes back in it, and a machine that stands there.
pub struct Back {
    /// The number of turns, and why it stops there.
    pub found: (u64, Stop),
    /// The machine.
    pub machine: AnyMachine,
}

/// Backward from a number of turns: the greatest number below, among so many, at which the run stops. It boots again,
/// twice. Where
/// memory is wanting nothing is found.
pub fn backward(
    alloc: Global,
    origin: &Origin<'_>,
    seeking: &Seeking<'_>,
    turns: u64,
    made: u64,
) -> Result<Back, NoMemory>
    requires inputs { AreInputs origin.now.plan.now origin.now.inputs.now }
    requires boots { (s : State) ×
        (boot_of origin.now.plan.now origin.now.images.now origin.now.inputs.now ≡ Ok s) }
    requires within { made ≤ seeking.now.most }
    requires few { made < 2 ^ 64 - 1 }
    requires quantum { HasTurns seeking.now.schedule }
    ensures finds { (q : Looked) →
        boot_of origin.now.plan.now origin.now.images.now origin.now.inputs.now ≡ Ok q.start →
        IsRunBy q (schedule_of seeking.now.schedule) seeking.now.most →
        IfOk result (λ back. (back.found ≡ backward_from q (sought_by seeking.now) turns made)
        × IsAt q back.found.0 (meaning back.machine)) }
    ensures few { IfOk result (λ back. (meaning back.machine).core.turns ≤ back.found.0) }
    ensures below { IfOk result (λ back. back.found.0 ≤ made) }
{
    let low = made.saturating_sub(turns);
    let found = match machine_at(alloc, origin, seeking.schedule, low) {
        Ok(machine) => search_from(machine, seeking, low, made),
        Err(refused) => return Err(refused),
    };
    match machine_at(alloc, origin, seeking.schedule, found.0) {
        Ok(machine) => Ok(Back { found, machine }),
        Err(refused) => Err(refused),
    }
}

// Searches by a machine, and lets it go.
fn search_from(machine: AnyMachine, seeking: &Seeking<'_>, low: u64, made: u64) -> (u64, Stop)
    requires begins { low ≤ made }
    requires within { made ≤ seeking.now.most }
    requires turns { (meaning machine).core.turns ≤ low }
    requires few { made < 2 ^ 64 - 1 }
    requires quantum { HasTurns seeking.now.schedule }
    ensures finds { (q : Looked) → IsRunBy q (schedule_of seeking.now.schedule) seeking.now.most →
        IsAt q low (meaning machine) → result ≡ found_by q (sought_by seeking.now) low made }
    ensures below { result.0 ≤ made }
{
    let mut machine = machine;
    let last = last_stop(&mut machine, seeking, low, made);
    machine.end();
    match last {
        Some(found) => found,
        None => bottom(low),
    }
}

// Where one pauses, or the run begins.
fn bottom(low: u64) -> (u64, Stop)
    ensures { result ≡ bottom low }
{
    if low == 0 {
        (0, Stop::Begins)
    } else {
        (low, Stop::Pauses)
    }
}

/// The greatest number of turns below so many, from a machine's place on, at which one who goes back stops.
fn last_stop(
    machine: &mut AnyMachine,
    seeking: &Seeking<'_>,
    from: u64,
    before: u64,
) -> Option<(u64, Stop)>
    requires begins { from ≤ before }
    requires within { before ≤ seeking.now.most }
    requires turns { (meaning machine.old).core.turns ≤ from }
    requires few { before < 2 ^ 64 - 1 }
    requires quantum { HasTurns seeking.now.schedule }
    ensures finds { (q : Looked) → IsRunBy q (schedule_of seeking.now.schedule) seeking.now.most →
        IsAt q from (meaning machine.old) →
        result ≡ last_stop_from q (sought_by seeking.now) from (before - from) }
    ensures below { IfSome result (λ found. found.0 ≤ before) }
{
    any_machine_is_valid(machine);
    let mut made = from;
    let mut last = None;
    let mut singles = 0;
    let mut events = Events::new();
    let mut pace = begin(seeking.schedule, machine.harts(), machine.steps());
    'turns: while made < before {
        if machine.all_halted() {
            return last;
        }
        let Some((hart, row)) = next_hart(&pace, before - made) else {
            return last;
        };
        let stands = stands_at(machine, hart, seeking.breaks);
        let row = row_of(machine, hart, seeking.breaks, row, singles);
        singles = singles_left(singles, row);
        let stretch = run_on(machine, hart, row, &mut events);
        let stood = last_stood(seeking.breaks, stands, stretch, &events);
        last = later_stop(seeking.hart, hart, made, stood, stretch, &events, last);
        made += stretch.ran + 1;
        pace = later(pace, stretch.ran + 1);
    }
    last
}

// How many turns of a hart may be made before one looks again: one, where it may come to a breakpoint.
fn row_of(machine: &AnyMachine, hart: u32, breaks: &[u32], row: u64, singles: u64) -> u64
    requires { 1 ≤ row }
    ensures some { 1 ≤ result }
    ensures few { result ≤ row }
    ensures free { 1 < result → IsClear (meaning machine.now) hart breaks.now }
{
    if row > 1 && singles == 0 && is_clear(machine, hart, breaks) {
        row
    } else {
        1
    }
}

// The last stop after a row of turns of a hart from a place on, of which the last began at a breakpoint or not.
fn later_stop(
    sought: Option<u32>,
    hart: u32,
    made: u64,
    stood: bool,
    row: Stretch,
    events: &Events,
    last: Option<(u64, Stop)>,
) -> Option<(u64, Stop)>
    requires few { made + row.ran < 2 ^ 64 }
    ensures { result ≡ row_back sought hart made stood row.ran row.last events.now.note
        last }
{
    let end = made + row.ran;
    if stood {
        Some((end, Stop::Breaks(hart)))
    } else if is_trapped(row.last) {
        Some((end, Stop::Faults(hart, events.note())))
    } else if is_sought(sought, hart, row.last) {
        Some((end, Stop::Steps(hart)))
    } else if row.ran > 0 && is_sought(sought, hart, TurnKind::Ran) {
        Some((end - 1, Stop::Steps(hart)))
    } else {
        last
    }
}

// Whether a turn of this kind of a hart is one that is asked.
fn is_sought(sought: Option<u32>, hart: u32, last: TurnKind) -> bool
    ensures { result ≡ is_sought sought hart last }
{
    match sought {
        Some(sought) => sought == hart && last != TurnKind::Idle,
        None => false,
    }
}
