//! The search forward.

ghost use Rattle.std.specs.Prelude.{◌≡◌, ◌≢◌, ◌+◌, ◌-◌, ◌^◌, ◌<◌, ◌≤◌, ◌&&◌, ◌||◌, ◌==◌, [], true, false, not, nat_le};
ghost use Rattle.std.specs.Prelude.{IfOk};
ghost use Rattle.mx_any.specs.Machines.{meaning};
ghost use Rattle.mx_machine.specs.Turning.{IsStretch};
ghost use Rattle.mx_machine.specs.Readings.{IsPlaceOf, status_told};
ghost use Rattle.mx_model.specs.Checks.{is_halted};
ghost use Rattle.mx_model.specs.Run.{all_halted};
ghost use Rattle.mx_model.specs.State.{Hart, Status, hart_at};
ghost use Rattle.mx_packets.specs.Lines.{SpeaksOrFails};
ghost use Rattle.mx_turns.specs.Running.{HasTurns, schedule_of};
ghost use Rattle.mx_debug.specs.Entries.{IsFree, last_stood};
ghost use Rattle.mx_debug.specs.Looks.{Finds, IsAt, IsRunBy, asked_by, news, place_of, row_stop, stop_past};
ghost use Rattle.mx_debug.specs.Session.{Looked, is_last, is_running, is_trapped, stands, stays};
ghost use Rattle.mx_debug.specs.Session.{forward as forward_from};
ghost use Rattle.mx_debug.specs.Texts.{shown_said};

use crate::console::show;
use crate::rows::{is_clear, last_stood, singles_left};
use crate::session::has;
use crate::stop::{Found, Step, Stop};
use mx_any::{AnyMachine, any_machine_is_valid};
use mx_io::Failed;
use mx_machine::{HartPlace, HartStatus, Stretch};
use mx_model::{Events, TurnKind};
use mx_packets::Line;
use mx_turns::{Schedule, begin, later, next_hart};

/// What a search forward is asked.
#[derive(Clone, Copy)]
pub struct Asking<'a> {
    /// What names the hart of each turn.
    pub schedule: Schedule<'a>,
    /// The addresses of the breakpoints.
    pub breaks: &'a [u32],
    /// Whether faults stop it.
    pub faults: bool,
    /// The step that is made, if any.
    pub step: Option<Step>,
    /// The most turns of the run.
    pub most: u64,
    /// The number of turns whose console bytes were told.
    pub told: u64,
}

/// What was told of the place where a search begins.
#[derive(Clone, Copy)]
pub struct Known {
    /// That the hart whose turn is next stands at a breakpoint.
    pub broke: bool,
    /// That its turn traps.
    pub faulted: bool,
}

/// Nothing was told.
const NOTHING: Known = Known {
    broke: false,
    faulted: false,
};

/// Goes on for at most so many turns, from so many on, to where the run stops first, and says what it shows on the
/// console but for what
/// was told. Where a fault stops it, the machine makes the turn that traps.
pub fn forward<L: Line>(
    line: &mut L,
    machine: &mut AnyMachine,
    asking: &Asking<'_>,
    turns: u64,
    from: u64,
    known: Known,
) -> Result<Found, Failed>
    requires from { from + turns < 2 ^ 64 }
    requires within { from ≤ asking.now.most }
    requires few { (meaning machine.old).core.turns + turns < 2 ^ 64 - 1 }
    requires quantum { HasTurns asking.now.schedule }
    ensures finds { (q : Looked) → IsRunBy q (schedule_of asking.now.schedule) asking.now.most →
        IsAt q from (meaning machine.old) →
        Finds L.says L.room q (asked_by asking.now) asking.now.told from
        (forward_from q (asked_by asking.now) turns from known.broke known.faulted)
        (meaning machine.new) line.old line.new result }
    ensures count { IfOk result (λ found. (meaning machine.new).core.turns + from
        ≡ (meaning machine.old).core.turns + place_of found) }
    ensures within { IfOk result (λ found. place_of found ≤ asking.now.most) }
    ensures past { asking.now.faults ≡ false → IfOk result (λ found. found.past ≡ false) }
{
    any_machine_is_valid(machine);
    let mut made = from;
    let mut known = known;
    let mut singles = 0;
    let mut events = Events::new();
    let mut pace = begin(asking.schedule, machine.harts(), machine.steps());
    'turns: while made < from + turns {
        if is_over(machine, asking.most, made) {
            return Ok(at(made, Stop::Ends));
        }
        let Some((hart, row)) = next_hart(&pace, few(from + turns, asking.most, made)) else {
            return Ok(at(made, Stop::Ends));
        };
        if breaks_at(machine, hart, asking.breaks, known.broke) {
            return Ok(at(made, Stop::Breaks(hart)));
        }
        let row = row_of(machine, asking, hart, row, singles);
        singles = singles_left(singles, row);
        let stretch = run_on(machine, hart, row, &mut events);
        let last = made + stretch.ran;
        if let Some(stop) = stop_past(asking, known.faulted, hart, stretch, &events) {
            return Ok(past(last, stop));
        }
        match show_new(line, &events, asking.told, last) {
            Ok(()) => {}
            Err(failed) => return Err(failed),
        }
        made = last + 1;
        if let Some(stop) = stop_of(asking.step, hart, stretch.last, machine) {
            return Ok(at(made, stop));
        }
        pace = later(pace, stretch.ran + 1);
        known = NOTHING;
    }
    Ok(at(made, Stop::Pauses))
}

// The machine stands where the run stops.
fn at(made: u64, stop: Stop) -> Found
    ensures { result ≡ record { made = made; stop = stop; past = false } }
{
    Found {
        made,
        stop,
        past: false,
    }
}

// The machine made one turn more.
fn past(made: u64, stop: Stop) -> Found
    ensures { result ≡ record { made = made; stop = stop; past = true } }
{
    Found {
        made,
        stop,
        past: true,
    }
}

// Says the bytes that the turn from a place added, unless those of more turns were told.
fn show_new<L: Line>(line: &mut L, events: &Events, told: u64, place: u64) -> Result<(), Failed>
    ensures { SpeaksOrFails L.says L.room line.old (shown_said (news told place events.now.bytes))
        line.new result }
{
    if place < told {
        Ok(())
    } else {
        show(line, events)
    }
}

// Whether no turn is made any more, whatever hart the schedule names.
fn is_over(machine: &AnyMachine, most: u64, made: u64) -> bool
    ensures { result ≡ (nat_le most made || all_halted (meaning machine.now).core) }
{
    made >= most || machine.all_halted()
}

// How many turns are left.
fn few(end: u64, most: u64, made: u64) -> u64
    requires end { made < end }
    requires most { made < most }
    ensures some { 1 ≤ result }
    ensures end { made + result ≤ end }
    ensures most { made + result ≤ most }
{
    end.min(most) - made
}

// How many turns of a hart may be made before one looks again: one, where its step is asked, or where it may come to a
// breakpoint.
fn row_of(machine: &AnyMachine, asking: &Asking<'_>, hart: u32, row: u64, singles: u64) -> u64
    requires { 1 ≤ row }
    ensures some { 1 ≤ result }
    ensures few { result ≤ row }
    ensures free { 1 < result → IsFree (meaning machine.now) (asked_by asking.now) hart }
{
    if row > 1 && singles == 0 && may_run(machine, asking, hart) {
        row
    } else {
        1
    }
}

// Whether a hart's step isn't asked, and it can't come to a breakpoint but by a turn that traps, which stops it anyway.
fn may_run(machine: &AnyMachine, asking: &Asking<'_>, hart: u32) -> bool
    ensures { result ≡ true → IsFree (meaning machine.now) (asked_by asking.now) hart }
{
    if follows(asking.step, hart) {
        return false;
    }
    asking.breaks.is_empty() || (asking.faults && is_clear(machine, hart, asking.breaks))
}

// Whether a step of this hart is asked.
fn follows(step: Option<Step>, hart: u32) -> bool
    ensures { result ≡ false → (x : Hart) → is_last step hart TurnKind.Ran x ≡ false }
{
    match step {
        Some(step) => step.hart == hart,
        None => false,
    }
}

// Why a row of turns stops before its last turn, if it does: that began at a breakpoint, or trapped, and it wasn't
// told.
fn stop_past(
    asking: &Asking<'_>,
    faulted: bool,
    hart: u32,
    row: Stretch,
    events: &Events,
) -> Option<Stop>
    ensures { result ≡ stop_past asking.now.faults (faulted && row.ran == 0)
        (last_stood asking.now.breaks.now false row.ran row.last events.now.note) hart row.last events.now.note }
{
    if last_stood(asking.breaks, false, row, events) {
        Some(Stop::Breaks(hart))
    } else if asking.faults && is_trapped(row.last) && !(faulted && row.ran == 0) {
        Some(Stop::Faults(hart, events.note()))
    } else {
        None
    }
}

/// Whether a turn of this kind trapped.
pub(crate) fn is_trapped(last: TurnKind) -> bool
    ensures { result ≡ is_trapped last }
{
    match last {
        TurnKind::Trapped => true,
        TurnKind::Idle
        | TurnKind::Waited
        | TurnKind::Ran
        | TurnKind::Crossed
        | TurnKind::Returned
        | TurnKind::Called => false,
    }
}

// Why it stops after its last turn, if it does: that was of this kind.
fn stop_of(step: Option<Step>, hart: u32, last: TurnKind, machine: &AnyMachine) -> Option<Stop>
    ensures { result ≡ row_stop step hart last (hart_at (meaning machine.now).core hart) }
{
    if is_last(step, hart, last, machine) {
        Some(Stop::Steps(hart))
    } else {
        None
    }
}

// Whether a turn of this kind was the last one of a step.
fn is_last(step: Option<Step>, hart: u32, last: TurnKind, machine: &AnyMachine) -> bool
    ensures { result ≡ is_last step hart last (hart_at (meaning machine.now).core hart) }
{
    match step {
        Some(step) => {
            step.hart == hart && last != TurnKind::Idle && !stays_at(&step, hart, machine)
        }
        None => false,
    }
}

// Whether a hart isn't halted and stands in a step's range.
fn stays_at(step: &Step, hart: u32, machine: &AnyMachine) -> bool
    ensures { result ≡ stays step.now (hart_at (meaning machine.now).core hart) }
{
    if hart >= machine.harts() {
        return false;
    }
    stays(step, machine.place(hart))
}

fn stays(step: &Step, place: HartPlace) -> bool
    ensures { (hart : Hart) → IsPlaceOf hart place → result ≡ stays step.now hart }
{
    !is_halted(place.status) && step.first <= place.pc && place.pc < step.end
}

fn is_halted(status: HartStatus) -> bool
    ensures { (s : Status) → status ≡ status_told s → result ≡ is_halted s }
{
    match status {
        HartStatus::Halted => true,
        HartStatus::Running | HartStatus::Waiting => false,
    }
}

// Whether a hart runs and stands at a breakpoint, and that wasn't told.
fn breaks_at(machine: &AnyMachine, hart: u32, breaks: &[u32], broke: bool) -> bool
    ensures { result ≡ (stands (meaning machine.now).core hart breaks.now && not broke) }
{
    stands_at(machine, hart, breaks) && !broke
}

/// Whether a hart runs and stands at a breakpoint.
pub(crate) fn stands_at(machine: &AnyMachine, hart: u32, breaks: &[u32]) -> bool
    ensures { result ≡ stands (meaning machine.now).core hart breaks.now }
{
    if breaks.is_empty() || hart >= machine.harts() {
        return false;
    }
    let place = machine.place(hart);
    is_running(place.status) && has(breaks, place.pc)
}

fn is_running(status: HartStatus) -> bool
    ensures { (s : Status) → status ≡ status_told s → result ≡ is_running s }
{
    match status {
        HartStatus::Running => true,
        HartStatus::Waiting | HartStatus::Halted => false,
    }
}

/// Turns of a hart in a row.
pub(crate) fn run_on(machine: &mut AnyMachine, hart: u32, most: u64, out: &mut Events) -> Stretch
    requires some { 1 ≤ most }
    requires few { (meaning machine.old).core.turns + most < 2 ^ 64 }
    ensures { IsStretch (meaning machine.old) hart most (meaning machine.new) out.new result }
{
    match machine {
        AnyMachine::Segments8(machine) => machine.run_on(hart, most, out),
        AnyMachine::Segments32(machine) => machine.run_on(hart, most, out),
        AnyMachine::Segments64(machine) => machine.run_on(hart, most, out),
        AnyMachine::Multilevel8(machine) => machine.run_on(hart, most, out),
        AnyMachine::Multilevel32(machine) => machine.run_on(hart, most, out),
        AnyMachine::Multilevel64(machine) => machine.run_on(hart, most, out),
        AnyMachine::Packed8(machine) => machine.run_on(hart, most, out),
        AnyMachine::Packed32(machine) => machine.run_on(hart, most, out),
        AnyMachine::Packed64(machine) => machine.run_on(hart, most, out),
    }
}
