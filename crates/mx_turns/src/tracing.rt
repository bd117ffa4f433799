//! A trace: the turns of a run with a line for each. No call takes memory.

ghost use Rattle.std.specs.Prelude.{◌≡◌, ℕ, true, false, ◌&&◌, ◌+◌, ◌-◌, ◌++◌, ◌<◌, ◌≤◌, ◌^◌, ◌⊎◌, length, nat_lt};
ghost use Rattle.std.specs.Prelude.{None, Some, IfSome, OnOk};
ghost use Rattle.mx_isa.specs.Ranges.{IsValid};
ghost use Rattle.mx_io.specs.Sink.{Puts, SinkState};
ghost use Rattle.mx_any.specs.Machines.{meaning};
ghost use Rattle.mx_model.specs.Reads.{flat_reads};
ghost use Rattle.mx_model.specs.Run.{flat_made, flat_turn, run};
ghost use Rattle.mx_model.specs.State.{State, flat};
ghost use Rattle.mx_tail.specs.Tail.{Passes, piece_bytes};
ghost use Rattle.mx_turns.specs.Ends.{Leave, MakesTurns, sinks};
ghost use Rattle.mx_turns.specs.Running.{schedule_of, told_by, Begins, Closes, HasTexts, HasTurns, IsNew, Places};
ghost use Rattle.mx_turns.specs.Running.{RunsOrStops, ShowsOrStops, StopsAt, places};
ghost use Rattle.mx_snapshot.specs.Rules.{is_waiting};
ghost use Rattle.mx_turns.specs.Tracing.{end_text, flat_line_from, held_of, line_text, seen_at, seen_of};
ghost use Rattle.mx_turns.specs.Tracing.{trace, traced};
ghost use Rattle.mx_trace.specs.Did.{deed};

use crate::each::each;
use crate::ending::end_of_any;
use crate::fault::SinkFault;
use crate::pace::{Schedule, begin};
use crate::rows::{Row, Rows, make_rows};
use crate::turns::{Telling, make_turns};
use mx_any::{AnyMachine, any_machine_is_valid};
use mx_io::{Failed, Sink};
use mx_machine::HartStatus;
use mx_model::{Events, TurnKind};
use mx_report::{Tail, put_end};
use mx_trace::{Held, Seen, Turned, put_did, put_turn};

/// What a trace is asked.
#[derive(Clone, Copy)]
pub struct TraceTask<'a> {
    /// The most turns that it makes.
    pub steps: u64,
    /// What names the hart of each turn.
    pub schedule: Schedule<'a>,
    /// Which lines it has.
    pub lines: Lines,
}

/// Which lines a trace has beside its end line.
#[derive(Clone, Copy, PartialEq, Eq)]
pub struct Lines {
    /// The first turn that has a line, counted from 1; 0 for all.
    pub from: u64,
    /// Whether a turn's line is followed by that of what it did.
    pub effects: bool,
}

/// Makes the turns of a run, and writes the console's bytes, a line for each turn from a step on, and the end line. The
/// first sink
/// that fails ends it, as it ends a run: no turn is made after it.
pub fn make_trace<C: Sink, R: Sink>(
    task: &TraceTask<'_>,
    machine: &mut AnyMachine,
    console: &mut C,
    report: &mut R,
) -> Result<(), SinkFault>
    requires few { (meaning machine.old).core.turns + task.now.steps < 2 ^ 64 - 1 }
    requires quantum { HasTurns task.now.schedule }
    ensures leave { (s : State) → IsNew s → meaning machine.old ≡ flat s → (dump : SinkState) →
        Leave (traced task.now.lines task.now.steps (schedule_of task.now.schedule) s)
        (sinks (C.state console.old) (R.state report.old) dump)
        (sinks (C.state console.new) (R.state report.new) dump) result }
    ensures turns { (s : State) → IsNew s → meaning machine.old ≡ flat s → (dump : SinkState) →
        MakesTurns (traced task.now.lines task.now.steps (schedule_of task.now.schedule) s)
        (λ made. run (schedule_of task.now.schedule) made s)
        (sinks (C.state console.old) (R.state report.old) dump)
        (sinks (C.state console.new) (R.state report.new) dump) (meaning machine.new) result }
{
    let target = machine.steps() + task.steps;
    let mut shown = Tail::new();
    let mut told = Tail::new();
    match trace_all(task, machine, &mut shown, console, &mut told, report) {
        Ok(()) => end_trace(target, machine, &mut shown, console, &mut told, report),
        Err(SinkFault::Console) => {
            let _ = told.end(report);
            Err(SinkFault::Console)
        }
        Err(SinkFault::Report) => Err(SinkFault::Report),
        Err(SinkFault::Dump) => Err(SinkFault::Dump),
    }
}

// Makes the turns: those that have no line by the loop of a run, and then those that may have one.
fn trace_all<C: Sink, R: Sink>(
    task: &TraceTask<'_>,
    machine: &mut AnyMachine,
    shown: &mut Tail,
    console: &mut C,
    told: &mut Tail,
    report: &mut R,
) -> Result<(), SinkFault>
    requires few { (meaning machine.old).core.turns + task.now.steps < 2 ^ 64 - 1 }
    requires quantum { HasTurns task.now.schedule }
    ensures { (s : State) → Begins s (meaning machine.old)
        (places (C.state console.old) shown.old (R.state report.old) told.old)
        → RunsOrStops (λ made. run (schedule_of task.now.schedule) made s)
        (λ made. trace (schedule_of task.now.schedule) task.now.lines made s) task.now.steps
        (meaning machine.new) (places (C.state console.old) shown.old (R.state report.old) told.old)
        (places (C.state console.new) shown.new (R.state report.new) told.new) result }
{
    let quiet = lineless(task.lines.from, machine.steps(), task.steps);
    skip_turns(quiet, task.schedule, machine, shown, console, told, report)?;
    let rest = task.steps - quiet;
    trace_turns(
        task.lines,
        rest,
        task.schedule,
        machine,
        shown,
        console,
        told,
        report,
    )
}

// How many of the next turns have no line.
fn lineless(from: u64, made: u64, steps: u64) -> u64
    ensures few { result ≤ steps }
    ensures none { (result ≡ 0) ⊎ (made + result < from) }
{
    from.saturating_sub(made).saturating_sub(1).min(steps)
}

// Makes turns that have no line.
fn skip_turns<C: Sink, R: Sink>(
    steps: u64,
    schedule: Schedule<'_>,
    machine: &mut AnyMachine,
    shown: &mut Tail,
    console: &mut C,
    told: &mut Tail,
    report: &mut R,
) -> Result<(), SinkFault>
    requires few { (meaning machine.old).core.turns + steps < 2 ^ 64 - 1 }
    requires quantum { HasTurns schedule }
    ensures turns { (meaning machine.new).core.turns ≤ (meaning machine.old).core.turns + steps }
    ensures runs { (s : State) → Begins s (meaning machine.old)
        (places (C.state console.old) shown.old (R.state report.old) told.old)
        → RunsOrStops (λ made. run (schedule_of schedule.entry) made s)
        (λ made. told_by Telling.Nothing (run (schedule_of schedule.entry) made s)) steps
        (meaning machine.new) (places (C.state console.old) shown.old (R.state report.old) told.old)
        (places (C.state console.new) shown.new (R.state report.new) told.new) result }
{
    let telling = Telling::Nothing;
    each!(machine, machine => make_turns(steps, schedule, telling, machine, shown, console, told, report))
}

// Makes turns, each with its line where it has one.
fn trace_turns<C: Sink, R: Sink>(
    lines: Lines,
    steps: u64,
    schedule: Schedule<'_>,
    machine: &mut AnyMachine,
    shown: &mut Tail,
    console: &mut C,
    told: &mut Tail,
    report: &mut R,
) -> Result<(), SinkFault>
    requires few { (meaning machine.old).core.turns + steps < 2 ^ 64 - 1 }
    requires quantum { HasTurns schedule }
    ensures { (s : State) (done : ℕ) (before : Places) →
        HasTexts (run (schedule_of schedule.entry) done s)
        (trace (schedule_of schedule.entry) lines done s) (meaning machine.old) before
        (places (C.state console.old) shown.old (R.state report.old) told.old)
        → RunsOrStops (λ made. run (schedule_of schedule.entry) made s)
        (λ made. trace (schedule_of schedule.entry) lines made s) (done + steps)
        (meaning machine.new) before
        (places (C.state console.new) shown.new (R.state report.new) told.new) result }
{
    any_machine_is_valid(machine);
    if machine.all_halted() {
        return Ok(());
    }
    let start = begin(schedule, machine.harts(), machine.steps());
    make_rows(steps, start, &lines, machine, shown, console, told, report)
}

impl<C: Sink, R: Sink> Rows<AnyMachine, C, R> for Lines {
    ghost means = { meaning };

    ghost Stands = { λ lines p made s before m shown console told report.
        HasTexts (run p made s) (trace p lines made s) (meaning m) before
        (places (C.state console) shown (R.state report) told) };

    ghost Stops = { λ lines p made s before m shown console told report.
        StopsAt (λ n. run p n s) (λ n. trace p lines n s) made (meaning m) before
        (places (C.state console) shown (R.state report) told) };

    #[inline(always)]
    fn make_row(
        &self,
        hart: u32,
        _most: u64,
        machine: &mut AnyMachine,
        events: &mut Events,
        shown: &mut Tail,
        console: &mut C,
        told: &mut Tail,
        report: &mut R,
    ) -> Result<Row, SinkFault> {
        match trace_turn(*self, hart, machine, events, shown, console, told, report) {
            Ok(()) => Ok(Row {
                turns: 1,
                halted: machine.all_halted(),
            }),
            Err(fault) => Err(fault),
        }
    }
}

// Makes one turn, and puts what it adds: its console bytes, and its lines where it has any.
fn trace_turn<C: Sink, R: Sink>(
    lines: Lines,
    hart: u32,
    machine: &mut AnyMachine,
    events: &mut Events,
    shown: &mut Tail,
    console: &mut C,
    told: &mut Tail,
    report: &mut R,
) -> Result<(), SinkFault>
    requires { (meaning machine.old).core.turns < 2 ^ 64 - 1 }
    ensures turn { meaning machine.new ≡ flat_turn (meaning machine.old) hart }
    ensures shows { ShowsOrStops (flat_made (meaning machine.old) hart).console
        (flat_line_from lines (meaning machine.old) hart)
        (places (C.state console.old) shown.old (R.state report.old) told.old)
        (places (C.state console.new) shown.new (R.state report.new) told.new) result }
{
    if is_told(lines, machine, hart) {
        deed_turn(lines, hart, machine, events, shown, console, told, report)
    } else {
        plain_turn(lines, hart, machine, events, shown, console, told, report)
    }
}

// Whether what a hart's turn does is asked, and there is such a hart.
fn is_told(lines: Lines, machine: &AnyMachine, hart: u32) -> bool
    ensures { result ≡ (lines.effects && nat_lt hart (length (meaning machine.now).core.harts)) }
{
    lines.effects && hart < machine.harts()
}

// Makes one turn, of which what it does is asked: the hart is held before it and after it.
fn deed_turn<C: Sink, R: Sink>(
    lines: Lines,
    hart: u32,
    machine: &mut AnyMachine,
    events: &mut Events,
    shown: &mut Tail,
    console: &mut C,
    told: &mut Tail,
    report: &mut R,
) -> Result<(), SinkFault>
    requires turns { (meaning machine.old).core.turns < 2 ^ 64 - 1 }
    requires asked { lines.effects ≡ true }
    requires there { hart < length (meaning machine.old).core.harts }
    ensures turn { meaning machine.new ≡ flat_turn (meaning machine.old) hart }
    ensures shows { ShowsOrStops (flat_made (meaning machine.old) hart).console
        (flat_line_from lines (meaning machine.old) hart)
        (places (C.state console.old) shown.old (R.state report.old) told.old)
        (places (C.state console.new) shown.new (R.state report.new) told.new) result }
{
    let step = machine.steps() + 1;
    let seen = seen_of(machine, hart);
    let before = held(machine, hart);
    let kind = machine.step(hart, events);
    let after = held(machine, hart);
    let turned = Turned {
        kind,
        note: events.note(),
        inst: seen.inst,
    };
    match shown.add(console, events) {
        Ok(()) => match put_lines(
            lines, step, hart, seen, turned, &before, &after, told, report,
        ) {
            Ok(()) => Ok(()),
            Err(Failed) => Err(SinkFault::Report),
        },
        Err(Failed) => Err(SinkFault::Console),
    }
}

// Makes one turn, of which what it does isn't asked, or of a hart that isn't there: nothing of it is held.
fn plain_turn<C: Sink, R: Sink>(
    lines: Lines,
    hart: u32,
    machine: &mut AnyMachine,
    events: &mut Events,
    shown: &mut Tail,
    console: &mut C,
    told: &mut Tail,
    report: &mut R,
) -> Result<(), SinkFault>
    requires turns { (meaning machine.old).core.turns < 2 ^ 64 - 1 }
    requires plain { (lines.effects && nat_lt hart (length (meaning machine.old).core.harts)) ≡ false }
    ensures turn { meaning machine.new ≡ flat_turn (meaning machine.old) hart }
    ensures shows { ShowsOrStops (flat_made (meaning machine.old) hart).console
        (flat_line_from lines (meaning machine.old) hart)
        (places (C.state console.old) shown.old (R.state report.old) told.old)
        (places (C.state console.new) shown.new (R.state report.new) told.new) result }
{
    let step = machine.steps() + 1;
    let before = seen(machine, hart);
    let kind = machine.step(hart, events);
    match shown.add(console, events) {
        Ok(()) => match put_line(lines, step, hart, before, kind, told, report) {
            Ok(()) => Ok(()),
            Err(Failed) => Err(SinkFault::Report),
        },
        Err(Failed) => Err(SinkFault::Console),
    }
}

// Puts the line of a turn where it has one.
fn put_line<R: Sink>(
    lines: Lines,
    step: u64,
    hart: u32,
    before: Option<Seen>,
    kind: TurnKind,
    told: &mut Tail,
    report: &mut R,
) -> Result<(), Failed>
    requires { IfSome before (λ seen. IfSome seen.inst IsValid) }
    ensures passes { Passes told.old (R.state report.old) (R.state report.new) told.new
        (line_text lines step hart before kind None) result }
    ensures few { OnOk result (length told.new < piece_bytes) }
{
    if step < lines.from {
        told.put(report, b"")
    } else {
        put_turn(told, report, step, hart, before, kind)
    }
}

// Puts the lines of a turn where it has any.
fn put_lines<R: Sink>(
    lines: Lines,
    step: u64,
    hart: u32,
    seen: Seen,
    turned: Turned,
    before: &Held,
    after: &Held,
    told: &mut Tail,
    report: &mut R,
) -> Result<(), Failed>
    requires seen { IfSome seen.inst IsValid }
    requires turned { IfSome turned.inst IsValid }
    ensures passes { Passes told.old (R.state report.old) (R.state report.new) told.new
        (line_text lines step hart (Some seen) turned.kind
        (Some (deed turned before.now after.now))) result }
    ensures few { OnOk result (length told.new < piece_bytes) }
{
    if step < lines.from {
        return told.put(report, b"");
    }
    put_turn(told, report, step, hart, Some(seen), turned.kind)?;
    put_did(told, report, turned, before, after)
}

// What is held of a hart before or after a turn.
fn held(machine: &AnyMachine, hart: u32) -> Held
    requires { hart < length (meaning machine.now).core.harts }
    ensures { result ≡ held_of (meaning machine.now).core hart }
{
    let place = machine.place(hart);
    let regs = *machine.regs(hart);
    Held {
        domain: place.domain,
        waits: is_waiting(place.status),
        regs,
    }
}

// Whether a hart waits on a call.
fn is_waiting(status: HartStatus) -> bool
    ensures { result ≡ is_waiting status }
{
    match status {
        HartStatus::Waiting => true,
        _ => false,
    }
}

// What stands at a hart before its turn, or nothing where there is no such hart.
fn seen(machine: &AnyMachine, hart: u32) -> Option<Seen>
    ensures seen { result ≡ seen_at (flat_reads (meaning machine.now)) (meaning machine.now).core hart }
    ensures valid { IfSome result (λ seen. IfSome seen.inst IsValid) }
{
    if hart < machine.harts() {
        Some(seen_of(machine, hart))
    } else {
        None
    }
}

// What stands at a hart before its turn.
fn seen_of(machine: &AnyMachine, hart: u32) -> Seen
    requires { hart < length (meaning machine.now).core.harts }
    ensures seen { result ≡ seen_of (flat_reads (meaning machine.now)) (meaning machine.now).core hart }
    ensures valid { IfSome result.inst IsValid }
{
    let place = machine.place(hart);
    Seen {
        domain: place.domain,
        pc: place.pc,
        inst: machine.instruction(hart),
    }
}

// Ends a trace that was to reach so many turns: what the buffers hold leaves, and after it the end line.
fn end_trace<C: Sink, R: Sink>(
    target: u64,
    machine: &AnyMachine,
    shown: &mut Tail,
    console: &mut C,
    told: &mut Tail,
    report: &mut R,
) -> Result<(), SinkFault>
    ensures { Closes (end_text target (meaning machine.now).core)
        (places (C.state console.old) shown.old (R.state report.old) told.old)
        (places (C.state console.new) shown.new (R.state report.new) told.new) result }
{
    match shown.end(console) {
        Ok(()) => match put_end_line(target, machine, told, report) {
            Ok(()) => Ok(()),
            Err(Failed) => Err(SinkFault::Report),
        },
        Err(Failed) => {
            let _ = told.end(report);
            Err(SinkFault::Console)
        }
    }
}

// Puts what the report's buffer holds, and the end line.
fn put_end_line<R: Sink>(
    target: u64,
    machine: &AnyMachine,
    told: &mut Tail,
    report: &mut R,
) -> Result<(), Failed>
    ensures { Puts (R.state report.old) (R.state report.new)
        (told.old ++ end_text target (meaning machine.now).core) result }
{
    put_end(told, report, machine.steps(), end_of_any(target, machine))?;
    told.end(report)
}
