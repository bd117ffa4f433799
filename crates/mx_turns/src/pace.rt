//! Which hart makes each turn.

ghost use Rattle.std.specs.Prelude.{◌≡◌, ◌≤◌, ◌-◌, ◌/◌, ◌%◌, length, drop, IfSome};
ghost use Rattle.mx_model.specs.Run.{Schedule as Turns, ByQuantum};
ghost use Rattle.mx_model.specs.State.{Core};
ghost use Rattle.mx_turns.specs.Running.{schedule_of, HasTurns, IsNamed, IsPace, Leaves, PacesOn};

/// What names the hart of each turn.
#[derive(Clone, Copy)]
pub enum Schedule<'a> {
    /// The harts make so many turns each, in order.
    Quantum(u32),
    /// The bytes of a schedule file.
    Bytes(&'a [u8]),
}

/// A schedule at its place.
#[derive(Clone, Copy)]
pub enum Pace<'a> {
    /// The only hart makes all turns.
    Alone,
    /// The quantum, the number of the last hart, the hart whose turn is next, and how many turns of its quantum are
    /// left.
    Quantum(u64, u32, u32, u64),
    /// The bytes of the turns to come.
    Bytes(&'a [u8]),
}

/// A schedule of so many harts where so many turns were made.
pub fn begin(schedule: Schedule<'_>, harts: u32, made: u64) -> Pace<'_>
    requires harts { 1 ≤ harts }
    requires quantum { HasTurns schedule }
    ensures { (c : Core) → c.turns ≡ made → length c.harts ≡ harts →
        IsPace (schedule_of schedule.entry) c result }
{
    match schedule {
        Schedule::Quantum(quantum) => {
            if harts == 1 {
                Pace::Alone
            } else {
                begin_quantum(u64::from(quantum), harts, made)
            }
        }
        Schedule::Bytes(bytes) => Pace::Bytes(behind(bytes, made)),
    }
}

// A quantum where so many turns were made.
fn begin_quantum<'a>(quantum: u64, harts: u32, made: u64) -> Pace<'a>
    requires harts { 1 ≤ harts }
    requires quantum { 1 ≤ quantum }
    ensures { (c : Core) → c.turns ≡ made → length c.harts ≡ harts →
        IsPace (ByQuantum quantum) c result }
{
    let hart = made / quantum % u64::from(harts);
    Pace::Quantum(quantum, harts - 1, hart as u32, quantum - made % quantum)
}

// The bytes behind those of so many turns.
fn behind(bytes: &[u8], made: u64) -> &[u8]
    ensures { result.now ≡ drop made bytes.now }
{
    if made < bytes.len() as u64 {
        &bytes[made as usize..]
    } else {
        &bytes[bytes.len()..]
    }
}

/// The hart that makes the next turns, and how many of them, at most so many; or none where the schedule is at its end.
pub fn next_hart(pace: &Pace<'_>, most: u64) -> Option<(u32, u64)>
    requires some { 1 ≤ most }
    ensures named { (s : Turns) (c : Core) → IsPace s c pace.now → IsNamed s c most result }
    ensures leaves { IfSome result (λ next. Leaves pace.now next.1) }
{
    match *pace {
        Pace::Alone => Some((0, most)),
        Pace::Quantum(_, _, hart, left) => Some((hart, most.min(left))),
        Pace::Bytes(bytes) => {
            let (hart, _) = bytes.split_first()?;
            Some((u32::from(*hart), 1))
        }
    }
}

/// The same schedule so many turns of the next hart later.
pub fn later(pace: Pace<'_>, turns: u64) -> Pace<'_>
    requires some { 1 ≤ turns }
    requires leaves { Leaves pace turns }
    ensures { (s : Turns) (c : Core) → IsPace s c pace.entry → PacesOn s c turns result }
{
    match pace {
        Pace::Alone => Pace::Alone,
        Pace::Quantum(quantum, last, hart, left) => rotated(quantum, last, hart, left, turns),
        Pace::Bytes(bytes) => match bytes.split_first() {
            Some((_, rest)) => Pace::Bytes(rest),
            None => pace,
        },
    }
}

// The same quantum so many turns later.
fn rotated<'a>(quantum: u64, last: u32, hart: u32, left: u64, turns: u64) -> Pace<'a>
    requires some { 1 ≤ turns }
    requires leaves { turns ≤ left }
    ensures { (s : Turns) (c : Core) → IsPace s c (Pace.Quantum quantum last hart left) →
        PacesOn s c turns result }
{
    if turns < left {
        Pace::Quantum(quantum, last, hart, left - turns)
    } else if hart < last {
        Pace::Quantum(quantum, last, hart + 1, quantum)
    } else {
        Pace::Quantum(quantum, last, 0, quantum)
    }
}
