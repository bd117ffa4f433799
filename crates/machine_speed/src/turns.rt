//! Turns of a machine's hart 0.
ghost use Rattle.std.specs.Prelude.{◌≤◌};

use mx_machine_tests::small::Small;
use mx_model::Events;

/// How turns are made.
#[derive(Clone, Copy, PartialEq, Eq)]
pub enum Way {
    /// As a program's run makes them: as many in a row as go, and where a row ends the next.
    Rows,
    /// The same in rows of at most so many turns.
    Short(u64),
    /// By one call of `step` for each.
    Steps,
}

impl Way {
    /// The way of a name: `rows`, `steps`, or how many turns a row has at most.
    pub fn named(name: &str) -> Option<Way> {
        match name {
            "rows" => Some(Way::Rows),
            "steps" => Some(Way::Steps),
            _ => match name.parse::<u64>() {
                Ok(most) if most > 0 => Some(Way::Short(most)),
                _ => None,
            },
        }
    }
}

/// Makes so many turns in this way, fewer where 2^64 - 1 were made.
pub fn make(machine: &mut Small, way: Way, turns: u64, events: &mut Events) {
    match way {
        Way::Rows => make_rows(machine, turns, u64::MAX, events),
        Way::Short(most) => make_rows(machine, turns, most.max(1), events),
        Way::Steps => make_steps(machine, turns, events),
    }
}

fn make_rows(machine: &mut Small, turns: u64, most: u64, events: &mut Events)
    requires { 1 ≤ most }
{
    let turns = turns.min(u64::MAX - machine.steps());
    let mut made = 0;
    'rows: while made < turns {
        let room = lesser(most, turns - made);
        let stretch = machine.run_on(0, room, events);
        made += stretch.ran + 1;
    }
}

fn lesser(a: u64, b: u64) -> u64
    requires a { 1 ≤ a }
    requires b { 1 ≤ b }
    ensures some { 1 ≤ result }
    ensures second { result ≤ b }
{
    if a < b { a } else { b }
}

fn make_steps(machine: &mut Small, turns: u64, events: &mut Events) {
    let turns = turns.min(u64::MAX - machine.steps());
    for _i in 0..turns {
        machine.step(0, events);
    }
}
