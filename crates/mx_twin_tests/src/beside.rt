//! Twin runs beside a plain body: after each pair of turns all words are compared by the rule of agreement.

use crate::machines::{
    AT_THE_START, Asked, MULTILEVEL, PACKED, SEGMENTS, go_on, next_hart, pair, step, watch,
};
use crate::pairs::{PAIRS, Side, text};
use crate::plain::fails;
use mx_any::AnyMachine;
use mx_model::Events;
use mx_twin::TwinEnd;
use std::alloc::Global;
use std::test::Fail;

/// What a twin run comes to, by the plain body.
fn plain_end(a: &mut AnyMachine, b: &mut AnyMachine, asked: Asked) -> Option<TwinEnd> {
    if fails(a, b, asked.domain) {
        return Some(AT_THE_START);
    }
    let mut left = Events::new();
    let mut right = Events::new();
    for made in 0..asked.steps {
        let hart = next_hart(a, asked.quantum, made)?;
        let (kind, _) = step(a, b, hart, &mut left, &mut right)?;
        if fails(a, b, asked.domain) {
            return Some(TwinEnd::Ended {
                step: made + 1,
                hart,
                kind,
            });
        }
    }
    Some(TwinEnd::Agreed)
}

/// Whether a twin run of no step says of two machines as they stand, for each domain, what the plain body says.
fn is_told(a: &mut AnyMachine, b: &mut AnyMachine) -> bool {
    for domain in [1, 2] {
        let end = if fails(a, b, domain) {
            AT_THE_START
        } else {
            TwinEnd::Agreed
        };
        let asked = Asked {
            domain,
            quantum: 1,
            steps: 0,
        };
        if watch(a, b, asked) != Some(end) {
            return false;
        }
    }
    true
}

/// After how many of so many turns both say the same, up to the first after which they don't.
fn told(a: &mut AnyMachine, b: &mut AnyMachine, quantum: u32, turns: u64) -> Option<u64> {
    let mut left = Events::new();
    let mut right = Events::new();
    for made in 0..turns {
        if !is_told(a, b) {
            return Some(made);
        }
        let hart = next_hart(a, quantum, made)?;
        step(a, b, hart, &mut left, &mut right)?;
    }
    Some(turns)
}

/// The same of the machines of two texts.
fn told_of(alloc: Global, first: &str, second: &str, quantum: u32, turns: u64) -> Option<u64> {
    let (mut a, mut b) = pair(alloc, first, second)?;
    let count = told(&mut a, &mut b, quantum, turns);
    a.end();
    b.end();
    count
}

/// Also where agreement failed before, and where it comes back.
#[test]
fn agreement_is_tested_rightly_after_each_turn(rt: HostRuntime) -> Result<(), Fail> {
    for pair in &PAIRS {
        let name = pair.name;
        let one = text(rt.alloc(), SEGMENTS, pair, Side::First)?;
        let two = text(rt.alloc(), PACKED, pair, Side::Second)?;
        let count = told_of(rt.alloc(), one.as_str(), two.as_str(), pair.quantum, 40);
        assert_eq!(rt; count, Some(40), "{name}");
    }
    Ok(())
}

/// How many rounds are made.
const ROUNDS: u32 = 8;

/// A round: a twin run of seven steps in a and b, the plain body in the machines c and d, and then three turns more in
/// all. Whether
/// both come to the same.
fn is_same_round(
    a: &mut AnyMachine,
    b: &mut AnyMachine,
    c: &mut AnyMachine,
    d: &mut AnyMachine,
    domain: u32,
    quantum: u32,
) -> bool {
    let asked = Asked {
        domain,
        quantum,
        steps: 7,
    };
    let end = watch(a, b, asked);
    let plain = plain_end(c, d, asked);
    let on = go_on(a, b, quantum, 3);
    let plain_on = go_on(c, d, quantum, 3);
    end.is_some() && end == plain && on.is_some() && plain_on.is_some()
}

/// How many rounds come to the same, of the two domains one after another, up to the first that doesn't.
fn same_rounds(
    a: &mut AnyMachine,
    b: &mut AnyMachine,
    c: &mut AnyMachine,
    d: &mut AnyMachine,
    quantum: u32,
) -> u32 {
    for round in 0..ROUNDS {
        if !is_same_round(a, b, c, d, 1 + round % 2, quantum) {
            return round;
        }
    }
    ROUNDS
}

/// The same of the machines of two texts.
fn rounds_of(alloc: Global, first: &str, second: &str, quantum: u32) -> Option<u32> {
    let (mut a, mut b) = pair(alloc, first, second)?;
    let rounds = match pair(alloc, first, second) {
        Some((mut c, mut d)) => {
            let rounds = same_rounds(&mut a, &mut b, &mut c, &mut d, quantum);
            c.end();
            d.end();
            Some(rounds)
        }
        None => None,
    };
    a.end();
    b.end();
    rounds
}

/// The rounds after the first begin inside calls, while a call waits, and where agreement fails.
#[test]
fn a_twin_run_ends_where_the_plain_body_does(rt: HostRuntime) -> Result<(), Fail> {
    for pair in &PAIRS {
        let name = pair.name;
        let one = text(rt.alloc(), MULTILEVEL, pair, Side::First)?;
        let two = text(rt.alloc(), PACKED, pair, Side::Second)?;
        let rounds = rounds_of(rt.alloc(), one.as_str(), two.as_str(), pair.quantum);
        assert_eq!(rt; rounds, Some(ROUNDS), "{name}");
    }
    Ok(())
}
