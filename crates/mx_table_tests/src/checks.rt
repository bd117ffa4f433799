//! Worked runs of a checker over tables that count what they are asked, and over tries.
mod counted;
mod runs;

use counted::Counted;
use mx_check::{Checker, Counts, Flight, Flights};
use mx_packed::Packed;
use mx_plain::two_domains;
use mx_trie::{LeafForm, Trie, Vector};
use mx_words::{Perm, Span};
use runs::{visits, withdrawal, withdrawn};
use std::alloc::Global;
use std::process::Abort;
use std::test::Fail;

/// Execute-read on word 0.
const OWN: Span = Span {
    first: 0,
    count: 1,
    perm: Perm::ExecuteRead,
};

/// Read-write on word 0.
const OTHER: Span = Span {
    first: 0,
    count: 1,
    perm: Perm::ReadWrite,
};

/// Read on words 1024 to 1027.
const SHARED: Span = Span {
    first: 1024,
    count: 4,
    perm: Perm::Read,
};

/// What `visits` answers, and the tables' count of lookups then.
type Visited = ([bool; 4], Counts, u64);

/// What `visits` answers over tables of two domains, and how many other questions the tables count.
fn visited(alloc: Global) -> Option<(Visited, u64)> {
    let tables = two_domains::<Counted>(alloc, OWN, OTHER).ok()?;
    let mut checker = Checker::<Counted, 8>::new(tables, 1);
    let (answers, counts) = visits(&mut checker);
    let tables = checker.tables();
    Some(((answers, counts, tables.inner.lookups), tables.questions()))
}

/// The same over a trie.
fn visited_in_trie<L: LeafForm>(alloc: Global) -> Option<Visited> {
    let tables = two_domains::<Trie<L>>(alloc, OWN, OTHER).ok()?;
    let mut checker = Checker::<Trie<L>, 8>::new(tables, 1);
    let (answers, counts) = visits(&mut checker);
    Some((answers, counts, checker.tables().lookups))
}

/// Compares what `visits` answers over any tables.
fn visits_tell(rt: &impl Abort, seen: Option<Visited>) {
    let counts = Counts {
        sidecar: 1,
        lookaside: 1,
        walks: 2,
    };
    assert_eq!(rt; seen, Some(([false, true, true, false], counts, 2)));
}

#[test]
fn entries_belong_to_a_domain(rt: HostRuntime) -> Result<(), Fail> {
    let (seen, questions) = visited(rt.alloc()).ok_or("no tables")?;
    visits_tell(&rt, Some(seen));
    assert_eq!(rt; questions, 0);
    Ok(())
}

#[test]
fn entries_belong_to_a_domain_over_a_multilevel_trie(rt: HostRuntime) {
    visits_tell(&rt, visited_in_trie::<Vector>(rt.alloc()));
}

#[test]
fn entries_belong_to_a_domain_over_a_packed_trie(rt: HostRuntime) {
    visits_tell(&rt, visited_in_trie::<Packed>(rt.alloc()));
}

#[test]
fn a_call_waits_for_the_other_hart(rt: HostRuntime) -> Result<(), Fail> {
    let own = Span {
        first: 0,
        count: 14,
        perm: Perm::ExecuteRead,
    };
    let other = Span {
        first: 2048,
        count: 1,
        perm: Perm::Read,
    };
    let Ok(tables) = two_domains::<Counted>(rt.alloc(), own, other) else {
        return Err("no tables")?;
    };
    let mut checker = Checker::<Counted, 8>::new(tables, 2);
    checker.announce(0, 0, 4);
    checker.hear(1);
    checker.announce(1, 2, 4);
    let first = checker.ready(0);
    assert!(rt; first);
    let early = checker.ready(1);
    assert!(rt; !early);
    checker.hear(0);
    let late = checker.ready(1);
    assert!(rt; late);
    assert!(rt; checker.heard(0, 1));
    Ok(())
}

#[test]
#[tactic(auto, unfolding(mx_words::specs::Counting::list_below))]
fn a_heard_call_takes_effect(rt: HostRuntime) -> Result<(), Fail> {
    let Ok(tables) = two_domains::<Counted>(rt.alloc(), OWN, SHARED) else {
        return Err("no tables")?;
    };
    let mut flights = Flights::new();
    flights.push(Flight {
        hart: 0,
        first: 1024,
        count: 4,
        heard: [false, true, false, false],
    });
    let mut checker = Checker::<Counted, 8>::resume(tables, 2, &flights);
    let before = checker.perm(2, 1024);
    assert_eq!(rt; before, Perm::Read);
    let ready = checker.ready(0);
    assert!(rt; ready);
    let change = withdrawal();
    let changed = checker.change(0, &change);
    assert!(rt; changed.is_ok());
    checker.finish(0);
    checker.halt(1);
    let heard = checker.heard(0, 1);
    assert!(rt; !heard);
    Ok(())
}

/// The counts of a hart whose buffer answered nothing.
fn counts_of(sidecar: u64, walks: u64) -> Counts {
    Counts {
        sidecar,
        lookaside: 0,
        walks,
    }
}

/// What `withdrawn` answers, and the tables' count of lookups then.
type Withdrawn = (Option<[(bool, Counts); 5]>, u64);

/// The same over tables of two domains.
fn withdrawn_in_segments(alloc: Global) -> Option<Withdrawn> {
    let tables = two_domains::<Counted>(alloc, OWN, SHARED).ok()?;
    let mut checker = Checker::<Counted, 8>::new(tables, 2);
    let seen = withdrawn(&mut checker);
    Some((seen, checker.tables().inner.lookups))
}

/// The same over a trie.
fn withdrawn_in_trie<L: LeafForm>(alloc: Global) -> Option<Withdrawn> {
    let tables = two_domains::<Trie<L>>(alloc, OWN, SHARED).ok()?;
    let mut checker = Checker::<Trie<L>, 8>::new(tables, 2);
    let seen = withdrawn(&mut checker);
    Some((seen, checker.tables().lookups))
}

/// Compares what `withdrawn` answers over any tables.
fn withdrawals_tell(rt: &impl Abort, seen: Option<Withdrawn>) {
    let heard = [
        (true, counts_of(0, 1)),
        (true, counts_of(0, 2)),
        (true, counts_of(0, 3)),
        (false, counts_of(0, 4)),
        (false, counts_of(1, 4)),
    ];
    assert_eq!(rt; seen, Some((Some(heard), 4)));
}

#[test]
fn a_withdrawal_reaches_the_other_hart(rt: HostRuntime) {
    withdrawals_tell(&rt, withdrawn_in_segments(rt.alloc()));
}

#[test]
fn a_withdrawal_reaches_the_other_hart_over_a_multilevel_trie(rt: HostRuntime) {
    withdrawals_tell(&rt, withdrawn_in_trie::<Vector>(rt.alloc()));
}

#[test]
fn a_withdrawal_reaches_the_other_hart_over_a_packed_trie(rt: HostRuntime) {
    withdrawals_tell(&rt, withdrawn_in_trie::<Packed>(rt.alloc()));
}
