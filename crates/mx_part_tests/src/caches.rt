//! The places of a hart, and its newest spans.
use mx_caches::{Lookaside, Sidecars};
use mx_words::{Perm, Span};
use std::process::Abort;

/// What stands in a place for a word, or in a buffer for a domain's word.
type Row = (u32, u32, Option<Span>);

fn span(first: u32, count: u32, perm: Perm) -> Span {
    Span { first, count, perm }
}

/// Read-write on words 16 to 19.
const FOUR: Span = Span {
    first: 16,
    count: 4,
    perm: Perm::ReadWrite,
};

/// Read-write on word 18.
const ONE: Span = Span {
    first: 18,
    count: 1,
    perm: Perm::ReadWrite,
};

/// What places answer where place 0 has the four words and place 31 the one.
static IN_PLACES: [Row; 10] = [
    (0, 15, None),
    (0, 16, Some(FOUR)),
    (0, 18, Some(FOUR)),
    (0, 19, Some(FOUR)),
    (0, 20, None),
    (31, 15, None),
    (31, 16, None),
    (31, 18, Some(ONE)),
    (31, 19, None),
    (31, 20, None),
];

/// Compares what places answer: a place, a word, and the span there that has the word.
fn places_tell(rt: &impl Abort, places: &Sidecars, rows: &[Row]) {
    for (place, word, want) in rows {
        assert!(rt; *place < 32);
        assert_eq!(rt;
            places.find(*place, *word),
            *want,
            "place {place}, word {word}"
        );
    }
}

#[test]
fn places_answer_for_their_own_span(rt: HostRuntime) {
    let mut places = Sidecars::new();
    places_tell(&rt, &places, &[(31, 0, None)]);
    places.keep(0, FOUR);
    places.keep(31, ONE);
    places_tell(&rt, &places, &IN_PLACES);
    places.drop_overlap(17, 0);
    places.drop_overlap(12, 4);
    places.drop_overlap(20, 100);
    places_tell(&rt, &places, &[(0, 16, Some(FOUR))]);
    places.drop_overlap(19, 1);
    places_tell(&rt, &places, &[(0, 16, None), (31, 18, Some(ONE))]);
    places.clear();
    places_tell(&rt, &places, &[(31, 18, None)]);
}

/// Compares what a buffer answers: a domain, a word, and the domain's newest span that has the word.
fn buffer_tells(rt: &impl Abort, buffer: &Lookaside<8>, rows: &[Row]) {
    for (domain, word, want) in rows {
        assert_eq!(rt;
            buffer.find(*domain, *word),
            *want,
            "domain {domain}, word {word}"
        );
    }
}

/// The newest span of domain 1.
const NEWEST: Span = Span {
    first: 90,
    count: 11,
    perm: Perm::ExecuteRead,
};

/// The oldest span of domain 3 that is left.
const OLDEST_LEFT: Span = Span {
    first: 2450,
    count: 10,
    perm: Perm::Read,
};

/// What `turned_round` answers.
static IN_BUFFER: [Row; 9] = [
    (1, 100, Some(NEWEST)),
    (
        1,
        101,
        Some(Span {
            first: 96,
            count: 16,
            perm: Perm::Read,
        }),
    ),
    (
        2,
        100,
        Some(Span {
            first: 100,
            count: 1,
            perm: Perm::ReadWrite,
        }),
    ),
    (2, 101, None),
    (3, 2440, None),
    (3, 2449, None),
    (3, 2450, Some(OLDEST_LEFT)),
    (
        3,
        2499,
        Some(Span {
            first: 2490,
            count: 10,
            perm: Perm::Read,
        }),
    ),
    (3, 2500, None),
];

/// What it answers once all spans with word 101 are dropped.
static LEFT_IN_BUFFER: [Row; 3] = [
    (1, 101, None),
    (1, 100, Some(NEWEST)),
    (3, 2450, Some(OLDEST_LEFT)),
];

/// Entries of two domains that cover word 100, in a buffer of 8 that has turned round its ring more than once.
fn turned_round() -> Lookaside<8> {
    let mut buffer: Lookaside<8> = Lookaside::new();
    for at in 0..150 {
        buffer.keep(3, span(1000 + 10 * at, 10, Perm::Read));
    }
    buffer.keep(1, span(96, 16, Perm::Read));
    buffer.keep(2, span(100, 1, Perm::ReadWrite));
    buffer.keep(1, NEWEST);
    buffer
}

#[test]
fn the_newest_of_the_domain_answers(rt: HostRuntime) {
    buffer_tells(&rt, &Lookaside::new(), &[(1, 100, None)]);
    let mut buffer = turned_round();
    buffer_tells(&rt, &buffer, &IN_BUFFER);
    buffer.drop_overlap(100, 0);
    buffer.drop_overlap(101, 1);
    buffer_tells(&rt, &buffer, &LEFT_IN_BUFFER);
    buffer.clear();
    buffer_tells(&rt, &buffer, &[(1, 100, None)]);
}
