//! Pairs of machines that differ in what one module does or is, and the turn after which the other module sees that.
//! Expected ends are
//! written by hand from the rules.

use crate::machines::{Asked, MULTILEVEL, PACKED, SEGMENTS, twin_after};
use mx_model::TurnKind;
use mx_twin::TwinEnd;
use std::alloc::Global;
use std::string::String;
use std::test::Fail;

/// Two machines of the modules a and b.
pub(crate) struct Pair {
    /// What b does.
    pub(crate) name: &'static str,
    /// The module a in each.
    a: [&'static str; 2],
    /// The words of b in each.
    b: [&'static [&'static str]; 2],
    /// The lines that follow in both: gates of b, and the harts.
    rest: &'static str,
    /// How many turns a hart makes in a row.
    pub(crate) quantum: u32,
    /// The turn after which agreement for a fails, its hart, and its kind in each.
    end: Option<(u64, u32, TurnKind, TurnKind)>,
}

/// A machine of a pair.
#[derive(Clone, Copy)]
pub(crate) enum Side {
    First,
    Second,
}

/// A module a that jumps to itself. Through its gate one comes to an EBREAK.
const LOOPING: &str = "[[module]]
name = \"a\"
at = 0x80000000
perm = \"rx\"
words = [0x0000006F, 0x00100073]
gates = [{ entry = 0x80000004, from = [\"b\"] }]
";

/// The same, killing.
const KILLING: &str = "[[module]]
name = \"a\"
at = 0x80000000
perm = \"rx\"
words = [0x0000006F, 0x00100073]
gates = [{ entry = 0x80000004, from = [\"b\"] }]
on_fault = \"kill\"
";

/// A module a that calls b, loads the first word of b's stack area, and jumps to itself.
const CALLING: &str = "[[module]]
name = \"a\"
at = 0x80000000
perm = \"rx\"
words = [0x800012B7, 0x000280E7, 0x800022B7, 0x0002A383, 0x0000006F]
";

/// The module b up to its words.
const B: &str = "[[module]]
name = \"b\"
at = 0x80001000
perm = \"rx\"
stack = 0x80002000
stack_words = 4
heap = 0x80003000
heap_words = 8
words = [";

/// A hart in each.
const TWO_HARTS: &str = "[[hart]]
module = \"a\"
[[hart]]
module = \"b\"
";

/// One hart, in b.
const IN_B: &str = "[[hart]]
module = \"b\"
";

/// One hart, in a, which may call b. At the twelfth word of b it returns.
const CALLED: &str = "gates = [{ entry = 0x80001000, from = [\"a\"] }]
returns = [0x8000102C]
[[hart]]
module = \"a\"
";

/// `lui a0, 0x80002`, `addi a1, zero, 4`, `addi a2, zero, 1`, `addi a3, zero, 1`, `addi a7, zero, 3`, `ecall`: b grants
/// a read of the
/// first word of its stack area.
const GRANT: &str = "0x80002537, 0x00400593, 0x00100613, 0x00100693, 0x00300893, 0x00000073, ";

/// The same of 16 bytes, and of 32.
const GRANT_16: &str = "0x80002537, 0x01000593, 0x00100613, 0x00100693, 0x00300893, 0x00000073, ";

const GRANT_32: &str = "0x80002537, 0x02000593, 0x00100613, 0x00100693, 0x00300893, 0x00000073, ";

/// The same of the first 16 bytes of b's heap area.
const GRANT_HEAP: &str = "0x80003537, 0x01000593, 0x00100613, 0x00100693, 0x00300893, 0x00000073, ";

/// The same of the first 8, without the `lui`.
const GRANT_BLOCK: &str = "0x00800593, 0x00100613, 0x00100693, 0x00300893, 0x00000073, ";

/// `lui a0, 0x80002`, `addi a1, zero, 4` or `8`, `addi a7, zero, 4`, `ecall`: b takes all others' rights away.
const REVOKE_4: &str = "0x80002537, 0x00400593, 0x00400893, 0x00000073, ";

const REVOKE_8: &str = "0x80002537, 0x00800593, 0x00400893, 0x00000073, ";

/// `addi a0, zero, 1` or `2`, `addi a7, zero, 6`, `ecall`: b allocates words.
const ALLOC_1: &str = "0x00100513, 0x00600893, 0x00000073, ";

const ALLOC_2: &str = "0x00200513, 0x00600893, 0x00000073, ";

/// `lui a0, 0x80003`, `addi a7, zero, 7` or `12`, `ecall`: b frees its first block, or asks who it is.
const FREE: &str = "0x80003537, 0x00700893, 0x00000073, ";

const ASK: &str = "0x80003537, 0x00C00893, 0x00000073, ";

/// `lui a0, 0x80001`, `addi a0, a0, 0` or `4`, `addi a1, zero, 1`, `addi a7, zero, 8`, `ecall`: a gate from a.
const GATE_AT_0: &str = "0x80001537, 0x00050513, 0x00100593, 0x00800893, 0x00000073, ";

const GATE_AT_4: &str = "0x80001537, 0x00450513, 0x00100593, 0x00800893, 0x00000073, ";

/// `lui a0, 0x80002`, `addi a1, zero, 5` or `6`, `addi a7, zero, 13`, `ecall`: an exchange in the word that is granted.
const EXCHANGE_5: &str = "0x80002537, 0x00500593, 0x00D00893, 0x00000073, ";

const EXCHANGE_6: &str = "0x80002537, 0x00600593, 0x00D00893, 0x00000073, ";

/// `lui t0, 0x80002`, `addi t1, zero, 5` or `6`, `sw t1, 0(t0)`: a store into it.
const STORE_5: &str = "0x800022B7, 0x00500313, 0x0062A023, ";

const STORE_6: &str = "0x800022B7, 0x00600313, 0x0062A023, ";

/// `addi t1, zero, 7`, and `sw t1, 0(t0)` or `addi zero, zero, 0`: a further store into it, or none.
const STORE_7: &str = "0x00700313, 0x0062A023, ";

const KEEP: &str = "0x00700313, 0x00000013, ";

/// `lui t0, 0x80000`, `jalr ra, 4(t0)`: a call of a.
const CALL_A: &str = "0x800002B7, 0x004280E7, ";

/// `jalr zero, 0(ra)`, `ebreak` and `jal zero, 0`.
const RETURN: &str = "0x00008067";

const EBREAK: &str = "0x00100073";

const LOOP: &str = "0x0000006F";

/// With two harts and a quantum of 1 the turn n of b's hart is step 2 n. Calls 3, 4, 6 and 7 take effect one turn of
/// theirs after the
/// ECALL, once a's hart has heard them.
pub(crate) static PAIRS: [Pair; 18] = [
    // The grant is the seventh turn, the store the tenth.
    Pair {
        name: "another value stored into a word that it granted before",
        a: [LOOPING, LOOPING],
        b: [&[GRANT, STORE_5, LOOP], &[GRANT, STORE_6, LOOP]],
        rest: TWO_HARTS,
        quantum: 1,
        end: Some((20, 1, TurnKind::Ran, TurnKind::Ran)),
    },
    // The store is the third turn; nine turns are made when the grant takes effect.
    Pair {
        name: "a grant of a word that differs",
        a: [LOOPING, LOOPING],
        b: [&[STORE_5, GRANT, LOOP], &[STORE_6, GRANT, LOOP]],
        rest: TWO_HARTS,
        quantum: 1,
        end: Some((20, 1, TurnKind::Called, TurnKind::Called)),
    },
    Pair {
        name: "a grant of 16 bytes and of 32",
        a: [LOOPING, LOOPING],
        b: [&[GRANT_16, LOOP], &[GRANT_32, LOOP]],
        rest: TWO_HARTS,
        quantum: 1,
        end: Some((14, 1, TurnKind::Called, TurnKind::Called)),
    },
    // Three turns of b's hart, three of a's, three with the ECALL, three of a's, and one.
    Pair {
        name: "a grant of 16 bytes and of 32, three turns in a row",
        a: [LOOPING, LOOPING],
        b: [&[GRANT_16, LOOP], &[GRANT_32, LOOP]],
        rest: TWO_HARTS,
        quantum: 3,
        end: Some((16, 1, TurnKind::Called, TurnKind::Called)),
    },
    // After its ECALL, step 14, b's hart waits for two turns, until a's hart has had its turns 17 to 20.
    Pair {
        name: "a grant of 16 bytes and of 32, four turns in a row",
        a: [LOOPING, LOOPING],
        b: [&[GRANT_16, LOOP], &[GRANT_32, LOOP]],
        rest: TWO_HARTS,
        quantum: 4,
        end: Some((21, 1, TurnKind::Called, TurnKind::Called)),
    },
    // Seven turns for the grant, four to the ECALL, and one.
    Pair {
        name: "four bytes revoked and eight",
        a: [LOOPING, LOOPING],
        b: [&[GRANT_16, REVOKE_4, LOOP], &[GRANT_16, REVOKE_8, LOOP]],
        rest: TWO_HARTS,
        quantum: 1,
        end: Some((24, 1, TurnKind::Called, TurnKind::Called)),
    },
    // Seven turns for the grant, three to the ECALL, and one.
    Pair {
        name: "a block of one word and of two where a might read",
        a: [LOOPING, LOOPING],
        b: [&[GRANT_HEAP, ALLOC_1, LOOP], &[GRANT_HEAP, ALLOC_2, LOOP]],
        rest: TWO_HARTS,
        quantum: 1,
        end: Some((22, 1, TurnKind::Called, TurnKind::Called)),
    },
    // Four turns for the block, six for the grant, three to the ECALL, and one, in which the second machine's hart
    // jumps.
    Pair {
        name: "a block that a may read, freed or not",
        a: [LOOPING, LOOPING],
        b: [
            &[ALLOC_2, GRANT_BLOCK, FREE, LOOP],
            &[ALLOC_2, GRANT_BLOCK, ASK, LOOP],
        ],
        rest: TWO_HARTS,
        quantum: 1,
        end: Some((28, 1, TurnKind::Called, TurnKind::Ran)),
    },
    // The gate stands after the fifth turn.
    Pair {
        name: "a gate at two words",
        a: [LOOPING, LOOPING],
        b: [&[GATE_AT_0, LOOP], &[GATE_AT_4, LOOP]],
        rest: TWO_HARTS,
        quantum: 1,
        end: Some((10, 1, TurnKind::Called, TurnKind::Called)),
    },
    // Seven turns for the grant, and four.
    Pair {
        name: "an exchange of two values",
        a: [LOOPING, LOOPING],
        b: [&[GRANT, EXCHANGE_5, LOOP], &[GRANT, EXCHANGE_6, LOOP]],
        rest: TWO_HARTS,
        quantum: 1,
        end: Some((22, 1, TurnKind::Called, TurnKind::Called)),
    },
    Pair {
        name: "a word that differs and stays unreadable",
        a: [LOOPING, LOOPING],
        b: [&[STORE_5, LOOP], &[STORE_6, LOOP]],
        rest: TWO_HARTS,
        quantum: 1,
        end: None,
    },
    // Two turns to the gate, the crossing, and the fault, by which a dies in the first machine alone.
    Pair {
        name: "a fault behind a gate of a module that is killing in one",
        a: [KILLING, LOOPING],
        b: [&[CALL_A, LOOP], &[CALL_A, LOOP]],
        rest: TWO_HARTS,
        quantum: 1,
        end: Some((8, 1, TurnKind::Trapped, TurnKind::Trapped)),
    },
    // No hart is in a after the fault. At the next call the first machine's is sent back and the second's enters.
    Pair {
        name: "the same with one hart, and a call again",
        a: [KILLING, LOOPING],
        b: [&[CALL_A, CALL_A, LOOP], &[CALL_A, CALL_A, LOOP]],
        rest: IN_B,
        quantum: 1,
        end: Some((7, 0, TurnKind::Returned, TurnKind::Crossed)),
    },
    Pair {
        name: "a fault behind a gate of a module that is killing in both",
        a: [KILLING, KILLING],
        b: [&[CALL_A, CALL_A, LOOP], &[CALL_A, CALL_A, LOOP]],
        rest: TWO_HARTS,
        quantum: 1,
        end: None,
    },
    // One hart: two turns to the gate, the crossing, eleven turns in b, and the turn that comes back.
    Pair {
        name: "a return once a word that differed is the same again",
        a: [CALLING, CALLING],
        b: [
            &[STORE_5, GRANT, STORE_7, RETURN],
            &[STORE_6, GRANT, STORE_7, RETURN],
        ],
        rest: CALLED,
        quantum: 1,
        end: None,
    },
    Pair {
        name: "a return while a word differs",
        a: [CALLING, CALLING],
        b: [
            &[STORE_5, GRANT, KEEP, RETURN],
            &[STORE_6, GRANT, KEEP, RETURN],
        ],
        rest: CALLED,
        quantum: 1,
        end: Some((15, 0, TurnKind::Returned, TurnKind::Returned)),
    },
    Pair {
        name: "a fault once a word that differed is the same again",
        a: [CALLING, CALLING],
        b: [
            &[STORE_5, GRANT, STORE_7, EBREAK],
            &[STORE_6, GRANT, STORE_7, EBREAK],
        ],
        rest: CALLED,
        quantum: 1,
        end: None,
    },
    Pair {
        name: "a fault while a word differs",
        a: [CALLING, CALLING],
        b: [
            &[STORE_5, GRANT, KEEP, EBREAK],
            &[STORE_6, GRANT, KEEP, EBREAK],
        ],
        rest: CALLED,
        quantum: 1,
        end: Some((15, 0, TurnKind::Trapped, TurnKind::Trapped)),
    },
];

fn add_all(text: &mut String, pieces: &[&str]) -> Result<(), Fail> {
    for piece in pieces {
        text.push_str(piece)?;
    }
    Ok(())
}

/// The manifest of a machine of a pair, whose first lines these are.
pub(crate) fn text(alloc: Global, kind: &str, pair: &Pair, side: Side) -> Result<String, Fail> {
    let (a, words) = match side {
        Side::First => (pair.a[0], pair.b[0]),
        Side::Second => (pair.a[1], pair.b[1]),
    };
    let mut text = format!(in alloc; "{kind}{a}{B}")?;
    add_all(&mut text, words)?;
    text.push_str("]\n")?;
    text.push_str(pair.rest)?;
    Ok(text)
}

/// What a twin run of a pair for a should come to where a machine of the pair is the first.
fn end(pair: &Pair, first: Side) -> TwinEnd {
    let Some((step, hart, one, other)) = pair.end else {
        return TwinEnd::Agreed;
    };
    let kind = match first {
        Side::First => one,
        Side::Second => other,
    };
    TwinEnd::Ended { step, hart, kind }
}

/// What a twin run for a comes to where a machine of the pair is the first, over tables of these kinds.
fn got(
    alloc: Global,
    pair: &Pair,
    first: Side,
    kinds: (&str, &str),
) -> Result<Option<TwinEnd>, Fail> {
    let second = match first {
        Side::First => Side::Second,
        Side::Second => Side::First,
    };
    let one = text(alloc, kinds.0, pair, first)?;
    let two = text(alloc, kinds.1, pair, second)?;
    let asked = Asked {
        domain: 1,
        quantum: pair.quantum,
        steps: 200,
    };
    Ok(twin_after(alloc, one.as_str(), two.as_str(), 0, asked))
}

#[test]
fn what_one_module_does_ends_agreement_for_another(rt: HostRuntime) -> Result<(), Fail> {
    for pair in &PAIRS {
        let name = pair.name;
        let forth = got(rt.alloc(), pair, Side::First, (SEGMENTS, PACKED))?;
        assert_eq!(rt; forth, Some(end(pair, Side::First)), "{name}");
        let back = got(rt.alloc(), pair, Side::Second, (PACKED, MULTILEVEL))?;
        assert_eq!(rt; back, Some(end(pair, Side::Second)), "{name}");
    }
    Ok(())
}
