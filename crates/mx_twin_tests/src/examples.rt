//! Two worked examples, over tables of two kinds side by side, and machines whose harts are all halted. Expected ends
//! are written by
//! hand from the rules.

use crate::machines::{AT_THE_START, Asked, KINDS, PACKED, twin_after};
use mx_model::TurnKind;
use mx_twin::TwinEnd;
use std::test::Fail;

/// A module that calls another and stops, and that other, which answers 5.
const FIVE: &str = "[[module]]
name = \"a\"
at = 0x80000000
perm = \"rx\"
words = [0x800012B7, 0x000280E7, 0x00100073]
[[module]]
name = \"b\"
at = 0x80001000
perm = \"rx\"
words = [0x00500513, 0x00008067]
gates = [{ entry = 0x80001000, from = [\"a\"] }]
returns = [0x80001004]
[[hart]]
module = \"a\"
";

/// The same, answering 6.
const SIX: &str = "[[module]]
name = \"a\"
at = 0x80000000
perm = \"rx\"
words = [0x800012B7, 0x000280E7, 0x00100073]
[[module]]
name = \"b\"
at = 0x80001000
perm = \"rx\"
words = [0x00600513, 0x00008067]
gates = [{ entry = 0x80001000, from = [\"a\"] }]
returns = [0x80001004]
[[hart]]
module = \"a\"
";

/// A module that leaves with 5 at its third turn.
const LEAVES: &str = "[[module]]
name = \"m\"
at = 0x80000000
perm = \"rx\"
words = [0x00100893, 0x00500513, 0x00000073]
[[hart]]
module = \"m\"
";

/// The same with 6.
const LEAVES_OTHERWISE: &str = "[[module]]
name = \"m\"
at = 0x80000000
perm = \"rx\"
words = [0x00100893, 0x00600513, 0x00000073]
[[hart]]
module = \"m\"
";

const AT_THE_CROSSING: TwinEnd = TwinEnd::Ended {
    step: 3,
    hart: 0,
    kind: TurnKind::Crossed,
};

const AT_THE_RETURN: TwinEnd = TwinEnd::Ended {
    step: 5,
    hart: 0,
    kind: TurnKind::Returned,
};

/// Two manifests, a domain, the steps asked, and what a twin run comes to. In the third turn the hart enters the domain
/// whose words
/// differ, and in the fifth it leaves that with another answer.
static RUNS: [(&str, &str, u32, u64, TwinEnd); 9] = [
    (FIVE, SIX, 1, 10, AT_THE_RETURN),
    (FIVE, SIX, 1, 4, TwinEnd::Agreed),
    (FIVE, SIX, 1, 5, AT_THE_RETURN),
    (FIVE, FIVE, 1, 10, TwinEnd::Agreed),
    (FIVE, SIX, 2, 10, AT_THE_CROSSING),
    (FIVE, SIX, 2, 2, TwinEnd::Agreed),
    (LEAVES, LEAVES_OTHERWISE, 1, 10, AT_THE_START),
    (LEAVES, LEAVES_OTHERWISE, 1, 0, AT_THE_START),
    (LEAVES, LEAVES, 1, 10, TwinEnd::Agreed),
];

#[test]
fn examples_over_tables_of_two_kinds(rt: HostRuntime) -> Result<(), Fail> {
    for (kind, other) in &KINDS {
        for (first, second, domain, steps, end) in &RUNS {
            let first = format!(in rt.alloc(); "{kind}{first}")?;
            let second = format!(in rt.alloc(); "{other}{second}")?;
            let asked = Asked {
                domain: *domain,
                quantum: 1,
                steps: *steps,
            };
            let got = twin_after(rt.alloc(), first.as_str(), second.as_str(), 0, asked);
            assert_eq!(rt; got, Some(*end), "{first}\n{second}\n{domain} {steps}");
        }
    }
    Ok(())
}

/// Two manifests, the turns made before, and what a twin run of 9999999999 steps comes to. A hart that is halted in
/// both isn't
/// compared, so its words may differ.
static HALTED: [(&str, &str, u64, TwinEnd); 5] = [
    (FIVE, FIVE, 0, TwinEnd::Agreed),
    (LEAVES, LEAVES, 0, TwinEnd::Agreed),
    (LEAVES, LEAVES, 3, TwinEnd::Agreed),
    (LEAVES, LEAVES_OTHERWISE, 2, AT_THE_START),
    (LEAVES, LEAVES_OTHERWISE, 3, TwinEnd::Agreed),
];

#[test]
fn halted_machines_answer_at_once(rt: HostRuntime) -> Result<(), Fail> {
    for (first, second, turns, end) in &HALTED {
        let first = format!(in rt.alloc(); "{PACKED}{first}")?;
        let second = format!(in rt.alloc(); "{PACKED}{second}")?;
        let asked = Asked {
            domain: 1,
            quantum: 1,
            steps: 9999999999,
        };
        let got = twin_after(rt.alloc(), first.as_str(), second.as_str(), *turns, asked);
        assert_eq!(rt; got, Some(*end), "{first}\n{second}\n{turns}");
    }
    Ok(())
}
