//! The gates.
ghost use Rattle.std.specs.Prelude.{◌≡◌, ◌≤◌, false, [], IfOk};
ghost use Rattle.mx_words.specs.Limits.{most_gates};
ghost use Rattle.mx_model.specs.Gates.{has_gate};
ghost use Rattle.mx_snapshot.specs.Fields.{gate_in};
ghost use Rattle.mx_snapshot.specs.Reader.{list_of, number, such};
ghost use Rattle.mx_snapshot.specs.Rules.{is_free};
ghost use Rattle.mx_resume.specs.Parts.{head_seen};
ghost use Rattle.mx_resume.specs.Taking.{IsTaken};

use crate::SnapshotRefused;
use crate::head::Head;
use crate::reading::{between, number, out_of_range};
use mx_gates::Gates;
use mx_model::Gate;

/// The word of the next gate for a domain, at which the domain has none yet.
#[tactic(auto, using(crate::proofs::Places::target_there))]
fn gate_word(
    bytes: &[u8],
    at: &mut usize,
    words: u32,
    gates: &Gates,
    domain: u32,
) -> Result<u32, SnapshotRefused>
    ensures taken { IsTaken (λ n. n) (such (is_free words gates.now domain) number
        bytes.now at.old) at.new result }
    ensures free { IfOk result (λ n. has_gate gates.now domain n ≡ false) }
{
    let field = *at;
    let word = number(bytes, at)?;
    if words <= word || gates.target(domain, word).is_some() {
        return Err(out_of_range(field));
    }
    Ok(word)
}

/// The next gate.
#[tactic(auto, unfolding(mx_snapshot::specs::Fields::gate_in))]
fn gate(bytes: &[u8], at: &mut usize, head: &Head, gates: &Gates) -> Result<Gate, SnapshotRefused>
    ensures taken { IsTaken (λ g. g) (gate_in (head_seen head.now) gates.now bytes.now at.old)
        at.new result }
    ensures free { IfOk result (λ g. has_gate gates.now g.domain g.word ≡ false) }
{
    let domain = between(bytes, at, 1, head.modules)?;
    let word = gate_word(bytes, at, head.words, gates, domain)?;
    let target = between(bytes, at, 1, head.modules)?;
    Ok(Gate {
        domain,
        word,
        target,
    })
}

/// So many gates, at most as many as may stand.
pub(crate) fn read_gates(
    bytes: &[u8],
    at: &mut usize,
    head: &Head,
    count: u32,
) -> Result<Gates, SnapshotRefused>
    requires { count ≤ most_gates }
    ensures { IsTaken (λ g. g)
        (list_of count (gate_in (head_seen head.now)) [] bytes.now at.old) at.new result }
{
    let mut gates = Gates::new();
    'gates: for _ in 0..count {
        let gate = gate(bytes, at, head, &gates)?;
        match gates.add(gate) {
            Ok(()) => {}
            Err(_) => unreachable!(),
        }
    }
    Ok(gates)
}
