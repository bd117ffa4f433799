//! Look-ups and changes of gates.

ghost use Rattle.std.specs.Prelude.{◌<◌};

use mx_gates::Gates;
use mx_model::Gate;

/// Gates of domain 2, 17 words apart. One more has stood there and is gone.
pub fn elsewhere(count: u32) -> Gates {
    let mut gates = Gates::new();
    put(&mut gates, 8);
    gates.remove(2, 8);
    for i in 0..count {
        put(&mut gates, i.wrapping_mul(17));
    }
    gates
}

/// The worst layout for look-ups of domain 2: 256 gates of its own in one bucket, and between them as many words of the
/// same
/// bucket without a gate.
pub fn in_one_bucket(between: &mut [u32; 256]) -> Gates {
    let mut gates = Gates::new();
    let mut seen = 0u32;
    for word in 0..2097152u32 {
        if (word + 61 * (word / 1024)) % 2048 == 0 && seen < 512 {
            if seen % 2 == 0 {
                put(&mut gates, word);
            } else {
                between[(seen / 2) as usize] = word;
            }
            seen += 1;
        }
    }
    gates
}

/// Adds a gate of domain 2 into domain 3.
fn put(gates: &mut Gates, word: u32) {
    let gate = Gate {
        domain: 2,
        word,
        target: 3,
    };
    let _ = gates.add(gate);
}

/// The words of the gates.
pub fn words_of(gates: &Gates) -> [u32; 256] {
    let mut words = [0; 256];
    for i in 0..256u32 {
        if let Some(gate) = gates.get(i) {
            words[i as usize] = gate.word;
        }
    }
    words
}

/// The words 0 to 255.
pub fn first_words() -> [u32; 256] {
    let mut words = [0; 256];
    for i in 0..256u32 {
        words[i as usize] = i;
    }
    words
}

/// How often a gate of this domain was found at words drawn from these.
pub fn gates_found(gates: &Gates, domain: u32, words: &[u32; 256], rounds: u64) -> u64 {
    let mut found = 0u64;
    for i in 0..rounds {
        if gates.target(domain, words[draw(i)]).is_some() {
            found = found.wrapping_add(1);
        }
    }
    found
}

/// How often the list's oldest gate could be added again, which takes it from the list's front to its end.
pub fn gates_added(gates: &mut Gates, rounds: u64) -> u64 {
    let mut added = 0u64;
    for _ in 0..rounds {
        let Some(gate) = gates.get(0) else {
            break;
        };
        if gates.add(gate).is_ok() {
            added = added.wrapping_add(1);
        }
    }
    added
}

/// A number below 256 for each round, with no order that the processor could guess.
fn draw(i: u64) -> usize
    ensures { result < 256 }
{
    (i.wrapping_mul(0x9E37_79B9_7F4A_7C15) >> 56) as usize
}
