//! Times checks that a place of the sidecar answers: `check_speed ROUNDS` prints what was answered and counted to
//! stdout, and to
//! stderr the processor time that the checks took.
#![tactic(auto)]

mod hits;

use mx_plain::two_domains;
use mx_segments::Segments;
use mx_words::{Perm, Span};
use std::time::CpuClock;
use std::{env, io};

fn main(rt: HostRuntime) -> io::Result<()> {
    let mut args = env::args(&rt)?;
    let _name = args.next();
    let rounds = args.next().and_then(|word| word.parse::<u64>().ok());
    let own = Span {
        first: 0,
        count: 1024,
        perm: Perm::ExecuteRead,
    };
    let other = Span {
        first: 1024,
        count: 1024,
        perm: Perm::ReadWrite,
    };
    let (Some(rounds), Ok(tables)) = (rounds, two_domains::<Segments>(rt.alloc(), own, other))
    else {
        return eprintln!(rt; "check_speed ROUNDS, or no memory");
    };
    let mut checker = hits::fresh(tables);
    let begun = rt.thread_cpu_time()?;
    let allowed = hits::hits(&mut checker, rounds);
    let ended = rt.thread_cpu_time()?;
    let counts = checker.counts(0);
    println!(rt; "allowed {allowed}")?;
    println!(rt;
        "sidecar {} lookaside {} walks {}",
        counts.sidecar, counts.lookaside, counts.walks
    )?;
    let taken = ended.checked_sub(begun).unwrap_or_default();
    eprintln!(rt; "checks={rounds} microseconds={}", taken.as_micros())
}
