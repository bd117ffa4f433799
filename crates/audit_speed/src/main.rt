//! Times audits: `audit_speed KIB`. The first machine has 63 modules, each with gates for four others, in a RAM of 64
//! MiB, with four
//! harts. The second one has a RAM of so many KiB, 128 to 65536 and a multiple of 4: a module in it lets another one
//! write each second
//! word of its heap area, takes the gate into itself away and is left, so that each word of the heap area ends a run of
//! sealed words.
//! It prints what the audits found to stdout, and to stderr the processor time of each.
#![tactic(auto)]

mod machines;

use machines::{wide, worst};
use mx_any::AnyMachine;
use mx_audit::{Audit, audit};
use std::alloc::Global;
use std::time::CpuClock;
use std::{env, io};

fn main(rt: HostRuntime) -> io::Result<()> {
    let mut args = env::args(&rt)?;
    let _name = args.next();
    let kib = args.next().and_then(|word| word.parse::<u32>().ok());
    let Some(kib) = kib else {
        return eprintln!(rt; "audit_speed KIB");
    };
    match wide(rt.alloc()) {
        Some(machine) => time(&rt, rt.alloc(), "wide", machine)?,
        None => eprintln!(rt; "no wide machine")?,
    }
    match worst(rt.alloc(), kib) {
        Some(machine) => time(&rt, rt.alloc(), "worst", machine),
        None => eprintln!(rt; "no worst machine"),
    }
}

/// Audits a machine, which is then let go, and tells what that took.
fn time(
    rt: &(impl Print + Eprint + CpuClock),
    alloc: Global,
    name: &str,
    machine: AnyMachine,
) -> io::Result<()> {
    let begun = rt.thread_cpu_time();
    let found = audit(alloc, &machine);
    let ended = rt.thread_cpu_time();
    machine.end();
    match found {
        Ok(found) => tell(rt, name, &found)?,
        Err(_) => eprintln!(rt; "{name}: no memory")?,
    }
    let taken = ended?.checked_sub(begun?).unwrap_or_default();
    eprintln!(rt; "{name}: microseconds={}", taken.as_micros())
}

/// Prints how many domains are live, how many runs of sealed words there are, and how many such words.
fn tell(rt: &impl Print, name: &str, found: &Audit) -> io::Result<()> {
    println!(rt;
        "{name}: live={} runs={} words={}",
        live_of(found),
        found.sealed.len(),
        words_of(found)
    )
}

fn live_of(found: &Audit) -> u32 {
    let mut count: u32 = 0;
    for live in &found.live {
        if *live {
            count = count.wrapping_add(1);
        }
    }
    count
}

fn words_of(found: &Audit) -> u64 {
    let mut words: u64 = 0;
    for i in 0..found.sealed.len() {
        words = words.wrapping_add(found.sealed.get(i).count as u64);
    }
    words
}
