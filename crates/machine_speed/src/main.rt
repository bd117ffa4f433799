//! Times turns of a machine with packed tables and lookaside buffers of 32 spans: `machine_speed PROGRAM WAY TURNS`.
//! The programs are `compute`, a loop of load, add, mul, store, add and branch; `registers`, fourteen operations on
//! registers and a branch; `taken` and `passed`, a loop of pairs of add and a branch that is always taken or never;
//! `gates`, a loop of calls through a gate and back; `blocks`, a loop of alloc, store and free of 16 words; and
//! `grants`, the same with a grant of the block. The ways are `rows`, by as many turns in a row as go, as a program's
//! run makes them; a number, the same with at most so many turns in a row; and `steps`, by one call of `step` for each.
//! It prints pc and registers of the hart afterwards to stdout, and to stderr the processor time that the turns took.
#![tactic(auto)]

mod programs;
mod turns;

use crate::programs::{Program, machine_of};
use crate::turns::Way;
use mx_machine::HartView;
use mx_machine_tests::small::Small;
use mx_model::Events;
use std::time::CpuClock;
use std::{env, io};

fn main(rt: HostRuntime) -> io::Result<()> {
    let mut args = env::args(&rt)?;
    let _name = args.next();
    let program = args.next().and_then(|word| Program::named(word.as_str()));
    let way = args.next().and_then(|word| Way::named(word.as_str()));
    let turns = args.next().and_then(|word| word.parse::<u64>().ok());
    let (Some(program), Some(way), Some(turns)) = (program, way, turns) else {
        return eprintln!(rt; "machine_speed PROGRAM WAY TURNS");
    };
    match machine_of(rt.alloc(), program) {
        Some(mut machine) => time(&rt, &mut machine, way, turns),
        None => eprintln!(rt; "no memory"),
    }
}

/// Makes so many turns, and prints what they left and what they took.
fn time(
    rt: &(impl Print + Eprint + CpuClock),
    machine: &mut Small,
    way: Way,
    turns: u64,
) -> io::Result<()> {
    let mut events = Events::new();
    let begun = rt.thread_cpu_time()?;
    turns::make(machine, way, turns, &mut events);
    let ended = rt.thread_cpu_time()?;
    if machine.harts() > 0 {
        show(rt, &machine.hart(0))?;
    }
    let taken = ended.checked_sub(begun).unwrap_or_default();
    eprintln!(rt; "turns={turns} microseconds={}", taken.as_micros())
}

/// Prints pc and registers.
fn show(rt: &impl Print, view: &HartView) -> io::Result<()> {
    println!(rt; "pc {:08x}", view.pc)?;
    for (r, value) in view.regs.iter().enumerate() {
        println!(rt; "x{r} {value:08x}")?;
    }
    Ok(())
}
