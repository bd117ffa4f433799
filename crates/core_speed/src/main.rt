//! Times a loop through `exec` over a plain bus: `core_speed TURNS` prints the last pc and
//! registers to stdout, and to stderr the processor time that the turns took. A second word makes
//! the loop call `exec` at three places in turn; then TURNS is a multiple of 3.
#![tactic(auto)]

mod elsewhere;
mod program;

use elsewhere::Elsewhere;
use mx_core::Regs;
use std::time::CpuClock;
use std::{env, io};

fn main(rt: HostRuntime) -> io::Result<()> {
    let mut args = env::args(&rt)?;
    let _name = args.next();
    let turns = args.next().and_then(|word| word.parse::<u64>().ok());
    let at_three = args.next().is_some();
    let (Some(turns), Ok(mut bus)) = (turns, program::memory(rt.alloc())) else {
        return eprintln!(rt; "core_speed TURNS, or no memory");
    };
    let mut regs = Regs::new();
    let begun = rt.thread_cpu_time()?;
    let pc = if at_three {
        program::run_at_three(&mut Elsewhere { bus }, &mut regs, turns)
    } else {
        program::run(&mut bus, &mut regs, turns)
    };
    let ended = rt.thread_cpu_time()?;
    println!(rt; "pc {pc:08x}")?;
    for r in 0..32u32 {
        println!(rt; "x{r} {:08x}", regs.get(r))?;
    }
    let taken = ended.checked_sub(begun).unwrap_or_default();
    eprintln!(rt; "turns={turns} microseconds={}", taken.as_micros())
}
