//! The timed program: a loop of load, add, mul, store, add and branch over two permissions.
ghost use Rattle.std.specs.Prelude.{◌≡◌, ◌*◌, ◌%◌, length, IfOk};

use crate::elsewhere::Elsewhere;
use mx_core::{Outcome, Regs, exec};
use mx_plain::PlainBus;
use mx_words::{NoMemory, Perm};
use std::alloc::Global;

/// The address of the first instruction.
pub const START: u32 = 0x8000_0000;

/// 64 KiB of RAM.
const WORDS: u32 = 16384;

// As GNU as gives them (`-march=rv32im`): lui x10, 0x80001; lw x6, 0(x10); add x6, x6, x5;
// mul x8, x6, x6; sw x8, 0(x10); addi x5, x5, 1; bne x5, x0, .-20
static CODE: [u32; 7] = [
    0x8000_1537,
    0x0005_2303,
    0x0053_0333,
    0x0263_0433,
    0x0085_2023,
    0x0012_8293,
    0xFE02_96E3,
];

/// RAM with the program, which is execute-read, and a read-write page for its data.
pub fn memory(alloc: Global) -> Result<PlainBus, NoMemory> {
    let mut bus = PlainBus::new(alloc, WORDS)?;
    bus.permit(0, 1024, Perm::ExecuteRead);
    bus.permit(1024, 1024, Perm::ReadWrite);
    for (i, word) in CODE.iter().enumerate() {
        bus.put(START + 4 * i as u32, *word);
    }
    Ok(bus)
}

/// Makes so many turns from the first instruction on, or fewer where one isn't answered by `Next`.
/// The answer is the pc at the end.
pub fn run(bus: &mut PlainBus, regs: &mut Regs, turns: u64) -> u32 {
    let mut pc = START;
    for _ in 0..turns {
        match exec(bus, regs, pc, false) {
            Outcome::Next(next) => pc = next,
            _ => break,
        }
    }
    pc
}

/// As `run`, by three calls of `exec` that follow one another: it makes three turns at a time, and no more than
/// `turns`.
pub fn run_at_three(bus: &mut Elsewhere, regs: &mut Regs, turns: u64) -> u32 {
    let mut pc = START;
    for _ in 0..turns / 3 {
        match exec(bus, regs, pc, false) {
            Outcome::Next(next) => pc = next,
            _ => break,
        }
        match exec(bus, regs, pc, false) {
            Outcome::Next(next) => pc = next,
            _ => break,
        }
        match exec(bus, regs, pc, false) {
            Outcome::Next(next) => pc = next,
            _ => break,
        }
    }
    pc
}
