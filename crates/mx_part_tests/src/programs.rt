//! Short programs through `exec` over the plain bus; what they must do is worked out by hand.
ghost use Rattle.std.specs.Prelude.{◌≡◌, ◌≤◌, length, IfOk};

use mx_core::{Outcome, Regs, exec};
use mx_model::Fault;
use mx_plain::PlainBus;
use mx_words::{NoMemory, Perm};
use std::alloc::Global;
use std::test::Fail;

const START: u32 = 0x8000_0000;

#[derive(Clone, Copy)]
struct Case {
    words: &'static [u32],
    // The turns asked and made, the pc and the answer of the last turn.
    turns: u32,
    made: u32,
    pc: u32,
    answer: Outcome,
    // Registers and their values.
    regs: &'static [(u32, u32)],
}

static CASES: [Case; 7] = [
    // -2^31 / -1, -2^31 / 0 and -2^31 rem 0
    Case {
        words: &[
            0x8000_02B7,
            0xFFF0_0313,
            0x0262_C3B3,
            0x0202_CE33,
            0x0202_EEB3,
        ],
        turns: 5,
        made: 5,
        pc: 0x8000_0014,
        answer: Outcome::Next(0x8000_0014),
        regs: &[
            (5, 0x8000_0000),
            (6, 0xFFFF_FFFF),
            (7, 0x8000_0000),
            (28, 0xFFFF_FFFF),
            (29, 0x8000_0000),
        ],
    },
    // a branch to pc + 6 that is taken at its second turn
    Case {
        words: &[0x0002_9363, 0x0012_8293, 0xFF9F_F06F],
        turns: 10,
        made: 4,
        pc: 0x8000_0000,
        answer: Outcome::Trap(Fault {
            cause: 0,
            value: 0x8000_0006,
        }),
        regs: &[(5, 1)],
    },
    // LH at the address 1, misaligned before it is denied
    Case {
        words: &[0x0010_1303],
        turns: 1,
        made: 1,
        pc: 0x8000_0000,
        answer: Outcome::Trap(Fault { cause: 4, value: 1 }),
        regs: &[(6, 0)],
    },
    // a store into its own code, which is execute-read
    Case {
        words: &[0x0000_0097, 0x0000_A023],
        turns: 5,
        made: 2,
        pc: 0x8000_0004,
        answer: Outcome::Trap(Fault {
            cause: 7,
            value: 0x8000_0000,
        }),
        regs: &[(1, 0x8000_0000)],
    },
    // 7 rem 3, and a breakpoint
    Case {
        words: &[0x0070_0293, 0x0030_0313, 0x0262_E3B3, 0x0010_0073],
        turns: 9,
        made: 4,
        pc: 0x8000_000C,
        answer: Outcome::Trap(Fault {
            cause: 3,
            value: 0x8000_000C,
        }),
        regs: &[(5, 7), (6, 3), (7, 1)],
    },
    // addi x17, x0, 1; addi x10, x0, 5; ecall
    Case {
        words: &[0x0010_0893, 0x0050_0513, 0x0000_0073],
        turns: 9,
        made: 3,
        pc: 0x8000_0008,
        answer: Outcome::Call,
        regs: &[(10, 5), (17, 1)],
    },
    // after the first instruction a word on which there is no right: no fetch
    Case {
        words: &[0x0010_0893],
        turns: 9,
        made: 2,
        pc: 0x8000_0004,
        answer: Outcome::Trap(Fault {
            cause: 1,
            value: 0x8000_0004,
        }),
        regs: &[(17, 1)],
    },
];

// 64 KiB of RAM that begins with these words, which are execute-read.
fn memory(alloc: Global, words: &[u32]) -> Result<PlainBus, NoMemory>
    requires { length words.now ≤ 16 }
{
    let mut bus = PlainBus::new(alloc, 16384)?;
    bus.permit(0, words.len() as u32, Perm::ExecuteRead);
    for (i, word) in words.iter().enumerate() {
        bus.put(START + 4 * i as u32, *word);
    }
    Ok(bus)
}

// Makes so many turns, or fewer where one isn't answered by `Next`: how many, pc and the last answer.
fn carry_out(bus: &mut PlainBus, regs: &mut Regs, turns: u32) -> (u32, u32, Outcome) {
    let mut pc = START;
    for made in 0..turns {
        match exec(bus, regs, pc, false) {
            Outcome::Next(next) => pc = next,
            answer => return (made + 1, pc, answer),
        }
    }
    (turns, pc, Outcome::Next(pc))
}

// What `carry_out` answers of a program from its start, and the registers then.
fn carried_out(
    alloc: Global,
    words: &[u32],
    turns: u32,
) -> Result<((u32, u32, Outcome), Regs), NoMemory>
    requires { length words.now ≤ 16 }
{
    let mut bus = memory(alloc, words)?;
    let mut regs = Regs::new();
    let made = carry_out(&mut bus, &mut regs, turns);
    Ok((made, regs))
}

#[test]
fn short_programs(rt: HostRuntime) -> Result<(), Fail> {
    for case in &CASES {
        assert!(rt; case.words.len() <= 16);
        let (made, regs) = carried_out(rt.alloc(), case.words, case.turns)?;
        assert_eq!(rt; made, (case.made, case.pc, case.answer));
        for (r, value) in case.regs {
            assert!(rt; *r < 32);
            assert_eq!(rt; regs.get(*r), *value, "x{r}");
        }
    }
    Ok(())
}
