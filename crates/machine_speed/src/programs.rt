//! The programs that are timed, each in the first of 15 modules.
use mx_heap::Block;
use mx_machine::{HartStart, StackArea};
use mx_machine_tests::small::{Module, NO_HEAP, Small, machine};
use mx_model::Gate;
use mx_words::Perm;
use std::alloc::Global;

/// The first module's program is one of these loops.
#[derive(Clone, Copy, PartialEq, Eq)]
pub enum Program {
    /// Load, add, mul, store, add and branch.
    Compute,
    /// Fourteen operations on registers and a branch.
    Registers,
    /// Pairs of add and a branch that is taken.
    Taken,
    /// Pairs of add and a branch that isn't.
    Passed,
    /// A call through a gate and back.
    Gates,
    /// Alloc, store and free of 16 words.
    Blocks,
    /// Alloc, store, grant to the second module and free of 16 words.
    Grants,
}

impl Program {
    /// The program of a name.
    pub fn named(name: &str) -> Option<Program> {
        match name {
            "compute" => Some(Program::Compute),
            "registers" => Some(Program::Registers),
            "taken" => Some(Program::Taken),
            "passed" => Some(Program::Passed),
            "gates" => Some(Program::Gates),
            "blocks" => Some(Program::Blocks),
            "grants" => Some(Program::Grants),
            _ => None,
        }
    }

    /// Its words.
    fn words(self) -> &'static [u32] {
        match self {
            Program::Compute => &COMPUTE,
            Program::Registers => &REGISTERS,
            Program::Taken => &TAKEN,
            Program::Passed => &PASSED,
            Program::Gates => &GATES,
            Program::Blocks => &BLOCKS,
            Program::Grants => &GRANTS,
        }
    }
}

// lui x10, 0x80001; lw x6, 0(x10); add x6, x6, x5; mul x8, x6, x6; sw x8, 0(x10); addi x5, x5, 1; bne x5, x0, .-20
static COMPUTE: [u32; 7] = [
    0x8000_1537,
    0x0005_2303,
    0x0053_0333,
    0x0263_0433,
    0x0085_2023,
    0x0012_8293,
    0xFE02_96E3,
];

// addi, xor, slli, add, sub, and, or, sltu, srli, andi, add, xori, mul, addi; bne x5, x0, .-56
static REGISTERS: [u32; 15] = [
    0x0012_8293,
    0x0053_4333,
    0x0032_9393,
    0x0063_8433,
    0x4054_04B3,
    0x0064_F5B3,
    0x0075_E633,
    0x00C5_B6B3,
    0x0056_5713,
    0x0FF7_7793,
    0x00D7_8833,
    0x0078_4913,
    0x0259_09B3,
    0xFFF9_8A13,
    0xFC02_94E3,
];

// eight times addi x5, x5, 1; bne x5, x0, .+4; then jal x0, .-64
static TAKEN: [u32; 17] = [
    0x0012_8293,
    0x0002_9263,
    0x0012_8293,
    0x0002_9263,
    0x0012_8293,
    0x0002_9263,
    0x0012_8293,
    0x0002_9263,
    0x0012_8293,
    0x0002_9263,
    0x0012_8293,
    0x0002_9263,
    0x0012_8293,
    0x0002_9263,
    0x0012_8293,
    0x0002_9263,
    0xFC1F_F06F,
];

// eight times addi x5, x5, 1; beq x5, x0, .+4; then jal x0, .-64
static PASSED: [u32; 17] = [
    0x0012_8293,
    0x0002_8263,
    0x0012_8293,
    0x0002_8263,
    0x0012_8293,
    0x0002_8263,
    0x0012_8293,
    0x0002_8263,
    0x0012_8293,
    0x0002_8263,
    0x0012_8293,
    0x0002_8263,
    0x0012_8293,
    0x0002_8263,
    0x0012_8293,
    0x0002_8263,
    0xFC1F_F06F,
];

// lui x6, 0x8000C; jalr x1, 0(x6); jal x0, .-4
static GATES: [u32; 3] = [0x8000_C337, 0x0003_00E7, 0xFFDF_F06F];

// addi x5, x5, 1; jalr x0, 0(x1)
static CALLED: [u32; 2] = [0x0012_8293, 0x0000_8067];

// li x10, 16; li x17, 6; ecall; sw x5, 0(x10); li x17, 7; ecall; addi x5, x5, 1; jal x0, .-28
static BLOCKS: [u32; 8] = [
    0x0100_0513,
    0x0060_0893,
    0x0000_0073,
    0x0055_2023,
    0x0070_0893,
    0x0000_0073,
    0x0012_8293,
    0xFE5F_F06F,
];

// as before, and between store and free: mv x18, x10; li x11, 64; li x12, 2; li x13, 1; li x17, 3; ecall; mv x10, x18
static GRANTS: [u32; 15] = [
    0x0100_0513,
    0x0060_0893,
    0x0000_0073,
    0x0055_2023,
    0x0005_0913,
    0x0400_0593,
    0x0020_0613,
    0x0010_0693,
    0x0030_0893,
    0x0000_0073,
    0x0009_0513,
    0x0070_0893,
    0x0000_0073,
    0x0012_8293,
    0xFC9F_F06F,
];

// jal x0, .
static IDLE: [u32; 1] = [0x0000_006F];

/// A stack area of 64 words from a word on.
fn stack(first: u32) -> StackArea {
    StackArea {
        first,
        words: 64,
        kills: false,
    }
}

/// A module that makes no turn.
fn idle(first: u32) -> Module<'static> {
    Module {
        first,
        words: &IDLE,
        perm: Perm::ExecuteRead,
        stack: StackArea::default(),
        heap: NO_HEAP,
    }
}

/// The modules: that of a program, which has a heap of 4096 words, the one that it calls, and 13 that make no turn.
fn modules(program: Program) -> [Module<'static>; 15] {
    let first = Module {
        words: program.words(),
        stack: stack(1024),
        heap: Block {
            first: 4096,
            count: 4096,
        },
        ..idle(0)
    };
    let second = Module {
        words: &CALLED,
        stack: stack(12352),
        ..idle(12288)
    };
    [
        first,
        second,
        idle(13312),
        idle(13328),
        idle(13344),
        idle(13360),
        idle(13376),
        idle(13392),
        idle(13408),
        idle(13424),
        idle(13440),
        idle(13456),
        idle(13472),
        idle(13488),
        idle(13504),
    ]
}

/// The first module's gate into the second, and the second's return gate.
const THERE_AND_BACK: [Gate; 2] = [
    Gate {
        domain: 1,
        word: 12288,
        target: 2,
    },
    Gate {
        domain: 2,
        word: 12289,
        target: 2,
    },
];

/// The machine of a program. `None` where memory is wanting.
pub fn machine_of(alloc: Global, program: Program) -> Option<Small> {
    let start = HartStart {
        domain: 1,
        pc: 0x8000_0000,
    };
    let modules = modules(program);
    machine(alloc, &modules, &THERE_AND_BACK, &[start])
}
