//! The words that GNU as 2.40 gives (`riscv64-unknown-elf-as -march=rv32im`), all 48 instructions
//! with their corner immediates, and words that no row of the table matches.
mod moves;
mod sums;

use mx_isa::{Cond, ImmOp, Inst, StoreWidth, decode, encode, is_valid};

// Reserved values of f3 and f7, other opcodes, and words beside ECALL and EBREAK.
static ILLEGAL: [u32; 26] = [
    0x0000_0000,
    0xFFFF_FFFF,
    // JALR with f3 1, branches with f3 2 and 3, loads with f3 3, 6 and 7, stores with f3 3 to 7
    0x0000_1067,
    0x0000_2063,
    0x0000_3063,
    0x0000_3003,
    0x0000_6003,
    0x0000_7003,
    0x0000_3023,
    0x0000_7023,
    // SLLI and SRLI with a sixth bit in the amount, SRLI and SRAI with other values of f7
    0x0200_1013,
    0x4000_1013,
    0x0200_5013,
    0x4200_5013,
    // f7 0x20 with SLL and OR, f7 2 and 0x21
    0x4000_1033,
    0x4000_6033,
    0x0400_0033,
    0x4200_0033,
    // FENCE.I, CSRRW, MRET, WFI, ECALL with rd 1, EBREAK with rs1 1
    0x0000_100F,
    0x3000_1073,
    0x3020_0073,
    0x1050_0073,
    0x0000_00F3,
    0x0010_8073,
    // ADDIW of RV64 and a compressed c.li
    0x0000_001B,
    0x0000_4501,
];

// A field of each form that its bits can't hold.
static OUT_OF_RANGE: [Inst; 9] = [
    Inst::Lui { rd: 32, imm: 0 },
    Inst::Lui { rd: 1, imm: 1 },
    Inst::Jal { rd: 1, imm: 1 },
    Inst::Jal {
        rd: 1,
        imm: 0x0010_0000,
    },
    Inst::Jalr {
        rd: 1,
        rs1: 2,
        imm: 0x0000_0800,
    },
    Inst::Branch {
        cond: Cond::Beq,
        rs1: 1,
        rs2: 2,
        imm: 0x0000_1000,
    },
    Inst::Store {
        width: StoreWidth::Sw,
        rs1: 1,
        rs2: 32,
        imm: 0,
    },
    Inst::OpImm {
        op: ImmOp::Srai,
        rd: 1,
        rs1: 1,
        imm: 32,
    },
    Inst::Fence {
        fields: 0x0040_0000,
    },
];

#[test]
fn words_of_gnu_as_both_ways(rt: HostRuntime) {
    for (word, inst) in moves::WORDS.iter().chain(&sums::WORDS) {
        assert!(rt; decode(*word) == Some(*inst), "decode of {word}");
        assert!(rt; is_valid(inst), "ranges of {word}");
        assert_eq!(rt; encode(inst), *word, "encode of {word}");
    }
}

#[test]
fn illegal_words_decode_to_none(rt: HostRuntime) {
    for word in &ILLEGAL {
        assert!(rt; decode(*word).is_none(), "{word}");
    }
}

#[test]
fn fields_out_of_range_are_not_valid(rt: HostRuntime) {
    for inst in &OUT_OF_RANGE {
        assert!(rt; !is_valid(inst));
    }
}
