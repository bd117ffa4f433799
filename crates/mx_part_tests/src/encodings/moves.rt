//! Upper immediates, jumps, branches, loads and stores.
use mx_isa::{Cond, Inst, LoadWidth, StoreWidth};

pub static WORDS: [(u32, Inst); 56] = [
    (0x000002b7, Inst::Lui { rd: 5, imm: 0 }),
    (
        0x00001037,
        Inst::Lui {
            rd: 0,
            imm: 0x00001000,
        },
    ),
    (
        0xffffffb7,
        Inst::Lui {
            rd: 31,
            imm: 0xFFFFF000,
        },
    ),
    (
        0x800000b7,
        Inst::Lui {
            rd: 1,
            imm: 0x80000000,
        },
    ),
    (0x00000297, Inst::Auipc { rd: 5, imm: 0 }),
    (
        0x00001017,
        Inst::Auipc {
            rd: 0,
            imm: 0x00001000,
        },
    ),
    (
        0xffffff97,
        Inst::Auipc {
            rd: 31,
            imm: 0xFFFFF000,
        },
    ),
    (
        0x80000097,
        Inst::Auipc {
            rd: 1,
            imm: 0x80000000,
        },
    ),
    (0x000000ef, Inst::Jal { rd: 1, imm: 0 }),
    (
        0xfffff06f,
        Inst::Jal {
            rd: 0,
            imm: 0xFFFFFFFE,
        },
    ),
    (
        0x7fffffef,
        Inst::Jal {
            rd: 31,
            imm: 0x000FFFFE,
        },
    ),
    (
        0x800002ef,
        Inst::Jal {
            rd: 5,
            imm: 0xFFF00000,
        },
    ),
    (
        0x001000ef,
        Inst::Jal {
            rd: 1,
            imm: 0x00000800,
        },
    ),
    (
        0x000010ef,
        Inst::Jal {
            rd: 1,
            imm: 0x00001000,
        },
    ),
    (
        0x400000ef,
        Inst::Jal {
            rd: 1,
            imm: 0x00000400,
        },
    ),
    (
        0x00008067,
        Inst::Jalr {
            rd: 0,
            rs1: 1,
            imm: 0,
        },
    ),
    (
        0xffff80e7,
        Inst::Jalr {
            rd: 1,
            rs1: 31,
            imm: 0xFFFFFFFF,
        },
    ),
    (
        0x7ff00fe7,
        Inst::Jalr {
            rd: 31,
            rs1: 0,
            imm: 0x000007FF,
        },
    ),
    (
        0x800302e7,
        Inst::Jalr {
            rd: 5,
            rs1: 6,
            imm: 0xFFFFF800,
        },
    ),
    (
        0x01f00063,
        Inst::Branch {
            cond: Cond::Beq,
            rs1: 0,
            rs2: 31,
            imm: 0,
        },
    ),
    (
        0xfe0f8fe3,
        Inst::Branch {
            cond: Cond::Beq,
            rs1: 31,
            rs2: 0,
            imm: 0xFFFFFFFE,
        },
    ),
    (
        0x7f550fe3,
        Inst::Branch {
            cond: Cond::Beq,
            rs1: 10,
            rs2: 21,
            imm: 0x00000FFE,
        },
    ),
    (
        0x81f01063,
        Inst::Branch {
            cond: Cond::Bne,
            rs1: 0,
            rs2: 31,
            imm: 0xFFFFF000,
        },
    ),
    (
        0x000f90e3,
        Inst::Branch {
            cond: Cond::Bne,
            rs1: 31,
            rs2: 0,
            imm: 0x00000800,
        },
    ),
    (
        0x03551063,
        Inst::Branch {
            cond: Cond::Bne,
            rs1: 10,
            rs2: 21,
            imm: 0x00000020,
        },
    ),
    (
        0x41f04063,
        Inst::Branch {
            cond: Cond::Blt,
            rs1: 0,
            rs2: 31,
            imm: 0x00000400,
        },
    ),
    (
        0x000fc063,
        Inst::Branch {
            cond: Cond::Blt,
            rs1: 31,
            rs2: 0,
            imm: 0,
        },
    ),
    (
        0xff554fe3,
        Inst::Branch {
            cond: Cond::Blt,
            rs1: 10,
            rs2: 21,
            imm: 0xFFFFFFFE,
        },
    ),
    (
        0x7ff05fe3,
        Inst::Branch {
            cond: Cond::Bge,
            rs1: 0,
            rs2: 31,
            imm: 0x00000FFE,
        },
    ),
    (
        0x800fd063,
        Inst::Branch {
            cond: Cond::Bge,
            rs1: 31,
            rs2: 0,
            imm: 0xFFFFF000,
        },
    ),
    (
        0x015550e3,
        Inst::Branch {
            cond: Cond::Bge,
            rs1: 10,
            rs2: 21,
            imm: 0x00000800,
        },
    ),
    (
        0x03f06063,
        Inst::Branch {
            cond: Cond::Bltu,
            rs1: 0,
            rs2: 31,
            imm: 0x00000020,
        },
    ),
    (
        0x400fe063,
        Inst::Branch {
            cond: Cond::Bltu,
            rs1: 31,
            rs2: 0,
            imm: 0x00000400,
        },
    ),
    (
        0x01556063,
        Inst::Branch {
            cond: Cond::Bltu,
            rs1: 10,
            rs2: 21,
            imm: 0,
        },
    ),
    (
        0xfff07fe3,
        Inst::Branch {
            cond: Cond::Bgeu,
            rs1: 0,
            rs2: 31,
            imm: 0xFFFFFFFE,
        },
    ),
    (
        0x7e0fffe3,
        Inst::Branch {
            cond: Cond::Bgeu,
            rs1: 31,
            rs2: 0,
            imm: 0x00000FFE,
        },
    ),
    (
        0x81557063,
        Inst::Branch {
            cond: Cond::Bgeu,
            rs1: 10,
            rs2: 21,
            imm: 0xFFFFF000,
        },
    ),
    (
        0x000f8003,
        Inst::Load {
            width: LoadWidth::Lb,
            rd: 0,
            rs1: 31,
            imm: 0,
        },
    ),
    (
        0xfff00f83,
        Inst::Load {
            width: LoadWidth::Lb,
            rd: 31,
            rs1: 0,
            imm: 0xFFFFFFFF,
        },
    ),
    (
        0x7fff9003,
        Inst::Load {
            width: LoadWidth::Lh,
            rd: 0,
            rs1: 31,
            imm: 0x000007FF,
        },
    ),
    (
        0x80001f83,
        Inst::Load {
            width: LoadWidth::Lh,
            rd: 31,
            rs1: 0,
            imm: 0xFFFFF800,
        },
    ),
    (
        0x001fa003,
        Inst::Load {
            width: LoadWidth::Lw,
            rd: 0,
            rs1: 31,
            imm: 1,
        },
    ),
    (
        0x00002f83,
        Inst::Load {
            width: LoadWidth::Lw,
            rd: 31,
            rs1: 0,
            imm: 0,
        },
    ),
    (
        0xffffc003,
        Inst::Load {
            width: LoadWidth::Lbu,
            rd: 0,
            rs1: 31,
            imm: 0xFFFFFFFF,
        },
    ),
    (
        0x7ff04f83,
        Inst::Load {
            width: LoadWidth::Lbu,
            rd: 31,
            rs1: 0,
            imm: 0x000007FF,
        },
    ),
    (
        0x800fd003,
        Inst::Load {
            width: LoadWidth::Lhu,
            rd: 0,
            rs1: 31,
            imm: 0xFFFFF800,
        },
    ),
    (
        0x00105f83,
        Inst::Load {
            width: LoadWidth::Lhu,
            rd: 31,
            rs1: 0,
            imm: 1,
        },
    ),
    (
        0x01f00023,
        Inst::Store {
            width: StoreWidth::Sb,
            rs1: 0,
            rs2: 31,
            imm: 0,
        },
    ),
    (
        0xfe0f8fa3,
        Inst::Store {
            width: StoreWidth::Sb,
            rs1: 31,
            rs2: 0,
            imm: 0xFFFFFFFF,
        },
    ),
    (
        0x7f550fa3,
        Inst::Store {
            width: StoreWidth::Sb,
            rs1: 10,
            rs2: 21,
            imm: 0x000007FF,
        },
    ),
    (
        0x81f01023,
        Inst::Store {
            width: StoreWidth::Sh,
            rs1: 0,
            rs2: 31,
            imm: 0xFFFFF800,
        },
    ),
    (
        0x000f90a3,
        Inst::Store {
            width: StoreWidth::Sh,
            rs1: 31,
            rs2: 0,
            imm: 1,
        },
    ),
    (
        0x01551fa3,
        Inst::Store {
            width: StoreWidth::Sh,
            rs1: 10,
            rs2: 21,
            imm: 0x0000001F,
        },
    ),
    (
        0xfff02023,
        Inst::Store {
            width: StoreWidth::Sw,
            rs1: 0,
            rs2: 31,
            imm: 0xFFFFFFE0,
        },
    ),
    (
        0x000fa023,
        Inst::Store {
            width: StoreWidth::Sw,
            rs1: 31,
            rs2: 0,
            imm: 0,
        },
    ),
    (
        0xff552fa3,
        Inst::Store {
            width: StoreWidth::Sw,
            rs1: 10,
            rs2: 21,
            imm: 0xFFFFFFFF,
        },
    ),
];
