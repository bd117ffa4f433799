//! Operations, fences and the two system instructions.
use mx_isa::{ImmOp, Inst, RegOp};

pub static WORDS: [(u32, Inst); 44] = [
    (
        0x000f8013,
        Inst::OpImm {
            op: ImmOp::Addi,
            rd: 0,
            rs1: 31,
            imm: 0,
        },
    ),
    (
        0xfff00f93,
        Inst::OpImm {
            op: ImmOp::Addi,
            rd: 31,
            rs1: 0,
            imm: 0xFFFFFFFF,
        },
    ),
    (
        0x7fffa013,
        Inst::OpImm {
            op: ImmOp::Slti,
            rd: 0,
            rs1: 31,
            imm: 0x000007FF,
        },
    ),
    (
        0x80002f93,
        Inst::OpImm {
            op: ImmOp::Slti,
            rd: 31,
            rs1: 0,
            imm: 0xFFFFF800,
        },
    ),
    (
        0x001fb013,
        Inst::OpImm {
            op: ImmOp::Sltiu,
            rd: 0,
            rs1: 31,
            imm: 1,
        },
    ),
    (
        0x00003f93,
        Inst::OpImm {
            op: ImmOp::Sltiu,
            rd: 31,
            rs1: 0,
            imm: 0,
        },
    ),
    (
        0xffffc013,
        Inst::OpImm {
            op: ImmOp::Xori,
            rd: 0,
            rs1: 31,
            imm: 0xFFFFFFFF,
        },
    ),
    (
        0x7ff04f93,
        Inst::OpImm {
            op: ImmOp::Xori,
            rd: 31,
            rs1: 0,
            imm: 0x000007FF,
        },
    ),
    (
        0x800fe013,
        Inst::OpImm {
            op: ImmOp::Ori,
            rd: 0,
            rs1: 31,
            imm: 0xFFFFF800,
        },
    ),
    (
        0x00106f93,
        Inst::OpImm {
            op: ImmOp::Ori,
            rd: 31,
            rs1: 0,
            imm: 1,
        },
    ),
    (
        0x000ff013,
        Inst::OpImm {
            op: ImmOp::Andi,
            rd: 0,
            rs1: 31,
            imm: 0,
        },
    ),
    (
        0xfff07f93,
        Inst::OpImm {
            op: ImmOp::Andi,
            rd: 31,
            rs1: 0,
            imm: 0xFFFFFFFF,
        },
    ),
    (
        0x000f9013,
        Inst::OpImm {
            op: ImmOp::Slli,
            rd: 0,
            rs1: 31,
            imm: 0,
        },
    ),
    (
        0x01f01f93,
        Inst::OpImm {
            op: ImmOp::Slli,
            rd: 31,
            rs1: 0,
            imm: 0x0000001F,
        },
    ),
    (
        0x00131293,
        Inst::OpImm {
            op: ImmOp::Slli,
            rd: 5,
            rs1: 6,
            imm: 1,
        },
    ),
    (
        0x000fd013,
        Inst::OpImm {
            op: ImmOp::Srli,
            rd: 0,
            rs1: 31,
            imm: 0,
        },
    ),
    (
        0x01f05f93,
        Inst::OpImm {
            op: ImmOp::Srli,
            rd: 31,
            rs1: 0,
            imm: 0x0000001F,
        },
    ),
    (
        0x00135293,
        Inst::OpImm {
            op: ImmOp::Srli,
            rd: 5,
            rs1: 6,
            imm: 1,
        },
    ),
    (
        0x400fd013,
        Inst::OpImm {
            op: ImmOp::Srai,
            rd: 0,
            rs1: 31,
            imm: 0,
        },
    ),
    (
        0x41f05f93,
        Inst::OpImm {
            op: ImmOp::Srai,
            rd: 31,
            rs1: 0,
            imm: 0x0000001F,
        },
    ),
    (
        0x40135293,
        Inst::OpImm {
            op: ImmOp::Srai,
            rd: 5,
            rs1: 6,
            imm: 1,
        },
    ),
    (
        0x001f8033,
        Inst::Op {
            op: RegOp::Add,
            rd: 0,
            rs1: 31,
            rs2: 1,
        },
    ),
    (
        0x40008fb3,
        Inst::Op {
            op: RegOp::Sub,
            rd: 31,
            rs1: 1,
            rs2: 0,
        },
    ),
    (
        0x01f010b3,
        Inst::Op {
            op: RegOp::Sll,
            rd: 1,
            rs1: 0,
            rs2: 31,
        },
    ),
    (
        0x00552ab3,
        Inst::Op {
            op: RegOp::Slt,
            rd: 21,
            rs1: 10,
            rs2: 5,
        },
    ),
    (
        0x001fb033,
        Inst::Op {
            op: RegOp::Sltu,
            rd: 0,
            rs1: 31,
            rs2: 1,
        },
    ),
    (
        0x0000cfb3,
        Inst::Op {
            op: RegOp::Xor,
            rd: 31,
            rs1: 1,
            rs2: 0,
        },
    ),
    (
        0x01f050b3,
        Inst::Op {
            op: RegOp::Srl,
            rd: 1,
            rs1: 0,
            rs2: 31,
        },
    ),
    (
        0x40555ab3,
        Inst::Op {
            op: RegOp::Sra,
            rd: 21,
            rs1: 10,
            rs2: 5,
        },
    ),
    (
        0x001fe033,
        Inst::Op {
            op: RegOp::Or,
            rd: 0,
            rs1: 31,
            rs2: 1,
        },
    ),
    (
        0x0000ffb3,
        Inst::Op {
            op: RegOp::And,
            rd: 31,
            rs1: 1,
            rs2: 0,
        },
    ),
    (
        0x03f000b3,
        Inst::Op {
            op: RegOp::Mul,
            rd: 1,
            rs1: 0,
            rs2: 31,
        },
    ),
    (
        0x02551ab3,
        Inst::Op {
            op: RegOp::Mulh,
            rd: 21,
            rs1: 10,
            rs2: 5,
        },
    ),
    (
        0x021fa033,
        Inst::Op {
            op: RegOp::Mulhsu,
            rd: 0,
            rs1: 31,
            rs2: 1,
        },
    ),
    (
        0x0200bfb3,
        Inst::Op {
            op: RegOp::Mulhu,
            rd: 31,
            rs1: 1,
            rs2: 0,
        },
    ),
    (
        0x03f040b3,
        Inst::Op {
            op: RegOp::Div,
            rd: 1,
            rs1: 0,
            rs2: 31,
        },
    ),
    (
        0x02555ab3,
        Inst::Op {
            op: RegOp::Divu,
            rd: 21,
            rs1: 10,
            rs2: 5,
        },
    ),
    (
        0x021fe033,
        Inst::Op {
            op: RegOp::Rem,
            rd: 0,
            rs1: 31,
            rs2: 1,
        },
    ),
    (
        0x0200ffb3,
        Inst::Op {
            op: RegOp::Remu,
            rd: 31,
            rs1: 1,
            rs2: 0,
        },
    ),
    (0x0ff0000f, Inst::Fence { fields: 0x0003FC00 }),
    (0x0210000f, Inst::Fence { fields: 0x00008400 }),
    (0x8330000f, Inst::Fence { fields: 0x0020CC00 }),
    (0x00000073, Inst::Ecall),
    (0x00100073, Inst::Ebreak),
];
