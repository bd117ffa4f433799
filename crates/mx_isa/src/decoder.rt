//! From a word to its instruction (RISC-V unprivileged manual 20191213, chapter 24).
ghost use Rattle.std.specs.Prelude.{◌≡◌, IfSome};
ghost use Rattle.mx_isa.specs.Table.{decoded, encoded, cond_of, load_of, store_of, imm_op_of, reg_op_of, imm_of_op};
ghost use Rattle.mx_isa.specs.Ranges.{IsValid};
ghost use Rattle.mx_isa.specs.Fields.{rd_of, f3_of, rs1_of, rs2_of, f7_of, imm_i, imm_s, imm_b, imm_u, imm_j};
ghost use Rattle.mx_isa.specs.Fields.{fence_fields};

use crate::inst::{Cond, ImmOp, Inst, LoadWidth, RegOp, StoreWidth};

/// The instruction of a word. None exactly where no row of the instruction table matches: the word
/// is an illegal instruction. The answer is valid, and `encode` of it is the word again.
#[inline(always)]
pub fn decode(word: u32) -> Option<Inst>
    ensures table { result ≡ decoded word }
    ensures valid { IfSome result IsValid }
    ensures back { IfSome result (λ inst. encoded inst ≡ word) }
{
    by_opcode(word)
}

// The row of the word's opcode.
#[tactic(auto, unfolding(crate::specs::Table::decoded))]
#[inline(always)]
fn by_opcode(word: u32) -> Option<Inst>
    ensures { result ≡ decoded word }
{
    match word & 0x7F {
        0x37 => Some(Inst::Lui {
            rd: rd(word),
            imm: upper(word),
        }),
        0x17 => Some(Inst::Auipc {
            rd: rd(word),
            imm: upper(word),
        }),
        0x6F => Some(Inst::Jal {
            rd: rd(word),
            imm: jump_offset(word),
        }),
        0x67 if f3(word) == 0 => Some(Inst::Jalr {
            rd: rd(word),
            rs1: rs1(word),
            imm: immediate(word),
        }),
        0x63 => Some(Inst::Branch {
            cond: cond(f3(word))?,
            rs1: rs1(word),
            rs2: rs2(word),
            imm: branch_offset(word),
        }),
        0x03 => Some(Inst::Load {
            width: load_width(f3(word))?,
            rd: rd(word),
            rs1: rs1(word),
            imm: immediate(word),
        }),
        0x23 => Some(Inst::Store {
            width: store_width(f3(word))?,
            rs1: rs1(word),
            rs2: rs2(word),
            imm: store_offset(word),
        }),
        0x13 => {
            let op = imm_op(f3(word), f7(word))?;
            Some(Inst::OpImm {
                op,
                rd: rd(word),
                rs1: rs1(word),
                imm: operand(op, word),
            })
        }
        0x33 => Some(Inst::Op {
            op: reg_op(f3(word), f7(word))?,
            rd: rd(word),
            rs1: rs1(word),
            rs2: rs2(word),
        }),
        0x0F if f3(word) == 0 => Some(Inst::Fence {
            fields: fence(word),
        }),
        0x73 if word == 0x73 => Some(Inst::Ecall),
        0x73 if word == 0x0010_0073 => Some(Inst::Ebreak),
        _ => None,
    }
}

// The operations by f3 and f7.

fn cond(f3: u32) -> Option<Cond>
    ensures { result ≡ cond_of f3 }
{
    match f3 {
        0 => Some(Cond::Beq),
        1 => Some(Cond::Bne),
        4 => Some(Cond::Blt),
        5 => Some(Cond::Bge),
        6 => Some(Cond::Bltu),
        7 => Some(Cond::Bgeu),
        _ => None,
    }
}

fn load_width(f3: u32) -> Option<LoadWidth>
    ensures { result ≡ load_of f3 }
{
    match f3 {
        0 => Some(LoadWidth::Lb),
        1 => Some(LoadWidth::Lh),
        2 => Some(LoadWidth::Lw),
        4 => Some(LoadWidth::Lbu),
        5 => Some(LoadWidth::Lhu),
        _ => None,
    }
}

fn store_width(f3: u32) -> Option<StoreWidth>
    ensures { result ≡ store_of f3 }
{
    match f3 {
        0 => Some(StoreWidth::Sb),
        1 => Some(StoreWidth::Sh),
        2 => Some(StoreWidth::Sw),
        _ => None,
    }
}

fn imm_op(f3: u32, f7: u32) -> Option<ImmOp>
    ensures { result ≡ imm_op_of f3 f7 }
{
    match (f3, f7) {
        (0, _) => Some(ImmOp::Addi),
        (2, _) => Some(ImmOp::Slti),
        (3, _) => Some(ImmOp::Sltiu),
        (4, _) => Some(ImmOp::Xori),
        (6, _) => Some(ImmOp::Ori),
        (7, _) => Some(ImmOp::Andi),
        (1, 0) => Some(ImmOp::Slli),
        (5, 0) => Some(ImmOp::Srli),
        (5, 0x20) => Some(ImmOp::Srai),
        _ => None,
    }
}

fn reg_op(f3: u32, f7: u32) -> Option<RegOp>
    ensures { result ≡ reg_op_of f3 f7 }
{
    match (f7, f3) {
        (0, 0) => Some(RegOp::Add),
        (0x20, 0) => Some(RegOp::Sub),
        (0, 1) => Some(RegOp::Sll),
        (0, 2) => Some(RegOp::Slt),
        (0, 3) => Some(RegOp::Sltu),
        (0, 4) => Some(RegOp::Xor),
        (0, 5) => Some(RegOp::Srl),
        (0x20, 5) => Some(RegOp::Sra),
        (0, 6) => Some(RegOp::Or),
        (0, 7) => Some(RegOp::And),
        (1, 0) => Some(RegOp::Mul),
        (1, 1) => Some(RegOp::Mulh),
        (1, 2) => Some(RegOp::Mulhsu),
        (1, 3) => Some(RegOp::Mulhu),
        (1, 4) => Some(RegOp::Div),
        (1, 5) => Some(RegOp::Divu),
        (1, 6) => Some(RegOp::Rem),
        (1, 7) => Some(RegOp::Remu),
        _ => None,
    }
}

// The fields and immediates.

fn rd(word: u32) -> u32
    ensures { result ≡ rd_of word }
{
    (word >> 7) & 0x1F
}

fn f3(word: u32) -> u32
    ensures { result ≡ f3_of word }
{
    (word >> 12) & 0x7
}

fn rs1(word: u32) -> u32
    ensures { result ≡ rs1_of word }
{
    (word >> 15) & 0x1F
}

fn rs2(word: u32) -> u32
    ensures { result ≡ rs2_of word }
{
    (word >> 20) & 0x1F
}

fn f7(word: u32) -> u32
    ensures { result ≡ f7_of word }
{
    word >> 25
}

// A shift takes its amount, another operation the immediate I.
#[tactic(auto, unfolding(crate::specs::Fields::imm_i))]
fn operand(op: ImmOp, word: u32) -> u32
    ensures { result ≡ imm_of_op op word }
{
    match op {
        ImmOp::Slli | ImmOp::Srli | ImmOp::Srai => rs2(word),
        _ => immediate(word),
    }
}

// I
#[tactic(auto, unfolding(crate::specs::Fields::imm_i, crate::specs::Fields::extended))]
fn immediate(word: u32) -> u32
    ensures { result ≡ imm_i word }
{
    (word.cast_signed() >> 20).cast_unsigned()
}

// S
#[tactic(auto, unfolding(crate::specs::Fields::imm_s, crate::specs::Fields::extended))]
fn store_offset(word: u32) -> u32
    ensures { result ≡ imm_s word }
{
    let number = ((word >> 25) & 0x3F) * 32 + ((word >> 7) & 0x1F);
    if word >> 31 == 0 {
        number
    } else {
        number + 0xFFFF_F800
    }
}

// B
#[tactic(auto, unfolding(crate::specs::Fields::imm_b, crate::specs::Fields::extended))]
fn branch_offset(word: u32) -> u32
    ensures { result ≡ imm_b word }
{
    let high = ((word >> 25) & 0x3F) << 5;
    let low = ((word >> 8) & 0xF) << 1;
    let number = ((word >> 7) & 1) * 0x800 + high + low;
    if word >> 31 == 0 {
        number
    } else {
        number + 0xFFFF_F000
    }
}

// U
#[tactic(auto, unfolding(crate::specs::Fields::imm_u))]
fn upper(word: u32) -> u32
    ensures { result ≡ imm_u word }
{
    word & 0xFFFF_F000
}

// J
#[tactic(auto, unfolding(crate::specs::Fields::imm_j, crate::specs::Fields::extended))]
fn jump_offset(word: u32) -> u32
    ensures { result ≡ imm_j word }
{
    let middle = (word >> 12) & 0xFF;
    let low = ((word >> 21) & 0x3FF) << 1;
    let number = middle * 0x1000 + ((word >> 20) & 1) * 0x800 + low;
    if word >> 31 == 0 {
        number
    } else {
        number + 0xFFF0_0000
    }
}

// FENCE's free bits
#[tactic(auto, unfolding(crate::specs::Fields::fence_fields))]
fn fence(word: u32) -> u32
    ensures { result ≡ fence_fields word }
{
    (word >> 15) * 32 + ((word >> 7) & 0x1F)
}
