//! From an instruction to its word (RISC-V unprivileged manual 20191213, chapter 24).
ghost use Rattle.std.specs.Prelude.{◌≡◌, ◌<◌, Some, unwrap_or};
ghost use Rattle.mx_isa.specs.Table.{decoded, encoded, word_r, word_i, word_s, word_b, word_u, word_j, word_op_imm};
ghost use Rattle.mx_isa.specs.Table.{cond_f3, load_f3, store_f3, imm_op_f3, imm_op_f7, reg_op_f3, reg_op_f7};
ghost use Rattle.mx_isa.specs.Ranges.{IsValid, IsExtended, IsOffset, IsUpper, IsOperand};

use crate::inst::{Cond, ImmOp, Inst, LoadWidth, RegOp, StoreWidth};

/// The word of an instruction. `decode` of it is the instruction again. `is_valid` tests the
/// condition.
pub fn encode(inst: &Inst) -> u32
    requires { IsValid inst.now }
    ensures table { result ≡ encoded inst.now }
    ensures back { decoded result ≡ Some inst.now }
{
    by_format(inst)
}

// The format of the instruction.
#[tactic(auto, unfolding(crate::specs::Table::encoded, crate::specs::Ranges::IsValid))]
fn by_format(inst: &Inst) -> u32
    requires { IsValid inst.now }
    ensures { result ≡ encoded inst.now }
{
    match *inst {
        Inst::Lui { rd, imm } => upper(0x37, rd, imm),
        Inst::Auipc { rd, imm } => upper(0x17, rd, imm),
        Inst::Jal { rd, imm } => jump(rd, imm),
        Inst::Jalr { rd, rs1, imm } => immediate(0x67, rd, 0, rs1, imm),
        Inst::Branch {
            cond,
            rs1,
            rs2,
            imm,
        } => branch(cond_number(cond), rs1, rs2, imm),
        Inst::Load {
            width,
            rd,
            rs1,
            imm,
        } => immediate(0x03, rd, load_number(width), rs1, imm),
        Inst::Store {
            width,
            rs1,
            rs2,
            imm,
        } => store(store_number(width), rs1, rs2, imm),
        Inst::OpImm { op, rd, rs1, imm } => op_imm(op, rd, rs1, imm),
        Inst::Op { op, rd, rs1, rs2 } => {
            let (f3, f7) = reg_op_numbers(op);
            packed(0x33, rd, f3, rs1, rs2, f7)
        }
        Inst::Fence { fields } => 0x0F + ((fields & 0x1F) << 7) + ((fields >> 5) << 15),
        Inst::Ecall => 0x73,
        Inst::Ebreak => 0x0010_0073,
    }
}

// A word of six fields.
fn packed(opcode: u32, rd: u32, f3: u32, rs1: u32, rs2: u32, f7: u32) -> u32
    requires opcode { opcode < 128 }
    requires rd { rd < 32 }
    requires f3 { f3 < 8 }
    requires rs1 { rs1 < 32 }
    requires rs2 { rs2 < 32 }
    requires f7 { f7 < 128 }
    ensures { result ≡ word_r opcode rd f3 rs1 rs2 f7 }
{
    opcode | (rd << 7) | (f3 << 12) | (rs1 << 15) | (rs2 << 20) | (f7 << 25)
}

fn immediate(opcode: u32, rd: u32, f3: u32, rs1: u32, imm: u32) -> u32
    requires opcode { opcode < 128 }
    requires rd { rd < 32 }
    requires f3 { f3 < 8 }
    requires rs1 { rs1 < 32 }
    ensures { result ≡ word_i opcode rd f3 rs1 imm }
{
    packed(opcode, rd, f3, rs1, imm & 0x1F, (imm >> 5) & 0x7F)
}

fn op_imm(op: ImmOp, rd: u32, rs1: u32, imm: u32) -> u32
    requires rd { rd < 32 }
    requires rs1 { rs1 < 32 }
    ensures { result ≡ word_op_imm op rd rs1 imm }
{
    let (f3, high) = imm_op_numbers(op, (imm >> 5) & 0x7F);
    packed(0x13, rd, f3, rs1, imm & 0x1F, high)
}

fn store(f3: u32, rs1: u32, rs2: u32, imm: u32) -> u32
    requires f3 { f3 < 8 }
    requires rs1 { rs1 < 32 }
    requires rs2 { rs2 < 32 }
    ensures { result ≡ word_s 0x23 f3 rs1 rs2 imm }
{
    packed(0x23, imm & 0x1F, f3, rs1, rs2, (imm >> 5) & 0x7F)
}

fn branch(f3: u32, rs1: u32, rs2: u32, imm: u32) -> u32
    requires f3 { f3 < 8 }
    requires rs1 { rs1 < 32 }
    requires rs2 { rs2 < 32 }
    ensures { result ≡ word_b 0x63 f3 rs1 rs2 imm }
{
    let low = (((imm >> 1) & 0xF) << 1) + ((imm >> 11) & 1);
    let high = (((imm >> 12) & 1) << 6) + ((imm >> 5) & 0x3F);
    packed(0x63, low, f3, rs1, rs2, high)
}

fn upper(opcode: u32, rd: u32, imm: u32) -> u32
    requires opcode { opcode < 128 }
    requires rd { rd < 32 }
    ensures { result ≡ word_u opcode rd imm }
{
    opcode + (rd << 7) + (imm & 0xFFFF_F000)
}

fn jump(rd: u32, imm: u32) -> u32
    requires { rd < 32 }
    ensures { result ≡ word_j 0x6F rd imm }
{
    let middle = ((imm >> 12) & 0xFF) << 12;
    let eleventh = ((imm >> 11) & 1) << 20;
    let low = ((imm >> 1) & 0x3FF) << 21;
    let sign = ((imm >> 20) & 1) << 31;
    0x6F + (rd << 7) + middle + eleventh + low + sign
}

// The numbers f3 and f7 of the operations.

fn cond_number(cond: Cond) -> u32
    ensures table { result ≡ cond_f3 cond }
    ensures below { result < 8 }
{
    match cond {
        Cond::Beq => 0,
        Cond::Bne => 1,
        Cond::Blt => 4,
        Cond::Bge => 5,
        Cond::Bltu => 6,
        Cond::Bgeu => 7,
    }
}

fn load_number(width: LoadWidth) -> u32
    ensures table { result ≡ load_f3 width }
    ensures below { result < 8 }
{
    match width {
        LoadWidth::Lb => 0,
        LoadWidth::Lh => 1,
        LoadWidth::Lw => 2,
        LoadWidth::Lbu => 4,
        LoadWidth::Lhu => 5,
    }
}

fn store_number(width: StoreWidth) -> u32
    ensures table { result ≡ store_f3 width }
    ensures below { result < 8 }
{
    match width {
        StoreWidth::Sb => 0,
        StoreWidth::Sh => 1,
        StoreWidth::Sw => 2,
    }
}

// f3, and for a shift its f7 in place of `high`.
fn imm_op_numbers(op: ImmOp, high: u32) -> (u32, u32)
    requires { high < 128 }
    ensures f3 { result.0 ≡ imm_op_f3 op }
    ensures f7 { result.1 ≡ unwrap_or (imm_op_f7 op) high }
    ensures below { (result.0 < 8) × (result.1 < 128) }
{
    match op {
        ImmOp::Addi => (0, high),
        ImmOp::Slti => (2, high),
        ImmOp::Sltiu => (3, high),
        ImmOp::Xori => (4, high),
        ImmOp::Ori => (6, high),
        ImmOp::Andi => (7, high),
        ImmOp::Slli => (1, 0),
        ImmOp::Srli => (5, 0),
        ImmOp::Srai => (5, 0x20),
    }
}

fn reg_op_numbers(op: RegOp) -> (u32, u32)
    ensures f3 { result.0 ≡ reg_op_f3 op }
    ensures f7 { result.1 ≡ reg_op_f7 op }
    ensures below { (result.0 < 8) × (result.1 < 128) }
{
    match op {
        RegOp::Add => (0, 0),
        RegOp::Sub => (0, 0x20),
        RegOp::Sll => (1, 0),
        RegOp::Slt => (2, 0),
        RegOp::Sltu => (3, 0),
        RegOp::Xor => (4, 0),
        RegOp::Srl => (5, 0),
        RegOp::Sra => (5, 0x20),
        RegOp::Or => (6, 0),
        RegOp::And => (7, 0),
        RegOp::Mul => (0, 1),
        RegOp::Mulh => (1, 1),
        RegOp::Mulhsu => (2, 1),
        RegOp::Mulhu => (3, 1),
        RegOp::Div => (4, 1),
        RegOp::Divu => (5, 1),
        RegOp::Rem => (6, 1),
        RegOp::Remu => (7, 1),
    }
}
