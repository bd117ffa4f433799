//! Which values are instructions.
ghost use Rattle.std.specs.Prelude.{IsTrue, ◌↔◌};
ghost use Rattle.mx_isa.specs.Ranges.{IsValid, IsExtended, IsOffset, IsUpper, IsOperand};

use crate::inst::{ImmOp, Inst};

/// Whether the registers are below 32 and the immediate is one that the instruction's format can
/// give; for FENCE, whether `fields` is below 2^22.
#[tactic(auto, unfolding(crate::specs::Ranges::IsValid))]
pub fn is_valid(inst: &Inst) -> bool
    ensures { IsTrue result ↔ IsValid inst.now }
{
    match *inst {
        Inst::Lui { rd, imm } | Inst::Auipc { rd, imm } => rd < 32 && is_upper(imm),
        Inst::Jal { rd, imm } => rd < 32 && is_jump_offset(imm),
        Inst::Jalr { rd, rs1, imm } => rd < 32 && rs1 < 32 && is_extended(imm),
        Inst::Branch { rs1, rs2, imm, .. } => rs1 < 32 && rs2 < 32 && is_branch_offset(imm),
        Inst::Load { rd, rs1, imm, .. } => rd < 32 && rs1 < 32 && is_extended(imm),
        Inst::Store { rs1, rs2, imm, .. } => rs1 < 32 && rs2 < 32 && is_extended(imm),
        Inst::OpImm { op, rd, rs1, imm } => rd < 32 && rs1 < 32 && is_operand(op, imm),
        Inst::Op { rd, rs1, rs2, .. } => rd < 32 && rs1 < 32 && rs2 < 32,
        Inst::Fence { fields } => fields < 0x40_0000,
        Inst::Ecall | Inst::Ebreak => true,
    }
}

fn is_upper(imm: u32) -> bool
    ensures { IsTrue result ↔ IsUpper imm }
{
    imm & 0xFFF == 0
}

fn is_extended(imm: u32) -> bool
    ensures { IsTrue result ↔ IsExtended 12 imm }
{
    imm < 0x800 || 0xFFFF_F800 <= imm
}

fn is_branch_offset(imm: u32) -> bool
    ensures { IsTrue result ↔ IsOffset 13 imm }
{
    (imm < 0x1000 || 0xFFFF_F000 <= imm) && imm % 2 == 0
}

fn is_jump_offset(imm: u32) -> bool
    ensures { IsTrue result ↔ IsOffset 21 imm }
{
    (imm < 0x10_0000 || 0xFFF0_0000 <= imm) && imm % 2 == 0
}

fn is_operand(op: ImmOp, imm: u32) -> bool
    ensures { IsTrue result ↔ IsOperand op imm }
{
    match op {
        ImmOp::Slli | ImmOp::Srli | ImmOp::Srai => imm < 32,
        _ => is_extended(imm),
    }
}
