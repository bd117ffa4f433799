//! The instructions of RV32I 2.1 and M 2.0 (RISC-V unprivileged manual 20191213).

/// One instruction. Registers are 0 to 31. `imm` is the immediate's value modulo 2^32, already
/// extended; the shift amount where the operation is a shift by an immediate.
#[derive(Clone, Copy, PartialEq, Eq)]
pub enum Inst {
    /// rd takes `imm`, whose low 12 bits are zero.
    Lui {
        rd: u32,
        imm: u32,
    },
    /// rd takes pc + `imm`, whose low 12 bits are zero.
    Auipc {
        rd: u32,
        imm: u32,
    },
    /// rd takes pc + 4; the hart goes on at pc + `imm`.
    Jal {
        rd: u32,
        imm: u32,
    },
    /// rd takes pc + 4; the hart goes on at rs1 + `imm` with bit 0 cleared.
    Jalr {
        rd: u32,
        rs1: u32,
        imm: u32,
    },
    /// Where `cond` holds of rs1 and rs2 the hart goes on at pc + `imm`.
    Branch {
        cond: Cond,
        rs1: u32,
        rs2: u32,
        imm: u32,
    },
    /// rd takes the bytes at rs1 + `imm`.
    Load {
        width: LoadWidth,
        rd: u32,
        rs1: u32,
        imm: u32,
    },
    /// The low bytes of rs2 go to rs1 + `imm`.
    Store {
        width: StoreWidth,
        rs1: u32,
        rs2: u32,
        imm: u32,
    },
    /// rd takes the result of `op` on rs1 and `imm`.
    OpImm {
        op: ImmOp,
        rd: u32,
        rs1: u32,
        imm: u32,
    },
    /// rd takes the result of `op` on rs1 and rs2.
    Op {
        op: RegOp,
        rd: u32,
        rs1: u32,
        rs2: u32,
    },
    /// Orders accesses; no effect on this machine. `fields` is bits 31..15 times 32 plus bits 11..7.
    Fence {
        fields: u32,
    },
    /// A supervisor call.
    Ecall,
    /// A breakpoint.
    Ebreak,
}

/// The comparison of a branch (RV32I 2.5).
#[derive(Clone, Copy, PartialEq, Eq)]
pub enum Cond {
    /// Equal.
    Beq,
    /// Not equal.
    Bne,
    /// Below, signed.
    Blt,
    /// Not below, signed.
    Bge,
    /// Below, unsigned.
    Bltu,
    /// Not below, unsigned.
    Bgeu,
}

/// The bytes of a load, and how they are extended (RV32I 2.6).
#[derive(Clone, Copy, PartialEq, Eq)]
pub enum LoadWidth {
    /// One byte, its sign extended.
    Lb,
    /// Two bytes, their sign extended.
    Lh,
    /// Four bytes.
    Lw,
    /// One byte, zeros before it.
    Lbu,
    /// Two bytes, zeros before them.
    Lhu,
}

/// The bytes of a store (RV32I 2.6).
#[derive(Clone, Copy, PartialEq, Eq)]
pub enum StoreWidth {
    /// One byte.
    Sb,
    /// Two bytes.
    Sh,
    /// Four bytes.
    Sw,
}

/// The operation on a register and an immediate (RV32I 2.4).
#[derive(Clone, Copy, PartialEq, Eq, Debug)]
pub enum ImmOp {
    /// The sum.
    Addi,
    /// 1 where the register is below, signed, else 0.
    Slti,
    /// 1 where the register is below, unsigned, else 0.
    Sltiu,
    /// Exclusive or.
    Xori,
    /// Or.
    Ori,
    /// And.
    Andi,
    /// Shifted left.
    Slli,
    /// Shifted right, zeros coming in.
    Srli,
    /// Shifted right, the sign coming in.
    Srai,
}

/// The operation on two registers (RV32I 2.4, M 2.0).
#[derive(Clone, Copy, PartialEq, Eq, Debug)]
pub enum RegOp {
    /// The sum.
    Add,
    /// The difference.
    Sub,
    /// Shifted left.
    Sll,
    /// 1 where the first is below, signed, else 0.
    Slt,
    /// 1 where the first is below, unsigned, else 0.
    Sltu,
    /// Exclusive or.
    Xor,
    /// Shifted right, zeros coming in.
    Srl,
    /// Shifted right, the sign coming in.
    Sra,
    /// Or.
    Or,
    /// And.
    And,
    /// The low 32 bits of the product.
    Mul,
    /// The high 32 bits of the product, both signed.
    Mulh,
    /// The high 32 bits of the product, the first signed, the second unsigned.
    Mulhsu,
    /// The high 32 bits of the product, both unsigned.
    Mulhu,
    /// The quotient, signed.
    Div,
    /// The quotient, unsigned.
    Divu,
    /// The remainder, signed.
    Rem,
    /// The remainder, unsigned.
    Remu,
}
