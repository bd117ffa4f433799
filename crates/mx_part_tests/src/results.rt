//! Results at the corners of 32 bits, as qemu-riscv32 7.2 gives them, each by one instruction.
use mx_core::{Outcome, Regs, exec};
use mx_isa::{ImmOp, Inst, RegOp, encode, is_valid};
use mx_plain::PlainBus;
use mx_words::{NoMemory, Perm};
use std::alloc::Global;
use std::process::Abort;
use std::test::Fail;

// 0, 1, -1, -2^31 and 2^31 - 1.
static CORNERS: [u32; 5] = [0, 1, 0xFFFF_FFFF, 0x8000_0000, 0x7FFF_FFFF];

// For each operation and first operand, a row of the results with each second operand.
static OF_REGISTERS: [(RegOp, [[u32; 5]; 5]); 11] = [
    (
        RegOp::Mul,
        [
            [0, 0, 0, 0, 0],
            [0, 1, 0xFFFF_FFFF, 0x8000_0000, 0x7FFF_FFFF],
            [0, 0xFFFF_FFFF, 1, 0x8000_0000, 0x8000_0001],
            [0, 0x8000_0000, 0x8000_0000, 0, 0x8000_0000],
            [0, 0x7FFF_FFFF, 0x8000_0001, 0x8000_0000, 1],
        ],
    ),
    (
        RegOp::Mulh,
        [
            [0, 0, 0, 0, 0],
            [0, 0, 0xFFFF_FFFF, 0xFFFF_FFFF, 0],
            [0, 0xFFFF_FFFF, 0, 0, 0xFFFF_FFFF],
            [0, 0xFFFF_FFFF, 0, 0x4000_0000, 0xC000_0000],
            [0, 0, 0xFFFF_FFFF, 0xC000_0000, 0x3FFF_FFFF],
        ],
    ),
    (
        RegOp::Mulhsu,
        [
            [0, 0, 0, 0, 0],
            [0, 0, 0, 0, 0],
            [0, 0xFFFF_FFFF, 0xFFFF_FFFF, 0xFFFF_FFFF, 0xFFFF_FFFF],
            [0, 0xFFFF_FFFF, 0x8000_0000, 0xC000_0000, 0xC000_0000],
            [0, 0, 0x7FFF_FFFE, 0x3FFF_FFFF, 0x3FFF_FFFF],
        ],
    ),
    (
        RegOp::Mulhu,
        [
            [0, 0, 0, 0, 0],
            [0, 0, 0, 0, 0],
            [0, 0, 0xFFFF_FFFE, 0x7FFF_FFFF, 0x7FFF_FFFE],
            [0, 0, 0x7FFF_FFFF, 0x4000_0000, 0x3FFF_FFFF],
            [0, 0, 0x7FFF_FFFE, 0x3FFF_FFFF, 0x3FFF_FFFF],
        ],
    ),
    (
        RegOp::Div,
        [
            [0xFFFF_FFFF, 0, 0, 0, 0],
            [0xFFFF_FFFF, 1, 0xFFFF_FFFF, 0, 0],
            [0xFFFF_FFFF, 0xFFFF_FFFF, 1, 0, 0],
            [0xFFFF_FFFF, 0x8000_0000, 0x8000_0000, 1, 0xFFFF_FFFF],
            [0xFFFF_FFFF, 0x7FFF_FFFF, 0x8000_0001, 0, 1],
        ],
    ),
    (
        RegOp::Divu,
        [
            [0xFFFF_FFFF, 0, 0, 0, 0],
            [0xFFFF_FFFF, 1, 0, 0, 0],
            [0xFFFF_FFFF, 0xFFFF_FFFF, 1, 1, 0x0000_0002],
            [0xFFFF_FFFF, 0x8000_0000, 0, 1, 1],
            [0xFFFF_FFFF, 0x7FFF_FFFF, 0, 0, 1],
        ],
    ),
    (
        RegOp::Rem,
        [
            [0, 0, 0, 0, 0],
            [1, 0, 0, 1, 1],
            [0xFFFF_FFFF, 0, 0, 0xFFFF_FFFF, 0xFFFF_FFFF],
            [0x8000_0000, 0, 0, 0, 0xFFFF_FFFF],
            [0x7FFF_FFFF, 0, 0, 0x7FFF_FFFF, 0],
        ],
    ),
    (
        RegOp::Remu,
        [
            [0, 0, 0, 0, 0],
            [1, 0, 1, 1, 1],
            [0xFFFF_FFFF, 0, 0, 0x7FFF_FFFF, 1],
            [0x8000_0000, 0, 0x8000_0000, 0, 1],
            [0x7FFF_FFFF, 0, 0x7FFF_FFFF, 0x7FFF_FFFF, 0],
        ],
    ),
    (
        RegOp::Sll,
        [
            [0, 0, 0, 0, 0],
            [1, 0x0000_0002, 0x8000_0000, 1, 0x8000_0000],
            [
                0xFFFF_FFFF,
                0xFFFF_FFFE,
                0x8000_0000,
                0xFFFF_FFFF,
                0x8000_0000,
            ],
            [0x8000_0000, 0, 0, 0x8000_0000, 0],
            [
                0x7FFF_FFFF,
                0xFFFF_FFFE,
                0x8000_0000,
                0x7FFF_FFFF,
                0x8000_0000,
            ],
        ],
    ),
    (
        RegOp::Srl,
        [
            [0, 0, 0, 0, 0],
            [1, 0, 0, 1, 0],
            [0xFFFF_FFFF, 0x7FFF_FFFF, 1, 0xFFFF_FFFF, 1],
            [0x8000_0000, 0x4000_0000, 1, 0x8000_0000, 1],
            [0x7FFF_FFFF, 0x3FFF_FFFF, 0, 0x7FFF_FFFF, 0],
        ],
    ),
    (
        RegOp::Sra,
        [
            [0, 0, 0, 0, 0],
            [1, 0, 0, 1, 0],
            [
                0xFFFF_FFFF,
                0xFFFF_FFFF,
                0xFFFF_FFFF,
                0xFFFF_FFFF,
                0xFFFF_FFFF,
            ],
            [
                0x8000_0000,
                0xC000_0000,
                0xFFFF_FFFF,
                0x8000_0000,
                0xFFFF_FFFF,
            ],
            [0x7FFF_FFFF, 0x3FFF_FFFF, 0, 0x7FFF_FFFF, 0],
        ],
    ),
];

// How far a shift shifts.
static AMOUNTS: [u32; 3] = [0, 1, 31];

// For each shift and operand, the results by each amount.
static BY_AMOUNTS: [(ImmOp, [[u32; 3]; 5]); 3] = [
    (
        ImmOp::Slli,
        [
            [0, 0, 0],
            [1, 0x0000_0002, 0x8000_0000],
            [0xFFFF_FFFF, 0xFFFF_FFFE, 0x8000_0000],
            [0x8000_0000, 0, 0],
            [0x7FFF_FFFF, 0xFFFF_FFFE, 0x8000_0000],
        ],
    ),
    (
        ImmOp::Srli,
        [
            [0, 0, 0],
            [1, 0, 0],
            [0xFFFF_FFFF, 0x7FFF_FFFF, 1],
            [0x8000_0000, 0x4000_0000, 1],
            [0x7FFF_FFFF, 0x3FFF_FFFF, 0],
        ],
    ),
    (
        ImmOp::Srai,
        [
            [0, 0, 0],
            [1, 0, 0],
            [0xFFFF_FFFF, 0xFFFF_FFFF, 0xFFFF_FFFF],
            [0x8000_0000, 0xC000_0000, 0xFFFF_FFFF],
            [0x7FFF_FFFF, 0x3FFF_FFFF, 0],
        ],
    ),
];

const START: u32 = 0x8000_0000;

/// What is answered to one instruction, before which x1 and x2 hold these operands, and what x3 holds then.
fn one_turn(alloc: Global, word: u32, operands: (u32, u32)) -> Result<(Outcome, u32), NoMemory> {
    let mut bus = PlainBus::new(alloc, 1)?;
    bus.permit(0, 1, Perm::ExecuteRead);
    bus.put(START, word);
    let mut regs = Regs::new();
    regs.set(1, operands.0);
    regs.set(2, operands.1);
    let outcome = exec(&mut bus, &mut regs, START, false);
    Ok((outcome, regs.get(3)))
}

/// What x3 holds after one instruction, before which x1 and x2 hold these operands.
fn carried_out(
    rt: &impl Abort,
    alloc: Global,
    inst: Inst,
    operands: (u32, u32),
) -> Result<u32, NoMemory> {
    assert!(rt; is_valid(&inst));
    let (outcome, result) = one_turn(alloc, encode(&inst), operands)?;
    assert_eq!(rt; outcome, Outcome::Next(START + 4));
    Ok(result)
}

/// An operation on x1 and x2.
fn of_registers(op: RegOp) -> Inst {
    Inst::Op {
        op,
        rd: 3,
        rs1: 1,
        rs2: 2,
    }
}

/// A shift of x1 by an amount.
fn by_amount(op: ImmOp, amount: u32) -> Inst {
    Inst::OpImm {
        op,
        rd: 3,
        rs1: 1,
        imm: amount,
    }
}

/// An operation on an operand and each corner gives a row of results.
fn row_of_registers(
    rt: &impl Abort,
    alloc: Global,
    op: RegOp,
    a: u32,
    row: &[u32; 5],
) -> Result<(), NoMemory> {
    for (b, want) in CORNERS.iter().zip(row) {
        let result = carried_out(rt, alloc, of_registers(op), (a, *b))?;
        assert_eq!(rt; result, *want, "{op:?} {a} {b}");
    }
    Ok(())
}

/// A shift of an operand by each amount gives a row of results.
fn row_by_amounts(
    rt: &impl Abort,
    alloc: Global,
    op: ImmOp,
    a: u32,
    row: &[u32; 3],
) -> Result<(), NoMemory> {
    for (amount, want) in AMOUNTS.iter().zip(row) {
        let result = carried_out(rt, alloc, by_amount(op, *amount), (a, 0))?;
        assert_eq!(rt; result, *want, "{op:?} {a} {amount}");
    }
    Ok(())
}

#[test]
fn results_at_the_corners(rt: HostRuntime) -> Result<(), Fail> {
    for (op, rows) in &OF_REGISTERS {
        for (a, row) in CORNERS.iter().zip(rows) {
            row_of_registers(&rt, rt.alloc(), *op, *a, row)?;
        }
    }
    for (op, rows) in &BY_AMOUNTS {
        for (a, row) in CORNERS.iter().zip(rows) {
            row_by_amounts(&rt, rt.alloc(), *op, *a, row)?;
        }
    }
    Ok(())
}
