//! The program of a module.

ghost use Rattle.std.specs.Prelude.{◌≡◌, ◌+◌, ◌-◌, ◌^◌, ◌%◌, ◌<◌, ◌≤◌};
ghost use Rattle.mx_isa.specs.Table.{encoded};
ghost use Rattle.mx_mill.specs.Words.{addi, base, mill_words, module_after, module_before, module_count};

use crate::Draws;
use mx_isa::{ImmOp, Inst, LoadWidth, StoreWidth, encode};
use mx_words::{ALLOC_CALL, FREE_CALL, GRANT_CALL, RAM_BASE};

/// How many modules there are.
pub(crate) const MODULES: u32 = 15;
/// How many harts there are.
pub(crate) const HARTS: u32 = 4;

/// The address of the module with a number from 1.
pub(crate) fn base(domain: u32) -> u32
    requires from { 1 ≤ domain }
    requires to { domain ≤ module_count }
    ensures address { result ≡ base domain }
    ensures high { result < 2 ^ 32 - 2 ^ 30 }
{
    RAM_BASE + 0x8000 * (domain - 1)
}

/// The module into which this one crosses.
fn module_after(domain: u32) -> u32
    requires from { 1 ≤ domain }
    requires to { domain ≤ module_count }
    ensures number { result ≡ module_after domain }
    ensures first { 1 ≤ result }
    ensures last { result ≤ module_count }
{
    if domain == MODULES { 1 } else { domain + 1 }
}

/// The module that crosses into this one.
pub(crate) fn module_before(domain: u32) -> u32
    requires from { 1 ≤ domain }
    requires to { domain ≤ module_count }
    ensures number { result ≡ module_before domain }
    ensures first { 1 ≤ result }
    ensures last { result ≤ module_count }
{
    if domain == 1 { MODULES } else { domain - 1 }
}

// The word of an addition.
#[tactic(auto, unfolding(mx_isa::specs::Ranges::IsValid))]
fn addi(rd: u32, rs1: u32, imm: u32) -> u32
    requires rd { rd < 32 }
    requires rs1 { rs1 < 32 }
    requires imm { imm < 2048 }
    ensures { result ≡ encoded (addi rd rs1 imm) }
{
    encode(&Inst::OpImm {
        op: ImmOp::Addi,
        rd,
        rs1,
        imm,
    })
}

// The word of an upper immediate.
#[tactic(auto, unfolding(mx_isa::specs::Ranges::IsValid))]
fn lui(rd: u32, imm: u32) -> u32
    requires rd { rd < 32 }
    requires imm { imm % 2 ^ 12 ≡ 0 }
    ensures { result ≡ encoded (Inst.Lui rd imm) }
{
    encode(&Inst::Lui { rd, imm })
}

// The word of a jump to the address in a register and an offset.
#[tactic(auto, unfolding(mx_isa::specs::Ranges::IsValid))]
fn jalr(rd: u32, rs1: u32, imm: u32) -> u32
    requires rd { rd < 32 }
    requires rs1 { rs1 < 32 }
    requires imm { imm < 2048 }
    ensures { result ≡ encoded (Inst.Jalr rd rs1 imm) }
{
    encode(&Inst::Jalr { rd, rs1, imm })
}

// The word of a supervisor call.
#[tactic(auto, unfolding(mx_isa::specs::Ranges::IsValid))]
fn ecall() -> u32
    ensures { result ≡ encoded Inst.Ecall }
{
    encode(&Inst::Ecall)
}

// The word of `sw x17, 0(x8)`.
#[tactic(auto, unfolding(mx_isa::specs::Ranges::IsValid))]
fn store_in_block() -> u32
    ensures { result ≡ encoded (Inst.Store StoreWidth.Sw 8 17 0) }
{
    encode(&Inst::Store {
        width: StoreWidth::Sw,
        rs1: 8,
        rs2: 17,
        imm: 0,
    })
}

// The word of `jal x0, -60`.
#[tactic(auto, unfolding(mx_isa::specs::Ranges::IsValid))]
fn jump_to_the_start() -> u32
    ensures { result ≡ encoded (Inst.Jal 0 (2 ^ 32 - 60)) }
{
    encode(&Inst::Jal {
        rd: 0,
        imm: 0xFFFF_FFC4,
    })
}

// The word of `lw x6, 0(x5)`.
#[tactic(auto, unfolding(mx_isa::specs::Ranges::IsValid))]
fn load_at_the_gate() -> u32
    ensures { result ≡ encoded (Inst.Load LoadWidth.Lw 6 5 0) }
{
    encode(&Inst::Load {
        width: LoadWidth::Lw,
        rd: 6,
        rs1: 5,
        imm: 0,
    })
}

/// The words of the module with a number from 1, by its draws.
pub(crate) fn words(domain: u32, draws: Draws) -> [u32; 18]
    requires from { 1 ≤ domain }
    requires to { domain ≤ module_count }
    requires words { draws.words ≤ 16 }
    requires domain { draws.domain ≤ module_count }
    requires right { draws.right ≤ 3 }
    ensures { result ≡ mill_words domain draws }
{
    [
        addi(10, 0, draws.words),
        addi(17, 0, ALLOC_CALL),
        ecall(),
        addi(8, 10, 0),
        store_in_block(),
        addi(11, 0, 4 * draws.words),
        addi(12, 0, draws.domain),
        addi(13, 0, draws.right),
        addi(17, 0, GRANT_CALL),
        ecall(),
        lui(5, base(module_after(domain))),
        jalr(1, 5, 64),
        addi(10, 8, 0),
        addi(17, 0, FREE_CALL),
        ecall(),
        jump_to_the_start(),
        load_at_the_gate(),
        jalr(0, 1, 0),
    ]
}
