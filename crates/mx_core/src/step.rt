//! One instruction: fetched, decoded and carried out.
ghost use Rattle.std.specs.Prelude.{◌≡◌, ◌%◌, ◌<◌, ◌==◌, ◌∷◌, false, if◌then◌else◌};
ghost use Rattle.mx_isa.specs.Ranges.{IsValid};
ghost use Rattle.mx_model.specs.Effect.{effect, loads_at, stores_at, store_size, reg, written, next, plus};
ghost use Rattle.mx_core.specs.Bus.{IsTouched};
ghost use Rattle.mx_core.specs.Exec.{fetched, outcome_of, regs_after, bytes_after, touches_of, fetch_touch, trap};
ghost use Rattle.mx_core.specs.Exec.{IsAligned, HasCause};

use crate::bus::{Bus, Denied};
use crate::outcome::Outcome;
use crate::regs::Regs;
use crate::results::{
    bytes_of_load, bytes_of_store, extend, is_taken, of_registers, with_immediate,
};
use mx_isa::{Inst, LoadWidth, StoreWidth, decode};
use mx_model::Fault;

/// Carries out the instruction at pc, a multiple of 4. `returns` says whether a JAL or JALR is to
/// be answered by `Back`. The first of these rules that applies gives the answer.
///
/// 1. The fetch is denied: `Trap` with cause 1 and pc.
/// 2. No row of the instruction table matches the word: `Trap` with cause 2 and the word.
/// 3. ECALL: `Call`.
/// 4. `returns`, and a JAL or JALR: `Back` with the number of rd and the target, whose bit 0 is
///    cleared for JALR.
/// 5. The instruction faults by itself, at a misaligned target or access or an EBREAK: `Trap`.
/// 6. The load or store is denied: `Trap` with cause 5 or 7 and the address.
/// 7. Otherwise `Next` with the next pc; the registers and bytes are the instruction's.
///
/// `Trap`, `Call` and `Back` change no register and no byte. The bus is touched once for the fetch,
/// with place 0, and once more for an aligned load or store, with the number of its base register.
/// The pc of `Next` is a multiple of 4, the cause of a `Trap` is below 8, and the rd of `Back`
/// below 32.
#[tactic(auto, unfolding(crate::specs::Exec::fetched, crate::specs::Exec::outcome_of, crate::specs::Exec::regs_after, crate::specs::Exec::bytes_after, crate::specs::Exec::touches_of))]
#[inline(always)]
pub fn exec<B: Bus>(bus: &mut B, regs: &mut Regs, pc: u32, returns: bool) -> Outcome
    requires usable { B.usable bus.old }
    requires aligned { pc % 4 ≡ 0 }
    ensures outcome { result
        ≡ outcome_of (B.perm bus.old) pc returns
        (fetched (B.perm bus.old) (B.bytes bus.old) regs.old pc) }
    ensures regs { regs.new
        ≡ regs_after (B.perm bus.old) (B.bytes bus.old) regs.old pc returns
        (fetched (B.perm bus.old) (B.bytes bus.old) regs.old pc) }
    ensures bytes { B.bytes bus.new
        ≡ bytes_after (B.perm bus.old) (B.bytes bus.old)
        (fetched (B.perm bus.old) (B.bytes bus.old) regs.old pc) }
    ensures touches { IsTouched B.touches bus.old (fetch_touch pc
        ∷ touches_of (fetched (B.perm bus.old) (B.bytes bus.old) regs.old pc)) bus.new }
    ensures aligned { IsAligned result }
    ensures cause { HasCause result }
    ensures map { B.perm bus.new ≡ B.perm bus.old }
    ensures usable { B.usable bus.new }
{
    match bus.fetch(pc) {
        Err(Denied) => trap_by(1, pc),
        Ok(word) => match decode(word) {
            None => trap_by(2, word),
            Some(inst) => act(bus, regs, pc, returns, inst),
        },
    }
}

/// Carries out one instruction, whose word stands at pc, a multiple of 4: rules 3 to 7 of `exec`.
#[tactic(auto, unfolding(mx_model::specs::Effect::effect, mx_isa::specs::Ranges::IsValid, crate::specs::Exec::outcome_of, crate::specs::Exec::regs_after, crate::specs::Exec::bytes_after, crate::specs::Exec::touches_of))]
#[inline(always)]
fn act<B: Bus>(bus: &mut B, regs: &mut Regs, pc: u32, returns: bool, inst: Inst) -> Outcome
    requires usable { B.usable bus.old }
    requires aligned { pc % 4 ≡ 0 }
    requires valid { IsValid inst }
    ensures outcome { result ≡ outcome_of (B.perm bus.old) pc returns (effect inst regs.old pc) }
    ensures regs { regs.new
        ≡ regs_after (B.perm bus.old) (B.bytes bus.old) regs.old pc returns
        (effect inst regs.old pc) }
    ensures bytes { B.bytes bus.new
        ≡ bytes_after (B.perm bus.old) (B.bytes bus.old) (effect inst regs.old pc) }
    ensures touches { IsTouched B.touches bus.old (touches_of (effect inst regs.old pc)) bus.new }
    ensures aligned { IsAligned result }
    ensures cause { HasCause result }
    ensures map { B.perm bus.new ≡ B.perm bus.old }
    ensures usable { B.usable bus.new }
{
    match inst {
        Inst::Lui { rd, imm } => take(regs, pc, rd, imm),
        Inst::Auipc { rd, imm } => take(regs, pc, rd, pc.wrapping_add(imm)),
        Inst::Jal { rd, imm } => jump(regs, pc, returns, rd, pc.wrapping_add(imm)),
        Inst::Jalr { rd, rs1, imm } => {
            let target = regs.get(rs1).wrapping_add(imm) & 0xFFFF_FFFE;
            jump(regs, pc, returns, rd, target)
        }
        Inst::Branch {
            cond,
            rs1,
            rs2,
            imm,
        } => {
            if is_taken(cond, regs.get(rs1), regs.get(rs2)) {
                go_to(pc.wrapping_add(imm))
            } else {
                Outcome::Next(pc.wrapping_add(4))
            }
        }
        Inst::Load {
            width,
            rd,
            rs1,
            imm,
        } => match width {
            // A call for each width, so that each is laid out for itself.
            LoadWidth::Lb => load(bus, regs, pc, LoadWidth::Lb, rd, rs1, imm),
            LoadWidth::Lh => load(bus, regs, pc, LoadWidth::Lh, rd, rs1, imm),
            LoadWidth::Lw => load(bus, regs, pc, LoadWidth::Lw, rd, rs1, imm),
            LoadWidth::Lbu => load(bus, regs, pc, LoadWidth::Lbu, rd, rs1, imm),
            LoadWidth::Lhu => load(bus, regs, pc, LoadWidth::Lhu, rd, rs1, imm),
        },
        Inst::Store {
            width,
            rs1,
            rs2,
            imm,
        } => store(bus, regs, pc, width, rs1, rs2, imm),
        Inst::OpImm { op, rd, rs1, imm } => {
            let value = with_immediate(op, regs.get(rs1), imm);
            take(regs, pc, rd, value)
        }
        Inst::Op { op, rd, rs1, rs2 } => {
            let value = of_registers(op, regs.get(rs1), regs.get(rs2));
            take(regs, pc, rd, value)
        }
        Inst::Fence { .. } => Outcome::Next(pc.wrapping_add(4)),
        Inst::Ecall => Outcome::Call,
        Inst::Ebreak => trap_by(3, pc),
    }
}

/// As `act`, where no JAL or JALR is to return. For rows of turns: a store is laid out for each width, which the few
/// turns outside a row
/// would not pay back.
#[tactic(auto, unfolding(mx_model::specs::Effect::effect, mx_isa::specs::Ranges::IsValid, crate::specs::Exec::outcome_of, crate::specs::Exec::regs_after, crate::specs::Exec::bytes_after, crate::specs::Exec::touches_of))]
#[inline(always)]
pub fn act_on<B: Bus>(bus: &mut B, regs: &mut Regs, pc: u32, inst: Inst) -> Outcome
    requires usable { B.usable bus.old }
    requires aligned { pc % 4 ≡ 0 }
    requires valid { IsValid inst }
    ensures outcome { result ≡ outcome_of (B.perm bus.old) pc false (effect inst regs.old pc) }
    ensures regs { regs.new
        ≡ regs_after (B.perm bus.old) (B.bytes bus.old) regs.old pc false
        (effect inst regs.old pc) }
    ensures bytes { B.bytes bus.new
        ≡ bytes_after (B.perm bus.old) (B.bytes bus.old) (effect inst regs.old pc) }
    ensures touches { IsTouched B.touches bus.old (touches_of (effect inst regs.old pc)) bus.new }
    ensures aligned { IsAligned result }
    ensures cause { HasCause result }
    ensures map { B.perm bus.new ≡ B.perm bus.old }
    ensures usable { B.usable bus.new }
{
    match inst {
        Inst::Store {
            width,
            rs1,
            rs2,
            imm,
        } => match width {
            StoreWidth::Sb => store(bus, regs, pc, StoreWidth::Sb, rs1, rs2, imm),
            StoreWidth::Sh => store(bus, regs, pc, StoreWidth::Sh, rs1, rs2, imm),
            StoreWidth::Sw => store(bus, regs, pc, StoreWidth::Sw, rs1, rs2, imm),
        },
        _ => act(bus, regs, pc, false, inst),
    }
}

#[inline(always)]
fn trap_by(cause: u32, value: u32) -> Outcome
    ensures { result ≡ trap cause value }
{
    Outcome::Trap(Fault { cause, value })
}

// rd takes a result.
#[inline(always)]
fn take(regs: &mut Regs, pc: u32, rd: u32, value: u32) -> Outcome
    requires aligned { pc % 4 ≡ 0 }
    requires rd { rd < 32 }
    ensures outcome { result ≡ Outcome.Next (next pc) }
    ensures aligned { IsAligned result }
    ensures cause { HasCause result }
    ensures regs { regs.new ≡ written regs.old rd value }
{
    regs.set(rd, value);
    Outcome::Next(pc.wrapping_add(4))
}

// The hart goes on at a target, unless it is no multiple of 4.
#[inline(always)]
fn go_to(target: u32) -> Outcome
    ensures outcome { result ≡ (if target % 4 == 0 then Outcome.Next target else trap 0 target) }
    ensures aligned { IsAligned result }
    ensures cause { HasCause result }
{
    if target % 4 == 0 {
        Outcome::Next(target)
    } else {
        trap_by(0, target)
    }
}

// JAL or JALR to a target.
#[inline(always)]
fn jump(regs: &mut Regs, pc: u32, returns: bool, rd: u32, target: u32) -> Outcome
    requires { rd < 32 }
    ensures outcome { result
        ≡ (if returns then Outcome.Back rd target
        else (if target % 4 == 0 then Outcome.Next target else trap 0 target)) }
    ensures regs { regs.new
        ≡ (if returns then regs.old
        else (if target % 4 == 0 then written regs.old rd (next pc) else regs.old)) }
    ensures aligned { IsAligned result }
    ensures cause { HasCause result }
{
    if returns {
        Outcome::Back { rd, target }
    } else if target % 4 == 0 {
        regs.set(rd, pc.wrapping_add(4));
        Outcome::Next(target)
    } else {
        trap_by(0, target)
    }
}

// rd takes the bytes at rs1 + imm.
#[tactic(auto, unfolding(crate::specs::Exec::outcome_of, crate::specs::Exec::regs_after, crate::specs::Exec::bytes_after, crate::specs::Exec::touches_of))]
#[inline(always)]
fn load<B: Bus>(
    bus: &mut B,
    regs: &mut Regs,
    pc: u32,
    width: LoadWidth,
    rd: u32,
    rs1: u32,
    imm: u32,
) -> Outcome
    requires usable { B.usable bus.old }
    requires aligned { pc % 4 ≡ 0 }
    requires rd { rd < 32 }
    requires rs1 { rs1 < 32 }
    ensures outcome { result
        ≡ outcome_of (B.perm bus.old) pc false
        (loads_at rs1 (plus (reg regs.old rs1) imm) width rd) }
    ensures regs { regs.new
        ≡ regs_after (B.perm bus.old) (B.bytes bus.old) regs.old pc false (loads_at rs1 (plus
        (reg regs.old rs1) imm) width rd) }
    ensures bytes { B.bytes bus.new ≡ B.bytes bus.old }
    ensures touches { IsTouched B.touches bus.old (touches_of (loads_at rs1 (plus
        (reg regs.old rs1) imm) width rd)) bus.new }
    ensures aligned { IsAligned result }
    ensures cause { HasCause result }
    ensures map { B.perm bus.new ≡ B.perm bus.old }
    ensures usable { B.usable bus.new }
{
    let address = regs.get(rs1).wrapping_add(imm);
    let size = bytes_of_load(width);
    if address % size != 0 {
        return trap_by(4, address);
    }
    match bus.load(rs1, address, size) {
        Err(Denied) => trap_by(5, address),
        Ok(n) => take(regs, pc, rd, extend(width, n)),
    }
}

// The low bytes of rs2 go to rs1 + imm.
#[tactic(auto, unfolding(crate::specs::Exec::outcome_of, crate::specs::Exec::regs_after, crate::specs::Exec::bytes_after, crate::specs::Exec::touches_of))]
#[inline(always)]
fn store<B: Bus>(
    bus: &mut B,
    regs: &mut Regs,
    pc: u32,
    width: StoreWidth,
    rs1: u32,
    rs2: u32,
    imm: u32,
) -> Outcome
    requires usable { B.usable bus.old }
    requires aligned { pc % 4 ≡ 0 }
    requires rs1 { rs1 < 32 }
    requires rs2 { rs2 < 32 }
    ensures outcome { result
        ≡ outcome_of (B.perm bus.old) pc false (stores_at rs1 (plus (reg regs.old rs1) imm)
        (store_size width) (reg regs.old rs2)) }
    ensures regs { regs.new ≡ regs.old }
    ensures bytes { B.bytes bus.new
        ≡ bytes_after (B.perm bus.old) (B.bytes bus.old)
        (stores_at rs1 (plus (reg regs.old rs1) imm) (store_size width) (reg regs.old rs2)) }
    ensures touches { IsTouched B.touches bus.old (touches_of (stores_at rs1 (plus
        (reg regs.old rs1) imm) (store_size width) (reg regs.old rs2))) bus.new }
    ensures aligned { IsAligned result }
    ensures cause { HasCause result }
    ensures map { B.perm bus.new ≡ B.perm bus.old }
    ensures usable { B.usable bus.new }
{
    let address = regs.get(rs1).wrapping_add(imm);
    let size = bytes_of_store(width);
    if address % size != 0 {
        return trap_by(6, address);
    }
    match bus.store(rs1, address, size, regs.get(rs2)) {
        Err(Denied) => trap_by(7, address),
        Ok(()) => Outcome::Next(pc.wrapping_add(4)),
    }
}
