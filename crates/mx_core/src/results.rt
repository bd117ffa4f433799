//! The results of operations, and whether branches are taken.
ghost use Rattle.std.specs.Prelude.{◌≡◌, ◌<◌, ◌*◌, ◌^◌, IsTrue};
ghost use Rattle.mx_model.specs.Effect.{holds, imm_result, reg_result, loaded, load_size, store_size};
ghost use Rattle.mx_words.specs.Bytes.{IsSize};

use mx_isa::{Cond, ImmOp, LoadWidth, RegOp, StoreWidth};

/// Whether a branch is taken (RV32I 2.5).
#[tactic(auto, unfolding(mx_model::specs::Effect::holds))]
#[inline(always)]
pub fn is_taken(cond: Cond, a: u32, b: u32) -> bool
    ensures { result ≡ holds cond a b }
{
    match cond {
        Cond::Beq => a == b,
        Cond::Bne => a != b,
        Cond::Blt => a.cast_signed() < b.cast_signed(),
        Cond::Bge => a.cast_signed() >= b.cast_signed(),
        Cond::Bltu => a < b,
        Cond::Bgeu => a >= b,
    }
}

/// The result of an operation with an immediate (RV32I 2.4.1).
#[tactic(auto, unfolding(mx_model::specs::Effect::imm_result))]
#[inline(always)]
pub fn with_immediate(op: ImmOp, a: u32, imm: u32) -> u32
    ensures { result ≡ imm_result op a imm }
{
    match op {
        ImmOp::Addi => a.wrapping_add(imm),
        ImmOp::Slti => u32::from(a.cast_signed() < imm.cast_signed()),
        ImmOp::Sltiu => u32::from(a < imm),
        ImmOp::Xori => a ^ imm,
        ImmOp::Ori => a | imm,
        ImmOp::Andi => a & imm,
        ImmOp::Slli => a << (imm % 32),
        ImmOp::Srli => a >> (imm % 32),
        ImmOp::Srai => (a.cast_signed() >> (imm % 32)).cast_unsigned(),
    }
}

/// The result of an operation on two registers (RV32I 2.4.2, M 7.1 and 7.2).
#[tactic(auto, unfolding(mx_model::specs::Effect::reg_result))]
#[inline(always)]
pub fn of_registers(op: RegOp, a: u32, b: u32) -> u32
    ensures { result ≡ reg_result op a b }
{
    match op {
        RegOp::Add => a.wrapping_add(b),
        RegOp::Sub => a.wrapping_sub(b),
        RegOp::Sll => a << (b % 32),
        RegOp::Slt => u32::from(a.cast_signed() < b.cast_signed()),
        RegOp::Sltu => u32::from(a < b),
        RegOp::Xor => a ^ b,
        RegOp::Srl => a >> (b % 32),
        RegOp::Sra => (a.cast_signed() >> (b % 32)).cast_unsigned(),
        RegOp::Or => a | b,
        RegOp::And => a & b,
        RegOp::Mul => a.wrapping_mul(b),
        RegOp::Mulh => high_signed(a, b),
        RegOp::Mulhsu => high_mixed(a, b),
        RegOp::Mulhu => high_unsigned(a, b),
        RegOp::Div => quotient(a, b),
        RegOp::Divu => quotient_unsigned(a, b),
        RegOp::Rem => remainder(a, b),
        RegOp::Remu => remainder_unsigned(a, b),
    }
}

// The high halves are calls, for they are rare, and inlined each other operation would pay for their 64 bits.
#[tactic(auto, unfolding(mx_model::specs::Effect::reg_result))]
#[inline(never)]
fn high_signed(a: u32, b: u32) -> u32
    ensures { result ≡ reg_result RegOp.Mulh a b }
{
    let product = i64::from(a.cast_signed()) * i64::from(b.cast_signed());
    ((product >> 32) as i32).cast_unsigned()
}

#[tactic(auto, unfolding(mx_model::specs::Effect::reg_result))]
#[inline(never)]
fn high_mixed(a: u32, b: u32) -> u32
    ensures { result ≡ reg_result RegOp.Mulhsu a b }
{
    let product = i64::from(a.cast_signed()) * i64::from(b);
    ((product >> 32) as i32).cast_unsigned()
}

#[tactic(auto, unfolding(mx_model::specs::Effect::reg_result))]
#[inline(never)]
fn high_unsigned(a: u32, b: u32) -> u32
    ensures { result ≡ reg_result RegOp.Mulhu a b }
{
    ((u64::from(a) * u64::from(b)) >> 32) as u32
}

#[tactic(auto, unfolding(mx_model::specs::Effect::reg_result))]
#[inline(always)]
fn quotient(a: u32, b: u32) -> u32
    ensures { result ≡ reg_result RegOp.Div a b }
{
    if b == 0 {
        u32::MAX
    } else {
        a.cast_signed()
            .wrapping_div(b.cast_signed())
            .cast_unsigned()
    }
}

#[tactic(auto, unfolding(mx_model::specs::Effect::reg_result))]
#[inline(always)]
fn quotient_unsigned(a: u32, b: u32) -> u32
    ensures { result ≡ reg_result RegOp.Divu a b }
{
    if b == 0 { u32::MAX } else { a / b }
}

#[tactic(auto, unfolding(mx_model::specs::Effect::reg_result))]
#[inline(always)]
fn remainder(a: u32, b: u32) -> u32
    ensures { result ≡ reg_result RegOp.Rem a b }
{
    if b == 0 {
        a
    } else {
        a.cast_signed()
            .wrapping_rem(b.cast_signed())
            .cast_unsigned()
    }
}

#[tactic(auto, unfolding(mx_model::specs::Effect::reg_result))]
#[inline(always)]
fn remainder_unsigned(a: u32, b: u32) -> u32
    ensures { result ≡ reg_result RegOp.Remu a b }
{
    if b == 0 { a } else { a % b }
}

/// How many bytes a load reads.
#[inline(always)]
pub fn bytes_of_load(width: LoadWidth) -> u32
    ensures table { result ≡ load_size width }
    ensures size { IsSize result }
{
    match width {
        LoadWidth::Lb | LoadWidth::Lbu => 1,
        LoadWidth::Lh | LoadWidth::Lhu => 2,
        LoadWidth::Lw => 4,
    }
}

/// How many bytes a store writes.
#[inline(always)]
pub fn bytes_of_store(width: StoreWidth) -> u32
    ensures table { result ≡ store_size width }
    ensures size { IsSize result }
{
    match width {
        StoreWidth::Sb => 1,
        StoreWidth::Sh => 2,
        StoreWidth::Sw => 4,
    }
}

/// What a load writes, from the number that its bytes hold.
#[tactic(auto, unfolding(mx_model::specs::Effect::loaded, mx_isa::specs::Fields::extended))]
#[inline(always)]
pub fn extend(width: LoadWidth, n: u32) -> u32
    requires { n < 256 ^ load_size width }
    ensures { result ≡ loaded width n }
{
    match width {
        LoadWidth::Lb => i32::from((n as u8).cast_signed()).cast_unsigned(),
        LoadWidth::Lh => i32::from((n as u16).cast_signed()).cast_unsigned(),
        LoadWidth::Lw | LoadWidth::Lbu | LoadWidth::Lhu => n,
    }
}
