//! What the operands of an instruction say.
ghost use Rattle.std.specs.Prelude.{◌≡◌, option_map, IfSome};
ghost use Rattle.mx_source.specs.Operands.{pieces_of};
ghost use Rattle.mx_source.specs.Fields.{value_of, label_of, given_of, number_fields, value_fields, label_fields};
ghost use Rattle.mx_source.specs.Fields.{branch_fields, load_fields, store_fields, immediate_fields, register_fields};
ghost use Rattle.mx_source.specs.Fields.{fence_fields, no_fields, fields_of, imm_range, range_of, word_range};
ghost use Rattle.mx_source.specs.Fields.{byte_range, address_range, no_value, Given};
ghost use Rattle.mx_source.specs.Numbers.{plain_number};
ghost use Rattle.mx_source.specs.FieldViews.{value_view, fields_view, AreRegisters};

use crate::mnemonics::Form;
use crate::number::{Number, Range, even_range, number_range, read_number};
use crate::operands::{is_name, read_indexed};
use crate::pieces::{pair, single, triple};
use crate::registers::register;
use mx_isa::ImmOp;

/// A number, or the name of a label.
#[derive(Clone, Copy)]
pub enum Value<'a> {
    /// A number, whose range the instruction decides.
    Number(Number),
    /// The name of a label, whose address takes its place.
    Label(&'a [u8]),
}

/// The registers of an instruction, and its number or label; what it doesn't have is 0.
#[derive(Clone, Copy)]
pub struct Fields<'a> {
    /// The register that is written, 0 to 31.
    pub rd: u32,
    /// The first register that is read, 0 to 31: the base of a load, of a store and of `jalr`.
    pub rs1: u32,
    /// The second register that is read, 0 to 31: what a store writes.
    pub rs2: u32,
    /// The immediate, as the source writes it.
    pub value: Value<'a>,
}

/// The number of `fence` without operands: that of the word 0x0FF0000F.
const WHOLE_FENCE: u64 = 0x3_FC00;

/// No number is asked for.
fn no_value<'a>() -> Value<'a>
    ensures { value_view result ≡ no_value }
{
    plain(0)
}

/// A number at or above 0.
fn plain<'a>(magnitude: u64) -> Value<'a>
    ensures { value_view result ≡ Given (plain_number magnitude) }
{
    Value::Number(Number {
        negative: false,
        magnitude,
    })
}

/// The value that an operand is. `None` exactly where it has the form neither of a name nor of a number.
#[tactic(auto, unfolding(crate::specs::Fields::value_of))]
pub fn read_value(text: &[u8]) -> Option<Value<'_>>
    ensures { option_map value_view result ≡ value_of text.now }
{
    if is_name(text) {
        return Some(Value::Label(text));
    }
    read_given(text)
}

/// The label that an operand names.
#[tactic(auto, unfolding(crate::specs::Fields::label_of))]
fn read_label(text: &[u8]) -> Option<Value<'_>>
    ensures { option_map value_view result ≡ label_of text.now }
{
    if is_name(text) {
        Some(Value::Label(text))
    } else {
        None
    }
}

/// The number of an operand that must be one.
fn read_given(text: &[u8]) -> Option<Value<'_>>
    ensures { option_map value_view result ≡ given_of text.now }
{
    Some(Value::Number(read_number(text)?))
}

/// `rd, n`.
#[tactic(auto, unfolding(crate::specs::Fields::number_fields))]
fn number_fields(operands: &[u8]) -> Option<Fields<'_>>
    ensures fields { option_map fields_view result ≡ number_fields (pieces_of operands.now) }
    ensures below { IfSome result (λ f. AreRegisters (fields_view f)) }
{
    let (first, second) = pair(operands)?;
    let rd = register(first)?;
    let value = read_given(second)?;
    Some(Fields {
        rd,
        rs1: 0,
        rs2: 0,
        value,
    })
}

/// `rd, T` and `rd, v`: a number or a label. `None` exactly where there aren't two operands, the first one a register
/// and
/// the second one a number or a name.
#[tactic(auto, unfolding(crate::specs::Fields::value_fields))]
pub fn value_fields(operands: &[u8]) -> Option<Fields<'_>>
    ensures fields { option_map fields_view result ≡ value_fields (pieces_of operands.now) }
    ensures below { IfSome result (λ f. AreRegisters (fields_view f)) }
{
    let (first, second) = pair(operands)?;
    let rd = register(first)?;
    let value = read_value(second)?;
    Some(Fields {
        rd,
        rs1: 0,
        rs2: 0,
        value,
    })
}

/// `rd, L`: a label. `None` exactly where there aren't two operands, the first one a register and the second one a
/// name.
#[tactic(auto, unfolding(crate::specs::Fields::label_fields))]
pub fn label_fields(operands: &[u8]) -> Option<Fields<'_>>
    ensures fields { option_map fields_view result ≡ label_fields (pieces_of operands.now) }
    ensures below { IfSome result (λ f. AreRegisters (fields_view f)) }
{
    let (first, second) = pair(operands)?;
    let rd = register(first)?;
    let value = read_label(second)?;
    Some(Fields {
        rd,
        rs1: 0,
        rs2: 0,
        value,
    })
}

/// `rs1, rs2, T`.
#[tactic(auto, unfolding(crate::specs::Fields::branch_fields))]
fn branch_fields(operands: &[u8]) -> Option<Fields<'_>>
    ensures fields { option_map fields_view result ≡ branch_fields (pieces_of operands.now) }
    ensures below { IfSome result (λ f. AreRegisters (fields_view f)) }
{
    let (first, second, third) = triple(operands)?;
    let rs1 = register(first)?;
    let rs2 = register(second)?;
    let value = read_value(third)?;
    Some(Fields {
        rd: 0,
        rs1,
        rs2,
        value,
    })
}

/// `rd, n(rs1)`.
#[tactic(auto, unfolding(crate::specs::Fields::load_fields))]
fn load_fields(operands: &[u8]) -> Option<Fields<'_>>
    ensures fields { option_map fields_view result ≡ load_fields (pieces_of operands.now) }
    ensures below { IfSome result (λ f. AreRegisters (fields_view f)) }
{
    let (first, second) = pair(operands)?;
    let rd = register(first)?;
    let place = read_indexed(second)?;
    let rs1 = register(place.name)?;
    Some(Fields {
        rd,
        rs1,
        rs2: 0,
        value: Value::Number(place.number),
    })
}

/// `rs2, n(rs1)`.
#[tactic(auto, unfolding(crate::specs::Fields::store_fields))]
fn store_fields(operands: &[u8]) -> Option<Fields<'_>>
    ensures fields { option_map fields_view result ≡ store_fields (pieces_of operands.now) }
    ensures below { IfSome result (λ f. AreRegisters (fields_view f)) }
{
    let (first, second) = pair(operands)?;
    let rs2 = register(first)?;
    let place = read_indexed(second)?;
    let rs1 = register(place.name)?;
    Some(Fields {
        rd: 0,
        rs1,
        rs2,
        value: Value::Number(place.number),
    })
}

/// `rd, rs1, n`.
#[tactic(auto, unfolding(crate::specs::Fields::immediate_fields))]
fn immediate_fields(operands: &[u8]) -> Option<Fields<'_>>
    ensures fields { option_map fields_view result ≡ immediate_fields (pieces_of operands.now) }
    ensures below { IfSome result (λ f. AreRegisters (fields_view f)) }
{
    let (first, second, third) = triple(operands)?;
    let rd = register(first)?;
    let rs1 = register(second)?;
    let value = read_given(third)?;
    Some(Fields {
        rd,
        rs1,
        rs2: 0,
        value,
    })
}

/// `rd, rs1, rs2`.
#[tactic(auto, unfolding(crate::specs::Fields::register_fields))]
fn register_fields(operands: &[u8]) -> Option<Fields<'_>>
    ensures fields { option_map fields_view result ≡ register_fields (pieces_of operands.now) }
    ensures below { IfSome result (λ f. AreRegisters (fields_view f)) }
{
    let (first, second, third) = triple(operands)?;
    let rd = register(first)?;
    let rs1 = register(second)?;
    let rs2 = register(third)?;
    Some(Fields {
        rd,
        rs1,
        rs2,
        value: no_value(),
    })
}

/// Nothing, or a number.
#[tactic(auto, unfolding(crate::specs::Fields::fence_fields, crate::specs::Operands::pieces_of))]
fn fence_fields(operands: &[u8]) -> Option<Fields<'_>>
    ensures fields { option_map fields_view result ≡ fence_fields (pieces_of operands.now) }
    ensures below { IfSome result (λ f. AreRegisters (fields_view f)) }
{
    let value = if operands.is_empty() {
        plain(WHOLE_FENCE)
    } else {
        read_given(single(operands)?)?
    };
    Some(Fields {
        rd: 0,
        rs1: 0,
        rs2: 0,
        value,
    })
}

/// Nothing.
#[tactic(auto, unfolding(crate::specs::Fields::no_fields, crate::specs::Operands::pieces_of))]
fn no_fields(operands: &[u8]) -> Option<Fields<'_>>
    ensures fields { option_map fields_view result ≡ no_fields (pieces_of operands.now) }
    ensures below { IfSome result (λ f. AreRegisters (fields_view f)) }
{
    if operands.is_empty() {
        Some(Fields {
            rd: 0,
            rs1: 0,
            rs2: 0,
            value: no_value(),
        })
    } else {
        None
    }
}

/// The operands of an instruction. `None` exactly where their count, or the kind of one of them, isn't the form's.
#[tactic(auto, unfolding(crate::specs::Fields::fields_of))]
pub fn read_fields(form: Form, operands: &[u8]) -> Option<Fields<'_>>
    ensures fields { option_map fields_view result ≡ fields_of form (pieces_of operands.now) }
    ensures below { IfSome result (λ f. AreRegisters (fields_view f)) }
{
    match form {
        Form::Lui | Form::Auipc => number_fields(operands),
        Form::Jal => value_fields(operands),
        Form::Jalr | Form::Load(_) => load_fields(operands),
        Form::Branch(_) => branch_fields(operands),
        Form::Store(_) => store_fields(operands),
        Form::OpImm(_) => immediate_fields(operands),
        Form::Op(_) => register_fields(operands),
        Form::Fence => fence_fields(operands),
        Form::Ecall | Form::Ebreak => no_fields(operands),
    }
}

/// The range of an instruction's number.
pub fn form_range(form: Form) -> Range
    ensures { result ≡ range_of form }
{
    match form {
        Form::Lui | Form::Auipc => number_range(0, 0xF_FFFF),
        Form::Jal => even_range(0x10_0000, 0xF_FFFF),
        Form::Jalr | Form::Load(_) | Form::Store(_) => number_range(2048, 2047),
        Form::Branch(_) => even_range(4096, 4095),
        Form::OpImm(op) => imm_range(op),
        Form::Op(_) | Form::Ecall | Form::Ebreak => number_range(0, 0),
        Form::Fence => number_range(0, 0x3F_FFFF),
    }
}

fn imm_range(op: ImmOp) -> Range
    ensures { result ≡ imm_range op }
{
    match op {
        ImmOp::Slli | ImmOp::Srli | ImmOp::Srai => number_range(0, 31),
        _ => number_range(2048, 2047),
    }
}

/// The range of `.word` and `li`.
pub fn word_range() -> Range
    ensures { result ≡ word_range }
{
    number_range(0x8000_0000, 0xFFFF_FFFF)
}

/// The range of `.byte`.
pub fn byte_range() -> Range
    ensures { result ≡ byte_range }
{
    number_range(128, 255)
}

/// The range of addresses.
pub fn address_range() -> Range
    ensures { result ≡ address_range }
{
    number_range(0, 0xFFFF_FFFF)
}
