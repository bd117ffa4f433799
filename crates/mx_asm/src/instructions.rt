//! The instructions that statements are.
ghost use Rattle.std.specs.Prelude.{◌≡◌, ◌<◌, ◌^◌, ◌%◌, IsTrue};
ghost use Rattle.mx_isa.specs.Ranges.{IsValid};
ghost use Rattle.mx_isa.specs.Table.{encoded};
ghost use Rattle.mx_source.specs.Numbers.{fits, number_bits};
ghost use Rattle.mx_source.specs.Fields.{range_of};
ghost use Rattle.mx_source.specs.FieldViews.{fields_view, value_view, AreRegisters};
ghost use Rattle.mx_asm.specs.LabelViews.{labels_view};
ghost use Rattle.mx_asm.specs.Labels.{address_of_label};
ghost use Rattle.mx_asm.specs.Instructions.{offset_of, bits_of_value, inst_of, upper_part, low_part, upper_inst};
ghost use Rattle.mx_asm.specs.Instructions.{low_inst};
ghost use Rattle.mx_asm.specs.Denoted.{inst_word, pair_words};

use crate::labels::{Labels, definition};
use mx_isa::{ImmOp, Inst, encode};
use mx_source::{Fields, Form, Number, Value, difference, fits, form_range, number_bits};

/// The address for which a label stands, 0 where it isn't defined.
pub(crate) fn label_address(labels: &Labels<'_>, name: &[u8]) -> u64
    ensures { result ≡ address_of_label (labels_view labels.now) name.now }
{
    definition(labels, name).map_or(0, |place| place.address)
}

/// The number that a value is for an instruction at an address.
pub(crate) fn offset(labels: &Labels<'_>, here: u64, value: Value<'_>) -> Number
    ensures { result ≡ offset_of (labels_view labels.now) here (value_view value.entry) }
{
    match value {
        Value::Number(number) => number,
        Value::Label(name) => difference(label_address(labels, name), here),
    }
}

/// The 32 bits of a value.
pub(crate) fn value_bits(labels: &Labels<'_>, value: Value<'_>) -> u32
    ensures { result ≡ bits_of_value (labels_view labels.now) (value_view value.entry) }
{
    match value {
        Value::Number(number) => number_bits(number),
        Value::Label(name) => (label_address(labels, name) % 0x1_0000_0000) as u32,
    }
}

/// The instruction with fields and the 32 bits of its number.
#[tactic(auto, unfolding(crate::specs::Instructions::inst_of))]
fn inst(form: Form, fields: Fields<'_>, imm: u32) -> Inst
    ensures { result ≡ inst_of form (fields_view fields.entry) imm }
{
    let Fields { rd, rs1, rs2, .. } = fields;
    match form {
        Form::Lui => Inst::Lui {
            rd,
            imm: imm.wrapping_mul(4096),
        },
        Form::Auipc => Inst::Auipc {
            rd,
            imm: imm.wrapping_mul(4096),
        },
        Form::Jal => Inst::Jal { rd, imm },
        Form::Jalr => Inst::Jalr { rd, rs1, imm },
        Form::Branch(cond) => Inst::Branch {
            cond,
            rs1,
            rs2,
            imm,
        },
        Form::Load(width) => Inst::Load {
            width,
            rd,
            rs1,
            imm,
        },
        Form::Store(width) => Inst::Store {
            width,
            rs1,
            rs2,
            imm,
        },
        Form::OpImm(op) => Inst::OpImm { op, rd, rs1, imm },
        Form::Op(op) => Inst::Op { op, rd, rs1, rs2 },
        Form::Fence => Inst::Fence { fields: imm },
        Form::Ecall => Inst::Ecall,
        Form::Ebreak => Inst::Ebreak,
    }
}

/// The word of an instruction at an address, whose number or offset is in its range.
pub(crate) fn inst_word(labels: &Labels<'_>, here: u64, form: Form, fields: Fields<'_>) -> u32
    requires registers { AreRegisters (fields_view fields) }
    requires fits { IsTrue
        (fits (range_of form) (offset_of (labels_view labels.now) here (value_view fields.value))) }
    ensures { result ≡ inst_word (labels_view labels.now) here form (fields_view fields.entry) }
{
    encode(&inst(
        form,
        fields,
        number_bits(offset(labels, here, fields.value)),
    ))
}

/// The two words that load a value.
pub(crate) fn pair_words(labels: &Labels<'_>, fields: Fields<'_>) -> [u32; 2]
    requires { AreRegisters (fields_view fields) }
    ensures { result ≡ pair_words (labels_view labels.now) (fields_view fields.entry) }
{
    let value = value_bits(labels, fields.value);
    [upper_word(fields.rd, value), low_word(fields.rd, value)]
}

/// `lui rd, h`.
#[tactic(auto, unfolding(mx_isa::specs::Ranges::IsValid))]
fn upper_word(rd: u32, value: u32) -> u32
    requires { rd < 32 }
    ensures { result ≡ encoded (upper_inst rd value) }
{
    let imm = value.wrapping_add(0x800) / 4096 * 4096;
    encode(&Inst::Lui { rd, imm })
}

/// `addi rd, rd, l`.
#[tactic(auto, unfolding(mx_isa::specs::Ranges::IsValid))]
fn low_word(rd: u32, value: u32) -> u32
    requires { rd < 32 }
    ensures { result ≡ encoded (low_inst rd value) }
{
    let upper = value.wrapping_add(0x800) / 4096 * 4096;
    encode(&Inst::OpImm {
        op: ImmOp::Addi,
        rd,
        rs1: rd,
        imm: value.wrapping_sub(upper),
    })
}
