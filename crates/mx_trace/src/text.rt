//! The text of an instruction (RISC-V unprivileged manual 20191213, chapter 25, with numbers in place of names).
ghost use Rattle.std.specs.Prelude.{◌≡◌, ◌+◌, ◌≤◌, ◌++◌, length};
ghost use Rattle.mx_isa.specs.Ranges.{IsValid};
ghost use Rattle.mx_io.specs.Sink.{Puts};
ghost use Rattle.mx_source.specs.Mnemonics.{form_name};
ghost use Rattle.mx_trace.specs.Text.{upper_text, jump_text, pair_text, indexed_text, register_text, fence_text};
ghost use Rattle.mx_trace.specs.Text.{inst_text};

use crate::line::Line;
use mx_io::{Failed, Sink, put_all};
use mx_isa::Inst;
use mx_source::{Form, form_name};

/// Appends the text of an instruction: the statement that the assembler takes for it, with registers as x0 to x31 and
/// numbers in
/// decimal. `lui` and `auipc` have their upper 20 bits, jumps and branches their offset in bytes, shifts their amount,
/// `fence`
/// its fields, and all others with an immediate its signed value. The instruction is one that `is_valid` accepts. Where
/// a
/// write fails, a prefix of the text was appended.
pub fn disassemble<R: Sink>(sink: &mut R, inst: &Inst) -> Result<(), Failed>
    requires { IsValid inst.now }
    ensures { Puts (R.state sink.old) (R.state sink.new) (inst_text inst.now) result }
{
    let mut line = Line::<64>::new();
    put_inst(&mut line, inst);
    put_all(sink, line.as_slice())
}

/// Puts the text of an instruction before what is there. Here and below the last part is put first.
#[tactic(auto, unfolding(crate::specs::Text::inst_text))]
pub(crate) fn put_inst<const N: usize>(line: &mut Line<N>, inst: &Inst)
    requires { 44 + length line.old ≤ N }
    ensures text { line.new ≡ inst_text inst.now ++ line.old }
    ensures few { length line.new ≤ 44 + length line.old }
{
    match *inst {
        Inst::Lui { rd, imm } => put_upper(line, Form::Lui, rd, imm / 4096),
        Inst::Auipc { rd, imm } => put_upper(line, Form::Auipc, rd, imm / 4096),
        Inst::Jal { rd, imm } => put_jump(line, Form::Jal, rd, imm),
        Inst::Jalr { rd, rs1, imm } => put_indexed(line, Form::Jalr, rd, imm, rs1),
        Inst::Branch {
            cond,
            rs1,
            rs2,
            imm,
        } => put_pair(line, Form::Branch(cond), rs1, rs2, imm),
        Inst::Load {
            width,
            rd,
            rs1,
            imm,
        } => put_indexed(line, Form::Load(width), rd, imm, rs1),
        Inst::Store {
            width,
            rs1,
            rs2,
            imm,
        } => put_indexed(line, Form::Store(width), rs2, imm, rs1),
        Inst::OpImm { op, rd, rs1, imm } => put_pair(line, Form::OpImm(op), rd, rs1, imm),
        Inst::Op { op, rd, rs1, rs2 } => put_registers(line, Form::Op(op), rd, rs1, rs2),
        Inst::Fence { fields } => put_fence(line, fields),
        Inst::Ecall => put_form(line, Form::Ecall),
        Inst::Ebreak => put_form(line, Form::Ebreak),
    }
}

/// `rd, n`.
#[tactic(auto, unfolding(crate::specs::Text::upper_text))]
fn put_upper<const N: usize>(line: &mut Line<N>, form: Form, rd: u32, n: u32)
    requires { 44 + length line.old ≤ N }
    ensures text { line.new ≡ upper_text form rd n ++ line.old }
    ensures few { length line.new ≤ 44 + length line.old }
{
    line.put_number(n);
    line.put_text(", ");
    line.put_number(rd);
    line.put_text(" x");
    put_form(line, form);
}

/// `rd, T`.
#[tactic(auto, unfolding(crate::specs::Text::jump_text))]
fn put_jump<const N: usize>(line: &mut Line<N>, form: Form, rd: u32, offset: u32)
    requires { 44 + length line.old ≤ N }
    ensures text { line.new ≡ jump_text form rd offset ++ line.old }
    ensures few { length line.new ≤ 44 + length line.old }
{
    line.put_signed(offset.cast_signed());
    line.put_text(", ");
    line.put_number(rd);
    line.put_text(" x");
    put_form(line, form);
}

/// `rs1, rs2, T`, and `rd, rs1, n`.
#[tactic(auto, unfolding(crate::specs::Text::pair_text))]
fn put_pair<const N: usize>(line: &mut Line<N>, form: Form, first: u32, second: u32, n: u32)
    requires { 44 + length line.old ≤ N }
    ensures text { line.new ≡ pair_text form first second n ++ line.old }
    ensures few { length line.new ≤ 44 + length line.old }
{
    line.put_signed(n.cast_signed());
    line.put_text(", ");
    line.put_number(second);
    line.put_text(", x");
    line.put_number(first);
    line.put_text(" x");
    put_form(line, form);
}

/// `rd, n(rs1)`, and `rs2, n(rs1)`.
#[tactic(auto, unfolding(crate::specs::Text::indexed_text))]
fn put_indexed<const N: usize>(line: &mut Line<N>, form: Form, register: u32, n: u32, base: u32)
    requires { 44 + length line.old ≤ N }
    ensures text { line.new ≡ indexed_text form register n base ++ line.old }
    ensures few { length line.new ≤ 44 + length line.old }
{
    line.put_text(")");
    line.put_number(base);
    line.put_text("(x");
    line.put_signed(n.cast_signed());
    line.put_text(", ");
    line.put_number(register);
    line.put_text(" x");
    put_form(line, form);
}

/// `rd, rs1, rs2`.
#[tactic(auto, unfolding(crate::specs::Text::register_text))]
fn put_registers<const N: usize>(line: &mut Line<N>, form: Form, rd: u32, rs1: u32, rs2: u32)
    requires { 44 + length line.old ≤ N }
    ensures text { line.new ≡ register_text form rd rs1 rs2 ++ line.old }
    ensures few { length line.new ≤ 44 + length line.old }
{
    line.put_number(rs2);
    line.put_text(", x");
    line.put_number(rs1);
    line.put_text(", x");
    line.put_number(rd);
    line.put_text(" x");
    put_form(line, form);
}

/// `fence n`.
#[tactic(auto, unfolding(crate::specs::Text::fence_text))]
fn put_fence<const N: usize>(line: &mut Line<N>, n: u32)
    requires { 44 + length line.old ≤ N }
    ensures text { line.new ≡ fence_text n ++ line.old }
    ensures few { length line.new ≤ 44 + length line.old }
{
    line.put_number(n);
    line.put_text(" ");
    put_form(line, Form::Fence);
}

/// The word alone.
fn put_form<const N: usize>(line: &mut Line<N>, form: Form)
    requires { 6 + length line.old ≤ N }
    ensures text { line.new ≡ form_name form ++ line.old }
    ensures few { length line.new ≤ 6 + length line.old }
{
    line.put_text(form_name(form));
}
