//! The words with which statements begin, each beside its statement.
ghost use Rattle.std.specs.Prelude.{◌≡◌, find};
ghost use Rattle.std.specs.Str.{bytes_eq};
ghost use Rattle.mx_source.specs.Mnemonics.{cond_name, load_name, store_name, imm_op_name, reg_op_name, form_name};
ghost use Rattle.mx_source.specs.Mnemonics.{keyword_name, keyword_of};

use mx_isa::{Cond, ImmOp, LoadWidth, RegOp, StoreWidth};

/// An instruction without its operands.
#[derive(Clone, Copy)]
pub enum Form {
    /// rd, n.
    Lui,
    /// rd, n.
    Auipc,
    /// rd, T.
    Jal,
    /// rd, n(rs1).
    Jalr,
    /// rs1, rs2, T.
    Branch(Cond),
    /// rd, n(rs1).
    Load(LoadWidth),
    /// rs2, n(rs1).
    Store(StoreWidth),
    /// rd, rs1, n.
    OpImm(ImmOp),
    /// rd, rs1, rs2.
    Op(RegOp),
    /// Nothing, or n.
    Fence,
    /// Nothing.
    Ecall,
    /// Nothing.
    Ebreak,
}

/// A statement without its operands.
#[derive(Clone, Copy)]
pub enum Keyword {
    /// Begins a segment of code.
    Text,
    /// Begins a segment of data.
    Data,
    /// Zero bytes up to an address.
    At,
    /// Four bytes a value.
    Word,
    /// One byte a number.
    Byte,
    /// The bytes of a text.
    Ascii,
    /// Two words that load a value.
    Li,
    /// Two words that load a label's address.
    La,
    /// An instruction.
    Inst(Form),
}

/// The statements.
const KEYWORDS: [Keyword; 56] = [
    Keyword::Text,
    Keyword::Data,
    Keyword::At,
    Keyword::Word,
    Keyword::Byte,
    Keyword::Ascii,
    Keyword::Li,
    Keyword::La,
    Keyword::Inst(Form::Lui),
    Keyword::Inst(Form::Auipc),
    Keyword::Inst(Form::Jal),
    Keyword::Inst(Form::Jalr),
    Keyword::Inst(Form::Fence),
    Keyword::Inst(Form::Ecall),
    Keyword::Inst(Form::Ebreak),
    Keyword::Inst(Form::Branch(Cond::Beq)),
    Keyword::Inst(Form::Branch(Cond::Bne)),
    Keyword::Inst(Form::Branch(Cond::Blt)),
    Keyword::Inst(Form::Branch(Cond::Bge)),
    Keyword::Inst(Form::Branch(Cond::Bltu)),
    Keyword::Inst(Form::Branch(Cond::Bgeu)),
    Keyword::Inst(Form::Load(LoadWidth::Lb)),
    Keyword::Inst(Form::Load(LoadWidth::Lh)),
    Keyword::Inst(Form::Load(LoadWidth::Lw)),
    Keyword::Inst(Form::Load(LoadWidth::Lbu)),
    Keyword::Inst(Form::Load(LoadWidth::Lhu)),
    Keyword::Inst(Form::Store(StoreWidth::Sb)),
    Keyword::Inst(Form::Store(StoreWidth::Sh)),
    Keyword::Inst(Form::Store(StoreWidth::Sw)),
    Keyword::Inst(Form::OpImm(ImmOp::Addi)),
    Keyword::Inst(Form::OpImm(ImmOp::Slti)),
    Keyword::Inst(Form::OpImm(ImmOp::Sltiu)),
    Keyword::Inst(Form::OpImm(ImmOp::Xori)),
    Keyword::Inst(Form::OpImm(ImmOp::Ori)),
    Keyword::Inst(Form::OpImm(ImmOp::Andi)),
    Keyword::Inst(Form::OpImm(ImmOp::Slli)),
    Keyword::Inst(Form::OpImm(ImmOp::Srli)),
    Keyword::Inst(Form::OpImm(ImmOp::Srai)),
    Keyword::Inst(Form::Op(RegOp::Add)),
    Keyword::Inst(Form::Op(RegOp::Sub)),
    Keyword::Inst(Form::Op(RegOp::Sll)),
    Keyword::Inst(Form::Op(RegOp::Slt)),
    Keyword::Inst(Form::Op(RegOp::Sltu)),
    Keyword::Inst(Form::Op(RegOp::Xor)),
    Keyword::Inst(Form::Op(RegOp::Srl)),
    Keyword::Inst(Form::Op(RegOp::Sra)),
    Keyword::Inst(Form::Op(RegOp::Or)),
    Keyword::Inst(Form::Op(RegOp::And)),
    Keyword::Inst(Form::Op(RegOp::Mul)),
    Keyword::Inst(Form::Op(RegOp::Mulh)),
    Keyword::Inst(Form::Op(RegOp::Mulhsu)),
    Keyword::Inst(Form::Op(RegOp::Mulhu)),
    Keyword::Inst(Form::Op(RegOp::Div)),
    Keyword::Inst(Form::Op(RegOp::Divu)),
    Keyword::Inst(Form::Op(RegOp::Rem)),
    Keyword::Inst(Form::Op(RegOp::Remu)),
];

/// The statement that a word begins, if it is listed.
#[tactic(auto, unfolding(crate::specs::Mnemonics::keyword_of))]
pub fn find_keyword(word: &[u8]) -> Option<Keyword>
    ensures { result ≡ keyword_of word.now }
{
    find_among(&KEYWORDS, word)
}

/// The first of these statements that a word begins.
fn find_among(keywords: &[Keyword], word: &[u8]) -> Option<Keyword>
    ensures { result ≡ find (λ k. bytes_eq (keyword_name k) word.now) keywords.now }
{
    'keywords: for keyword in keywords {
        if keyword_name(*keyword).as_bytes() == word {
            return Some(*keyword);
        }
    }
    None
}

/// The word of a statement.
fn keyword_name(keyword: Keyword) -> &'static str
    ensures { result.now ≡ keyword_name keyword }
{
    match keyword {
        Keyword::Text => ".text",
        Keyword::Data => ".data",
        Keyword::At => ".at",
        Keyword::Word => ".word",
        Keyword::Byte => ".byte",
        Keyword::Ascii => ".ascii",
        Keyword::Li => "li",
        Keyword::La => "la",
        Keyword::Inst(form) => form_name(form),
    }
}

/// The word of an instruction, in lower case.
pub fn form_name(form: Form) -> &'static str
    ensures { result.now ≡ form_name form }
{
    match form {
        Form::Lui => "lui",
        Form::Auipc => "auipc",
        Form::Jal => "jal",
        Form::Jalr => "jalr",
        Form::Branch(cond) => cond_name(cond),
        Form::Load(width) => load_name(width),
        Form::Store(width) => store_name(width),
        Form::OpImm(op) => imm_op_name(op),
        Form::Op(op) => reg_op_name(op),
        Form::Fence => "fence",
        Form::Ecall => "ecall",
        Form::Ebreak => "ebreak",
    }
}

fn cond_name(cond: Cond) -> &'static str
    ensures { result.now ≡ cond_name cond }
{
    match cond {
        Cond::Beq => "beq",
        Cond::Bne => "bne",
        Cond::Blt => "blt",
        Cond::Bge => "bge",
        Cond::Bltu => "bltu",
        Cond::Bgeu => "bgeu",
    }
}

fn load_name(width: LoadWidth) -> &'static str
    ensures { result.now ≡ load_name width }
{
    match width {
        LoadWidth::Lb => "lb",
        LoadWidth::Lh => "lh",
        LoadWidth::Lw => "lw",
        LoadWidth::Lbu => "lbu",
        LoadWidth::Lhu => "lhu",
    }
}

fn store_name(width: StoreWidth) -> &'static str
    ensures { result.now ≡ store_name width }
{
    match width {
        StoreWidth::Sb => "sb",
        StoreWidth::Sh => "sh",
        StoreWidth::Sw => "sw",
    }
}

fn imm_op_name(op: ImmOp) -> &'static str
    ensures { result.now ≡ imm_op_name op }
{
    match op {
        ImmOp::Addi => "addi",
        ImmOp::Slti => "slti",
        ImmOp::Sltiu => "sltiu",
        ImmOp::Xori => "xori",
        ImmOp::Ori => "ori",
        ImmOp::Andi => "andi",
        ImmOp::Slli => "slli",
        ImmOp::Srli => "srli",
        ImmOp::Srai => "srai",
    }
}

fn reg_op_name(op: RegOp) -> &'static str
    ensures { result.now ≡ reg_op_name op }
{
    match op {
        RegOp::Add => "add",
        RegOp::Sub => "sub",
        RegOp::Sll => "sll",
        RegOp::Slt => "slt",
        RegOp::Sltu => "sltu",
        RegOp::Xor => "xor",
        RegOp::Srl => "srl",
        RegOp::Sra => "sra",
        RegOp::Or => "or",
        RegOp::And => "and",
        RegOp::Mul => "mul",
        RegOp::Mulh => "mulh",
        RegOp::Mulhsu => "mulhsu",
        RegOp::Mulhu => "mulhu",
        RegOp::Div => "div",
        RegOp::Divu => "divu",
        RegOp::Rem => "rem",
        RegOp::Remu => "remu",
    }
}
