//! The source of a program for RISC-V with 32 bits: how each line is split, and what its statement and operands say.
//! Nothing
//! here takes memory; `mx_asm` puts the lines together.
#![tactic(auto)]

mod characters;
mod fields;
mod lines;
mod mnemonics;
mod number;
mod operands;
mod pieces;
mod registers;
mod texts;

pub use fields::{
    Fields, Value, address_range, byte_range, form_range, label_fields, read_fields, read_value,
    value_fields, word_range,
};
pub use lines::{Line, Statement, read_line};
pub use mnemonics::{Form, Keyword, form_name};
pub use number::{Number, Range, difference, fits, number_bits, read_number};
pub use operands::Indexed;
pub use pieces::{Pieces, piece_count, single};
pub use texts::{escape_byte, text_size};
