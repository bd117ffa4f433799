//! The table of keys, in listed order.

ghost use Rattle.std.specs.Prelude.{◌≡◌};
ghost use Rattle.mx_words.specs.Limits.{most_gates};
ghost use Rattle.mx_manifest.specs.Rows.{most, row, top_rows, early_rows, late_rows, gate_rows, hart_rows};

use crate::Key;
use crate::row::{Asked, Form, ItemForm, Name, Row, TextForm, Version};
use mx_words::{
    LEAST_RAM_KIB, MOST_GATES, MOST_HARTS, MOST_INLINE_WORDS, MOST_LEAF, MOST_MODULES,
    MOST_QUANTUM, MOST_RAM_KIB, MOST_SPILL, MOST_STACK_WORDS, MOST_UPPER, MOST_WORDS,
};

// The limits, as numbers of the table.
const MODULES: u32 = MOST_MODULES as u32;

const HARTS: u32 = MOST_HARTS as u32;

const GATES: u32 = MOST_GATES as u32;

/// What version 1 allows at most, or version 2.
fn most(version: Version, one: u32, two: u32) -> u32
    ensures { result ≡ most version one two }
{
    match version {
        Version::One => one,
        Version::Two => two,
    }
}

fn row(key: Key, asked: Asked, form: Form) -> Row
    ensures { result ≡ row key asked form }
{
    Row {
        name: Name::Of(key),
        asked,
        form,
    }
}

/// The top table.
pub(crate) fn top_rows(version: Version) -> [Row; 10]
    ensures { result ≡ top_rows version }
{
    let ram = Form::Aligned(LEAST_RAM_KIB, most(version, 16384, MOST_RAM_KIB));
    let upper = Form::Integer(0, most(version, 1024, MOST_UPPER));
    let leaf = Form::Integer(0, most(version, 65536, MOST_LEAF));
    let spill = Form::Integer(0, most(version, 262144, MOST_SPILL));
    let modules = Form::Array(1, most(version, 15, MODULES), ItemForm::Table);
    [
        row(Key::Version, Asked::Always, Form::Integer(1, 2)),
        row(Key::RamKib, Asked::Always, ram),
        row(Key::Tables, Asked::Never, Form::Text(TextForm::Tables)),
        row(Key::Upper, Asked::Never, upper),
        row(Key::Leaf, Asked::Never, leaf),
        row(Key::Spill, Asked::Never, spill),
        row(Key::Lookaside, Asked::Never, Form::Choice(8, 32, 64)),
        row(Key::Quantum, Asked::Never, Form::Integer(1, MOST_QUANTUM)),
        row(Key::Module, Asked::Always, modules),
        row(
            Key::Hart,
            Asked::Always,
            Form::Array(1, HARTS, ItemForm::Table),
        ),
    ]
}

/// A module, up to its gates.
pub(crate) fn early_rows(version: Version) -> [Row; 11]
    ensures { result ≡ early_rows version }
{
    let inline = Asked::Without(Key::Image);
    let address = Form::Aligned(0, u32::MAX);
    let heap_words = Form::Integer(1, most(version, 4194304, MOST_WORDS));
    [
        row(Key::Name, Asked::Always, Form::Text(TextForm::ModuleName)),
        row(
            Key::Image,
            Asked::WithoutAny(Key::At, Key::Perm, Key::Words),
            Form::Text(TextForm::FileName),
        ),
        row(Key::At, inline, address),
        row(Key::Perm, inline, Form::Text(TextForm::Permission)),
        row(
            Key::Words,
            inline,
            Form::Array(1, MOST_INLINE_WORDS, ItemForm::Word),
        ),
        row(Key::Wx, Asked::Never, Form::Text(TextForm::ImagePermission)),
        row(Key::Heap, Asked::With(Key::HeapWords), address),
        row(Key::HeapWords, Asked::With(Key::Heap), heap_words),
        row(Key::Stack, Asked::With(Key::StackWords), address),
        row(
            Key::StackWords,
            Asked::With(Key::Stack),
            Form::Integer(1, MOST_STACK_WORDS),
        ),
        row(
            Key::Gates,
            Asked::Never,
            Form::Array(0, GATES, ItemForm::Table),
        ),
    ]
}

/// `returns` of a module.
pub(crate) fn returns_row() -> Row
    ensures { result ≡ row Key.Returns Asked.Never (Form.Array 0 most_gates ItemForm.Entry) }
{
    row(
        Key::Returns,
        Asked::Never,
        Form::Array(0, GATES, ItemForm::Entry),
    )
}

/// A module of version 1, after its gates.
pub(crate) fn late_rows_one() -> [Row; 1]
    ensures { result ≡ late_rows Version.One }
{
    [returns_row()]
}

/// A module of version 2, after its gates.
pub(crate) fn late_rows_two() -> [Row; 7]
    ensures { result ≡ late_rows Version.Two }
{
    let input = Asked::WithAny(Key::InputAt, Key::InputWords, Key::InputPerm);
    let input_at = Asked::WithAny(Key::Input, Key::InputWords, Key::InputPerm);
    let input_words = Asked::WithAny(Key::Input, Key::InputAt, Key::InputPerm);
    let permission = Form::Text(TextForm::InputPermission);
    [
        returns_row(),
        row(Key::OnFault, Asked::Never, Form::Text(TextForm::OnFault)),
        row(Key::Seal, Asked::Never, Form::Boolean),
        row(Key::Input, input, Form::Text(TextForm::FileName)),
        row(Key::InputAt, input_at, Form::Aligned(0, u32::MAX)),
        row(Key::InputWords, input_words, Form::Integer(1, MOST_WORDS)),
        row(Key::InputPerm, Asked::Never, permission),
    ]
}

/// A gate of a module.
pub(crate) fn gate_rows(version: Version) -> [Row; 2]
    ensures { result ≡ gate_rows version }
{
    let from = Row {
        name: Name::From,
        asked: Asked::Always,
        form: Form::Array(1, most(version, 15, MODULES), ItemForm::Text),
    };
    [row(Key::Entry, Asked::Always, Form::Entry), from]
}

/// A hart.
pub(crate) fn hart_rows() -> [Row; 2]
    ensures { result ≡ hart_rows }
{
    [
        row(Key::Module, Asked::Always, Form::Text(TextForm::Any)),
        row(Key::Entry, Asked::Never, Form::Entry),
    ]
}
