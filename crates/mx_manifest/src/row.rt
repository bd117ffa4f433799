//! The shape of the table of keys: what a row of it says.

use crate::Key;

/// The version of a manifest, by which some ranges and keys differ.
#[derive(Clone, Copy)]
pub(crate) enum Version {
    One,
    Two,
}

/// A row of the table of keys.
#[derive(Clone, Copy)]
pub(crate) struct Row {
    /// The key's name.
    pub name: Name,
    /// Where the key is required.
    pub asked: Asked,
    /// What its value may be.
    pub form: Form,
}

/// The name of a key.
#[derive(Clone, Copy)]
pub(crate) enum Name {
    /// That of a key at which faults are told.
    Of(Key),
    /// `from` of a gate; its faults are told at `gates`.
    From,
}

/// Where a key is required.
#[derive(Clone, Copy)]
pub(crate) enum Asked {
    /// In each table.
    Always,
    /// In none.
    Never,
    /// Where this key stands.
    With(Key),
    /// Where this key doesn't stand.
    Without(Key),
    /// Where one of these stands.
    WithAny(Key, Key, Key),
    /// Where none of these stands.
    WithoutAny(Key, Key, Key),
}

/// What a value may be: its TOML type and its range.
#[derive(Clone, Copy)]
pub(crate) enum Form {
    /// An integer from the first number to the second.
    Integer(u32, u32),
    /// Such an integer that is a multiple of 4.
    Aligned(u32, u32),
    /// One of three integers.
    Choice(u32, u32, u32),
    /// A text.
    Text(TextForm),
    /// True or false.
    Boolean,
    /// An entry: a text of 1 to 255 bytes, or an address.
    Entry,
    /// An array of as many elements as from the first number to the second.
    Array(u32, u32, ItemForm),
}

/// What a text may be.
#[derive(Clone, Copy)]
pub(crate) enum TextForm {
    /// Any text.
    Any,
    /// "segments", "multilevel" or "packed".
    Tables,
    /// 1 to 32 bytes out of a to z, 0 to 9 and _.
    ModuleName,
    /// 1 to 255 bytes, not beginning with -.
    FileName,
    /// "r", "rw" or "rx".
    Permission,
    /// "rw" or "rx".
    ImagePermission,
    /// "return" or "kill".
    OnFault,
    /// "r" or "rw".
    InputPermission,
}

/// What an element of an array may be.
#[derive(Clone, Copy)]
pub(crate) enum ItemForm {
    /// A table.
    Table,
    /// An integer from 0 to 4294967295.
    Word,
    /// Any text.
    Text,
    /// An entry.
    Entry,
}
