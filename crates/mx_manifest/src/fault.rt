//! Why a boot is refused, and where in the manifest the cause stands.

ghost use Rattle.std.specs.Prelude.{◌≡◌};
ghost use Rattle.mx_manifest.specs.Keys.{key_text};

/// Why a boot is refused: the number of the fault, the place of its cause, and what the fault adds.
#[derive(Clone, Copy, PartialEq, Eq, Debug)]
pub struct BootFault {
    /// The number of the fault, from 1.
    pub number: u32,
    /// Where the cause stands.
    pub place: Place,
    /// What the fault adds, as a module's number; 0 where it adds nothing.
    pub detail: u32,
}

/// A place in the manifest: a table of it, and a key in that table.
#[derive(Clone, Copy, PartialEq, Eq, Debug)]
pub struct Place {
    /// The table.
    pub part: Part,
    /// The number of the table among those of its kind, from 1; 0 for the manifest and the schedule.
    pub index: u32,
    /// The key.
    pub key: Key,
}

/// A table of the manifest, or the schedule file that stands beside it.
#[derive(Clone, Copy, PartialEq, Eq, Debug)]
pub enum Part {
    /// The top table, or the file as a whole.
    Manifest,
    /// A table of `module`.
    Module,
    /// A table of `hart`.
    Hart,
    /// The schedule file.
    Schedule,
}

/// A key of the manifest, or no key where a table as a whole is meant.
#[derive(Clone, Copy, PartialEq, Eq, Debug)]
pub enum Key {
    /// `version` of the top table.
    Version,
    /// `ram_kib` of the top table.
    RamKib,
    /// `tables` of the top table.
    Tables,
    /// `upper` of the top table.
    Upper,
    /// `leaf` of the top table.
    Leaf,
    /// `spill` of the top table.
    Spill,
    /// `lookaside` of the top table.
    Lookaside,
    /// `quantum` of the top table.
    Quantum,
    /// `module` of the top table or of a hart.
    Module,
    /// `hart` of the top table.
    Hart,
    /// `name` of a module.
    Name,
    /// `image` of a module.
    Image,
    /// `at` of a module.
    At,
    /// `perm` of a module.
    Perm,
    /// `words` of a module.
    Words,
    /// `wx` of a module.
    Wx,
    /// `heap` of a module.
    Heap,
    /// `heap_words` of a module.
    HeapWords,
    /// `stack` of a module.
    Stack,
    /// `stack_words` of a module.
    StackWords,
    /// `gates` of a module.
    Gates,
    /// `returns` of a module.
    Returns,
    /// `on_fault` of a module.
    OnFault,
    /// `seal` of a module.
    Seal,
    /// `input` of a module.
    Input,
    /// `input_at` of a module.
    InputAt,
    /// `input_words` of a module.
    InputWords,
    /// `input_perm` of a module.
    InputPerm,
    /// `entry` of a hart.
    Entry,
    /// No key.
    NoKey,
}

impl Key {
    /// The key's name as a manifest has it, `-` for no key.
    pub fn name(self) -> &'static str
        ensures { result.now ≡ key_text self }
    {
        match self {
            Key::Version => "version",
            Key::RamKib => "ram_kib",
            Key::Tables => "tables",
            Key::Upper => "upper",
            Key::Leaf => "leaf",
            Key::Spill => "spill",
            Key::Lookaside => "lookaside",
            Key::Quantum => "quantum",
            Key::Module => "module",
            Key::Hart => "hart",
            Key::Name => "name",
            Key::Image => "image",
            Key::At => "at",
            Key::Perm => "perm",
            Key::Words => "words",
            Key::Wx => "wx",
            Key::Heap => "heap",
            Key::HeapWords => "heap_words",
            Key::Stack => "stack",
            Key::StackWords => "stack_words",
            Key::Gates => "gates",
            Key::Returns => "returns",
            Key::OnFault => "on_fault",
            Key::Seal => "seal",
            Key::Input => "input",
            Key::InputAt => "input_at",
            Key::InputWords => "input_words",
            Key::InputPerm => "input_perm",
            Key::Entry => "entry",
            Key::NoKey => "-",
        }
    }
}
