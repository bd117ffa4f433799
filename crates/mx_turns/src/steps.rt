//! The turns that a command asks for.
ghost use Rattle.std.specs.Prelude.{◌<◌, ◌^◌};

/// How many turns a command asks for at most: a number of at most ten digits.
#[derive(Clone, Copy)]
pub struct Steps {
    /// The number, at most 9999999999.
    pub count: u64,
    pub ghost few: { count < 10 ^ 10 },
}
