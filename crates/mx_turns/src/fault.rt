//! Which sink failed.

/// The sink whose fault ended a call: the first that failed.
#[derive(Clone, Copy, PartialEq, Eq)]
pub enum SinkFault {
    /// That of the console's bytes.
    Console,
    /// That of the report.
    Report,
    /// That of the dump.
    Dump,
}
