//! A machine of any kind, taken apart.

/// What is called of the machine, whatever its tables and N.
macro_rules! each {
    ($any:expr, $machine:ident => $call:expr) => {
        match $any {
            AnyMachine::Segments8($machine) => $call,
            AnyMachine::Segments32($machine) => $call,
            AnyMachine::Segments64($machine) => $call,
            AnyMachine::Multilevel8($machine) => $call,
            AnyMachine::Multilevel32($machine) => $call,
            AnyMachine::Multilevel64($machine) => $call,
            AnyMachine::Packed8($machine) => $call,
            AnyMachine::Packed32($machine) => $call,
            AnyMachine::Packed64($machine) => $call,
        }
    };
}

pub(crate) use each;
