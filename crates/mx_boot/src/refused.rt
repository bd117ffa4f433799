//! Why a plan is not laid out, and the places of faults.

ghost use Rattle.std.specs.Prelude.{◌≡◌};
ghost use Rattle.mx_boot.specs.Faults.{at_hart, at_module, fault};

use mx_manifest::{BootFault, Key, Part, Place};
use mx_words::Need;
use thiserror::Error;

/// Why a plan is not laid out.
#[derive(Clone, Copy, PartialEq, Eq, Debug)]
pub enum LayoutRefused {
    /// It has this first fault, of number 10 to 17.
    Fault(BootFault),
    /// An allocation was refused.
    NoMemory,
}

/// Why a plan doesn't boot.
#[derive(Clone, Copy, PartialEq, Eq, Debug, Drop, Error)]
pub enum BootRefused {
    /// It has this first fault, of number 10 to 17.
    #[error("fault {} of the plan", .0.number)]
    Fault(BootFault),
    /// The maps of its modules need more than the tables may take.
    #[error("the maps of the plan's modules need more than the tables may take")]
    TablesFull {
        /// What they need.
        need: Need,
        /// What the tables may take.
        limit: Need,
    },
    /// An allocation was refused.
    #[error("no memory for the plan's machine")]
    NoMemory,
}

/// A key of a module's table.
pub(crate) fn at_module(domain: u32, key: Key) -> Place
    ensures { result ≡ at_module domain key }
{
    Place {
        part: Part::Module,
        index: domain,
        key,
    }
}

/// The key `entry` of a hart's table.
pub(crate) fn at_hart(number: u32) -> Place
    ensures { result ≡ at_hart number }
{
    Place {
        part: Part::Hart,
        index: number,
        key: Key::Entry,
    }
}

/// A fault at a place.
pub(crate) fn fault(number: u32, place: Place, detail: u32) -> BootFault
    ensures { result ≡ fault number place detail }
{
    BootFault {
        number,
        place,
        detail,
    }
}
