//! Plain bodies for tests and benchmarks alone.
#![tactic(auto)]

mod blocks;
mod bus;
mod maps;
mod needs;
mod runs;
mod samples;
mod spans;
mod stored;
mod tables;

pub use bus::PlainBus;
pub use samples::{grant, one_domain, row, try_change, two_domains};
pub use tables::{AsMultilevel, AsPacked, AsSegments, PlainKind, PlainTables};
