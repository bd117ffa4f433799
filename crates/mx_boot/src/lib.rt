//! The loader: what a plan and its images give at boot, or the first of the faults 10 to 17.
#![tactic(auto)]

mod area;
mod areas;
mod booting;
mod entries;
mod files;
mod gates;
mod granted;
mod heaps;
mod home;
mod images;
mod joined;
mod laws;
mod layout;
mod machine;
mod named;
mod owners;
mod ram;
mod refused;
mod starts;
mod tables;

pub use area::Area;
pub use booting::boot;
pub use laws::{boots_are_valid, empty_inputs_fit};
pub use layout::{Layout, lay_out};
pub use mx_any::AnyMachine;
pub use refused::{BootRefused, LayoutRefused};
