//! The commands of a command line: each from what is asked to its texts, by the files of a store.
#![tactic(auto)]

mod assembling;
mod auditing;
mod booting;
mod comparing;
mod laws;
mod order;
mod reading;
mod refusal;
mod resuming;
mod running;
mod side;
mod status;
mod wanted;

pub use assembling::write_image;
pub use auditing::audit_manifest;
pub use booting::{Booted, Loaded, take_boot, take_loaded};
pub use comparing::compare_manifests;
pub use laws::machines_are_of_their_plan;
pub use order::{Order, Pair, Shown, Way};
pub use refusal::refuse;
pub use resuming::resume_snapshot;
pub use running::{run_manifest, take_schedule};
pub use side::Side;
pub use status::{FileRole, Status};
