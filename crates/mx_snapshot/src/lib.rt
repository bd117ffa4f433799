//! Snapshots: what two states share that are the same but for exit codes and caches, what is kept of a plan beside a
//! state, and a
//! snapshot written.
#![tactic(auto)]

mod edges;
mod harts;
mod kept;
mod laws;
mod modules;
mod numbers;
mod resuming;
mod writing;

pub use kept::Kept;
pub use laws::{
    run_from_silence, same_after_a_run, same_after_a_turn, snapshots_are_read_back,
    taken_up_after_a_run,
};
pub use resuming::{
    owners_stay_few, resumed_runs, rows_are_maps, saved_states_are_valid,
    snapshots_are_stored_again, snapshots_are_valid, snapshots_go_on, states_are_given_back,
};
pub use writing::{ram_bytes, write_snapshot};
