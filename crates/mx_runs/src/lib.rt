//! Laws of every turn and every run of the abstract machine, each the contract of a function that does nothing.
#![tactic(auto)]

mod borders;
mod denials;
mod flat_states;
mod foreign;
mod gate_calls;
mod refusals;
mod twins;

pub use borders::borders_tell_turns;
pub use denials::denied_exactly;
pub use flat_states::valid_flat_states_are_flat;
pub use foreign::foreign_words_stay;
pub use gate_calls::gate_calls_return;
pub use refusals::refused_calls;
pub use twins::twins_run;
