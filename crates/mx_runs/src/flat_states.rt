//! Valid flat states are those of states.
ghost use Rattle.std.specs.Prelude.{◌≡◌};
ghost use Rattle.mx_model.specs.State.{Flat, flat};
ghost use Rattle.mx_model.specs.Valid.{IsFlat};
ghost use Rattle.mx_runs.specs.FlatStates.{state_of};

/// A valid flat state is the flat state of a state: of the one that has a grant for each word of each map and a give
/// for each word.
pub fn valid_flat_states_are_flat()
    ensures { (f : Flat) → IsFlat f → flat (state_of f) ≡ f }
{}
