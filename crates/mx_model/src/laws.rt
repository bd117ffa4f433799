//! Laws of the abstract machine, each the contract of a function that does nothing.
ghost use Rattle.std.specs.Prelude.{◌≡◌, ℕ, ◌+◌};
ghost use Rattle.mx_model.specs.Run.{Schedule, turn, flat_turn, made_of, flat_made, run};
ghost use Rattle.mx_model.specs.Reads.{Reads};
ghost use Rattle.mx_model.specs.State.{State, Flat, Core, flat};
ghost use Rattle.mx_model.specs.Turn.{turned};
ghost use Rattle.mx_model.specs.Valid.{IsValid, IsFlat};

/// The flat state after a turn is the turn of the flat state, and what a turn adds to console and notes is a function
/// of the flat
/// state too: for every state and every hart.
pub fn flat_of_a_turn()
    ensures state { (s : State) (h : ℕ) → flat (turn s h) ≡ flat_turn (flat s) h }
    ensures made { (s : State) (h : ℕ) → made_of s h ≡ flat_made (flat s) h }
{}

/// A run of n turns followed by one of m is the run of n + m, by every schedule.
pub fn run_after_a_run()
    ensures { (schedule : Schedule) (n m : ℕ) (s : State) →
        run schedule (n + m) s ≡ run schedule m (run schedule n s) }
{}

/// What every turn keeps, whatever is answered of rights: in a valid state lengths, ranges and alignment stay valid.
pub fn turns_keep_validity()
    ensures { (r : Reads) (c : Core) (h : ℕ) → IsValid c → IsValid (turned r c h).core }
{}

/// The same of a flat state, with the number and the lengths of its maps, its owners, and the caches of each hart.
pub fn turns_keep_flat_validity()
    ensures { (f : Flat) (h : ℕ) → IsFlat f → IsFlat (flat_turn f h) }
{}
