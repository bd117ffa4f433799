//! Laws of states that are the same, and of bytes that are read back, each the contract of a function that does
//! nothing.
ghost use Rattle.std.specs.Prelude.{◌≡◌, ℕ, ◌+◌, ◌≤◌, ◌++◌, List, length};
ghost use Rattle.mx_words.specs.Limits.{most_snapshot_bytes};
ghost use Rattle.mx_model.specs.Run.{Schedule, turn, flat_turn, kind, flat_kind, made_of, flat_made, run};
ghost use Rattle.mx_model.specs.State.{State, Flat, flat};
ghost use Rattle.mx_snapshot.specs.Fields.{stored_in};
ghost use Rattle.mx_snapshot.specs.Fits.{AreBytes, IsStored};
ghost use Rattle.mx_snapshot.specs.Reader.{Took};
ghost use Rattle.mx_snapshot.specs.Same.{AreSame, TakesUp, silent};
ghost use Rattle.mx_snapshot.specs.Spelling.{spelling};
ghost use Rattle.mx_snapshot.specs.Stored.{Stored};

/// A turn of one hart in two states that are the same leaves them the same, is of the same kind, and adds the same
/// console bytes and
/// the same note to both: in flat states, and in states.
pub fn same_after_a_turn()
    ensures flat { (f g : Flat) (h : ℕ) → AreSame f g → AreSame (flat_turn f h) (flat_turn g h) }
    ensures flat_kind { (f g : Flat) (h : ℕ) → AreSame f g → flat_kind f h ≡ flat_kind g h }
    ensures flat_bytes { (f g : Flat) (h : ℕ) → AreSame f g →
        (flat_made f h).console ≡ (flat_made g h).console }
    ensures flat_note { (f g : Flat) (h : ℕ) → AreSame f g →
        (flat_made f h).note ≡ (flat_made g h).note }
    ensures state { (s t : State) (h : ℕ) → AreSame (flat s) (flat t) →
        AreSame (flat (turn s h)) (flat (turn t h)) }
    ensures kind { (s t : State) (h : ℕ) → AreSame (flat s) (flat t) → kind s h ≡ kind t h }
    ensures bytes { (s t : State) (h : ℕ) → AreSame (flat s) (flat t) →
        (made_of s h).console ≡ (made_of t h).console }
    ensures note { (s t : State) (h : ℕ) → AreSame (flat s) (flat t) →
        (made_of s h).note ≡ (made_of t h).note }
{}

/// What a run adds to console and notes is what it gives from the same state with neither, and it leaves the same flat
/// state.
pub fn run_from_silence()
    ensures flat { (p : Schedule) (n : ℕ) (s : State) →
        flat (run p n s) ≡ flat (run p n (silent s)) }
    ensures console { (p : Schedule) (n : ℕ) (s : State) →
        (run p n s).console ≡ s.console ++ (run p n (silent s)).console }
    ensures notes { (p : Schedule) (n : ℕ) (s : State) →
        (run p n s).notes ≡ s.notes ++ (run p n (silent s)).notes }
{}

/// Runs of n turns by one schedule from two states that are the same leave them the same, and add the same console
/// bytes and the
/// same notes to both.
pub fn same_after_a_run()
    ensures same { (p : Schedule) (n : ℕ) (s t : State) → AreSame (flat s) (flat t) →
        AreSame (flat (run p n s)) (flat (run p n t)) }
    ensures console { (p : Schedule) (n : ℕ) (s t : State) → AreSame (flat s) (flat t) →
        (run p n (silent s)).console ≡ (run p n (silent t)).console }
    ensures notes { (p : Schedule) (n : ℕ) (s t : State) → AreSame (flat s) (flat t) →
        (run p n (silent s)).notes ≡ (run p n (silent t)).notes }
{}

/// A run of n turns, taken up in a state that is the same, with no console bytes and no notes, and run for m turns more
/// is the run of
/// n + m turns: the flat states after are the same, and console bytes and notes of the two parts together are those of
/// the whole.
pub fn taken_up_after_a_run()
    ensures same { (p : Schedule) (n m : ℕ) (s t : State) → TakesUp (run p n s) t →
        AreSame (flat (run p (n + m) s)) (flat (run p m t)) }
    ensures console { (p : Schedule) (n m : ℕ) (s t : State) → TakesUp (run p n s) t →
        (run p (n + m) s).console ≡ (run p n s).console ++ (run p m t).console }
    ensures notes { (p : Schedule) (n m : ℕ) (s t : State) → TakesUp (run p n s) t →
        (run p (n + m) s).notes ≡ (run p n s).notes ++ (run p m t).notes }
{}

/// A snapshot's bytes hold what they are spelled from: of every valid snapshot of at most 1073741824 bytes `stored_in`
/// takes what it
/// stores from its spelling, to the last byte; and bytes from which it takes something are the spelling of that, which
/// is valid.
pub fn snapshots_are_read_back()
    ensures read { (s : Stored) → IsStored s → length (spelling s) ≤ most_snapshot_bytes →
        stored_in (spelling s) ≡ Took s (length (spelling s)) }
    ensures valid { (bytes : List ℕ) (s : Stored) (n : ℕ) → AreBytes bytes →
        stored_in bytes ≡ Took s n → IsStored s }
    ensures spelled { (bytes : List ℕ) (s : Stored) (n : ℕ) → AreBytes bytes →
        stored_in bytes ≡ Took s n → bytes ≡ spelling s }
    ensures whole { (bytes : List ℕ) (s : Stored) (n : ℕ) → AreBytes bytes →
        stored_in bytes ≡ Took s n → n ≡ length bytes }
{}
