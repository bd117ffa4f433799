//! Quiet turns: those that neither trap nor call change no right and no owner, tell nothing, and stop or wake no hart.
ghost use Rattle.std.specs.Prelude.{◌≡◌, ℕ, false, List};
ghost use Rattle.mx_model.specs.Reads.{Reads};
ghost use Rattle.mx_model.specs.Run.{flat_kind, flat_turn, kind, turn};
ghost use Rattle.mx_model.specs.State.{State, Flat, Core};
ghost use Rattle.mx_model.specs.Turn.{turned};
ghost use Rattle.mx_laws.specs.After.{core_after, kind_of};
ghost use Rattle.mx_laws.specs.Quiet.{AddedNothing, AddsNothing, AreQuiet, IsLeftByRow, SameEnd, SameRights};
ghost use Rattle.mx_laws.specs.Quiet.{SameStandings, may_tell, row};

/// Quiet turns. A turn that is neither `Trapped` nor `Called` changes no right and no owner and adds no console byte
/// and no note, in states and in flat states; each hart runs, waits or is halted after it as before, so all are halted
/// after it exactly where they were before. So after any row of such turns, whichever harts make them.
pub fn quiet_turns()
    ensures made { (r : Reads) (c : Core) (h : ℕ) → may_tell (kind_of r c h) ≡ false →
        AddsNothing (turned r c h) }
    ensures state { (s : State) (h : ℕ) → may_tell (kind s h) ≡ false →
        AddedNothing s (turn s h) }
    ensures flat { (f : Flat) (h : ℕ) → may_tell (flat_kind f h) ≡ false →
        SameRights f (flat_turn f h) }
    ensures row { (hs : List ℕ) (s : State) → AreQuiet hs s → IsLeftByRow s (row hs s) }
    ensures standing { (r : Reads) (c : Core) (h : ℕ) → may_tell (kind_of r c h) ≡ false →
        SameStandings c (core_after r c h) }
    ensures going { (r : Reads) (c : Core) (h : ℕ) → may_tell (kind_of r c h) ≡ false →
        SameEnd c (core_after r c h) }
{}
