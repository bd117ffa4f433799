//! What a turn leaves, and that what it touched decides what a domain sees.
ghost use Rattle.std.specs.Prelude.{◌&&◌, ℕ};
ghost use Rattle.std.specs.Bool.{Decides};
ghost use Rattle.mx_model.specs.declared.values.TurnKind.{TurnKind};
ghost use Rattle.mx_model.specs.Reads.{Reads};
ghost use Rattle.mx_model.specs.State.{Core, State, Flat};
ghost use Rattle.mx_model.specs.Valid.{IsValid};
ghost use Rattle.mx_laws.specs.After.{core_after};
ghost use Rattle.mx_touched.specs.Touched.{AreIn, Touched, touched, touched_as};
ghost use Rattle.mx_touched.specs.Rest.{LeavesAll, LeavesRest, flat_leaves_all, leaves_all};
ghost use Rattle.mx_touched.specs.Views.{AreSameViews, same_touched};

/// What a turn leaves. In a valid state a turn of hart h leaves all that agreement reads beside what it touches: the
/// bytes of each other
/// word, the gates of every domain at each other word, whether a domain is dead, and each other hart; and in states and
/// flat states
/// the permissions of every domain on each other word. What a turn of whatever kind touches lies in RAM.
pub fn turns_leave_the_rest()
    ensures rest { (r : Reads) (c : Core) (h : ℕ) → IsValid c →
        LeavesRest (touched r c h) c (core_after r c h) h }
    ensures state { (s : State) (h : ℕ) → IsValid s.core → leaves_all s h }
    ensures flat { (f : Flat) (h : ℕ) → IsValid f.core → flat_leaves_all f h }
    ensures inside { (kind : TurnKind) (r : Reads) (c : Core) (h : ℕ) → IsValid c →
        AreIn c.size (touched_as kind r c h) }
{}

/// What was touched decides. Where a domain sees the same of two states, and each is followed by one that leaves all
/// beside what was
/// touched, it sees the same of those two exactly where the words, gates and deaths that were touched in either are the
/// same for it.
pub fn touched_words_decide()
    ensures { (r : Reads) (c : Core) (q : Reads) (e : Core) (u : Reads) (f : Core) (v : Reads)
        (g : Core) (s t : Touched) (h d : ℕ) →
        AreSameViews r c q e d → LeavesAll s r c u f h → LeavesAll t q e v g h →
        Decides (same_touched u f v g d s && same_touched u f v g d t) (AreSameViews u f v g d) }
{}
