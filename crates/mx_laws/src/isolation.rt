//! Isolation: what a hart's turn depends on, and what it leaves.
ghost use Rattle.std.specs.Prelude.{◌≡◌, ◌≢◌, ◌↔◌, ℕ};
ghost use Rattle.mx_model.specs.Agreement.{Ended, Nothing, agree, border, flat_agree};
ghost use Rattle.mx_model.specs.declared.values.TurnKind.TheVariants as T;
ghost use Rattle.mx_model.specs.Reads.{Reads};
ghost use Rattle.mx_model.specs.State.{State, Flat, Core, hart_at};
ghost use Rattle.mx_model.specs.Valid.{IsValid};
ghost use Rattle.mx_laws.specs.After.{core_after, frames_at, hart_after, kind_of, standing_at};
ghost use Rattle.mx_laws.specs.Twins.{AreFreeTwins, AreTwins, IsRunning, MakeOneStore, agree_after, flat_agree_after};
ghost use Rattle.mx_laws.specs.Twins.{flat_free_twins, free_twins};
ghost use Rattle.mx_laws.specs.Foreign.{ForeignAfter};
ghost use Rattle.mx_laws.specs.Crossing.{FramesAfter};

/// Twin turns. Two states of as many words and bytes of RAM, whatever they answer of rights, that agree for hart h at a
/// multiple of 4
/// have one border for h. A running hart's turn is `Ran` exactly where its border is nothing; there it makes one and
/// the same store in
/// both, and they agree afterwards for h and for each other hart for which they agreed. A turn is `Idle` exactly where
/// its hart is
/// halted.
pub fn turns_of_twins()
    ensures border { (r q : Reads) (c e : Core) (h : ℕ) → AreTwins r c q e h →
        border r c h ≡ border q e h }
    ensures ran { (r : Reads) (c : Core) (h : ℕ) → IsRunning c h →
        (kind_of r c h ≡ T.Ran) ↔ (border r c h ≡ Nothing) }
    ensures idle { (r : Reads) (c : Core) (h : ℕ) →
        (kind_of r c h ≡ T.Idle) ↔ (standing_at c h ≡ Ended) }
    ensures store { (r q : Reads) (c e : Core) (h : ℕ) → AreFreeTwins r c q e h →
        MakeOneStore r c q e h }
    ensures agreement { (s t : State) (h g : ℕ) → free_twins s t h → agree s t g →
        agree_after s t h g }
    ensures flat { (s t : Flat) (h g : ℕ) → flat_free_twins s t h → flat_agree s t g →
        flat_agree_after s t h g }
{}

/// No foreign write. In a valid state a hart's turn leaves each word that its domain may not write, but for the block
/// of an alloc that
/// takes effect, which lies in its own heap area and is zero. Where the hart is halted or waits on, the turn changes no
/// byte.
pub fn turns_keep_foreign_words()
    ensures foreign { (r : Reads) (c : Core) (h : ℕ) → IsValid c →
        ForeignAfter r c h (core_after r c h) }
    ensures halted { (r : Reads) (c : Core) (h : ℕ) → standing_at c h ≡ Ended →
        (core_after r c h).ram ≡ c.ram }
    ensures waiting { (r : Reads) (c : Core) (h : ℕ) → kind_of r c h ≡ T.Waited →
        (core_after r c h).ram ≡ c.ram }
{}

/// Saved registers. In a valid state a hart's own turn leaves its frames, pushes one that holds x1, its domain and its
/// fifteen
/// registers, or gives up the top one and goes on as that one holds. Another hart's frames stay as they are.
pub fn turns_keep_frames()
    ensures own { (r : Reads) (c : Core) (h : ℕ) → IsValid c →
        FramesAfter (hart_at c h) (hart_after r c h) }
    ensures others { (r : Reads) (c : Core) (h g : ℕ) → g ≢ h →
        frames_at (core_after r c h) g ≡ frames_at c g }
{}
