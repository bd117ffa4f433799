//! Two machines watched for a domain, turn by turn.
ghost use Rattle.std.specs.Prelude.{◌≡◌, ◌≢◌, ℕ, Bool, true, false};
ghost use Rattle.mx_model.specs.declared.values.TurnKind.TheVariants as T;
ghost use Rattle.mx_model.specs.Run.{all_halted, flat_kind, flat_turn};
ghost use Rattle.mx_model.specs.State.{Flat};
ghost use Rattle.mx_touched.specs.Pairs.{ArePair, IsRight, Knows, any_compared, fails, flat_touched, found_known};
ghost use Rattle.mx_touched.specs.Pairs.{found_unknown, is_compared};

/// What is found after a turn of hart h in both machines is right: where agreement is said to fail it does, and else
/// what is said to be
/// known is so. Where something is known agreement doesn't fail. After a turn that just carries out an instruction, of
/// a hart that
/// was compared before it, nothing need be compared.
pub fn twins_are_found()
    ensures holds { (d : ℕ) (f g : Flat) (known : Bool) → ArePair f g → Knows d f g known →
        fails d f g ≡ false }
    ensures known { (d h : ℕ) (f g : Flat) → ArePair f g → Knows d f g true →
        ArePair (flat_turn f h) (flat_turn g h) →
        IsRight d (flat_turn f h) (flat_turn g h)
        (found_known d (flat_turn f h) (flat_turn g h) h (flat_touched f h) (flat_touched g h)) }
    ensures unknown { (d h : ℕ) (f g : Flat) → ArePair f g → Knows d f g false →
        ArePair (flat_turn f h) (flat_turn g h) →
        IsRight d (flat_turn f h) (flat_turn g h)
        (found_unknown d (flat_turn f h) (flat_turn g h) h) }
    ensures ran { (d h : ℕ) (f g : Flat) (known : Bool) → ArePair f g → Knows d f g known →
        is_compared d f g h ≡ true → flat_kind f h ≡ T.Ran →
        Knows d (flat_turn f h) (flat_turn g h) true }
{}

/// How two machines go on. At the start, where agreement doesn't fail, what is known follows from whether any hart is
/// compared. A hart that
/// is compared and after whose turn agreement fails for the first time made neither a turn that just carries out an
/// instruction nor an
/// idle one. Where all harts of both are halted agreement doesn't fail, and they are halted after any turn too. And a
/// pair stays one.
pub fn twins_go_on()
    ensures start { (d : ℕ) (f g : Flat) → ArePair f g → fails d f g ≡ false →
        Knows d f g (any_compared d f g) }
    ensures border { (d h : ℕ) (f g : Flat) → ArePair f g → fails d f g ≡ false →
        is_compared d f g h ≡ true → fails d (flat_turn f h) (flat_turn g h) ≡ true →
        (flat_kind f h ≢ T.Ran) × (flat_kind f h ≢ T.Idle) }
    ensures ended { (d : ℕ) (f g : Flat) → ArePair f g → all_halted f.core ≡ true →
        all_halted g.core ≡ true → fails d f g ≡ false }
    ensures halted { (f : Flat) (h : ℕ) → all_halted f.core ≡ true →
        all_halted (flat_turn f h).core ≡ true }
    ensures pair { (f g : Flat) (h : ℕ) → ArePair f g →
        ArePair (flat_turn f h) (flat_turn g h) }
{}
