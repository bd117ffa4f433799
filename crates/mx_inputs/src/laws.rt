//! The law of inputs, the contract of a function that does nothing.
ghost use Rattle.std.specs.Prelude.{◌≡◌, ℕ, List};
ghost use Rattle.mx_manifest.specs.Plan.{Said};
ghost use Rattle.mx_model.specs.Agreement.{agree};
ghost use Rattle.mx_model.specs.Run.{Schedule, run};
ghost use Rattle.mx_model.specs.State.{State};
ghost use Rattle.mx_laws.specs.After.{domain_at};
ghost use Rattle.mx_boot.specs.Bytes.{AreBytes};
ghost use Rattle.mx_inputs.specs.Free.{MeetsNoBorder};
ghost use Rattle.mx_inputs.specs.Same.{AreBoots, HasNoRightWhereTheyDiffer, HasSameInput};

/// Inputs are seen by their modules alone. Two plans that differ in the names of the files of inputs, with the same
/// images and whatever
/// inputs, boot to states that agree for each hart whose module is given the same in both. So is the module of each
/// domain that has no
/// right on an area in which they differ. By one schedule, as long as no turn of a running hart in either run meets a
/// border, the states
/// agree for these harts again, whatever the other harts make of their own inputs.
pub fn inputs_are_unseen()
    ensures boots { (p q : Said) (images left right : List (List ℕ)) (s t : State) (h : ℕ) →
        AreBoots p q images left right s t →
        HasSameInput p left right (domain_at s.core h) → agree s t h }
    ensures rights { (p q : Said) (images left right : List (List ℕ)) (s t : State) (d : ℕ) →
        AreBoots p q images left right s t → HasNoRightWhereTheyDiffer p left right s d →
        HasSameInput p left right d }
    ensures runs { (p q : Said) (images left right : List (List ℕ)) (s t : State) (h n : ℕ)
        (schedule : Schedule) →
        AreBoots p q images left right s t → AreBytes images → AreBytes left → AreBytes right →
        MeetsNoBorder schedule s n → MeetsNoBorder schedule t n →
        HasSameInput p left right (domain_at s.core h) →
        agree (run schedule n s) (run schedule n t) h }
{}
