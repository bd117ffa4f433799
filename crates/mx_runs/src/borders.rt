//! Borders tell turns: what ends a hart's dependence on what it agrees on is told by the turn itself.
ghost use Rattle.std.specs.Prelude.{◌≡◌, ◌↔◌, ℕ};
ghost use Rattle.mx_model.specs.Agreement.{Border, border};
ghost use Rattle.mx_model.specs.Reads.{Reads};
ghost use Rattle.mx_model.specs.State.{Core};
ghost use Rattle.mx_laws.specs.Twins.{IsRunning};
ghost use Rattle.mx_runs.specs.Borders.{IsOfRow};

/// Borders tell turns. Whatever is answered of rights, a running hart's border is a trap exactly where its turn is a
/// fault by that cause, which is none of 16 to 19, with that value; a call gate exactly where the turn is one at a call
/// gate at its pc: a fault by 19 where x1 isn't a multiple of 4, a return with the frames as they were where the target
/// is dead, a fault by 16 where there are 64 frames, or a crossing into the target; a return gate exactly where it is
/// one at a return gate: a fault by 18 where there is no frame, a fault by 17 where the top frame leads elsewhere, or a
/// return over the top frame; a call exactly where it is a supervisor call; and nothing exactly where it is `Ran`.
pub fn borders_tell_turns()
    ensures { (r : Reads) (c : Core) (h : ℕ) → IsRunning c h → (b : Border) →
        (border r c h ≡ b) ↔ IsOfRow r c h b }
{}
