//! A law on one instruction, the contract of a function that does nothing.
ghost use Rattle.std.specs.Prelude.{◌≡◌, ℕ, List, ◌∷◌, None};
ghost use Rattle.mx_words.specs.Caches.{Cache};
ghost use Rattle.mx_model.specs.Reads.{Reads};
ghost use Rattle.mx_model.specs.State.{Core, Hart};
ghost use Rattle.mx_model.specs.Turn.{acted, runs_at};
ghost use Rattle.mx_core.specs.Exec.{effect_in, outcome_in, regs_in, bytes_in, looks_of, action_of, fetch_touch};
ghost use Rattle.mx_core.specs.Exec.{touches_of};

/// Where no call gate stands at a hart's pc, `exec` over a bus of the state's bytes and of the permissions of the
/// hart's domain
/// is the machine's turn: the hart looks at the words that `exec` touches, in the same order, and what the turn makes
/// follows
/// from the answer of `exec` and from the registers and bytes that it leaves, whatever the caches are. So it is for
/// each answer
/// of rights, each state and each hart.
pub fn instructions_are_turns()
    ensures looks { (r : Reads) (c : Core) (h : ℕ) (hart : Hart) →
        (runs_at r c h hart None).looks
        ≡ looks_of c hart.domain (fetch_touch hart.pc ∷ touches_of (effect_in r c hart)) }
    ensures action { (r : Reads) (c : Core) (h : ℕ) (hart : Hart) (caches : List Cache) →
        acted r (record c { caches = caches }) h hart (runs_at r c h hart None).action
        ≡ acted r (record c { ram = bytes_in r c hart; caches = caches }) h hart
        (action_of h hart (regs_in r c hart) (outcome_in r c hart)) }
{}
