//! Refused calls: what refuses a call, and what its turn leaves.
ghost use Rattle.std.specs.Prelude.{◌≡◌, ◌↔◌, ℕ, ◌<◌, length, Some};
ghost use Rattle.mx_model.specs.declared.values.Call.{Call};
ghost use Rattle.mx_model.specs.Reads.{Reads};
ghost use Rattle.mx_model.specs.State.{Core};
ghost use Rattle.mx_model.specs.Valid.{IsCall, IsValid};
ghost use Rattle.mx_runs.specs.Refusals.{IsRefused, LeavesRefused, RefusesTurn, RunsOnWithCode, TellsRefusal, refusal};

/// Refused calls. A call is refused by the first of its tests that fails: the answer is that test's code, one of -1 to
/// -15, no right, owner, byte of the console or second answer is made, and nothing changes but the caches of its own
/// hart. In a valid state a call that ends no hart and answers 2^32 - 15 or more is refused, and no other is; and a
/// hart runs on from a supervisor call with such a number in x10 exactly where its call was refused. That turn leaves
/// the state after hearing, with the turn counted, but that the hart runs on at pc + 4, that x10 is the code, and that
/// its own caches may differ.
pub fn refused_calls()
    ensures tested { (r : Reads) (c : Core) (call : Call) (n : ℕ) → refusal r c call ≡ Some n →
        IsRefused r c call n }
    ensures told { (r : Reads) (c : Core) (h : ℕ) (call : Call) → IsValid c →
        IsCall (length c.modules) h call → h < length c.harts → TellsRefusal r c call }
    ensures turn { (r : Reads) (c : Core) (h n : ℕ) → IsValid c → RunsOnWithCode r c h n →
        LeavesRefused r c h n }
    ensures exact { (r : Reads) (c : Core) (h n : ℕ) → IsValid c →
        RunsOnWithCode r c h n ↔ RefusesTurn r c h n }
{}
