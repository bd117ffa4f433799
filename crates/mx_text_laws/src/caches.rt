//! No line of a report but those of `--counts` reads a cache, and no text of a run; each the contract of a function
//! that does nothing.
ghost use Rattle.std.specs.Prelude.{◌≡◌, ◌≢◌, ℕ, false, List, Option, Some};
ghost use Rattle.mx_model.specs.Run.{Schedule, run};
ghost use Rattle.mx_model.specs.State.{State};
ghost use Rattle.mx_uncached.specs.Forgetting.{plain};
ghost use Rattle.mx_report.specs.declared.closing.Options.{Options};
ghost use Rattle.mx_report.specs.declared.lines.EndState.{EndState};
ghost use Rattle.mx_report.specs.Texts.{closing};
ghost use Rattle.mx_snapshot.specs.Kept.{KeptPlan};
ghost use Rattle.mx_turns.specs.declared.task.Dump.{Dump};
ghost use Rattle.mx_turns.specs.declared.task.Dump.TheVariants as D;
ghost use Rattle.mx_turns.specs.Runs.{ran};
ghost use Rattle.mx_text_laws.specs.PlainRuns.{SameTexts, plain_ran};

/// Without `--counts` the closing lines are those of the plain machine: of two states that differ in caches and in the
/// size of the
/// lookaside buffer alone they are the same, with `--tables` and without, and they are so after as long a run of both
/// by any schedule.
pub fn reports_read_no_cache()
    ensures closing { (names : List (List ℕ)) (end : EndState) (options : Options) (s t : State) →
        options.counts ≡ false → plain s ≡ plain t →
        closing names end options s ≡ closing names end options t }
    ensures run { (names : List (List ℕ)) (end : EndState) (options : Options)
        (p : Schedule) (n : ℕ) (s t : State) →
        options.counts ≡ false → plain s ≡ plain t →
        closing names end options (run p n s) ≡ closing names end options (run p n t) }
{}

/// Without `--counts` the texts of a run are those of the plain machine, but for a snapshot, which has the size of the
/// lookaside
/// buffers: from every state, by every schedule and for every number of turns console, report and dump are the texts of
/// the plain
/// machine's run from the state without its caches, and so are console and report so far after each number of turns.
pub fn texts_read_no_cache()
    ensures { (kept : KeptPlan) (options : Options) (dump : Option Dump) (steps : ℕ)
        (schedule : Schedule) (s : State) → options.counts ≡ false → dump ≢ Some D.Snapshot →
        SameTexts (ran kept options dump steps schedule s)
        (plain_ran kept options dump steps schedule (plain s)) }
{}
