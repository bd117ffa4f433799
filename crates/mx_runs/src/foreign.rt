//! Foreign words: what a domain may write neither before nor after its turns stays.
ghost use Rattle.std.specs.Prelude.{◌≡◌, ℕ, ◌+◌, ◌<◌, length};
ghost use Rattle.mx_model.specs.Reads.{reads, flat_reads};
ghost use Rattle.mx_model.specs.Run.{Schedule, flat_turn, run, turn};
ghost use Rattle.mx_model.specs.State.{State, Flat};
ghost use Rattle.mx_laws.specs.After.{domain_at};
ghost use Rattle.mx_laws.specs.Foreign.{IsForeign, IsKept};
ghost use Rattle.mx_runs.specs.ForeignRuns.{AreAllForeign, HasLists, HasMaps, MakesTurn, MayNotWrite, NamesNobody};
ghost use Rattle.mx_runs.specs.ForeignRuns.{NeverWrites};

/// Foreign words stay. From a valid state with one list of grants for each module, or one whole map: a word that the
/// domain of a hart may write neither before the hart's turn nor after it keeps its four bytes in that turn; the
/// block of an alloc is no exception, since after it the domain may write there. So a word that a domain may write in
/// no state of a run, the last one included, is kept by each turn that a hart in it makes. From any state a turn that
/// names a hart that isn't there keeps every word. So where each hart that is there and makes a turn of a run is then
/// in a domain that may write a word in none of the run's states, the word has its bytes at the end of the run.
pub fn foreign_words_stay()
    ensures turn { (s : State) (h w : ℕ) → HasLists s → IsForeign (reads s) s.core h w →
        MayNotWrite (reads (turn s h)) (domain_at s.core h) w →
        IsKept s.core (turn s h).core w }
    ensures flat { (f : Flat) (h w : ℕ) → HasMaps f → IsForeign (flat_reads f) f.core h w →
        MayNotWrite (flat_reads (flat_turn f h)) (domain_at f.core h) w →
        IsKept f.core (flat_turn f h).core w }
    ensures turns { (schedule : Schedule) (s : State) (n d w : ℕ) → HasLists s →
        NeverWrites schedule s n d w → (k : ℕ) → k < n → MakesTurn schedule (run schedule k s) d →
        IsKept (run schedule k s).core (run schedule (k + 1) s).core w }
    ensures nobody { (schedule : Schedule) (s : State) (k w : ℕ) →
        NamesNobody schedule (run schedule k s) →
        IsKept (run schedule k s).core (run schedule (k + 1) s).core w }
    ensures run { (schedule : Schedule) (s : State) (n w : ℕ) → HasLists s →
        AreAllForeign schedule s n w → IsKept s.core (run schedule n s).core w }
{}
