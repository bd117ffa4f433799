//! Laws of live domains and sealed words, each the contract of a function that does nothing.
ghost use Rattle.std.specs.Prelude.{◌≡◌, ◌↔◌, ℕ, ◌+◌, ◌*◌, ◌<◌, List, IsTrue, slice_index};
ghost use Rattle.mx_manifest.specs.Plan.{Said};
ghost use Rattle.mx_model.specs.Reads.{Reads, reads, flat_reads};
ghost use Rattle.mx_model.specs.Run.{Schedule, run};
ghost use Rattle.mx_model.specs.State.{State, Core, flat};
ghost use Rattle.mx_laws.specs.OwnHeaps.{OwnHeaps};
ghost use Rattle.mx_audit.specs.Live.{IsLive, is_live};
ghost use Rattle.mx_audit.specs.Sealed.{IsSealed, HasSealed, is_sealed, IsAudited};
ghost use Rattle.mx_audit.specs.SealedRuns.{lies_in, sealed_runs};
ghost use Rattle.mx_audit.specs.Stays.{IsBoot, KeepsWord};

/// The domains that the rounds give are just the live ones.
pub fn live_by_rounds()
    ensures { (c : Core) (d : ℕ) → IsTrue (is_live c d) ↔ IsLive c d }
{}

/// The words that the test by rounds finds are just the sealed ones.
pub fn sealed_by_rounds()
    ensures { (r : Reads) (c : Core) (word : ℕ) → IsTrue (is_sealed r c word) ↔ IsSealed r c word }
{}

/// In each run from an audited state, by every schedule, only domains that were live are live.
pub fn live_never_grows()
    ensures { (p : Schedule) (n : ℕ) (s : State) (d : ℕ) → IsAudited s →
        IsLive (run p n s).core d → IsLive s.core d }
{}

/// In each run from an audited state, by every schedule, a sealed word keeps its owner, its permission in every domain
/// and its four
/// bytes, and is sealed still; and the state is audited still.
pub fn sealed_words_stay()
    ensures owner { (p : Schedule) (n : ℕ) (s : State) (word : ℕ) → IsAudited s → HasSealed s word →
        (reads (run p n s)).owner word ≡ (reads s).owner word }
    ensures rights { (p : Schedule) (n : ℕ) (s : State) (word : ℕ) → IsAudited s →
        HasSealed s word → (d : ℕ) → (reads (run p n s)).perm d word ≡ (reads s).perm d word }
    ensures bytes { (p : Schedule) (n : ℕ) (s : State) (word : ℕ) → IsAudited s → HasSealed s word →
        (k : ℕ) → k < 4 →
        slice_index (run p n s).core.ram (4 * word + k) ≡ slice_index s.core.ram (4 * word + k) }
    ensures sealed { (p : Schedule) (n : ℕ) (s : State) (word : ℕ) → IsAudited s →
        HasSealed s word → HasSealed (run p n s) word }
    ensures audited { (p : Schedule) (n : ℕ) (s : State) → IsAudited s → IsAudited (run p n s) }
{}

/// The sealed words of a state, and whether each heap area belongs to its module, are told by its flat state.
pub fn audit_of_a_flat_state()
    ensures sealed { (s : State) (word : ℕ) →
        HasSealed s word ↔ IsSealed (flat_reads (flat s)) s.core word }
    ensures heaps { (s : State) →
        OwnHeaps (reads s) s.core ↔ OwnHeaps (flat_reads (flat s)) s.core }
{}

/// The runs of sealed words that the flat state of a state tells hold just its sealed words.
pub fn runs_of_sealed_words()
    ensures { (s : State) (word : ℕ) →
        IsTrue (lies_in (sealed_runs (flat_reads (flat s)) s.core) word) ↔ HasSealed s word }
{}

/// The state at boot of each plan in range, of images and of inputs that are bytes is audited. So what its audit finds
/// stays in every run by every
/// schedule: only the live domains are ever live, and each word of the runs found keeps its owner, its permission in
/// every domain and
/// its four bytes.
pub fn audits_of_boots_stay()
    ensures audited { (plan : Said) (images inputs : List (List ℕ)) (s : State) →
        IsBoot plan images inputs s →
        IsAudited s }
    ensures live { (plan : Said) (images inputs : List (List ℕ)) (s : State) →
        IsBoot plan images inputs s →
        (p : Schedule) (n d : ℕ) → IsLive (run p n s).core d → IsLive s.core d }
    ensures words { (plan : Said) (images inputs : List (List ℕ)) (s : State) →
        IsBoot plan images inputs s →
        (p : Schedule) (n word : ℕ) →
        IsTrue (lies_in (sealed_runs (flat_reads (flat s)) s.core) word) →
        KeepsWord s (run p n s) word }
{}
