//! Denied exactly: an access is refused where the newest covering grant says so, and nowhere else.
ghost use Rattle.std.specs.Prelude.{◌≡◌, ◌↔◌, ℕ, ◌%◌, ◌≤◌, true};
ghost use Rattle.mx_words.specs.declared.perm.Access.{Access};
ghost use Rattle.mx_words.specs.declared.perm.Access.TheVariants as A;
ghost use Rattle.mx_words.specs.Calls.{write_call, exchange_call};
ghost use Rattle.mx_words.specs.Limits.{most_written};
ghost use Rattle.mx_isa.specs.declared.inst.Inst.TheVariants.{Load, Store};
ghost use Rattle.mx_isa.specs.declared.inst.LoadWidth.{LoadWidth};
ghost use Rattle.mx_isa.specs.declared.inst.StoreWidth.{StoreWidth};
ghost use Rattle.mx_model.specs.Effect.{load_size, store_size};
ghost use Rattle.mx_model.specs.Reads.{reads};
ghost use Rattle.mx_model.specs.State.{State, hart_at};
ghost use Rattle.mx_model.specs.Turn.{is_denied};
ghost use Rattle.mx_laws.specs.After.{domain_at};
ghost use Rattle.mx_runs.specs.Denials.{MakesCall, Executes, FaultsExactly, Fetches, InRam, IsDenied, SomeDenied};
ghost use Rattle.mx_runs.specs.Denials.{address_by, answers_no_right, register_of, traps_with};

/// Denied exactly. The test of a turn is true exactly where an access is denied: outside RAM, or where no grant of the
/// domain covers the word, or where the newest that does doesn't allow it. A hart that runs in a live domain at no call
/// gate traps at its fetch by cause 1 with its pc exactly there; a load by 5 and a store by 7 with the address, if that
/// is aligned, and by 4 and 6 if it isn't (RISC-V unprivileged manual 20191213, 2.6). Call 2 of at most 4096 bytes of
/// RAM answers -12 exactly where one of them is denied to a read, and call 13 at a word of RAM exactly where that word
/// is denied to a write.
pub fn denied_exactly()
    ensures test { (s : State) (d address : ℕ) (access : Access) →
        (is_denied (reads s) s.core d address access ≡ true) ↔ IsDenied s d address access }
    ensures fetch { (s : State) (h : ℕ) → Fetches s h → traps_with s h 1 (hart_at s.core h).pc
        ↔ IsDenied s (domain_at s.core h) (hart_at s.core h).pc A.Execute }
    ensures load { (s : State) (h rd base offset : ℕ) (width : LoadWidth) →
        Executes s h (Load width rd base offset) →
        FaultsExactly s h (address_by s h base offset) (load_size width) A.Read 5 4 }
    ensures store { (s : State) (h base from offset : ℕ) (width : StoreWidth) →
        Executes s h (Store width base from offset) →
        FaultsExactly s h (address_by s h base offset) (store_size width) A.Write 7 6 }
    ensures write { (s : State) (h : ℕ) → MakesCall s h write_call →
        register_of s.core h 11 ≤ most_written →
        InRam s (register_of s.core h 10) (register_of s.core h 11) → answers_no_right s h
        ↔ SomeDenied s (domain_at s.core h) (register_of s.core h 10) (register_of s.core h 11)
        A.Read }
    ensures exchange { (s : State) (h : ℕ) → MakesCall s h exchange_call →
        register_of s.core h 10 % 4 ≡ 0 →
        InRam s (register_of s.core h 10) 1 → answers_no_right s h
        ↔ IsDenied s (domain_at s.core h) (register_of s.core h 10) A.Write }
{}
