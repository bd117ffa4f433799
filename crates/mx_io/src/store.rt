//! The trait of the stores.
ghost use Rattle.std.specs.Prelude.{◌≤◌, IfOk, length, take, option_map};
ghost use Rattle.std.specs.Result.{result_ok};
ghost use Rattle.mx_io.specs.Store.{StoreState};
ghost use Rattle.mx_io.specs.Answer.{Answer, Sized, Gave, Tells};

use crate::Failed;

/// Something that files are read from by name.
pub trait Store {
    /// What the store says of itself: its files where it tells them, its count of faults, and whether
    /// every later call is sure to succeed.
    ghost state: { Self → StoreState };

    /// A step of the store: a call with this answer leads from the one moment to the other. Each call ensures
    /// the step of its own answer, and nothing else makes one.
    ghost gives: { Self → Answer → Self → Type 0 };

    /// The size of a file in bytes, None where there is no file of that name. Fails only where the count
    /// of faults rose in this call.
    fn size(&mut self, name: &str) -> Result<Option<u64>, Failed>
        ensures { gives self.old (Sized name.now (result_ok result)) self.new };

    /// Puts bytes of a file from place `at` on at the start of `into` and tells how many: at most as many
    /// as `into` holds, and at least one where a byte stands there. Ok(0) for a slice with room is the end.
    /// Fails only where the count of faults rose in this call.
    fn read(&mut self, name: &str, at: u64, into: &mut [u8]) -> Result<usize, Failed>
        ensures gives { gives self.old (Gave name.now at (length into.new)
            (option_map (λ k. take k into.new) (result_ok result))) self.new }
        ensures bound { IfOk result (λ k. k ≤ length into.new) };

    /// A step keeps the files, and its answer is that of the files, where the store tells them. The count
    /// never falls, and it rose where the call failed.
    ghost tells: { (s : Self) → (answer : Answer) → (t : Self) → gives s answer t →
        Tells (state s) answer (state t) };
}
