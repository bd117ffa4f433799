//! The instruction at which a hart stands.

ghost use Rattle.std.specs.Prelude.{◌≡◌, ◌%◌, ◌<◌, length, if◌then◌else◌, IfSome, None};
ghost use Rattle.mx_words.specs.declared.perm.Access.TheVariants as A;
ghost use Rattle.mx_words.specs.Bytes.{number_at};
ghost use Rattle.mx_isa.specs.Ranges.{IsValid};
ghost use Rattle.mx_isa.specs.Table.{decoded};
ghost use Rattle.mx_laws.specs.Standing.{standing_inst};
ghost use Rattle.mx_model.specs.Reads.{flat_reads};
ghost use Rattle.mx_model.specs.Turn.{is_denied, load_at};
ghost use Rattle.mx_model.specs.Valid.{IsModule};
ghost use Rattle.mx_any.specs.Machines.{meaning};

use crate::any::{AnyMachine, any_machine_is_valid};
use mx_isa::{Inst, decode};
use mx_machine::HartStatus;
use mx_words::{Access, word_of};

impl AnyMachine {
    /// The instruction at a hart's pc. `None` exactly where the hart is halted, where its domain may not fetch there,
    /// and where the
    /// word there is no instruction.
    pub fn instruction(&self, hart: u32) -> Option<Inst>
        requires { hart < length (meaning self.now).core.harts }
        ensures inst { result
            ≡ standing_inst (flat_reads (meaning self.now)) (meaning self.now).core hart }
        ensures valid { IfSome result IsValid }
    {
        any_machine_is_valid(self);
        let place = self.place(hart);
        match place.status {
            HartStatus::Halted => None,
            _ => self.standing(place.domain, place.pc),
        }
    }

    /// The instruction at an address, a multiple of 4. `None` exactly where the domain may not fetch there, and where
    /// the word there is
    /// no instruction.
    fn standing(&self, domain: u32, pc: u32) -> Option<Inst>
        requires domain { IsModule (length (meaning self.now).core.modules) domain }
        requires aligned { pc % 4 ≡ 0 }
        ensures inst { result ≡ if
            is_denied (flat_reads (meaning self.now)) (meaning self.now).core domain pc A.Execute
            then None else decoded (load_at (meaning self.now).core pc 4) }
        ensures valid { IfSome result IsValid }
    {
        any_machine_is_valid(self);
        let word = word_of(pc, self.words())?;
        if !self.perm(domain, word).allows(Access::Execute) {
            return None;
        }
        decode(word_in(self.bytes(4 * word, 4)))
    }
}

/// The number that four bytes hold, the lowest first.
#[tactic(auto, unfolding(mx_words::specs::Bytes::number_at))]
fn word_in(bytes: &[u8]) -> u32
    requires { length bytes.now ≡ 4 }
    ensures { result ≡ number_at bytes.now 0 4 }
{
    u32::from_le_bytes([bytes[0], bytes[1], bytes[2], bytes[3]])
}
