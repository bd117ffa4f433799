//! Words that are alike to those who may change them.

ghost use Rattle.std.specs.Prelude.{◌≡◌, ◌<◌, ◌||◌, min, nat_lt, length, IsTrue};
ghost use Rattle.mx_model.specs.Valid.{IsModule};
ghost use Rattle.mx_any.specs.Machines.{meaning};
ghost use Rattle.mx_audit.specs.AlikeWords.{AllTell, Tells, is_exposed, exposes};
ghost use Rattle.mx_audit.specs.Marks.{is_marked};

use crate::living::is_marked;
use mx_any::{AnyMachine, any_machine_is_valid};
use mx_words::{MOST_DOMAINS, Perm};

/// Words up to one that are alike.
#[derive(Clone, Copy)]
pub(crate) struct AlikeWords {
    /// The first word that isn't one of them.
    pub end: u32,
    /// Whether somebody may change each of them; otherwise nobody may change any.
    pub exposed: bool,
}

impl AlikeWords {
    // Whether a word comes before its end.
    fn reaches(self, word: u32) -> bool
        ensures { result ≡ nat_lt word self.end }
    {
        word < self.end
    }

    // What both know together: up to the nearer end, whether one of them is exposed.
    fn joined(self, other: AlikeWords) -> AlikeWords
        ensures end { result.end ≡ min self.end other.end }
        ensures exposed { result.exposed ≡ (self.exposed || other.exposed) }
    {
        AlikeWords {
            end: if self.end < other.end {
                self.end
            } else {
                other.end
            },
            exposed: self.exposed || other.exposed,
        }
    }
}

/// The alike words from a word on. Place 0 of what is known is for the owners, and place d for the rights of domain d.
/// Each is renewed where it ends, so that each run is asked for once while the words go up.
pub(crate) fn alike_at(
    machine: &AnyMachine,
    live: &[bool; MOST_DOMAINS],
    known: &mut [AlikeWords; MOST_DOMAINS],
    word: u32,
) -> AlikeWords
    requires word { word < (meaning machine.now).core.size }
    requires known { AllTell (meaning machine.now) live.now word known.old }
    ensures known { AllTell (meaning machine.now) live.now word known.new }
    ensures behind { word < result.end }
    ensures tells { Tells (meaning machine.now) (is_exposed (meaning machine.now) live.now) word result }
{
    any_machine_is_valid(machine);
    let mut all = owners_at(machine, live, known, word);
    for i in 0..machine.modules() {
        if is_marked(live, i as usize + 1) {
            all = all.joined(rights_at(machine, live, known, i + 1, word));
        }
    }
    all
}

// The words from one on that are alike by their owners.
fn owners_at(
    machine: &AnyMachine,
    live: &[bool; MOST_DOMAINS],
    known: &mut [AlikeWords; MOST_DOMAINS],
    word: u32,
) -> AlikeWords
    requires word { word < (meaning machine.now).core.size }
    requires known { AllTell (meaning machine.now) live.now word known.old }
    ensures known { AllTell (meaning machine.now) live.now word known.new }
    ensures behind { word < result.end }
    ensures tells { Tells (meaning machine.now) (exposes (meaning machine.now) live.now 0) word result }
{
    let last = known[0];
    if last.reaches(word) {
        return last;
    }
    let next = AlikeWords {
        end: machine.owner_end(word),
        exposed: is_marked(live, machine.owner(word) as usize),
    };
    known[0] = next;
    next
}

// The words from one on that are alike by the rights of a live domain.
fn rights_at(
    machine: &AnyMachine,
    live: &[bool; MOST_DOMAINS],
    known: &mut [AlikeWords; MOST_DOMAINS],
    domain: u32,
    word: u32,
) -> AlikeWords
    requires domain { IsModule (length (meaning machine.now).core.modules) domain }
    requires live { IsTrue (is_marked live.now domain) }
    requires word { word < (meaning machine.now).core.size }
    requires known { AllTell (meaning machine.now) live.now word known.old }
    ensures known { AllTell (meaning machine.now) live.now word known.new }
    ensures behind { word < result.end }
    ensures tells { Tells (meaning machine.now) (exposes (meaning machine.now) live.now domain) word result }
{
    any_machine_is_valid(machine);
    let at = domain as usize;
    let last = known[at];
    if last.reaches(word) {
        return last;
    }
    let next = AlikeWords {
        end: machine.perm_end(domain, word),
        exposed: machine.perm(domain, word) == Perm::ReadWrite,
    };
    known[at] = next;
    next
}
