//! The timed loop: checks that a place answers.
ghost use Rattle.std.specs.Prelude.{◌≡◌};
ghost use Rattle.mx_table.specs.Tables.{IsDomain};
ghost use Rattle.mx_check.specs.Conditions.{MayLook};

use mx_check::Checker;
use mx_segments::Segments;
use mx_table::PermTables;
use mx_words::{Access, RAM_BASE};

/// A checker of one hart over these tables.
pub fn fresh(tables: Segments) -> Checker<Segments, 8>
    ensures may { MayLook 0 1 result.harts }
    ensures tables { result.tables ≡ tables }
{
    Checker::new(tables, 1)
}

/// Makes so many checks of hart 0 at place 5 in domain 1, of the first 1024 words in turn. The answer is how many were
/// allowed.
pub fn hits(checker: &mut Checker<Segments, 8>, rounds: u64) -> u64
    requires may { MayLook 0 1 checker.old.harts }
    requires domain { IsDomain (⟦<Segments as PermTables>⟧.maps checker.old.tables) 1 }
    ensures { MayLook 0 1 checker.new.harts }
{
    let mut allowed = 0;
    for round in 0..rounds {
        let addr = RAM_BASE + (round % 1024) as u32 * 4;
        if checker.may(0, 5, 1, addr, Access::Read) {
            allowed += 1;
        }
    }
    allowed
}
