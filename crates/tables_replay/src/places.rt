//! The words that are read after a change: those round the edges of its range, and some others.
ghost use Rattle.std.specs.Prelude.{◌≡◌, ◌<◌, ◌≤◌, length};
ghost use Rattle.mx_table.specs.Change.{IsLawful};

use crate::numbers::Numbers;
use crate::sides::{Difference, Sides};
use mx_table::{Change, PermTables};

/// How far from an edge words are read: beside it, a line further, and as far as an entry reaches.
const DISTANCES: [u32; 6] = [1, 15, 16, 31, 32, 33];

/// How many words elsewhere are read after a change.
const OTHERS: u32 = 3;

/// Reads the words round both edges of a change, and some others.
pub fn read_words<T: PermTables, P: PermTables>(
    sides: &mut Sides<T, P>,
    change: &Change,
    numbers: &mut Numbers,
) -> Result<(), Difference>
    requires { IsLawful change.now (T.size sides.old.tables) (length (T.maps sides.old.tables)) }
    ensures maps { T.maps sides.new.tables ≡ T.maps sides.old.tables }
    ensures plain_maps { P.maps sides.new.plain ≡ P.maps sides.old.plain }
    ensures size { T.size sides.new.tables ≡ T.size sides.old.tables }
{
    read_round(sides, change.first)?;
    read_round(sides, change.first + change.count - 1)?;
    read_some(sides, numbers, OTHERS)
}

/// Reads a word and those of RAM at the distances from it.
fn read_round<T: PermTables, P: PermTables>(
    sides: &mut Sides<T, P>,
    word: u32,
) -> Result<(), Difference>
    requires { word < T.size sides.old.tables }
    ensures maps { T.maps sides.new.tables ≡ T.maps sides.old.tables }
    ensures plain_maps { P.maps sides.new.plain ≡ P.maps sides.old.plain }
    ensures size { T.size sides.new.tables ≡ T.size sides.old.tables }
{
    sides.read_all(word)?;
    for distance in DISTANCES {
        read_beside(sides, word, distance)?;
    }
    Ok(())
}

/// Reads the two words at a distance from a word, where they lie in RAM.
fn read_beside<T: PermTables, P: PermTables>(
    sides: &mut Sides<T, P>,
    word: u32,
    distance: u32,
) -> Result<(), Difference>
    requires word { word < T.size sides.old.tables }
    ensures maps { T.maps sides.new.tables ≡ T.maps sides.old.tables }
    ensures plain_maps { P.maps sides.new.plain ≡ P.maps sides.old.plain }
    ensures size { T.size sides.new.tables ≡ T.size sides.old.tables }
{
    if distance <= word {
        sides.read_all(word - distance)?;
    }
    if distance < sides.tables.words() - word {
        sides.read_all(word + distance)?;
    }
    Ok(())
}

/// Reads so many random words.
pub fn read_some<T: PermTables, P: PermTables>(
    sides: &mut Sides<T, P>,
    numbers: &mut Numbers,
    count: u32,
) -> Result<(), Difference>
    requires { 0 < T.size sides.old.tables }
    ensures maps { T.maps sides.new.tables ≡ T.maps sides.old.tables }
    ensures plain_maps { P.maps sides.new.plain ≡ P.maps sides.old.plain }
    ensures size { T.size sides.new.tables ≡ T.size sides.old.tables }
{
    for _ in 0..count {
        let word = numbers.below(sides.tables.words());
        sides.read_all(word)?;
    }
    Ok(())
}
