//! One replay: the same changes on tables and on plain lists.
ghost use Rattle.std.specs.Prelude.{◌≡◌, ◌+◌, ◌<◌, ◌≤◌, length, All, IfOk};
ghost use Rattle.mx_table.specs.Tables.{most_words, most_modules, IsLimit, IsRow};

use crate::changes::change;
use crate::mix::Mix;
use crate::numbers::Numbers;
use crate::places::{read_some, read_words};
use crate::rows::rows;
use crate::sides::{Difference, Sides};
use crate::tally::{Step, Tally};
use mx_table::{BuildRefused, PermTables};
use mx_words::{Need, NoMemory, Spans};
use std::alloc::Global;

/// What is replayed.
#[derive(Clone, Copy)]
pub struct Replay {
    /// The number of RAM words.
    pub words: u32,
    /// The number of domains.
    pub domains: u32,
    /// What the tables may take.
    pub limit: Need,
    /// What rows and changes are like.
    pub mix: Mix,
    /// How many changes are tried.
    pub changes: u32,
    pub ghost some_words: { 0 < words },
    pub ghost few_words: { words ≤ most_words },
    pub ghost some_domains: { 0 < domains },
    pub ghost few_domains: { domains ≤ most_modules },
    pub ghost limited: { IsLimit limit },
}

/// Why a replay ended early.
#[derive(Clone, Copy, Debug)]
pub enum Stop {
    /// An allocation was refused.
    NoMemory,
    /// Tables or lists weren't built.
    NotBuilt(BuildRefused),
    /// Tables and lists differ.
    Differs {
        /// How many changes were tried before the last one.
        after: u32,
        /// What differs after it, or without one at the start and at the end.
        difference: Difference,
    },
}

impl From<NoMemory> for Stop {
    fn from(_: NoMemory) -> Stop {
        Stop::NoMemory
    }
}

impl From<BuildRefused> for Stop {
    fn from(refused: BuildRefused) -> Stop {
        Stop::NotBuilt(refused)
    }
}

impl Replay {
    /// Builds tables and lists of the same random rows.
    fn build<T: PermTables + Drop, P: PermTables + Drop>(
        &self,
        alloc: Global,
        numbers: &mut Numbers,
    ) -> Result<Sides<T, P>, Stop>
        ensures maps { IfOk result (λ s. length (T.maps s.tables) ≡ self.now.domains) }
        ensures size { IfOk result (λ s. T.size s.tables ≡ self.now.words) }
    {
        let rows = rows(alloc, numbers, self.mix, self.words, self.domains)?;
        self.build_of(alloc, &rows)
    }

    /// Builds tables and lists of these rows, one for each domain.
    fn build_of<T: PermTables + Drop, P: PermTables + Drop>(
        &self,
        alloc: Global,
        rows: &[Spans],
    ) -> Result<Sides<T, P>, Stop>
        requires rows { All (IsRow self.now.words) rows.now }
        requires domains { length rows.now ≡ self.now.domains }
        ensures maps { IfOk result (λ s. length (T.maps s.tables) ≡ self.now.domains) }
        ensures size { IfOk result (λ s. T.size s.tables ≡ self.now.words) }
    {
        let tables = T::build(alloc, self.words, rows, self.limit)?;
        let plain = P::build(alloc, self.words, rows, self.limit)?;
        Ok(Sides {
            tables,
            plain,
            compared: 0,
        })
    }

    /// Replays the changes.
    pub fn run<T: PermTables + Drop, P: PermTables + Drop>(
        &self,
        alloc: Global,
    ) -> Result<Tally, Stop>
        ensures { IfOk result (λ t. t.made + t.refused ≡ self.now.changes) }
    {
        let mut numbers = Numbers::new(u64::from(self.words));
        let mut sides = self.build::<T, P>(alloc, &mut numbers)?;
        self.run_on(&mut sides, &mut numbers)
    }

    /// Replays the changes on both sides.
    fn run_on<T: PermTables, P: PermTables>(
        &self,
        sides: &mut Sides<T, P>,
        numbers: &mut Numbers,
    ) -> Result<Tally, Stop>
        ensures { IfOk result (λ t. t.made + t.refused ≡ self.now.changes) }
    {
        let mut tally = Tally::new(self.limit);
        sample(sides, numbers, self.mix, 0)?;
        for after in 0..self.changes {
            match step(sides, numbers, self.mix) {
                Ok(step) => tally.count(step),
                Err(difference) => return Err(Stop::Differs { after, difference }),
            }
        }
        sample(sides, numbers, self.mix, self.changes)?;
        tally.compared = sides.compared;
        Ok(tally)
    }
}

/// Compares the two sides at random words, where so many changes were tried.
fn sample<T: PermTables, P: PermTables>(
    sides: &mut Sides<T, P>,
    numbers: &mut Numbers,
    mix: Mix,
    after: u32,
) -> Result<(), Stop>
    ensures maps { length (T.maps sides.new.tables) ≡ length (T.maps sides.old.tables) }
    ensures size { T.size sides.new.tables ≡ T.size sides.old.tables }
{
    match compare(sides, numbers, mix.sample()) {
        Ok(()) => Ok(()),
        Err(difference) => Err(Stop::Differs { after, difference }),
    }
}

/// Compares what both sides use, and so many random words.
fn compare<T: PermTables, P: PermTables>(
    sides: &mut Sides<T, P>,
    numbers: &mut Numbers,
    words: u32,
) -> Result<(), Difference>
    ensures maps { length (T.maps sides.new.tables) ≡ length (T.maps sides.old.tables) }
    ensures size { T.size sides.new.tables ≡ T.size sides.old.tables }
{
    sides.used()?;
    read_some(sides, numbers, words)
}

/// Makes a random change where it fits, and compares the two sides after it.
fn step<T: PermTables, P: PermTables>(
    sides: &mut Sides<T, P>,
    numbers: &mut Numbers,
    mix: Mix,
) -> Result<Step, Difference>
    ensures maps { length (T.maps sides.new.tables) ≡ length (T.maps sides.old.tables) }
    ensures size { T.size sides.new.tables ≡ T.size sides.old.tables }
{
    let change = change(numbers, mix, sides.tables.words(), sides.tables.modules());
    let made = sides.make(&change)?;
    let need = sides.used()?;
    read_words(sides, &change, numbers)?;
    Ok(Step { made, need })
}
