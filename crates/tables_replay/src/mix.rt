//! Two mixes of rows and changes.
ghost use Rattle.std.specs.Prelude.{◌<◌, ◌≤◌};

/// What rows and changes are like.
#[derive(Clone, Copy)]
pub enum Mix {
    /// Mostly of one word or some dozens, now and then of eighths of pages, of pages, of half of RAM or of all of it.
    Words,
    /// Of words, of pages, of eighths of regions, of half of RAM and of all of it.
    Regions,
}

impl Mix {
    /// How many spans a row has, as a bound.
    pub fn spans(self) -> u32
        ensures some { 0 < result }
        ensures few { result ≤ 300 }
    {
        match self {
            Mix::Words => 300,
            Mix::Regions => 30,
        }
    }

    /// One span in so many is of eighths of pages, or of regions.
    pub fn long_spans(self) -> u32
        ensures { 0 < result }
    {
        match self {
            Mix::Words => 16,
            Mix::Regions => 4,
        }
    }

    /// An eighth of a page, or of a region, in words.
    pub fn eighth(self) -> u32
        ensures some { 0 < result }
        ensures most { result ≤ 131072 }
    {
        match self {
            Mix::Words => 128,
            Mix::Regions => 131_072,
        }
    }

    /// How many words are read before the first change and after the last one.
    pub fn sample(self) -> u32 {
        match self {
            Mix::Words => 100,
            Mix::Regions => 20,
        }
    }
}
