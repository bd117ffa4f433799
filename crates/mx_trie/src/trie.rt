//! Tables of permissions as tries.
ghost use Rattle.std.specs.Prelude.{◌≡◌, ℕ, ◌+◌, ◌-◌, ◌*◌, ◌<◌, ◌≤◌, true, List, length, All, IsTrue, IfOk};
ghost use Rattle.std.specs.Prelude.{map as list_map};
ghost use Rattle.mx_words.specs.Need.{within, fits};
ghost use Rattle.mx_pool.specs.Frames.{free_in};
ghost use Rattle.mx_table.specs.Tables.{most_words, most_modules, map_of, IsRow, IsLimit, row_map};
ghost use Rattle.mx_trie.specs.Read.{read_maps};
ghost use Rattle.mx_trie.specs.Standing.{IsStanding};
ghost use Rattle.mx_trie.specs.Shape.{shaped_of};
ghost use Rattle.mx_trie.specs.Found.{IsFound};

use crate::LeafForm;
use crate::after::need_after;
use crate::build::{build_rows, need_of_rows};
use crate::change::change_all;
use crate::roots::Roots;
use crate::walk::{Found, find, found_item, found_span};
use mx_pool::Pool;
use mx_table::{BuildRefused, Change, PermTables};
use mx_words::{Need, NoMemory, Perm, Shown, Span, Spans};
use std::alloc::Global;
use std::marker::PhantomData;

/// The permissions of all domains as tries: per domain a root table, whose entries stand for regions of 2^20
/// words, and below it mid tables, whose entries stand for pages of 1024 words, and leaf tables, whose entries
/// stand for lines of 16 words.
#[derive(Drop)]
pub struct Trie<L: LeafForm> {
    /// Root and mid tables.
    pub upper: Pool<1024>,
    /// Leaf tables.
    pub leaf: Pool<64>,
    /// Spill words of lines that need one.
    pub spill: Pool<1>,
    /// The root table of each domain.
    pub roots: Roots,
    /// The number of words of RAM, 1 to 2^24.
    pub words: u32,
    /// What the tables may take.
    pub limit: Need,
    /// How many lookups were made, up to 2^64 - 1.
    pub lookups: u64,
    /// The form of the leaf entries.
    pub form: PhantomData<L>,
    pub ghost stands: { IsStanding L.kind upper leaf spill roots words limit },
}

impl<L: LeafForm> Trie<L> {
    /// Where the walk for a domain's word ends.
    fn find_word(&self, domain: u32, word: u32) -> Found
        requires first { 1 ≤ domain }
        requires last { domain ≤ length self.now.roots }
        requires inside { word < self.now.words }
        ensures { IsFound L.kind
            (map_of (read_maps L.kind self.now.upper self.now.leaf self.now.spill self.now.words
            self.now.roots) domain) word result }
    {
        find::<L>(
            &self.upper,
            &self.leaf,
            &self.spill,
            self.words,
            self.roots.get(domain),
            word,
        )
    }

    /// Whether any change fits: whether each pool has four free frames for each domain, two that a change may
    /// take, and two that aren't counted as room.
    fn is_spacious(&self) -> bool
        ensures upper { result ≡ true → 4 * length self.now.roots ≤ free_in self.now.upper }
        ensures leaf { result ≡ true → 4 * length self.now.roots ≤ free_in self.now.leaf }
        ensures spill { result ≡ true → 0 < L.REACH →
            4 * length self.now.roots ≤ free_in self.now.spill }
    {
        let four = 4 * self.roots.count();
        if four > self.upper.free_frames() || four > self.leaf.free_frames() {
            return false;
        }
        L::REACH == 0 || four <= self.spill.free_frames()
    }
}

/// Whether a need is within a limit.
fn is_within(need: Need, limit: Need) -> bool
    ensures { result ≡ within need limit }
{
    need.upper <= limit.upper && need.leaf <= limit.leaf && need.spill <= limit.spill
}

/// The tables of rows whose maps fit the limit.
fn tables_of<L: LeafForm>(
    alloc: Global,
    words: u32,
    rows: &[Spans],
    limit: Need,
) -> Result<Trie<L>, NoMemory>
    requires some_words { 1 ≤ words }
    requires few_words { words ≤ most_words }
    requires some_rows { 1 ≤ length rows.now }
    requires few_rows { length rows.now ≤ most_modules }
    requires each { All (IsRow words) rows.now }
    requires limited { IsLimit limit }
    requires fits { IsTrue (fits L.kind limit (list_map (row_map words) rows.now)) }
    ensures maps { IfOk result (λ t. read_maps L.kind t.upper t.leaf t.spill t.words t.roots
        ≡ list_map (row_map words) rows.now) }
    ensures words { IfOk result (λ t. t.words ≡ words) }
    ensures limit { IfOk result (λ t. t.limit ≡ limit) }
    ensures lookups { IfOk result (λ t. t.lookups ≡ 0) }
{
    let spare = 2 * rows.len() as u32;
    let mut upper = Pool::new(alloc, limit.upper + spare)?;
    let mut leaf = Pool::new(alloc, limit.leaf + spare)?;
    let mut spill = Pool::new(alloc, limit.spill + spare)?;
    let roots = build_rows::<L>(alloc, &mut upper, &mut leaf, &mut spill, words, rows)?;
    Ok(Trie {
        upper,
        leaf,
        spill,
        roots,
        words,
        limit,
        lookups: 0,
        form: PhantomData,
    })
}

impl<L: LeafForm> PermTables for Trie<L> {
    ghost kind = { L.kind };

    ghost maps = { λ t. read_maps L.kind t.upper t.leaf t.spill t.words t.roots };

    ghost size = { λ t. t.words };

    ghost limits = { λ t. t.limit };

    ghost lookups = { λ t. t.lookups };

    fn build(alloc: Global, words: u32, rows: &[Spans], limit: Need) -> Result<Self, BuildRefused> {
        let need = need_of_rows::<L>(rows, words);
        if !is_within(need, limit) {
            return Err(BuildRefused::TablesFull { need });
        }
        match tables_of::<L>(alloc, words, rows, limit) {
            Ok(tables) => Ok(tables),
            Err(_) => Err(BuildRefused::NoMemory),
        }
    }

    fn lookup(&mut self, domain: u32, word: u32) -> Span {
        let span = self.span(domain, word);
        self.lookups = self.lookups.saturating_add(1);
        span
    }

    fn span(&self, domain: u32, word: u32) -> Span {
        found_span::<L>(self.find_word(domain, word), word, self.words)
    }

    fn perm(&self, domain: u32, word: u32) -> Perm {
        self.span(domain, word).perm
    }

    fn fits(&self, change: &Change) -> bool {
        if self.is_spacious() {
            return true;
        }
        let need = need_after::<L>(
            &self.upper,
            &self.leaf,
            &self.spill,
            &self.roots,
            self.words,
            change,
            self.used(),
        );
        is_within(need, self.limit)
    }

    fn apply(&mut self, change: &Change) {
        change_all::<L>(
            &mut self.upper,
            &mut self.leaf,
            &mut self.spill,
            &self.roots,
            self.words,
            change,
        );
    }

    fn used(&self) -> Need {
        let spare = 2 * self.roots.count();
        Need {
            upper: self.limit.upper + spare - self.upper.free_frames(),
            leaf: self.limit.leaf + spare - self.leaf.free_frames(),
            spill: self.limit.spill + spare - self.spill.free_frames(),
        }
    }

    fn limit(&self) -> Need {
        self.limit
    }

    fn words(&self) -> u32 {
        self.words
    }

    fn modules(&self) -> u32 {
        self.roots.count()
    }

    fn shown(&self, domain: u32, word: u32) -> Shown {
        found_item::<L>(self.find_word(domain, word), word, self.words)
    }

    ghost shaped = { λ t. shaped_of L.kind t.upper t.leaf t.spill t.roots t.words t.limit t.stands };
}
