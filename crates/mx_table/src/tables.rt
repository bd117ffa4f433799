//! The trait of permission tables.
ghost use Rattle.std.specs.Prelude.{◌≡◌, ℕ, ◌<◌, ◌≤◌, List, length, All, IsTrue, IfOk, IfErr};
ghost use Rattle.std.specs.Prelude.{map as list_map};
ghost use Rattle.mx_words.specs.declared.perm.Perm.{Perm};
ghost use Rattle.mx_words.specs.declared.tables.Kind.{Kind};
ghost use Rattle.mx_words.specs.declared.tables.Need.{Need};
ghost use Rattle.mx_words.specs.Rights.{perm_at};
ghost use Rattle.mx_words.specs.Need.{need, within, fits};
ghost use Rattle.mx_words.specs.Reach.{span, stored};
ghost use Rattle.mx_words.specs.Caches.{raised};
ghost use Rattle.mx_table.specs.Change.{IsLawful, changed};
ghost use Rattle.mx_table.specs.Tables.{most_words, most_modules, map_of, IsDomain, IsLimit, IsShaped, IsRow, row_map};
ghost use Rattle.mx_table.specs.Tables.{IsRefused, KeepsTables};

use crate::{BuildRefused, Change};
use mx_words::{Need, Perm, Shown, Span, Spans};
use std::alloc::Global;

/// The permissions of all protection domains, 1 to `modules()`, on all words of RAM, 0 to `words()` - 1. What tables
/// mean is their
/// kind, one map per domain, a limit, and how many lookups were made. A domain and a word that a call takes are in
/// these ranges.
pub trait PermTables: Sized {
    // The kind of tables, the same for all values of the type.
    ghost kind: { Kind };

    // One list of permissions per domain, from domain 1 on.
    ghost maps: { Self → List (List Perm) };

    // The number of words of RAM.
    ghost size: { Self → ℕ };

    // What the tables may take at most.
    ghost limits: { Self → Need };

    // How many lookups were made, up to 2^64 - 1.
    ghost lookups: { Self → ℕ };

    /// Builds tables for 1 to `MODULES` rows over a RAM of `words` words, 1 to 2^24. Row `i` holds the permissions of
    /// domain
    /// `i + 1`: its spans aren't empty, are sorted and disjoint, and lie in RAM; other words have permission none. Each
    /// part of the
    /// limit is at most 4096, 262144 and 1048576. `TablesFull` exactly where the maps need more than the limit.
    fn build(alloc: Global, words: u32, rows: &[Spans], limit: Need) -> Result<Self, BuildRefused>
        requires some_words { 1 ≤ words }
        requires few_words { words ≤ most_words }
        requires some_rows { 1 ≤ length rows.now }
        requires few_rows { length rows.now ≤ most_modules }
        requires each { All (IsRow words) rows.now }
        requires limited { IsLimit limit }
        ensures maps { IfOk result (λ t. maps t ≡ list_map (row_map words) rows.now) }
        ensures size { IfOk result (λ t. size t ≡ words) }
        ensures limit { IfOk result (λ t. limits t ≡ limit) }
        ensures lookups { IfOk result (λ t. lookups t ≡ 0) }
        ensures fits { IfOk result (λ t. IsTrue (fits kind limit (maps t))) }
        ensures refused { IfErr result (IsRefused kind limit (list_map (row_map words) rows.now)) };

    /// What a walk of the tables finds: a span round the word on which the domain has one permission. It is counted.
    fn lookup(&mut self, domain: u32, word: u32) -> Span
        requires domain { IsDomain (maps self.old) domain }
        requires word { word < size self.old }
        ensures found { result ≡ span kind (map_of (maps self.old) domain) word }
        ensures counted { lookups self.new ≡ raised (lookups self.old) }
        ensures same_tables { KeepsTables maps size limits self.old self.new };

    /// What `lookup` answers for the word. It is not counted, and nothing changes.
    fn span(&self, domain: u32, word: u32) -> Span
        requires domain { IsDomain (maps self.now) domain }
        requires word { word < size self.now }
        ensures { result ≡ span kind (map_of (maps self.now) domain) word };

    /// The permission of a word in a domain's map. It is not counted.
    fn perm(&self, domain: u32, word: u32) -> Perm
        requires domain { IsDomain (maps self.now) domain }
        requires word { word < size self.now }
        ensures { result ≡ perm_at (map_of (maps self.now) domain) word };

    /// Whether the maps after a lawful change need at most the limit.
    fn fits(&self, change: &Change) -> bool
        requires { IsLawful change.now (size self.now) (length (maps self.now)) }
        ensures { result ≡ fits kind (limits self.now) (changed change.now (maps self.now)) };

    /// Makes a lawful change that fits.
    fn apply(&mut self, change: &Change)
        requires lawful { IsLawful change.now (size self.old) (length (maps self.old)) }
        requires fits { IsTrue (fits kind (limits self.old) (changed change.now (maps self.old))) }
        ensures changed { maps self.new ≡ changed change.now (maps self.old) }
        ensures same_size { size self.new ≡ size self.old }
        ensures same_limit { limits self.new ≡ limits self.old }
        ensures same_lookups { lookups self.new ≡ lookups self.old };

    /// What the tables take, which is what the maps need.
    fn used(&self) -> Need
        ensures { result ≡ need kind (maps self.now) };

    /// The limit.
    fn limit(&self) -> Need
        ensures { result ≡ limits self.now };

    /// The number of words of RAM, 1 to 2^24.
    fn words(&self) -> u32
        ensures { result ≡ size self.now };

    /// The number of domains, 1 to `MODULES`.
    fn modules(&self) -> u32
        ensures { result ≡ length (maps self.now) };

    /// The stored item that decides the word in the domain's map.
    fn shown(&self, domain: u32, word: u32) -> Shown
        requires domain { IsDomain (maps self.now) domain }
        requires word { word < size self.now }
        ensures { result ≡ stored kind (map_of (maps self.now) domain) word };

    // The maps always have the shape that the other calls rely on, and need no more than the limit.
    ghost shaped: { (t : Self) → IsShaped kind (size t) (limits t) (maps t) };
}

/// A law: tables of every kind have 1 to `MODULES` maps, each with one permission for each of the 1 to 2^24 words, and
/// they fit
/// the limit.
pub fn shape_of<T: PermTables>(tables: &T)
    ensures { IsShaped T.kind (T.size tables.now) (T.limits tables.now) (T.maps tables.now) }
{}
