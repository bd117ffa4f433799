//! Tables beside plain lists: both are asked the same, and what they answer is compared.
ghost use Rattle.std.specs.Prelude.{◌≡◌, ◌<◌, ◌≤◌, length, IfOk, OnOk, IsTrue};
ghost use Rattle.mx_words.specs.Need.{need, fits};
ghost use Rattle.mx_table.specs.Change.{IsLawful, changed};
ghost use Rattle.mx_table.specs.Tables.{IsDomain};
ghost use Rattle.tables_replay.specs.Read.{reading, IsSame};

use mx_plain::try_change;
use mx_table::{Change, PermTables};
use mx_words::{Need, Perm, Shown, Span};

/// Tables, and plain lists of as many words and domains.
#[derive(Drop)]
pub struct Sides<T: PermTables, P: PermTables> {
    /// The tables.
    pub tables: T,
    /// The plain lists.
    pub plain: P,
    /// How many words were compared, once in each domain.
    pub compared: u64,
    pub ghost words: { P.size plain ≡ T.size tables },
    pub ghost domains: { length (P.maps plain) ≡ length (T.maps tables) },
}

/// Where tables and plain lists differ.
#[derive(Clone, Copy, Debug)]
pub enum Difference {
    /// Whether a change fits.
    Fits {
        /// What the tables answer.
        tables: bool,
        /// What the lists answer.
        plain: bool,
    },
    /// What is used.
    Used {
        /// What the tables answer.
        tables: Need,
        /// What the lists answer.
        plain: Need,
    },
    /// What is read of a word.
    Word {
        /// The domain.
        domain: u32,
        /// The word.
        word: u32,
        /// What the tables answer.
        tables: Reading,
        /// What the lists answer.
        plain: Reading,
    },
}

/// What is read of a word.
#[derive(Clone, Copy, Debug)]
pub struct Reading {
    /// Its permission.
    pub perm: Perm,
    /// The span that a walk finds.
    pub span: Span,
    /// The stored item that decides it.
    pub shown: Shown,
}

/// What is read of a word.
fn read_word<T: PermTables>(tables: &mut T, domain: u32, word: u32) -> Reading
    requires domain { IsDomain (T.maps tables.old) domain }
    requires word { word < T.size tables.old }
    ensures read { result ≡ reading T.kind (T.maps tables.old) domain word }
    ensures maps { T.maps tables.new ≡ T.maps tables.old }
    ensures size { T.size tables.new ≡ T.size tables.old }
{
    let perm = tables.perm(domain, word);
    let span = tables.lookup(domain, word);
    let shown = tables.shown(domain, word);
    Reading { perm, span, shown }
}

/// Whether two spans are the same.
fn is_same_span(one: Span, other: Span) -> bool
    ensures { IsTrue result → one ≡ other }
{
    one == other
}

/// Whether two stored items are the same.
fn is_same_item(one: Shown, other: Shown) -> bool
    ensures { IsTrue result → one ≡ other }
{
    one == other
}

/// Whether two readings are the same.
fn is_same(one: Reading, other: Reading) -> bool
    ensures { IsTrue result → one ≡ other }
{
    one.perm == other.perm
        && is_same_span(one.span, other.span)
        && is_same_item(one.shown, other.shown)
}

impl<T: PermTables, P: PermTables> Sides<T, P> {
    /// Makes a change on both sides where it fits, and says whether it did.
    pub fn make(&mut self, change: &Change) -> Result<bool, Difference>
        requires { IsLawful change.now (T.size self.old.tables) (length (T.maps self.old.tables)) }
        ensures tables { IfOk result
            (λ made. made ≡
            fits T.kind (T.limits self.old.tables) (changed change.now (T.maps self.old.tables))) }
        ensures plain { IfOk result
            (λ made. made ≡
            fits P.kind (P.limits self.old.plain) (changed change.now (P.maps self.old.plain))) }
        ensures maps { length (T.maps self.new.tables) ≡ length (T.maps self.old.tables) }
        ensures size { T.size self.new.tables ≡ T.size self.old.tables }
    {
        let tables = try_change(&mut self.tables, change);
        let plain = try_change(&mut self.plain, change);
        if tables == plain {
            Ok(tables)
        } else {
            Err(Difference::Fits { tables, plain })
        }
    }

    /// What both sides use.
    pub fn used(&self) -> Result<Need, Difference>
        ensures tables { IfOk result (λ used. used ≡ need T.kind (T.maps self.now.tables)) }
        ensures plain { IfOk result (λ used. used ≡ need P.kind (P.maps self.now.plain)) }
    {
        let tables = self.tables.used();
        let plain = self.plain.used();
        if tables == plain {
            Ok(tables)
        } else {
            Err(Difference::Used { tables, plain })
        }
    }

    /// Reads a domain's word on both sides.
    pub fn read(&mut self, domain: u32, word: u32) -> Result<(), Difference>
        requires domain { IsDomain (T.maps self.old.tables) domain }
        requires word { word < T.size self.old.tables }
        ensures same { OnOk result
            (reading T.kind (T.maps self.old.tables) domain word ≡
            reading P.kind (P.maps self.old.plain) domain word) }
        ensures maps { T.maps self.new.tables ≡ T.maps self.old.tables }
        ensures plain_maps { P.maps self.new.plain ≡ P.maps self.old.plain }
        ensures size { T.size self.new.tables ≡ T.size self.old.tables }
    {
        let tables = read_word(&mut self.tables, domain, word);
        let plain = read_word(&mut self.plain, domain, word);
        self.compared = self.compared.saturating_add(1);
        if is_same(tables, plain) {
            Ok(())
        } else {
            Err(Difference::Word {
                domain,
                word,
                tables,
                plain,
            })
        }
    }

    /// Reads a word of every domain on both sides.
    pub fn read_all(&mut self, word: u32) -> Result<(), Difference>
        requires { word < T.size self.old.tables }
        ensures same { OnOk result
            (IsSame T.kind (T.maps self.old.tables) P.kind (P.maps self.old.plain) word) }
        ensures maps { T.maps self.new.tables ≡ T.maps self.old.tables }
        ensures plain_maps { P.maps self.new.plain ≡ P.maps self.old.plain }
        ensures size { T.size self.new.tables ≡ T.size self.old.tables }
    {
        for domain in 1..self.tables.modules() + 1 {
            self.read(domain, word)?;
        }
        Ok(())
    }
}
