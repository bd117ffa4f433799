//! The checker, whose caches are coherent at every moment between its calls.
ghost use Rattle.std.specs.Prelude.{◌≡◌, ℕ, ◌<◌, ◌≤◌, ◌↔◌, None, true, false, not, length, is_err, IfSome, IsTrue};
ghost use Rattle.std.specs.Prelude.{IsFalse, OnOk, OnErr, All};
ghost use Rattle.mx_words.specs.declared.perm.Access.TheVariants.{Execute};
ghost use Rattle.mx_words.specs.Caches.{found_in_place, raised};
ghost use Rattle.mx_words.specs.Need.{fits};
ghost use Rattle.mx_words.specs.Reach.{span};
ghost use Rattle.mx_words.specs.Rights.{perm_at, perm, denies};
ghost use Rattle.mx_words.specs.Limits.{most_harts, most_kept};
ghost use Rattle.mx_table.specs.Change.{IsLawful, changed};
ghost use Rattle.mx_table.specs.Tables.{IsDomain, KeepsTables, map_of};
ghost use Rattle.mx_check.specs.Flights.{AreHearers};
ghost use Rattle.mx_check.specs.Harts.{kept_at, at_hart, announced, finished, leaves_domain, halts, has_heard};
ghost use Rattle.mx_check.specs.Looks.{after_walk, hits_all, is_forbidden, looked_at_address, lookups_after};
ghost use Rattle.mx_check.specs.Calls.{hears, is_ready, new_harts, waiting_harts};
ghost use Rattle.mx_check.specs.Conditions.{IsAtHand, MayLook, HasHeardAll, SameButCaches, MayAnnounce, IsWithin};
ghost use Rattle.mx_check.specs.Conditions.{MayChange, IsResumable};

use crate::harts::KeptHarts;
use crate::{Counts, Flights, TablesFull};
use mx_table::{Change, PermTables};
use mx_words::{Access, Perm, Span, word_of};
use std::marker::Model;

/// Permission tables with the caches of 1 to 4 harts before them, each with 32 places and a lookaside buffer of `N`
/// entries, `N` at most 64.
/// What it keeps is coherent: where a hart isn't halted, each span in its caches has its permission on each of its
/// words in a
/// domain's map as it is now (for an entry of the buffer its own domain, for a place the domain that the checks since
/// the last
/// `leave_domain` named), but for the words of the hart's own call in flight; and a hart that has heard another hart's
/// call in
/// flight keeps no span that meets the call's range. Only other harts that there are have heard a call in flight.
///
/// Hart numbers are below the number of harts, domains are those of the tables, from 1 on, and words are below those of
/// RAM.
#[derive(Drop)]
pub struct Checker<T: PermTables, const N: usize> {
    tables: T,
    harts: KeptHarts<N>,
}

impl<T: PermTables, const N: usize> Model for Checker<T, N> {
    ghost use Rattle.mx_check.specs.Calls.{Checks};
    ghost use Rattle.mx_check.specs.Coherence.{Keeps};

    ghost Value = { Checks T };

    ghost view = { λ c. record { tables = c.tables; harts = c.harts } };

    ghost invariant = { λ c. Keeps (T.maps c.tables) c.harts };
}

impl<T: PermTables, const N: usize> Checker<T, N> {
    /// A checker of at most 4 harts with empty caches, no call in flight and no hart halted. `N` is at most 64.
    pub fn new(tables: T, harts: u32) -> Checker<T, N>
        requires size { N ≤ most_kept }
        requires few { harts ≤ most_harts }
        ensures { result ≡ record { tables = tables; harts = new_harts harts } }
    {
        Checker {
            tables,
            harts: KeptHarts::new(harts),
        }
    }

    /// A checker with empty caches, no hart halted and these calls in flight. Each is of a hart below `harts`, its
    /// range is empty or
    /// lies in RAM, and only other harts below `harts` have heard it.
    pub fn resume(tables: T, harts: u32, flights: &Flights) -> Checker<T, N>
        requires size { N ≤ most_kept }
        requires few { harts ≤ most_harts }
        requires flights { All (IsResumable harts (T.size tables)) flights.now }
        ensures { result ≡ record { tables = tables; harts = waiting_harts flights.now harts } }
    {
        Checker {
            tables,
            harts: KeptHarts::waiting(flights, harts),
        }
    }

    /// Whether `domain` may access the word at `addr`. It is false exactly where the newest grant on the word denies
    /// the access, and
    /// outside RAM. The hart looks at place `place`, below 32, then in its buffer, then walks the tables: the answer is
    /// counted where
    /// it is found, and the tables' count of lookups rises where they are walked, once. The hart isn't halted, has no
    /// call in
    /// flight and has heard every other, and no other domain is kept for it.
    #[inline(always)]
    pub fn may(&mut self, hart: u32, place: u32, domain: u32, addr: u32, access: Access) -> bool
        requires may { MayLook hart domain self.old.harts }
        requires place { place < 32 }
        requires domain { IsDomain (T.maps self.old.tables) domain }
        ensures answer { result
            ≡ not (denies (perm (map_of (T.maps self.old.tables) domain)) addr access) }
        ensures harts { self.new.harts
            ≡ looked_at_address N T.kind (map_of (T.maps self.old.tables) domain)
            hart place domain addr self.old.harts }
        ensures lookups { T.lookups self.new.tables
            ≡ lookups_after (map_of (T.maps self.old.tables) domain) place domain addr
            (kept_at self.old.harts hart).cache (T.lookups self.old.tables) }
        ensures again { MayLook hart domain self.new.harts }
        ensures same_tables { KeepsTables T.maps T.size T.limits self.old.tables self.new.tables }
    {
        let Some(word) = word_of(addr, self.tables.words()) else {
            self.harts.name(hart, domain);
            return false;
        };
        match self.harts.answer(hart, place, domain, word) {
            Some(perm) => perm.allows(access),
            None => walk(&mut self.tables, &mut self.harts, hart, place, domain, word).allows(
                access,
            ),
        }
    }

    /// A law: a fetch at hand is allowed. The hart and the domain are as for `may`. Nothing is counted.
    #[inline(always)]
    pub fn allows_fetch(&self, hart: u32, domain: u32, addr: u32)
        requires may { MayLook hart domain self.now.harts }
        requires domain { IsDomain (T.maps self.now.tables) domain }
        requires at_hand { IsAtHand (T.size self.now.tables) (kept_at self.now.harts hart).cache
            addr }
        ensures { denies (perm (map_of (T.maps self.now.tables) domain)) addr Execute ≡ false }
    {
        let _ = (hart, domain, addr);
        let _ = &self.harts;
    }

    /// Counts so many fetches at hand of the hart in a domain, each as `may` counts it at place 0. No other domain is
    /// kept for the hart.
    pub fn count_fetches(&mut self, hart: u32, domain: u32, fetches: u64)
        requires hart { hart < length self.old.harts }
        requires same_domain { IfSome (kept_at self.old.harts hart).domain (λ d. d ≡ domain) }
        ensures { self.new ≡ record self.old {
          harts = at_hart hart
              (hits_all fetches domain) self.old.harts;
        } }
    {
        self.harts.hit_all(hart, domain, fetches);
    }

    /// The span in the hart's place 0 where it covers a word. It is what `may` would answer by first, and isn't
    /// counted.
    pub fn at_hand(&self, hart: u32, word: u32) -> Option<Span>
        requires { hart < length self.now.harts }
        ensures { result ≡ found_in_place (kept_at self.now.harts hart).cache.places 0 word }
    {
        self.harts.at_hand(hart, word)
    }

    /// Announces a call of the hart that changes rights on at most `count` words from `first` on. The hart isn't halted
    /// and has no
    /// call in flight, and the range is empty or lies in RAM.
    pub fn announce(&mut self, hart: u32, first: u32, count: u32)
        requires may { MayAnnounce hart self.old.harts }
        requires range { IsWithin first count (T.size self.old.tables) }
        ensures { self.new ≡ record self.old {
          harts = at_hart hart
              (announced hart first count) self.old.harts;
        } }
    {
        self.harts.announce(hart, first, count);
    }

    /// Lets the hart hear every call in flight of another hart. For each that it hears for the first time, it drops its
    /// spans that
    /// meet the call's range. The hart isn't halted.
    #[inline(never)]
    pub fn hear(&mut self, hart: u32)
        requires hart { hart < length self.old.harts }
        requires running { (kept_at self.old.harts hart).halted ≡ false }
        ensures after { self.new ≡ record self.old { harts = hears hart self.old.harts } }
        ensures heard { HasHeardAll hart self.new.harts }
        ensures own { SameButCaches (kept_at self.new.harts hart) (kept_at self.old.harts hart) }
        ensures same_length { length self.new.harts ≡ length self.old.harts }
        ensures few { length self.new.harts ≤ most_harts }
    {
        self.harts.hear(hart);
    }

    /// Counts the hart as halted from here on. It has no call in flight.
    pub fn halt(&mut self, hart: u32)
        requires hart { hart < length self.old.harts }
        requires free { (kept_at self.old.harts hart).flight ≡ None }
        ensures { self.new ≡ record self.old { harts = at_hart hart halts self.old.harts } }
    {
        self.harts.halt(hart);
    }

    /// Whether the hart has a call in flight that may take effect: each other hart that isn't halted has heard it.
    pub fn ready(&self, hart: u32) -> bool
        requires { hart < length self.now.harts }
        ensures ready { result ≡ is_ready hart self.now.harts }
        ensures few { length self.now.harts ≤ most_harts }
    {
        self.harts.is_ready(hart)
    }

    /// Makes a change of the hart's ready call, inside the range that it announced. `TablesFull` exactly where the maps
    /// would then
    /// exceed the tables' limit; then nothing has changed.
    pub fn change(&mut self, hart: u32, change: &Change) -> Result<(), TablesFull>
        requires may { MayChange hart change.now self.old.harts }
        requires lawful { IsLawful change.now (T.size self.old.tables)
            (length (T.maps self.old.tables)) }
        ensures full { IsTrue (is_err result)
            ↔ IsFalse
            (fits T.kind (T.limits self.old.tables) (changed change.now (T.maps self.old.tables))) }
        ensures ok { OnOk result
            (T.maps self.new.tables ≡ changed change.now (T.maps self.old.tables)) }
        ensures err { OnErr result (self.new ≡ self.old) }
        ensures same_harts { self.new.harts ≡ self.old.harts }
        ensures same_lookups { T.lookups self.new.tables ≡ T.lookups self.old.tables }
        ensures same_size { T.size self.new.tables ≡ T.size self.old.tables }
        ensures same_limit { T.limits self.new.tables ≡ T.limits self.old.tables }
    {
        if self.tables.fits(change) {
            self.tables.apply(change);
            Ok(())
        } else {
            Err(TablesFull)
        }
    }

    /// Ends the hart's ready call, and drops the hart's own spans that meet its range.
    pub fn finish(&mut self, hart: u32)
        requires hart { hart < length self.old.harts }
        requires ready { is_ready hart self.old.harts ≡ true }
        ensures { self.new ≡ record self.old { harts = at_hart hart finished self.old.harts } }
    {
        self.harts.finish(hart);
    }

    /// Empties all places of the hart, at a crossing, a return and a fault that gives up a frame. No domain is kept for
    /// it then; its
    /// buffer stays.
    pub fn leave_domain(&mut self, hart: u32)
        requires { hart < length self.old.harts }
        ensures { self.new ≡ record self.old { harts = at_hart hart leaves_domain self.old.harts } }
    {
        self.harts.leave(hart);
    }

    /// How many checks of the hart its places answered, how many its buffer, and how many a walk.
    pub fn counts(&self, hart: u32) -> Counts
        requires { hart < length self.now.harts }
        ensures sidecar { result.sidecar ≡ (kept_at self.now.harts hart).cache.sidecar }
        ensures lookaside { result.lookaside ≡ (kept_at self.now.harts hart).cache.lookaside }
        ensures walks { result.walks ≡ (kept_at self.now.harts hart).cache.walks }
    {
        self.harts.counts(hart)
    }

    /// The permission of a RAM word in a domain's map. It counts nothing.
    pub fn perm(&self, domain: u32, word: u32) -> Perm
        requires domain { IsDomain (T.maps self.now.tables) domain }
        requires word { word < T.size self.now.tables }
        ensures { result ≡ perm_at (map_of (T.maps self.now.tables) domain) word }
    {
        self.tables.perm(domain, word)
    }

    /// The tables.
    pub fn tables(&self) -> &T
        ensures { result.now ≡ self.now.tables }
    {
        &self.tables
    }

    /// Whether a call of `hart` is in flight and the hart `by` has heard it.
    pub fn heard(&self, hart: u32, by: u32) -> bool
        requires hart { hart < length self.now.harts }
        requires by { by < length self.now.harts }
        ensures { result ≡ has_heard (kept_at self.now.harts hart).flight by }
    {
        self.harts.heard(hart, by)
    }
}

/// A law: there are at most four harts; the set of those that have heard a call in flight has a place for each of the
/// four, and in
/// it are only other harts that there are. A machine's state is valid only with such sets.
pub fn flights_of<T: PermTables, const N: usize>(checker: &Checker<T, N>)
    ensures few { length checker.now.harts ≤ most_harts }
    ensures hearers { (h : ℕ) → IfSome (kept_at checker.now.harts h).flight
        (AreHearers (length checker.now.harts) h) }
{
    let _ = &checker.harts;
}

/// The permission that the tables give for a word. What the walk found is kept, unless a heard call bars it.
#[inline(never)]
fn walk<T: PermTables, const N: usize>(
    tables: &mut T,
    harts: &mut KeptHarts<N>,
    hart: u32,
    place: u32,
    domain: u32,
    word: u32,
) -> Perm
    requires hart { hart < length harts.old }
    requires place { place < 32 }
    requires domain { IsDomain (T.maps tables.old) domain }
    requires word { word < T.size tables.old }
    ensures answer { result ≡ (span T.kind (map_of (T.maps tables.old) domain) word).perm }
    ensures harts { let s = span T.kind (map_of (T.maps tables.old) domain) word in
        harts.new ≡ at_hart hart (after_walk N place domain s (is_forbidden hart s harts.old)) harts.old }
    ensures lookups { T.lookups tables.new ≡ raised (T.lookups tables.old) }
    ensures same_tables { KeepsTables T.maps T.size T.limits tables.old tables.new }
{
    let span = tables.lookup(domain, word);
    let barred = harts.is_forbidden(hart, &span);
    harts.keep(hart, place, domain, span, barred);
    span.perm
}
