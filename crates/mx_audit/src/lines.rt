//! The report of an audit, which leaves through a buffer. No call takes memory.

ghost use Rattle.std.specs.Prelude.{◌≡◌, ℕ, ◌+◌, ◌≤◌, length, map, flat_map};
ghost use Rattle.mx_io.specs.Sink.{Puts};
ghost use Rattle.mx_tail.specs.Tail.{Passes};
ghost use Rattle.mx_words.specs.Ranges.{most_words};
ghost use Rattle.mx_audit.specs.Lines.{found_text, live_lines, live_text, live_line, sealed_line, words_line, words_of};
ghost use Rattle.mx_audit.specs.Marks.{is_marked};
ghost use Rattle.mx_audit.specs.SealedRuns.{AreInRam};

use crate::audited::Audit;
use crate::living::is_marked;
use mx_io::{Failed, Piece, Sink};
use mx_tail::{Tail, put_pieces};
use mx_words::{MOST_DOMAINS, RAM_BASE, Span, Spans};

/// Puts the report of an audit: a line for each live domain, by number, with its module's name; one for each run of
/// sealed words, by
/// address, with its first address and the address after it; and how many words are sealed. The names are those of the
/// modules in
/// order, and the runs lie in RAM. Where a write fails, a prefix of the report was appended.
pub fn write_audit<R: Sink>(sink: &mut R, audit: &Audit, names: &[&str]) -> Result<(), Failed>
    requires { AreInRam audit.now.sealed }
    ensures { Puts (R.state sink.old) (R.state sink.new)
        (found_text (map (λ name. name.now) names.now) audit.now) result }
{
    let mut tail = Tail::new();
    put_audit(&mut tail, sink, audit, names)?;
    tail.end(sink)
}

// Puts the report through a buffer.
fn put_audit<R: Sink>(
    tail: &mut Tail,
    sink: &mut R,
    audit: &Audit,
    names: &[&str],
) -> Result<(), Failed>
    requires { AreInRam audit.now.sealed }
    ensures { Passes tail.old (R.state sink.old) (R.state sink.new) tail.new
        (found_text (map (λ name. name.now) names.now) audit.now) result }
{
    put_live(tail, sink, &audit.live, names)?;
    put_sealed(tail, sink, &audit.sealed)?;
    put_words(tail, sink, words_of(&audit.sealed))
}

// Puts the lines of the live domains.
fn put_live<R: Sink>(
    tail: &mut Tail,
    sink: &mut R,
    live: &[bool; MOST_DOMAINS],
    names: &[&str],
) -> Result<(), Failed>
    ensures { Passes tail.old (R.state sink.old) (R.state sink.new) tail.new
        (live_lines (map (λ name. name.now) names.now) (is_marked live.now)) result }
{
    for i in 0..names.len() {
        put_domain(tail, sink, i + 1, names[i], is_marked(live, i + 1))?;
    }
    Ok(())
}

// Puts the line of a domain where it is live.
fn put_domain<R: Sink>(
    tail: &mut Tail,
    sink: &mut R,
    domain: usize,
    name: &str,
    live: bool,
) -> Result<(), Failed>
    ensures { Passes tail.old (R.state sink.old) (R.state sink.new) tail.new
        (live_text domain name.now live) result }
{
    if live {
        put_live_line(tail, sink, domain, name)
    } else {
        Ok(())
    }
}

#[tactic(auto, unfolding(crate::specs::Lines::live_line))]
fn put_live_line<R: Sink>(
    tail: &mut Tail,
    sink: &mut R,
    domain: usize,
    name: &str,
) -> Result<(), Failed>
    ensures { Passes tail.old (R.state sink.old) (R.state sink.new) tail.new
        (live_line domain name.now) result }
{
    put_pieces(
        tail,
        sink,
        &[
            Piece::Text("live "),
            Piece::Number(domain as u64),
            Piece::Text(" "),
            Piece::Text(name),
            Piece::Text("\n"),
        ],
    )
}

// Puts the lines of the runs of sealed words.
fn put_sealed<R: Sink>(tail: &mut Tail, sink: &mut R, sealed: &Spans) -> Result<(), Failed>
    requires { AreInRam sealed.now }
    ensures { Passes tail.old (R.state sink.old) (R.state sink.new) tail.new
        (flat_map sealed_line sealed.now) result }
{
    for i in 0..sealed.len() {
        put_run(tail, sink, sealed.get(i))?;
    }
    Ok(())
}

#[tactic(auto, unfolding(crate::specs::Lines::sealed_line))]
fn put_run<R: Sink>(tail: &mut Tail, sink: &mut R, run: Span) -> Result<(), Failed>
    requires { run.first + run.count ≤ most_words }
    ensures { Passes tail.old (R.state sink.old) (R.state sink.new) tail.new
        (sealed_line run) result }
{
    put_pieces(
        tail,
        sink,
        &[
            Piece::Text("sealed "),
            Piece::Hex(RAM_BASE + 4 * run.first),
            Piece::Text(" "),
            Piece::Hex(RAM_BASE + 4 * (run.first + run.count)),
            Piece::Text("\n"),
        ],
    )
}

// How many words the runs have together: fewer than 2^56.
fn words_of(runs: &Spans) -> u64
    requires { AreInRam runs.now }
    ensures { result ≡ words_of runs.now }
{
    let mut words = 0;
    for i in 0..runs.len() {
        words += runs.get(i).count as u64;
    }
    words
}

#[tactic(auto, unfolding(crate::specs::Lines::words_line))]
fn put_words<R: Sink>(tail: &mut Tail, sink: &mut R, words: u64) -> Result<(), Failed>
    ensures { Passes tail.old (R.state sink.old) (R.state sink.new) tail.new
        (words_line words) result }
{
    put_pieces(
        tail,
        sink,
        &[
            Piece::Text("sealed words="),
            Piece::Number(words),
            Piece::Text("\n"),
        ],
    )
}
