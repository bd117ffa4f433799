//! The lines of refusals, each a whole report. No call takes memory.

ghost use Rattle.std.specs.Prelude.{◌≡◌, [], ◌++◌, unwrap_or};
ghost use Rattle.mx_io.specs.Sink.{SinkState, Puts};
ghost use Rattle.mx_io.specs.Piece.{piece_text};
ghost use Rattle.mx_commands.specs.Refusal.{line_of, refused_line, place_text, tables_full_line, short_file_line};
ghost use Rattle.mx_commands.specs.Refusal.{no_file_line, usage_line, store_fault_line, asm_fault_line, unlike_line};
ghost use Rattle.mx_commands.specs.Refusal.{no_domain_line, snapshot_fault_line};
ghost use Rattle.mx_commands.specs.Next.{refusal};
ghost use Rattle.mx_turns.specs.Ends.{sinks};
ghost use Rattle.mx_commands.specs.Ends.{Ends};

use crate::status::Status;
use mx_io::{Failed, Piece, Sink, put_all};
use mx_manifest::{BootFault, Key, Part};
use mx_report::put_line;
use mx_words::Need;

/// Ends a call that refuses: the line of the status is the whole report, or the report's fault is the status. The name
/// is that of the file that it is about, or empty; a status without a line, as `Ran`, has an empty report. The other
/// two sinks get nothing. Takes no memory.
pub fn refuse<R: Sink>(report: &mut R, name: &str, status: Status) -> Status
    ensures { (console dump : SinkState) → Ends (refusal name.now status)
        (sinks console (R.state report.old) dump) (sinks console (R.state report.new) dump) result }
{
    match put_refusal(report, name, &status) {
        Ok(()) => status,
        Err(Failed) => Status::ReportFault,
    }
}

/// Puts the line of a refusal; `name` is the name of the file that it is about.
fn put_refusal<R: Sink>(report: &mut R, name: &str, status: &Status) -> Result<(), Failed>
    ensures { Puts (R.state report.old) (R.state report.new)
        (unwrap_or (line_of name.now status.now) []) result }
{
    match *status {
        Status::Usage => put_usage(report),
        Status::Refused(fault) | Status::SecondRefused(fault) => put_refused(report, &fault),
        Status::TablesFull { need, limit } | Status::SecondTablesFull { need, limit } => {
            put_tables_full(report, &need, &limit)
        }
        Status::StoreFault => put_store_fault(report),
        Status::ShortFile { told, got, .. } => put_short_file(report, name, told, got),
        Status::NoFile(_) => put_no_file(report, name),
        Status::AsmFault { line, number } => put_asm_fault(report, line, number),
        Status::Unlike(key) => put_unlike(report, key),
        Status::NoDomain => put_no_domain(report),
        Status::SnapshotFault { at, number } => put_snapshot_fault(report, at, number),
        _ => put_all(report, b""),
    }
}

#[tactic(auto, unfolding(crate::specs::Refusal::usage_line))]
fn put_usage<R: Sink>(report: &mut R) -> Result<(), Failed>
    ensures { Puts (R.state report.old) (R.state report.new) usage_line result }
{
    put_all(report, b"mondrix: these words have no meaning\n")
}

#[tactic(auto, unfolding(crate::specs::Refusal::tables_full_line))]
fn put_tables_full<R: Sink>(report: &mut R, need: &Need, limit: &Need) -> Result<(), Failed>
    ensures { Puts (R.state report.old) (R.state report.new)
        (tables_full_line need.now limit.now) result }
{
    put_line(
        report,
        &[
            Piece::Text("tables full upper="),
            Piece::Number(need.upper as u64),
            Piece::Text("/"),
            Piece::Number(limit.upper as u64),
            Piece::Text(" leaf="),
            Piece::Number(need.leaf as u64),
            Piece::Text("/"),
            Piece::Number(limit.leaf as u64),
            Piece::Text(" spill="),
            Piece::Number(need.spill as u64),
            Piece::Text("/"),
            Piece::Number(limit.spill as u64),
            Piece::Text("\n"),
        ],
    )
}

#[tactic(auto, unfolding(crate::specs::Refusal::store_fault_line))]
fn put_store_fault<R: Sink>(report: &mut R) -> Result<(), Failed>
    ensures { Puts (R.state report.old) (R.state report.new) store_fault_line result }
{
    put_all(report, b"store fault\n")
}

#[tactic(auto, unfolding(crate::specs::Refusal::short_file_line))]
fn put_short_file<R: Sink>(report: &mut R, name: &str, told: u64, got: u64) -> Result<(), Failed>
    ensures { Puts (R.state report.old) (R.state report.new)
        (short_file_line name.now told got) result }
{
    put_line(
        report,
        &[
            Piece::Text("short file "),
            Piece::Name(name),
            Piece::Text(" told="),
            Piece::Number(told),
            Piece::Text(" got="),
            Piece::Number(got),
            Piece::Text("\n"),
        ],
    )
}

#[tactic(auto, unfolding(crate::specs::Refusal::no_file_line))]
fn put_no_file<R: Sink>(report: &mut R, name: &str) -> Result<(), Failed>
    ensures { Puts (R.state report.old) (R.state report.new) (no_file_line name.now) result }
{
    put_line(
        report,
        &[
            Piece::Text("no file "),
            Piece::Name(name),
            Piece::Text("\n"),
        ],
    )
}

#[tactic(auto, unfolding(crate::specs::Refusal::asm_fault_line))]
fn put_asm_fault<R: Sink>(report: &mut R, line: u32, number: u32) -> Result<(), Failed>
    ensures { Puts (R.state report.old) (R.state report.new) (asm_fault_line line number) result }
{
    put_line(
        report,
        &[
            Piece::Text("asm line="),
            Piece::Number(line as u64),
            Piece::Text(" fault="),
            Piece::Number(number as u64),
            Piece::Text("\n"),
        ],
    )
}

#[tactic(auto, unfolding(crate::specs::Refusal::unlike_line))]
fn put_unlike<R: Sink>(report: &mut R, key: Key) -> Result<(), Failed>
    ensures { Puts (R.state report.old) (R.state report.new) (unlike_line key) result }
{
    put_line(
        report,
        &[
            Piece::Text("twin unlike key="),
            Piece::Text(key.name()),
            Piece::Text("\n"),
        ],
    )
}

#[tactic(auto, unfolding(crate::specs::Refusal::no_domain_line))]
fn put_no_domain<R: Sink>(report: &mut R) -> Result<(), Failed>
    ensures { Puts (R.state report.old) (R.state report.new) no_domain_line result }
{
    put_all(report, b"twin no domain\n")
}

#[tactic(auto, unfolding(crate::specs::Refusal::snapshot_fault_line))]
fn put_snapshot_fault<R: Sink>(report: &mut R, at: u64, number: u32) -> Result<(), Failed>
    ensures { Puts (R.state report.old) (R.state report.new)
        (snapshot_fault_line at number) result }
{
    put_line(
        report,
        &[
            Piece::Text("snapshot fault="),
            Piece::Number(number as u64),
            Piece::Text(" at="),
            Piece::Number(at),
            Piece::Text("\n"),
        ],
    )
}

fn put_refused<R: Sink>(report: &mut R, fault: &BootFault) -> Result<(), Failed>
    ensures { Puts (R.state report.old) (R.state report.new) (refused_line fault.now) result }
{
    let index = Piece::Number(fault.place.index as u64);
    match fault.place.part {
        Part::Manifest => put_refused_at(report, fault, Piece::Text("manifest"), Piece::Text("")),
        Part::Module => put_refused_at(report, fault, Piece::Text("module."), index),
        Part::Hart => put_refused_at(report, fault, Piece::Text("hart."), index),
        Part::Schedule => put_refused_at(report, fault, Piece::Text("schedule"), Piece::Text("")),
    }
}

// Puts the line of a fault at a table, with its index where it has one.
fn put_refused_at<'a, R: Sink>(
    report: &mut R,
    fault: &'a BootFault,
    table: Piece<'a>,
    index: Piece<'a>,
) -> Result<(), Failed>
    requires { piece_text table ++ piece_text index
        ≡ place_text fault.now.place.part fault.now.place.index }
    ensures { Puts (R.state report.old) (R.state report.new) (refused_line fault.now) result }
{
    put_line(
        report,
        &[
            Piece::Text("refused fault="),
            Piece::Number(fault.number as u64),
            Piece::Text(" at="),
            table,
            index,
            Piece::Text(" key="),
            Piece::Text(fault.place.key.name()),
            Piece::Text(" detail="),
            Piece::Number(fault.detail as u64),
            Piece::Text("\n"),
        ],
    )
}
