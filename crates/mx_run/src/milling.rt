//! The command `mill`: the report of a run that a number makes.

ghost use Rattle.mx_io.specs.Sink.{SinkState};
ghost use Rattle.mx_mill.specs.Mill.{mill_text};
ghost use Rattle.mx_turns.specs.Ends.{sinks};
ghost use Rattle.mx_commands.specs.Next.{reported};
ghost use Rattle.mx_commands.specs.Ends.{EndsOrWants};

use mx_commands::Status;
use mx_io::Sink;
use mx_mill::{MillFault, mill};
use std::alloc::Global;

/// Runs the manifest that is made for this number, and writes its lines.
pub(crate) fn write_mill<R: Sink>(alloc: Global, k: u32, report: &mut R) -> Status
    ensures { (console dump : SinkState) → EndsOrWants (reported (mill_text k))
        (sinks console (R.state report.old) dump) (sinks console (R.state report.new) dump) result }
{
    match mill(alloc, k, report) {
        Ok(()) => Status::Ran,
        Err(MillFault::Report) => Status::ReportFault,
        Err(MillFault::NoMemory) => Status::WantOfMemory,
    }
}
