//! The program: the words of the command line, the call that they ask for, and its status as that of the process.

ghost use Rattle.std.specs.Process.{exit_status};
ghost use Rattle.mx_io.specs.Answer.{tells_by};
ghost use Rattle.mx_io.specs.Real.{folder_store, stderr_sink, stdout_sink};
ghost use Rattle.mx_packets.specs.Lines.{hears_over, says_over};
ghost use Rattle.mx_run.specs.Program.{Given};
ghost use Rattle.mx_debugger.specs.Program.{Executes};

use crate::top::debug;
use mx_commands::Status;
use mx_io::{Folder, FolderStore, StderrSink, Stream};
use mx_packets::StdLine;
use mx_run::read_words;
use mx_words::NoMemory;
use std::alloc::Global;
use std::env::Args;
use std::io;
use std::io::Read;
use std::process::ExitCode;

/// What `main` does: calls `debug` with the words after the program's name, the folder's files, standard input and
/// output as the line and standard error as the report, and ends with the number of the status. Arguments that are not
/// text ask for nothing that has a meaning. Where memory for the words is wanting the process ends with 10, and
/// nothing is read, heard or written.
pub fn run_debugger<F: Folder, I: Read, O: Stream, E: Stream>(
    alloc: Global,
    args: io::Result<Args>,
    store: &mut FolderStore<F>,
    line: &mut StdLine<I, O>,
    report: &mut StderrSink<E>,
) -> ExitCode
    ensures { Executes (Given args) (folder_store F.told F.sure) (tells_by (folder_store F.told F.sure))
        (hears_over I.remaining) (says_over O.contents O.room)
        (λ l. (stdout_sink O.contents O.room l.out).room) store.old store.new line.old line.new
        (stderr_sink E.contents E.room report.old) (stderr_sink E.contents E.room report.new)
        (exit_status result) }
{
    match read_words(alloc, args) {
        Ok(words) => {
            let status = debug(alloc, &words, store, line, report);
            ExitCode::from(status.number() as u8)
        }
        Err(NoMemory) => ExitCode::from(Status::WantOfMemory.number() as u8),
    }
}
