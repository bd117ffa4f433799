//! The program: the words of the command line, the call that they ask for, and its status as that of the process.

ghost use Rattle.std.specs.Prelude.{◌≡◌, IfOk};
ghost use Rattle.std.specs.Process.{exit_status};
ghost use Rattle.mx_io.specs.Answer.{tells_by};
ghost use Rattle.mx_io.specs.Real.{file_sink, folder_store, stderr_sink, stdout_sink};
ghost use Rattle.mx_turns.specs.Ends.{sinks};
ghost use Rattle.mx_run.specs.Program.{Executes, Given};

use crate::top::mondrix;
use crate::words::Words;
use mx_commands::Status;
use mx_io::{FileSink, Folder, FolderStore, Maker, StderrSink, StdoutSink, Stream};
use mx_words::NoMemory;
use std::alloc::Global;
use std::env::Args;
use std::io;
use std::io::ErrorKind;
use std::process::ExitCode;

/// What `main` does: calls `mondrix` with the words after the program's name, the folder's files, standard output as
/// the console,
/// standard error as the report and the dump's file, and ends with the number of the status. Arguments that are not
/// text ask
/// for nothing that has a meaning. Where memory for the words is wanting the process ends with 10, and nothing is read
/// or written.
pub fn run_program<F: Folder, O: Stream, E: Stream, M: Maker>(
    alloc: Global,
    args: io::Result<Args>,
    store: &mut FolderStore<F>,
    console: &mut StdoutSink<O>,
    report: &mut StderrSink<E>,
    dump: &mut FileSink<M>,
) -> ExitCode
    ensures { Executes (Given args) (folder_store F.told F.sure)
        (tells_by (folder_store F.told F.sure)) store.old store.new
        (sinks (stdout_sink O.contents O.room console.old) (stderr_sink E.contents E.room report.old)
        (file_sink M.fresh M.room M.File.contents M.File.room dump.old))
        (sinks (stdout_sink O.contents O.room console.new) (stderr_sink E.contents E.room report.new)
        (file_sink M.fresh M.room M.File.contents M.File.room dump.new)) (exit_status result) }
{
    match read_words(alloc, args) {
        Ok(words) => {
            let status = mondrix(alloc, &words, store, console, report, dump);
            ExitCode::from(status.number() as u8)
        }
        Err(NoMemory) => ExitCode::from(Status::WantOfMemory.number() as u8),
    }
}

/// The words after the program's name, or one empty word where they are not text. Refuses only where memory is wanting.
pub fn read_words(alloc: Global, args: io::Result<Args>) -> Result<Words, NoMemory>
    ensures { IfOk result (λ words. Given args words) }
{
    let mut words = Words::new(alloc);
    match args {
        Ok(mut args) => {
            let _program = args.next();
            'words: for word in args {
                words.push(word.as_str())?;
            }
        }
        Err(error) if error.kind() == ErrorKind::OutOfMemory => return Err(NoMemory),
        Err(_) => words.push("")?,
    }
    Ok(words)
}
