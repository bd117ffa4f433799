//! The program: the words of the command line, the files of the folder, the standard streams.
#![tactic(auto)]

use mx_io::{FileSink, FolderStore, StderrSink, StdoutSink};
use mx_run::run_program;
use std::env;
use std::process::ExitCode;

fn main(rt: HostRuntime) -> ExitCode {
    run_program(
        rt.alloc(),
        env::args(&rt),
        &mut FolderStore::new(&rt),
        &mut StdoutSink::new(rt.stdout()),
        &mut StderrSink::new(rt.stderr()),
        &mut FileSink::new(&rt),
    )
}
