//! The debugger: gdb's remote serial protocol on standard input and output.
#![tactic(auto)]

use mx_debugger::run_debugger;
use mx_io::{FolderStore, StderrSink, StdoutSink};
use mx_packets::StdLine;
use std::env;
use std::process::ExitCode;

fn main(rt: HostRuntime) -> ExitCode {
    run_debugger(
        rt.alloc(),
        env::args(&rt),
        &mut FolderStore::new(&rt),
        &mut StdLine::over(rt.stdin(), StdoutSink::new(rt.stdout())),
        &mut StderrSink::new(rt.stderr()),
    )
}
