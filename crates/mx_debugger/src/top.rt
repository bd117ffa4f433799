//! The debugger's top call.

ghost use Rattle.mx_run.specs.Words.{debug_meaning};
ghost use Rattle.mx_debugger.specs.Debugs.{Debugs};
ghost use Rattle.mx_debugger.specs.Plainly.{CompletesSo, OverFiles, RefusesSo, SaysSo, TalksSo};

use crate::debugger::debug_manifest;
use mx_commands::{Status, refuse};
use mx_io::{Sink, Store};
use mx_packets::Line;
use mx_run::Words;
use std::alloc::Global;

/// Does what the words of `run` that stand for those of `debug` ask: boots the manifest, takes the schedule, and talks
/// on the line about the run that the two fix, until the talk is left or nothing is heard any more.
///
/// Words without a meaning end with `Usage`, and a boot that is refused ends as that of `run`: its line is the whole
/// report, and nothing is heard or said. After a boot nothing goes to the report. Where memory is wanting nothing is
/// said or written; no memory is taken and no file read once the talk began.
pub fn debug<S: Store, L: Line, R: Sink>(
    alloc: Global,
    words: &Words,
    store: &mut S,
    line: &mut L,
    report: &mut R,
) -> Status
    // Over every store and every line: what the store gave fixes the run that was talked about, or leads to the end of
    // the call.
    ensures answered { Debugs S.gives L.hears L.says L.room (debug_meaning words.now)
        store.old store.new line.old line.new (R.state report.old) (R.state report.new) result }

    // Over a store that tells its files: what boots is talked about by its run, and nothing goes to the report.
    ensures talk { OverFiles (TalksSo L.hears L.says L.room (debug_meaning words.now)
        line.old line.new (R.state report.old) (R.state report.new) result)
        (S.state store.old) (S.state store.new) result }

    // And over a line that tells: what was said is what is said to the bytes that were heard.
    ensures headline { OverFiles (SaysSo L.hears L.says (debug_meaning words.now)
        line.old line.new result) (S.state store.old) (S.state store.new) result }

    // What `run` refuses is refused with its status and its line, and nothing is heard or said.
    ensures refused { OverFiles (RefusesSo (debug_meaning words.now)
        line.old line.new (R.state report.old) (R.state report.new) result)
        (S.state store.old) (S.state store.new) result }

    // Where the store is sure to succeed its count is kept, and the same is so.
    ensures complete { CompletesSo L.hears L.says L.room (debug_meaning words.now)
        (S.state store.old) (S.state store.new) line.old line.new
        (R.state report.old) (R.state report.new) result }
{
    react(alloc, words, store, line, report)
}

// The same, of which what holds over files follows.
fn react<S: Store, L: Line, R: Sink>(
    alloc: Global,
    words: &Words,
    store: &mut S,
    line: &mut L,
    report: &mut R,
) -> Status
    ensures { Debugs S.gives L.hears L.says L.room (debug_meaning words.now) store.old store.new
        line.old line.new (R.state report.old) (R.state report.new) result }
{
    match words.asked_debug() {
        Some(order) => debug_manifest(alloc, &order, store, line, report),
        None => refuse(report, "", Status::Usage),
    }
}
