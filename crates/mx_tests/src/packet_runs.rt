//! Runs of the three modules of packets: whole reports, and a console that fails.

use crate::calls::call;
use crate::examples::{Sinks, run_first};
use crate::packets::{CONSOLE, DRIVER, PROTO};
use mx_io::{Bytes, Files};
use mx_run::Status;
use std::alloc::Global;
use std::test::Fail;

/// The three modules.
pub const MODULES: &str = "[[module]]\n\
name = \"driver\"\n\
image = \"driver.elf\"\n\
heap = 0x80040000\n\
heap_words = 4096\n\
stack = 0x80050000\n\
stack_words = 256\n\
[[module]]\n\
name = \"proto\"\n\
image = \"proto.elf\"\n\
stack = 0x80052000\n\
stack_words = 256\n\
gates = [{ entry = \"receive\", from = [\"driver\"] }]\n\
returns = [\"receive_back\"]\n\
[[module]]\n\
name = \"console\"\n\
image = \"console.elf\"\n\
heap = 0x80060000\n\
heap_words = 1024\n\
stack = 0x80054000\n\
stack_words = 256\n\
gates = [{ entry = \"print\", from = [\"proto\"] }]\n\
returns = [\"print_back\"]\n";

/// The first hart, which runs the driver.
pub const DRIVER_HART: &str = "[[hart]]\n\
module = \"driver\"\n";

/// Three harts more, each in a loop of its module.
pub const IDLE_HARTS: &str = "[[hart]]\n\
module = \"driver\"\n\
entry = \"idle\"\n\
[[hart]]\n\
module = \"proto\"\n\
entry = \"idle\"\n\
[[hart]]\n\
module = \"console\"\n\
entry = \"idle\"\n";

pub const PACKED: &str = "version = 1\n\
ram_kib = 1024\n\
tables = \"packed\"\n\
lookaside = 32\n";

pub const MULTILEVEL: &str = "version = 1\n\
ram_kib = 1024\n\
tables = \"multilevel\"\n\
lookaside = 32\n";

/// After 100000 steps of four harts.
const FOUR_HARTS: &str = "exit step=72817 hart=0 domain=1 code=0\n\
end steps=100000 state=steps\n\
hart 0 status=halted domain=1 pc=0x80000070 frames=0\n\
regs 0 00000000 80000054 80050400 00000000 00000000 80020000 80011000 00000000 00000000 80040000 00000000 0000000c 00000002 00000001 00000000 00000000 00000000 00000001 00000000 00000000 00000000 00000000 00000000 00000000 00000000 00000000 00000000 00000000 00000000 00000000 00000000 00000000\n\
hart 1 status=running domain=1 pc=0x80000074 frames=0\n\
regs 1 00000000 00000000 80050800 00000000 00000000 00000000 00000000 00000000 00000000 00000000 00000000 00000000 00000000 00000000 00000000 00000000 00000000 00000000 00000000 00000000 00000000 00000000 00000000 00000000 00000000 00000000 00000000 00000000 00000000 00000000 00000000 00000000\n\
hart 2 status=running domain=2 pc=0x80010044 frames=0\n\
regs 2 00000000 00000000 80052c00 00000000 00000000 00000000 00000000 00000000 00000000 00000000 00000000 00000000 00000000 00000000 00000000 00000000 00000000 00000000 00000000 00000000 00000000 00000000 00000000 00000000 00000000 00000000 00000000 00000000 00000000 00000000 00000000 00000000\n\
hart 3 status=running domain=3 pc=0x80020018 frames=0\n\
regs 3 00000000 00000000 80055000 00000000 00000000 00000000 00000000 00000000 00000000 00000000 00000000 00000000 00000000 00000000 00000000 00000000 00000000 00000000 00000000 00000000 00000000 00000000 00000000 00000000 00000000 00000000 00000000 00000000 00000000 00000000 00000000 00000000\n\
domain 1 driver\n\
map 1 0x80000000 0x80000078 rx\n\
map 1 0x80001000 0x80002234 rw\n\
map 1 0x80050000 0x80051000 rw\n\
domain 2 proto\n\
map 2 0x80010000 0x80010048 rx\n\
map 2 0x80011000 0x8001225c rw\n\
map 2 0x80052000 0x80053000 rw\n\
domain 3 console\n\
map 3 0x80020000 0x8002001c rx\n\
map 3 0x80021000 0x8002228c rw\n\
map 3 0x80054000 0x80055000 rw\n\
owner 0x80000000 0x80000078 1\n\
owner 0x80001000 0x80002234 1\n\
owner 0x80010000 0x80010048 2\n\
owner 0x80011000 0x8001225c 2\n\
owner 0x80020000 0x8002001c 3\n\
owner 0x80021000 0x8002228c 3\n\
owner 0x80040000 0x80044000 1\n\
owner 0x80050000 0x80051000 1\n\
owner 0x80052000 0x80053000 2\n\
owner 0x80054000 0x80055000 3\n\
owner 0x80060000 0x80061000 3\n";

/// After the exit of the driver, on one hart.
const ONE_HART: &str = "exit step=17155 hart=0 domain=1 code=0\n\
end steps=17155 state=halted\n\
hart 0 status=halted domain=1 pc=0x80000070 frames=0\n\
regs 0 00000000 80000054 80050400 00000000 00000000 80020000 80011000 00000000 00000000 80040000 00000000 0000000c 00000002 00000001 00000000 00000000 00000000 00000001 00000000 00000000 00000000 00000000 00000000 00000000 00000000 00000000 00000000 00000000 00000000 00000000 00000000 00000000\n\
domain 1 driver\n\
map 1 0x80000000 0x80000078 rx\n\
map 1 0x80001000 0x80002234 rw\n\
map 1 0x80050000 0x80050400 rw\n\
domain 2 proto\n\
map 2 0x80010000 0x80010048 rx\n\
map 2 0x80011000 0x8001225c rw\n\
map 2 0x80052000 0x80052400 rw\n\
domain 3 console\n\
map 3 0x80020000 0x8002001c rx\n\
map 3 0x80021000 0x8002228c rw\n\
map 3 0x80054000 0x80054400 rw\n\
owner 0x80000000 0x80000078 1\n\
owner 0x80001000 0x80002234 1\n\
owner 0x80010000 0x80010048 2\n\
owner 0x80011000 0x8001225c 2\n\
owner 0x80020000 0x8002001c 3\n\
owner 0x80021000 0x8002228c 3\n\
owner 0x80040000 0x80044000 1\n\
owner 0x80050000 0x80050400 1\n\
owner 0x80052000 0x80052400 2\n\
owner 0x80054000 0x80054400 3\n\
owner 0x80060000 0x80061000 3\n";

/// After 2000 steps of four harts.
pub const SHORT: &str = "end steps=2000 state=steps\n\
hart 0 status=running domain=2 pc=0x80010020 frames=1\n\
regs 0 00000000 80000054 800523f0 00000000 00000000 000002a9 00000007 00000000 00000155 80040000 80040000 00000010 00000002 00000001 00000000 00000000 00000000 00000003 00000000 00000000 00000000 00000000 00000000 00000000 00000000 00000000 00000000 00000000 00000000 00000000 00000000 00000000\n\
hart 1 status=running domain=1 pc=0x80000074 frames=0\n\
regs 1 00000000 00000000 80050800 00000000 00000000 00000000 00000000 00000000 00000000 00000000 00000000 00000000 00000000 00000000 00000000 00000000 00000000 00000000 00000000 00000000 00000000 00000000 00000000 00000000 00000000 00000000 00000000 00000000 00000000 00000000 00000000 00000000\n\
hart 2 status=running domain=2 pc=0x80010044 frames=0\n\
regs 2 00000000 00000000 80052c00 00000000 00000000 00000000 00000000 00000000 00000000 00000000 00000000 00000000 00000000 00000000 00000000 00000000 00000000 00000000 00000000 00000000 00000000 00000000 00000000 00000000 00000000 00000000 00000000 00000000 00000000 00000000 00000000 00000000\n\
hart 3 status=running domain=3 pc=0x80020018 frames=0\n\
regs 3 00000000 00000000 80055000 00000000 00000000 00000000 00000000 00000000 00000000 00000000 00000000 00000000 00000000 00000000 00000000 00000000 00000000 00000000 00000000 00000000 00000000 00000000 00000000 00000000 00000000 00000000 00000000 00000000 00000000 00000000 00000000 00000000\n\
domain 1 driver\n\
map 1 0x80000000 0x80000078 rx\n\
map 1 0x80001000 0x80002234 rw\n\
map 1 0x80040000 0x80040010 rw\n\
map 1 0x80050000 0x80051000 rw\n\
domain 2 proto\n\
map 2 0x80010000 0x80010048 rx\n\
map 2 0x80011000 0x8001225c rw\n\
map 2 0x80040000 0x80040010 r\n\
map 2 0x80052000 0x80053000 rw\n\
domain 3 console\n\
map 3 0x80020000 0x8002001c rx\n\
map 3 0x80021000 0x8002228c rw\n\
map 3 0x80054000 0x80055000 rw\n\
owner 0x80000000 0x80000078 1\n\
owner 0x80001000 0x80002234 1\n\
owner 0x80010000 0x80010048 2\n\
owner 0x80011000 0x8001225c 2\n\
owner 0x80020000 0x8002001c 3\n\
owner 0x80021000 0x8002228c 3\n\
owner 0x80040000 0x80044000 1\n\
owner 0x80050000 0x80051000 1\n\
owner 0x80052000 0x80053000 2\n\
owner 0x80054000 0x80055000 3\n\
owner 0x80060000 0x80061000 3\n";

/// What the console gets in 2000 steps.
pub const SHORT_CONSOLE: &str = "packet done\n\
packet done\n\
packet done\n\
packet done\n\
packet done\n\
packet done\n\
packet done\n\
packet done\n\
packet done\n";

/// The image of a source, by the program's own assembler.
pub fn add_image(alloc: Global, files: &mut Files, name: &str, source: &str) -> Result<(), Fail> {
    let mut sources = Files::new(alloc);
    sources.add("module.s", source.as_bytes())?;
    let mut console = Bytes::new(alloc, 8192)?;
    let mut report = Bytes::new(alloc, 100)?;
    let words = ["asm", "module.s"];
    match call(alloc, &words, &mut sources, &mut console, &mut report)? {
        Status::Ran => files.add(name, console.as_slice())?,
        _ => Err("the source is refused")?,
    }
    Ok(())
}

/// The files of a run: a manifest with this head and these harts beside the driver's, and the three images.
fn files_with(alloc: Global, head: &str, harts: &str) -> Result<Files, Fail> {
    let text = format!(in alloc; "{head}{MODULES}{DRIVER_HART}{harts}")?;
    let mut files = Files::new(alloc);
    files.add("first.toml", text.as_bytes())?;
    add_image(alloc, &mut files, "driver.elf", DRIVER)?;
    add_image(alloc, &mut files, "proto.elf", PROTO)?;
    add_image(alloc, &mut files, "console.elf", CONSOLE)?;
    Ok(files)
}

/// The files of a run on four harts over packed tables.
pub fn packet_files(alloc: Global) -> Result<Files, Fail> {
    files_with(alloc, PACKED, IDLE_HARTS)
}

/// The line that the console module writes, so many times.
fn lines(alloc: Global, count: u32) -> Result<String, Fail> {
    let mut text = String::new(alloc);
    for _line in 0..count {
        text.push_str("packet done\n")?;
    }
    Ok(text)
}

#[test]
fn three_hundred_and_fifty_packets(rt: HostRuntime) -> Result<(), Fail> {
    let console = lines(rt.alloc(), 350)?;
    let cases = [
        (PACKED, IDLE_HARTS, "100000", FOUR_HARTS),
        (MULTILEVEL, IDLE_HARTS, "100000", FOUR_HARTS),
        (PACKED, "", "20000", ONE_HART),
    ];
    for (head, harts, steps, report) in cases {
        let mut files = files_with(rt.alloc(), head, harts)?;
        let mut sinks = Sinks::new(rt.alloc())?;
        let status = run_first(rt.alloc(), &[steps], &mut files, &mut sinks)?;
        assert_eq!(rt; status, Status::Ran);
        assert_eq!(rt; sinks.console.as_slice(), console.as_bytes());
        assert_eq!(rt; sinks.report.as_slice(), report.as_bytes());
    }
    Ok(())
}

#[test]
fn a_console_that_fails_at_its_second_write(rt: HostRuntime) -> Result<(), Fail> {
    let console = lines(rt.alloc(), 350)?;
    let mut files = packet_files(rt.alloc())?;
    let mut sinks = Sinks::new(rt.alloc())?;
    sinks.console.fail_at(2);
    let status = run_first(rt.alloc(), &["100000"], &mut files, &mut sinks)?;
    assert_eq!(rt; status, Status::ConsoleFault);
    assert_eq!(rt; status.number(), 7);
    assert_eq!(rt; sinks.console.as_slice().len(), 4096);
    assert!(rt; console.as_bytes().starts_with(sinks.console.as_slice()));
    // The console's rest failed after the last turn: the report has the lines of the turns, and no closing line.
    let exit = b"exit step=72817 hart=0 domain=1 code=0\n".as_slice();
    assert_eq!(rt; sinks.report.as_slice(), exit);
    Ok(())
}
