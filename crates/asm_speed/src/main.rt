//! Times `assemble` on sources of a size, usual ones and the worst that an author can write: `asm_speed BYTES` prints
//! to stdout how many bytes each source and its image have, and to stderr the processor time that the assembler took.
#![tactic(auto)]

ghost use Rattle.std.specs.Prelude.{◌≤◌, ◌^◌, length};

mod sources;

use mx_asm::{AsmRefused, assemble};
use sources::{KINDS, Kind};
use std::alloc::Global;
use std::time::CpuClock;
use std::{env, io};

/// The longest source.
const MOST: usize = 0x10_0000;

fn main(rt: HostRuntime) -> io::Result<()> {
    let mut args = env::args(&rt)?;
    let _name = args.next();
    let bytes = args.next().and_then(|word| word.parse::<usize>().ok());
    let Some(bytes) = bytes else {
        return eprintln!(rt; "asm_speed BYTES");
    };
    for kind in KINDS {
        time_kind(&rt, rt.alloc(), kind, bytes)?;
    }
    Ok(())
}

/// Assembles a source of a kind, and tells what it took.
fn time_kind(
    rt: &(impl Print + Eprint + CpuClock),
    alloc: Global,
    kind: Kind,
    bytes: usize,
) -> io::Result<()> {
    let name = sources::name(kind);
    let Ok(source) = sources::source(alloc, kind, bytes) else {
        return eprintln!(rt; "{name}: no memory");
    };
    let text = source.as_str();
    if text.len() > MOST {
        return eprintln!(rt; "{name}: too long");
    }
    let begun = rt.thread_cpu_time()?;
    let made = image_size(alloc, text);
    let ended = rt.thread_cpu_time()?;
    match made {
        Ok(size) => println!(rt; "{name}: source {} image {size}", text.len())?,
        Err(refused) => println!(rt; "{name}: source {} {refused}", text.len())?,
    }
    let taken = ended.checked_sub(begun).unwrap_or_default();
    eprintln!(rt; "{name}: microseconds={}", taken.as_micros())
}

/// How many bytes the image of a source has.
fn image_size(alloc: Global, text: &str) -> Result<u32, AsmRefused>
    requires { length text.now ≤ 2 ^ 20 }
{
    match assemble(alloc, text) {
        Ok(image) => Ok(image.len()),
        Err(refused) => Err(refused),
    }
}
