//! The description of the registers.

ghost use Rattle.std.specs.Prelude.{◌≡◌, ◌++◌};
ghost use Rattle.mx_packets.specs.Frames.{cut};
ghost use Rattle.mx_debug.specs.Texts.{target_text, window_mark, window_text};

use crate::texts::part;
use mx_packets::Answer;

const TARGET: &str =
    "<?xml version=\"1.0\"?><!DOCTYPE target SYSTEM \"gdb-target.dtd\"><target version=\"1.0\"><architecture>riscv:rv32</architecture><osabi>none</osabi><feature name=\"org.gnu.gdb.riscv.cpu\"><reg name=\"x0\" bitsize=\"32\" type=\"int\"/><reg name=\"x1\" bitsize=\"32\" type=\"code_ptr\"/><reg name=\"x2\" bitsize=\"32\" type=\"data_ptr\"/><reg name=\"x3\" bitsize=\"32\" type=\"data_ptr\"/><reg name=\"x4\" bitsize=\"32\" type=\"data_ptr\"/><reg name=\"x5\" bitsize=\"32\" type=\"int\"/><reg name=\"x6\" bitsize=\"32\" type=\"int\"/><reg name=\"x7\" bitsize=\"32\" type=\"int\"/><reg name=\"x8\" bitsize=\"32\" type=\"data_ptr\"/><reg name=\"x9\" bitsize=\"32\" type=\"int\"/><reg name=\"x10\" bitsize=\"32\" type=\"int\"/><reg name=\"x11\" bitsize=\"32\" type=\"int\"/><reg name=\"x12\" bitsize=\"32\" type=\"int\"/><reg name=\"x13\" bitsize=\"32\" type=\"int\"/><reg name=\"x14\" bitsize=\"32\" type=\"int\"/><reg name=\"x15\" bitsize=\"32\" type=\"int\"/><reg name=\"x16\" bitsize=\"32\" type=\"int\"/><reg name=\"x17\" bitsize=\"32\" type=\"int\"/><reg name=\"x18\" bitsize=\"32\" type=\"int\"/><reg name=\"x19\" bitsize=\"32\" type=\"int\"/><reg name=\"x20\" bitsize=\"32\" type=\"int\"/><reg name=\"x21\" bitsize=\"32\" type=\"int\"/><reg name=\"x22\" bitsize=\"32\" type=\"int\"/><reg name=\"x23\" bitsize=\"32\" type=\"int\"/><reg name=\"x24\" bitsize=\"32\" type=\"int\"/><reg name=\"x25\" bitsize=\"32\" type=\"int\"/><reg name=\"x26\" bitsize=\"32\" type=\"int\"/><reg name=\"x27\" bitsize=\"32\" type=\"int\"/><reg name=\"x28\" bitsize=\"32\" type=\"int\"/><reg name=\"x29\" bitsize=\"32\" type=\"int\"/><reg name=\"x30\" bitsize=\"32\" type=\"int\"/><reg name=\"x31\" bitsize=\"32\" type=\"int\"/><reg name=\"pc\" bitsize=\"32\" type=\"code_ptr\"/></feature><feature name=\"mondrix.hart\"><reg name=\"domain\" bitsize=\"32\" type=\"uint32\"/><reg name=\"frames\" bitsize=\"32\" type=\"uint32\"/><reg name=\"turns\" bitsize=\"64\" type=\"uint64\"/></feature></target>";

/// The most bytes of a part.
const MOST: u32 = 4000;

/// Adds a part of the description: so many bytes from a place on.
pub(crate) fn put_target(answer: &mut Answer, at: u32, count: u32)
    ensures { answer.new ≡ cut (answer.old ++ window_text target_text at count) }
{
    put_window(answer, target(), at, count);
}

fn target() -> &'static [u8]
    ensures { result.now ≡ target_text }
{
    TARGET.as_bytes()
}

// Adds a part of a text.
fn put_window(answer: &mut Answer, text: &[u8], at: u32, count: u32)
    ensures { answer.new ≡ cut (answer.old ++ window_text text.now at count) }
{
    let part = part(text, at, count.min(MOST));
    answer.push(mark(at as usize + part.len(), text.len()));
    answer.put(part);
}

// Whether more of a text follows this place.
fn mark(end: usize, all: usize) -> u8
    ensures { result ≡ window_mark end all }
{
    if end < all { b'm' } else { b'l' }
}
