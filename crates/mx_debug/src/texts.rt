//! The texts of answers.
ghost use Rattle.std.specs.Prelude.{◌≡◌, ◌++◌, ◌+◌, ◌<◌, ◌*◌, ◌^◌, ◌≤◌, drop, flat_map, length, take, IfSome};
ghost use Rattle.mx_any.specs.Machines.{meaning};
ghost use Rattle.mx_machine.specs.Readings.{IsViewOf};
ghost use Rattle.mx_model.specs.State.{Core, Hart};
ghost use Rattle.mx_packets.specs.Lines.{SpeaksOrFails};
ghost use Rattle.mx_debug_texts.specs.Documents.{IsThere, known_by};
ghost use Rattle.mx_debug.specs.Replies.{document_of, noted_by};
ghost use Rattle.mx_packets.specs.Frames.{cut, pair};
ghost use Rattle.mx_debug.specs.Session.{hart_of_stop};
ghost use Rattle.mx_debug.specs.Texts.{document_by, memory_text, more_threads, pairs, register_of, registers_of};
ghost use Rattle.mx_debug.specs.Texts.{registers_text, signal_text, stop_text, thread_digit, thread_name, threads_text};
ghost use Rattle.mx_debug.specs.Texts.{word_text};

use crate::stop::Stop;
use mx_any::{AnyMachine, any_machine_is_valid};
use mx_debug_texts::{Document, Named, note_signal, put_pairs, say_document};
use mx_io::Failed;
use mx_machine::HartView;
use mx_packets::{Answer, Line};

const RAM: u32 = 0x8000_0000;

/// The most bytes of memory that one answer tells.
const MOST_SEEN: u32 = 2040;

// Adds a number's four bytes, from the lowest on.
fn put_word(answer: &mut Answer, n: u32)
    ensures { answer.new ≡ cut (answer.old ++ word_text n) }
{
    put_pairs(
        answer,
        &[
            (n % 256) as u8,
            (n / 256 % 256) as u8,
            (n / 65536 % 256) as u8,
            (n / 16777216 % 256) as u8,
        ],
    );
}

fn put_words(answer: &mut Answer, words: &[u32])
    ensures { answer.new ≡ cut (answer.old ++ flat_map word_text words.now) }
{
    let _held = answer.text();
    for word in words {
        put_word(answer, *word);
    }
}

// Adds the registers of a hart.
fn put_view(answer: &mut Answer, view: &HartView, made: u64)
    ensures { (hart : Hart) → IsViewOf hart view.now →
        answer.new ≡ cut (answer.old ++ registers_text hart made) }
{
    put_words(answer, &view.regs);
    put_words(
        answer,
        &[
            view.pc,
            view.domain,
            view.frames,
            (made % 0x1_0000_0000) as u32,
            (made / 0x1_0000_0000) as u32,
        ],
    );
}

/// Adds the registers of a hart that is there, else `E01`.
pub(crate) fn put_registers(answer: &mut Answer, machine: &AnyMachine, hart: u32, made: u64)
    ensures { answer.new ≡ cut (answer.old ++ registers_of (meaning machine.now).core hart made) }
{
    if hart < machine.harts() {
        put_view(answer, &machine.hart(hart), made);
    } else {
        answer.put(b"E01");
    }
}

/// Adds one register of a hart that is there, else `E01`.
pub(crate) fn put_register(
    answer: &mut Answer,
    machine: &AnyMachine,
    hart: u32,
    made: u64,
    register: u32,
)
    ensures { answer.new
        ≡ cut (answer.old ++ register_of (meaning machine.now).core hart made register) }
{
    let mut all = Answer::new();
    put_registers(&mut all, machine, hart, made);
    if register < 35 {
        answer.put(part(all.text(), 8 * register, 8));
    } else if register == 35 {
        answer.put(part(all.text(), 280, 16));
    } else {
        answer.put(b"E01");
    }
}

/// So many bytes from a place on, or as many as there are.
pub(crate) fn part(text: &[u8], at: u32, count: u32) -> &[u8]
    ensures { result.now ≡ take count (drop at text.now) }
{
    let first = (at as usize).min(text.len());
    let count = (count as usize).min(text.len() - first);
    &text[first..first + count]
}

/// Adds bytes of RAM from an address on, so many or as many as there are, at most 2040; `E01` where none is.
pub(crate) fn put_memory(answer: &mut Answer, machine: &AnyMachine, address: u32, count: u32)
    ensures { answer.new
        ≡ cut (answer.old ++ memory_text (meaning machine.now).core address count) }
{
    any_machine_is_valid(machine);
    let bytes = 4 * machine.words();
    if address < RAM || address - RAM >= bytes {
        answer.put(b"E01");
    } else {
        let at = address - RAM;
        let count = count.min(MOST_SEEN);
        put_pairs(answer, machine.bytes(at, count.min(bytes - at)));
    }
}

/// Adds a stop.
pub(crate) fn put_stop(answer: &mut Answer, kept: u32, stop: Stop)
    ensures { answer.new ≡ cut (answer.old ++ stop_text kept stop) }
{
    answer.put(signal(stop));
    answer.put(b"thread:");
    put_thread(answer, hart_of_stop(kept, stop));
    answer.put(b";");
}

// The beginning of a stop's text.
fn signal(stop: Stop) -> &'static [u8]
    ensures { result.now ≡ signal_text stop }
{
    match stop {
        Stop::Breaks(_) | Stop::Steps(_) => b"T05",
        Stop::Faults(_, note) => note_signal(note),
        Stop::Ends => b"T05replaylog:end;",
        Stop::Begins => b"T05replaylog:begin;",
        Stop::Pauses => b"T02",
    }
}

/// The hart of a stop; that which was told before, where it has none.
pub(crate) fn hart_of_stop(kept: u32, stop: Stop) -> u32
    ensures { result ≡ hart_of_stop kept stop }
{
    match stop {
        Stop::Breaks(hart) | Stop::Faults(hart, _) | Stop::Steps(hart) => hart,
        Stop::Ends | Stop::Begins | Stop::Pauses => kept,
    }
}

/// Says what is told of a stop after so many turns, if anything is.
pub(crate) fn say_noted<L: Line>(
    line: &mut L,
    machine: &AnyMachine,
    named: &Named<'_>,
    found: (u64, Stop),
) -> Result<(), Failed>
    ensures { SpeaksOrFails L.says L.room line.old
        (noted_by (meaning machine.now) (known_by named.now) (document_of found)) line.new result }
{
    match document(found.0, found.1) {
        Some(document) => say_document(line, machine, named, document),
        None => Ok(()),
    }
}

// What is told of a stop.
fn document(made: u64, stop: Stop) -> Option<Document>
    ensures told { result ≡ document_by made stop }
    ensures there { (c : Core) → IfSome result (IsThere c) }
{
    match stop {
        Stop::Faults(_, Some(note)) => Some(Document::Noted(note)),
        Stop::Ends => Some(Document::Over(made)),
        Stop::Begins => Some(Document::Before),
        _ => None,
    }
}

/// Adds a hart's thread.
pub(crate) fn put_thread(answer: &mut Answer, hart: u32)
    ensures { answer.new ≡ cut (answer.old ++ thread_name hart) }
{
    answer.put(b"p1.");
    answer.push(thread_digit(hart));
}

// The digit of a hart's thread.
fn thread_digit(hart: u32) -> u8
    ensures { result ≡ thread_digit hart }
{
    if hart < 9 { b'1' + hart as u8 } else { b'?' }
}

/// Adds the threads of so many harts, at least one.
pub(crate) fn put_threads(answer: &mut Answer, harts: u32)
    requires { 1 ≤ harts }
    ensures { answer.new ≡ cut (answer.old ++ threads_text harts) }
{
    answer.put(b"m");
    put_thread(answer, 0);
    put_more(answer, 1, harts - 1);
}

// Adds the threads of so many further harts, from one on.
fn put_more(answer: &mut Answer, hart: u32, harts: u32)
    requires { hart + harts < 2 ^ 32 }
    ensures { answer.new ≡ cut (answer.old ++ more_threads hart harts) }
{
    // No effect at run time. The proof reads from it that at most 4096 bytes are held.
    let _held = answer.text();
    if harts == 0 {
        return;
    }
    answer.put(b",");
    put_thread(answer, hart);
    put_more(answer, hart + 1, harts - 1);
}
