//! The line of what a turn did.
ghost use Rattle.std.specs.Prelude.{◌≡◌, ◌+◌, ◌*◌, ◌%◌, ◌^◌, ◌<◌, ◌≤◌, ◌++◌, length, IfSome, OnOk};
ghost use Rattle.mx_isa.specs.Ranges.{IsValid};
ghost use Rattle.mx_model.specs.Effect.{load_size, store_size};
ghost use Rattle.mx_tail.specs.Tail.{Passes, piece_bytes};
ghost use Rattle.mx_trace.specs.Did.{access_text, accessed_text, call_text, change_text, changes_text, deed, did_line};
ghost use Rattle.mx_trace.specs.Did.{domain_text, exit_text, fault_text, fields, load_text, note_text, noted_text};
ghost use Rattle.mx_trace.specs.Did.{ran_text, store_text};

use crate::line::Line;
use mx_io::{Failed, Sink};
use mx_isa::{Inst, LoadWidth, StoreWidth};
use mx_model::{Note, TurnKind};
use mx_tail::Tail;

/// What is kept of a hart before a turn, and seen of it after it.
#[derive(Clone, Copy, PartialEq, Eq)]
pub struct Held {
    /// Its domain.
    pub domain: u32,
    /// Whether it waits on a call that it announced.
    pub waits: bool,
    /// Its registers x0 to x31.
    pub regs: [u32; 32],
}

/// What a turn was, of a hart that there is.
#[derive(Clone, Copy, PartialEq, Eq)]
pub struct Turned {
    /// What it was.
    pub kind: TurnKind,
    /// Its line of the report, if it made one.
    pub note: Option<Note>,
    /// The instruction at which the hart stood before it, if any.
    pub inst: Option<Inst>,
}

/// Puts the line of what a turn did, by its hart before and after it: `did F F ..`, or nothing where it has no field.
/// The
/// instruction is one that `is_valid` accepts. Where a write fails, a prefix of the line was appended.
pub fn put_did<R: Sink>(
    tail: &mut Tail,
    sink: &mut R,
    turned: Turned,
    before: &Held,
    after: &Held,
) -> Result<(), Failed>
    requires { IfSome turned.inst IsValid }
    ensures passes { Passes tail.old (R.state sink.old) (R.state sink.new) tail.new
        (did_line (deed turned before.now after.now)) result }
    ensures few { OnOk result (length tail.new < piece_bytes) }
{
    let mut line = Line::<848>::new();
    line.put_text("\n");
    put_fields(&mut line, turned, before, after);
    if line.len() == 1 {
        return tail.put(sink, &[]);
    }
    line.put_text("did");
    tail.put(sink, line.as_slice())
}

// All fields, each behind a blank. Here and below the last part is put first.
#[tactic(auto, unfolding(crate::specs::Did::fields))]
fn put_fields<const N: usize>(line: &mut Line<N>, turned: Turned, before: &Held, after: &Held)
    requires valid { IfSome turned.inst IsValid }
    requires room { 838 + length line.old ≤ N }
    ensures text { line.new ≡ fields (deed turned before.now after.now) ++ line.old }
    ensures few { length line.new ≤ 838 + length line.old }
{
    put_changes(line, &before.regs, &after.regs);
    put_domain(line, before.domain, after.domain);
    put_ran(line, turned.kind, turned.inst, &before.regs);
    put_call(line, turned.kind, after.waits, &before.regs);
    put_note(line, turned.note);
}

fn put_note<const N: usize>(line: &mut Line<N>, note: Option<Note>)
    requires { 28 + length line.old ≤ N }
    ensures text { line.new ≡ note_text note ++ line.old }
    ensures few { length line.new ≤ 28 + length line.old }
{
    match note {
        Some(note) => put_noted(line, note),
        None => {}
    }
}

fn put_noted<const N: usize>(line: &mut Line<N>, note: Note)
    requires { 28 + length line.old ≤ N }
    ensures text { line.new ≡ noted_text note ++ line.old }
    ensures few { length line.new ≤ 28 + length line.old }
{
    match note {
        Note::Fault { fault, .. } => put_fault(line, fault.cause, fault.value),
        Note::Exit { code, .. } => put_exit(line, code),
    }
}

fn put_fault<const N: usize>(line: &mut Line<N>, cause: u32, value: u32)
    requires { 28 + length line.old ≤ N }
    ensures text { line.new ≡ fault_text cause value ++ line.old }
    ensures few { length line.new ≤ 28 + length line.old }
{
    line.put_hex(value);
    line.put_text("/");
    line.put_number(cause);
    line.put_text(" fault=");
}

fn put_exit<const N: usize>(line: &mut Line<N>, code: u32)
    requires { 16 + length line.old ≤ N }
    ensures text { line.new ≡ exit_text code ++ line.old }
    ensures few { length line.new ≤ 16 + length line.old }
{
    line.put_number(code);
    line.put_text(" exit=");
}

fn put_call<const N: usize>(line: &mut Line<N>, kind: TurnKind, waits: bool, regs: &[u32; 32])
    requires { 16 + length line.old ≤ N }
    ensures text { line.new ≡ call_text kind waits regs.now ++ line.old }
    ensures few { length line.new ≤ 16 + length line.old }
{
    match (kind, waits) {
        (TurnKind::Called, true) => {
            line.put_number(regs[17]);
            line.put_text(" asks=");
        }
        (TurnKind::Called, false) => {
            line.put_number(regs[17]);
            line.put_text(" call=");
        }
        _ => {}
    }
}

fn put_ran<const N: usize>(line: &mut Line<N>, kind: TurnKind, inst: Option<Inst>, regs: &[u32; 32])
    requires valid { IfSome inst IsValid }
    requires room { 40 + length line.old ≤ N }
    ensures text { line.new ≡ ran_text kind inst regs.now ++ line.old }
    ensures few { length line.new ≤ 40 + length line.old }
{
    match kind {
        TurnKind::Ran => put_access(line, inst, regs),
        _ => {}
    }
}

fn put_access<const N: usize>(line: &mut Line<N>, inst: Option<Inst>, regs: &[u32; 32])
    requires valid { IfSome inst IsValid }
    requires room { 40 + length line.old ≤ N }
    ensures text { line.new ≡ access_text inst regs.now ++ line.old }
    ensures few { length line.new ≤ 40 + length line.old }
{
    match inst {
        Some(inst) => put_accessed(line, inst, regs),
        None => {}
    }
}

#[tactic(auto, unfolding(mx_isa::specs::Ranges::IsValid))]
fn put_accessed<const N: usize>(line: &mut Line<N>, inst: Inst, regs: &[u32; 32])
    requires valid { IsValid inst }
    requires room { 40 + length line.old ≤ N }
    ensures text { line.new ≡ accessed_text inst regs.now ++ line.old }
    ensures few { length line.new ≤ 40 + length line.old }
{
    match inst {
        Inst::Load {
            width,
            rs1,
            imm,
            ..
        } => put_load(
            line,
            regs[rs1 as usize].wrapping_add(imm),
            bytes_of_load(width),
        ),
        Inst::Store {
            width,
            rs1,
            rs2,
            imm,
        } => put_store(
            line,
            regs[rs1 as usize].wrapping_add(imm),
            bytes_of_store(width),
            low_bytes(width, regs[rs2 as usize]),
        ),
        _ => {}
    }
}

fn put_load<const N: usize>(line: &mut Line<N>, at: u32, size: u32)
    requires { 40 + length line.old ≤ N }
    ensures text { line.new ≡ load_text at size ++ line.old }
    ensures few { length line.new ≤ 40 + length line.old }
{
    line.put_number(size);
    line.put_text("/");
    line.put_hex(at);
    line.put_text(" load=");
}

fn put_store<const N: usize>(line: &mut Line<N>, at: u32, size: u32, value: u32)
    requires { 40 + length line.old ≤ N }
    ensures text { line.new ≡ store_text at size value ++ line.old }
    ensures few { length line.new ≤ 40 + length line.old }
{
    line.put_hex(value);
    line.put_text("/");
    line.put_number(size);
    line.put_text("/");
    line.put_hex(at);
    line.put_text(" store=");
}

// How many bytes a load reads.
fn bytes_of_load(width: LoadWidth) -> u32
    ensures { result ≡ load_size width }
{
    match width {
        LoadWidth::Lb | LoadWidth::Lbu => 1,
        LoadWidth::Lh | LoadWidth::Lhu => 2,
        LoadWidth::Lw => 4,
    }
}

// How many bytes a store writes.
fn bytes_of_store(width: StoreWidth) -> u32
    ensures { result ≡ store_size width }
{
    match width {
        StoreWidth::Sb => 1,
        StoreWidth::Sh => 2,
        StoreWidth::Sw => 4,
    }
}

// The bytes that a store takes of a register, as a number.
fn low_bytes(width: StoreWidth, value: u32) -> u32
    ensures { result ≡ value % 2 ^ (8 * store_size width) }
{
    match width {
        StoreWidth::Sb => value % 256,
        StoreWidth::Sh => value % 65536,
        StoreWidth::Sw => value,
    }
}

fn put_domain<const N: usize>(line: &mut Line<N>, before: u32, after: u32)
    requires { 18 + length line.old ≤ N }
    ensures text { line.new ≡ domain_text before after ++ line.old }
    ensures few { length line.new ≤ 18 + length line.old }
{
    if before != after {
        line.put_number(after);
        line.put_text(" domain=");
    }
}

fn put_changes<const N: usize>(line: &mut Line<N>, before: &[u32; 32], after: &[u32; 32])
    requires { 736 + length line.old ≤ N }
    ensures text { line.new ≡ changes_text before.now after.now ++ line.old }
    ensures few { length line.new ≤ 736 + length line.old }
{
    // Four at a time: nearly all are as before, and then the loop's own test would be half of what one costs.
    let mut i = 32;
    while i > 0 {
        i -= 4;
        put_change(line, i as u32 + 3, before[i + 3], after[i + 3]);
        put_change(line, i as u32 + 2, before[i + 2], after[i + 2]);
        put_change(line, i as u32 + 1, before[i + 1], after[i + 1]);
        put_change(line, i as u32, before[i], after[i]);
    }
}

#[inline(always)]
fn put_change<const N: usize>(line: &mut Line<N>, i: u32, before: u32, after: u32)
    requires { 23 + length line.old ≤ N }
    ensures text { line.new ≡ change_text i before after ++ line.old }
    ensures few { length line.new ≤ 23 + length line.old }
{
    if before != after {
        line.put_hex(after);
        line.put_text("=");
        line.put_number(i);
        line.put_text(" x");
    }
}
