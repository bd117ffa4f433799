//! What a packet asks.
ghost use Rattle.std.specs.Prelude.{◌≡◌, ◌≤◌, ◌<◌, ◌^◌, length, IfSome};
ghost use Rattle.mx_packets.specs.Requests.{about_of, action_of, alone, back_of, before, behind, by_action, by_letter};
ghost use Rattle.mx_packets.specs.Requests.{by_query, by_setting, by_verbose, choice_of, clear_of, decimal_digit};
ghost use Rattle.mx_packets.specs.Requests.{feature_of, file_of, memory_of, number_of, object_of, pair_of, part_of};
ghost use Rattle.mx_packets.specs.Requests.{place_in, point_of, range_of, register_of, request_of, run_of, set_of};
ghost use Rattle.mx_packets.specs.Requests.{thread_by, thread_number, thread_of, turns_from, turns_of, value_from};
ghost use Rattle.mx_packets.specs.Requests.{whole_of};

use crate::digit::hex_value;

/// The hart that a packet names.
#[derive(Clone, Copy)]
pub enum Thread {
    /// Any hart, or all of them.
    Any,
    /// The hart of this number, which is one less than the thread's.
    Hart(u32),
    /// No name of a thread.
    Wrong,
}

/// An object that is told in parts.
#[derive(Clone, Copy)]
pub enum Object {
    /// The description of the registers.
    Target,
    /// The harts, and what is said of each.
    Threads,
    /// The name of the first hart's image.
    File,
    /// The other images, and where they lie.
    Libraries,
    /// The regions of memory.
    Memory,
}

/// What a packet asks.
#[derive(Clone, Copy)]
pub enum Request {
    /// Why the run stands where it stands.
    Why,
    /// That the session outlives its target, which it does anyhow.
    Extend,
    /// That bytes are acknowledged no longer.
    NoAcks,
    /// That this hart be the one whose registers are told.
    Show(Thread),
    /// That this hart be the one that makes steps.
    Follow(Thread),
    /// Whether there is such a hart.
    IsThere(Thread),
    /// The registers of a hart.
    Registers,
    /// The register with this number.
    Register(u32),
    /// Bytes of memory: the address, and how many.
    Memory(u32, u32),
    /// That registers or memory be changed.
    Change,
    /// A breakpoint at this address.
    Set(u32),
    /// No breakpoint at this address.
    Clear(u32),
    /// That the run go on.
    Go,
    /// A step of a hart.
    Step(Thread),
    /// Steps of a hart while it is at an address from the first one on and below the second one.
    Range(Thread, u32, u32),
    /// A step back.
    StepBack,
    /// That the run go back to where it stops.
    GoBack,
    /// The state after so many turns.
    After(u64),
    /// The ways in which the run can go on.
    Ways,
    /// That the target be ended, which isn't done.
    End,
    /// What is understood.
    Supported,
    /// Whether the target was there before.
    Attached,
    /// The hart whose registers are told.
    Current,
    /// The harts.
    Threads,
    /// More harts.
    MoreThreads,
    /// What is said of a hart.
    About(Thread),
    /// An object, from a place on, and how many bytes of it.
    Part(Object, u32, u32),
    /// That the session end.
    Leave,
    /// That the session end without an answer.
    Kill,
    /// Something that has a meaning, with a number or a name that has none.
    Wrong,
    /// Something that has no meaning.
    Unknown,
}

/// Where a breakpoint is to be.
#[derive(Clone, Copy)]
pub(crate) enum Point {
    /// At this address.
    At(u32),
    /// At none.
    Wrong,
    /// It is of a kind that there isn't.
    Other,
}

/// What a packet asks.
pub fn request_of(packet: &[u8]) -> Request
    ensures { result ≡ request_of packet.now }
{
    match packet.split_first() {
        Some((letter, rest)) => by_letter(*letter, rest),
        None => Request::Unknown,
    }
}

// By its letter, and what is behind it.
fn by_letter(letter: u8, rest: &[u8]) -> Request
    ensures { result ≡ by_letter letter rest.now }
{
    match letter {
        b'?' => alone(rest, Request::Why),
        b'!' => alone(rest, Request::Extend),
        b'g' => alone(rest, Request::Registers),
        b'c' => alone(rest, Request::Go),
        b's' => alone(rest, Request::Step(Thread::Any)),
        b'k' => alone(rest, Request::Kill),
        b'C' => Request::Go,
        b'S' => Request::Step(Thread::Any),
        b'b' => back_of(rest),
        b'D' => Request::Leave,
        b'G' | b'P' | b'M' | b'X' => Request::Change,
        b'H' => choice_of(rest),
        b'T' => Request::IsThere(thread_of(rest)),
        b'p' => register_of(rest),
        b'm' => memory_of(rest),
        b'Z' => set_of(rest),
        b'z' => clear_of(rest),
        b'v' => by_verbose(rest),
        b'q' => by_query(rest),
        b'Q' => by_setting(rest),
        _ => Request::Unknown,
    }
}

// A letter with nothing behind it.
fn alone(rest: &[u8], request: Request) -> Request
    ensures { result ≡ alone rest.now request }
{
    if rest.is_empty() {
        request
    } else {
        Request::Unknown
    }
}

// Backward, by a step or to where the run stops.
fn back_of(rest: &[u8]) -> Request
    ensures { result ≡ back_of rest.now }
{
    match rest.split_first() {
        Some((b's', rest)) => alone(rest, Request::StepBack),
        Some((b'c', rest)) => alone(rest, Request::GoBack),
        _ => Request::Unknown,
    }
}

fn choice_of(rest: &[u8]) -> Request
    ensures { result ≡ choice_of rest.now }
{
    match rest.split_first() {
        Some((b'g', name)) => Request::Show(thread_of(name)),
        Some((b'c', name)) => Request::Follow(thread_of(name)),
        _ => Request::Unknown,
    }
}

fn register_of(rest: &[u8]) -> Request
    ensures { result ≡ register_of rest.now }
{
    match number_of(rest) {
        Some(n) => Request::Register(n),
        None => Request::Wrong,
    }
}

fn memory_of(rest: &[u8]) -> Request
    ensures { result ≡ memory_of rest.now }
{
    match pair_of(rest) {
        Some((address, count)) => Request::Memory(address, count),
        None => Request::Wrong,
    }
}

fn set_of(rest: &[u8]) -> Request
    ensures { result ≡ set_of rest.now }
{
    match point_of(rest) {
        Point::At(address) => Request::Set(address),
        Point::Wrong => Request::Wrong,
        Point::Other => Request::Unknown,
    }
}

fn clear_of(rest: &[u8]) -> Request
    ensures { result ≡ clear_of rest.now }
{
    match point_of(rest) {
        Point::At(address) => Request::Clear(address),
        Point::Wrong => Request::Wrong,
        Point::Other => Request::Unknown,
    }
}

// Where a breakpoint is to be: behind its kind, 0 or 1, and a comma.
fn point_of(rest: &[u8]) -> Point
    ensures { result ≡ point_of rest.now }
{
    if !rest.starts_with(b"0,") && !rest.starts_with(b"1,") {
        return Point::Other;
    }
    match pair_of(&rest[2..]) {
        Some((address, _)) => Point::At(address),
        None => Point::Wrong,
    }
}

fn by_verbose(rest: &[u8]) -> Request
    ensures { result ≡ by_verbose rest.now }
{
    if rest.starts_with(b"Cont?") {
        Request::Ways
    } else if rest.starts_with(b"Cont;") {
        action_of(&rest[5..])
    } else if rest.starts_with(b"Run;") {
        run_of(&rest[4..])
    } else if rest.starts_with(b"Kill") {
        Request::End
    } else {
        Request::Unknown
    }
}

// Behind the name of a file, the number of turns.
fn run_of(rest: &[u8]) -> Request
    ensures { result ≡ run_of rest.now }
{
    match turns_of(behind(b';', rest)) {
        Some(turns) => Request::After(turns),
        None => Request::Wrong,
    }
}

// The number of some decimal digits, each as the pair of hexadecimal digits of its byte. None where there is no digit.
fn turns_of(text: &[u8]) -> Option<u64>
    ensures { result ≡ turns_of text.now }
{
    if text.is_empty() {
        None
    } else {
        turns_from(0, text)
    }
}

// A number with further digits.
fn turns_from(number: u64, text: &[u8]) -> Option<u64>
    ensures { result ≡ turns_from number text.now }
{
    match text.split_first() {
        Some((first, rest)) => {
            let (second, rest) = rest.split_first()?;
            let digit = decimal_digit(*first, *second)?;
            if number < 1_000_000_000_000_000_000 {
                turns_from(10 * number + u64::from(digit), rest)
            } else {
                None
            }
        }
        None => Some(number),
    }
}

// The decimal digit of which the byte has these two hexadecimal digits. None where it is no decimal digit.
fn decimal_digit(first: u8, second: u8) -> Option<u8>
    ensures value { result ≡ decimal_digit first second }
    ensures small { IfSome result (λ d. d < 10) }
{
    if first == b'3' && second >= b'0' && second <= b'9' {
        Some(second - b'0')
    } else {
        None
    }
}

// The first of several actions.
fn action_of(text: &[u8]) -> Request
    ensures { result ≡ action_of text.now }
{
    let action = before(b';', text);
    match action.split_first() {
        Some((letter, rest)) => by_action(*letter, rest),
        None => Request::Wrong,
    }
}

fn by_action(letter: u8, rest: &[u8]) -> Request
    ensures { result ≡ by_action letter rest.now }
{
    match letter {
        b'c' | b'C' => Request::Go,
        b's' | b'S' => Request::Step(thread_of(behind(b':', rest))),
        b'r' => range_of(rest),
        _ => Request::Wrong,
    }
}

fn range_of(rest: &[u8]) -> Request
    ensures { result ≡ range_of rest.now }
{
    match pair_of(before(b':', rest)) {
        Some((first, end)) => Request::Range(thread_of(behind(b':', rest)), first, end),
        None => Request::Wrong,
    }
}

fn by_query(rest: &[u8]) -> Request
    ensures { result ≡ by_query rest.now }
{
    if rest.starts_with(b"Supported") {
        Request::Supported
    } else if rest.starts_with(b"Attached") {
        Request::Attached
    } else if rest.starts_with(b"fThreadInfo") {
        Request::Threads
    } else if rest.starts_with(b"sThreadInfo") {
        Request::MoreThreads
    } else if rest.starts_with(b"Xfer:") {
        object_of(&rest[5..])
    } else if rest.starts_with(b"C") {
        alone(&rest[1..], Request::Current)
    } else {
        about_of(rest)
    }
}

// What is said of a hart.
fn about_of(rest: &[u8]) -> Request
    ensures { result ≡ about_of rest.now }
{
    if rest.starts_with(b"ThreadExtraInfo,") {
        Request::About(thread_of(&rest[16..]))
    } else {
        Request::Unknown
    }
}

// A part of an object.
fn object_of(rest: &[u8]) -> Request
    ensures { result ≡ object_of rest.now }
{
    if rest.starts_with(b"features:read:") {
        feature_of(&rest[14..])
    } else if rest.starts_with(b"threads:read:") {
        whole_of(Object::Threads, &rest[13..])
    } else if rest.starts_with(b"exec-file:read:") {
        file_of(&rest[15..])
    } else if rest.starts_with(b"libraries:read:") {
        whole_of(Object::Libraries, &rest[15..])
    } else if rest.starts_with(b"memory-map:read:") {
        whole_of(Object::Memory, &rest[16..])
    } else {
        Request::Unknown
    }
}

// A part of a feature: of the description of the registers alone.
fn feature_of(rest: &[u8]) -> Request
    ensures { result ≡ feature_of rest.now }
{
    if rest.starts_with(b"target.xml:") {
        part_of(Object::Target, &rest[11..])
    } else {
        Request::Unknown
    }
}

// A part of the name of a process's file: of process 1, or where none is named.
fn file_of(rest: &[u8]) -> Request
    ensures { result ≡ file_of rest.now }
{
    if rest.starts_with(b":") {
        part_of(Object::File, &rest[1..])
    } else if rest.starts_with(b"1:") {
        part_of(Object::File, &rest[2..])
    } else {
        Request::Wrong
    }
}

// A part of an object that has no annex.
fn whole_of(object: Object, rest: &[u8]) -> Request
    ensures { result ≡ whole_of object rest.now }
{
    if rest.starts_with(b":") {
        part_of(object, &rest[1..])
    } else {
        Request::Unknown
    }
}

fn part_of(object: Object, rest: &[u8]) -> Request
    ensures { result ≡ part_of object rest.now }
{
    match pair_of(rest) {
        Some((at, count)) => Request::Part(object, at, count),
        None => Request::Wrong,
    }
}

fn by_setting(rest: &[u8]) -> Request
    ensures { result ≡ by_setting rest.now }
{
    if rest.starts_with(b"StartNoAckMode") {
        Request::NoAcks
    } else {
        Request::Unknown
    }
}

// The hart of a thread's name: `p`, a process, a dot and a thread, or a thread alone.
fn thread_of(name: &[u8]) -> Thread
    ensures { result ≡ thread_of name.now }
{
    if name.starts_with(b"p") {
        thread_by(behind(b'.', name))
    } else {
        thread_by(name)
    }
}

// By the number of a thread: none and -1 are for all of them, and 0 for any.
fn thread_by(text: &[u8]) -> Thread
    ensures { result ≡ thread_by text.now }
{
    if text.is_empty() || text.starts_with(b"-1") {
        Thread::Any
    } else {
        thread_number(number_of(text))
    }
}

fn thread_number(number: Option<u32>) -> Thread
    ensures { result ≡ thread_number number }
{
    match number {
        Some(0) => Thread::Any,
        Some(n) => Thread::Hart(n - 1),
        None => Thread::Wrong,
    }
}

// Two numbers with a comma between them.
fn pair_of(text: &[u8]) -> Option<(u32, u32)>
    ensures { result ≡ pair_of text.now }
{
    let first = number_of(before(b',', text))?;
    let second = number_of(behind(b',', text))?;
    Some((first, second))
}

// What stands before the first mark, or all of a text without one.
fn before(mark: u8, text: &[u8]) -> &[u8]
    ensures { result.now ≡ before mark text.now }
{
    &text[..place_in(mark, text)]
}

// What stands behind the first mark, or nothing of a text without one.
fn behind(mark: u8, text: &[u8]) -> &[u8]
    ensures { result.now ≡ behind mark text.now }
{
    let at = place_in(mark, text);
    if at < text.len() {
        &text[at + 1..]
    } else {
        &text[at..]
    }
}

// The place of the first mark, or the length of a text without one.
fn place_in(mark: u8, text: &[u8]) -> usize
    ensures place { result ≡ place_in mark text.now }
    ensures within { result ≤ length text.now }
{
    match text.split_first() {
        Some((byte, rest)) => {
            if *byte == mark {
                0
            } else {
                1 + place_in(mark, rest)
            }
        }
        None => 0,
    }
}

// The number of some hexadecimal digits, below 2^32. None where there is no digit.
fn number_of(text: &[u8]) -> Option<u32>
    ensures { result ≡ number_of text.now }
{
    if text.is_empty() {
        None
    } else {
        value_from(0, text)
    }
}

// A number with further digits.
fn value_from(number: u32, text: &[u8]) -> Option<u32>
    ensures { result ≡ value_from number text.now }
{
    match text.split_first() {
        Some((byte, rest)) => {
            let digit = hex_value(*byte)?;
            if number < 0x1000_0000 {
                value_from(16 * number + u32::from(digit), rest)
            } else {
                None
            }
        }
        None => Some(number),
    }
}
