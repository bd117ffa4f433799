//! The harts, and the calls on which they wait.
ghost use Rattle.std.specs.Prelude.{◌≡◌, ◌<◌, ◌≤◌, true, None, [], ◌∷◌, ◌++◌, length, slice_index, List, IfOk};
ghost use Rattle.mx_words.specs.Announced.{is_announced};
ghost use Rattle.mx_words.specs.Limits.{most_harts};
ghost use Rattle.mx_words.specs.Ranges.{most_words};
ghost use Rattle.mx_check.specs.Flights.{flight_of};
ghost use Rattle.mx_machine.specs.declared.views.HartStatus.TheVariants.{Waiting};
ghost use Rattle.mx_snapshot.specs.Fields.{hart_in};
ghost use Rattle.mx_snapshot.specs.Reader.{list_of, number, such};
ghost use Rattle.mx_snapshot.specs.Resuming.{flight_in, own_flights};
ghost use Rattle.mx_snapshot.specs.Rules.{has_bit, is_heard};
ghost use Rattle.mx_snapshot.specs.Stored.{StoredHart};
ghost use Rattle.mx_resume.specs.Extents.{HasBounds};
ghost use Rattle.mx_resume.specs.Parts.{AreHartsOf, hart_seen, harts_in_code, head_seen};
ghost use Rattle.mx_resume.specs.Taking.{IsTaken, TakesAs};

use crate::SnapshotRefused;
use crate::frames::read_frames;
use crate::head::Head;
use crate::reading::{between, number, out_of_range};
use crate::registers::{pc, registers, status};
use mx_check::{Flight, Flights};
use mx_machine::{HartState, HartStates, HartStatus};
use mx_supervisor::{Heaps, announced_range};
use mx_words::MOST_FRAMES;

/// The greatest number of frames, as a field.
const FRAMES: u32 = MOST_FRAMES as u32;

/// A hart.
#[derive(Drop)]
pub(crate) struct Hart {
    /// With what it resumes.
    pub state: HartState,
    /// Who has heard the call on which it waits, bit i being hart i's.
    pub heard: u32,
}

/// All harts.
#[derive(Drop)]
pub(crate) struct ResumingHarts {
    /// With what each resumes.
    pub states: HartStates,
    /// The calls of those that wait.
    pub flights: Flights,
}

/// Whether bit `i` of a number is 1.
fn has_bit(number: u32, i: u32) -> bool
    requires { i < most_harts }
    ensures { result ≡ has_bit number i }
{
    number / 2_u32.pow(i) % 2 == 1
}

/// Whether a call of a hart may have been heard by these harts: by others that there are, and by none where there is no
/// call.
fn is_heard(harts: u32, hart: u32, status: HartStatus, heard: u32) -> bool
    requires harts { harts ≤ most_harts }
    requires hart { hart < most_harts }
    ensures { result ≡ is_heard harts hart status heard }
{
    if status == HartStatus::Waiting {
        heard < 2_u32.pow(harts) && !has_bit(heard, hart)
    } else {
        heard == 0
    }
}

/// Who has heard the call of a hart.
fn heard(
    bytes: &[u8],
    at: &mut usize,
    harts: u32,
    hart: u32,
    status: HartStatus,
) -> Result<u32, SnapshotRefused>
    requires harts { harts ≤ most_harts }
    requires hart { hart < most_harts }
    ensures { IsTaken (λ n. n) (such (is_heard harts hart status) number bytes.now at.old)
        at.new result }
{
    let field = *at;
    let heard = number(bytes, at)?;
    if !is_heard(harts, hart, status, heard) {
        return Err(out_of_range(field));
    }
    Ok(heard)
}

/// The hart of a number. One that waits makes an announced call.
#[tactic(auto, unfolding(mx_snapshot::specs::Fields::hart_in))]
fn read_hart(
    bytes: &[u8],
    at: &mut usize,
    head: &Head,
    number: u32,
) -> Result<Hart, SnapshotRefused>
    requires head { HasBounds head.now }
    requires number { number < most_harts }
    ensures taken { (before : List StoredHart) → length before ≡ number →
        IsTaken hart_seen (hart_in (head_seen head.now) before bytes.now at.old) at.new result }
    ensures domain { IfOk result (λ hart. 1 ≤ hart.state.domain) }
    ensures call { IfOk result (λ hart. hart.state.status ≡ Waiting →
        is_announced (slice_index hart.state.regs 17) ≡ true) }
{
    let status = status(bytes, at)?;
    let domain = between(bytes, at, 1, head.modules)?;
    let pc = pc(bytes, at)?;
    let regs = registers(bytes, at, status)?;
    let count = between(bytes, at, 0, FRAMES)?;
    let frames = read_frames(bytes, at, head, count)?;
    let heard = heard(bytes, at, head.harts, number, status)?;
    Ok(Hart {
        state: HartState {
            status,
            domain,
            pc,
            regs,
            frames,
        },
        heard,
    })
}

/// The call of a hart's registers, in flight.
fn flight(words: u32, heaps: &Heaps, number: u32, hart: &Hart) -> Flight
    requires words { words ≤ most_words }
    requires domain { 1 ≤ hart.now.state.domain }
    requires call { is_announced (slice_index hart.now.state.regs 17) ≡ true }
    ensures { result ≡ flight_in words heaps.now number (hart_seen hart.now) }
{
    let regs = &hart.state.regs;
    let area = heaps.area(hart.state.domain);
    let (first, count) = announced_range(regs[17], regs[10], regs[11], words, area);
    Flight {
        hart: number,
        first,
        count,
        heard: [
            has_bit(hart.heard, 0),
            has_bit(hart.heard, 1),
            has_bit(hart.heard, 2),
            has_bit(hart.heard, 3),
        ],
    }
}

/// Adds the call of a hart that waits.
fn add_flight(flights: &mut Flights, words: u32, heaps: &Heaps, number: u32, hart: &Hart)
    requires words { words ≤ most_words }
    requires domain { 1 ≤ hart.now.state.domain }
    requires call { hart.now.state.status ≡ Waiting →
        is_announced (slice_index hart.now.state.regs 17) ≡ true }
    requires room { length flights.old < most_harts }
    requires apart { flight_of flights.old number ≡ None }
    ensures { flights.new ≡ flights.old
        ++ own_flights words heaps.now number (hart_seen hart.now) hart.now.state.status }
{
    match hart.state.status {
        HartStatus::Running => {}
        HartStatus::Waiting => flights.push(flight(words, heaps, number, hart)),
        HartStatus::Halted => {}
    }
}

impl ResumingHarts {
    /// No hart.
    fn new() -> ResumingHarts
        ensures { result ≡ record { states = []; flights = [] } }
    {
        ResumingHarts {
            states: HartStates::new(),
            flights: Flights::new(),
        }
    }

    /// Adds the hart of a number, which comes after those that there are.
    fn push(&mut self, words: u32, heaps: &Heaps, number: u32, hart: Hart)
        requires words { words ≤ most_words }
        requires number { number < most_harts }
        requires those { (before : List StoredHart) × (length before ≡ number)
            × (self.old ≡ harts_in_code words heaps.now before) }
        requires domain { 1 ≤ hart.state.domain }
        requires call { hart.state.status ≡ Waiting →
            is_announced (slice_index hart.state.regs 17) ≡ true }
        ensures { (before : List StoredHart) → length before ≡ number →
            self.old ≡ harts_in_code words heaps.now before →
            self.new ≡ harts_in_code words heaps.now (before ++ hart_seen hart ∷ []) }
    {
        add_flight(&mut self.flights, words, heaps, number, &hart);
        self.states.push(hart.state);
    }
}

/// All harts.
pub(crate) fn read_harts(
    bytes: &[u8],
    at: &mut usize,
    head: &Head,
    heaps: &Heaps,
) -> Result<ResumingHarts, SnapshotRefused>
    requires { HasBounds head.now }
    ensures { TakesAs (AreHartsOf head.now.words heaps.now)
        (list_of head.now.harts (hart_in (head_seen head.now)) [] bytes.now at.old) at.new result }
{
    let mut harts = ResumingHarts::new();
    'harts: for number in 0..head.harts {
        let hart = read_hart(bytes, at, head, number)?;
        harts.push(head.words, heaps, number, hart);
    }
    Ok(harts)
}
