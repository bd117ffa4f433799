//! The frames of a hart.
ghost use Rattle.std.specs.Prelude.{◌≡◌, ℕ, ◌≤◌, [], List};
ghost use Rattle.mx_words.specs.Limits.{most_frames};
ghost use Rattle.mx_model.specs.declared.values.Frame.{Frame};
ghost use Rattle.mx_snapshot.specs.Fields.{frame_in};
ghost use Rattle.mx_snapshot.specs.Reader.{list_of, number};
ghost use Rattle.mx_resume.specs.Parts.{head_seen};
ghost use Rattle.mx_resume.specs.Taking.{IsTaken};

use crate::SnapshotRefused;
use crate::head::Head;
use crate::reading::{between, number};
use crate::registers::pc;
use mx_gates::CrossStack;
use mx_model::Frame;

/// The fifteen registers of a frame.
fn kept(bytes: &[u8], at: &mut usize) -> Result<[u32; 15], SnapshotRefused>
    ensures { IsTaken (λ kept. kept)
        (list_of 15 (λ (others : List ℕ). number) [] bytes.now at.old) at.new result }
{
    let mut kept = [0; 15];
    'kept: for i in 0..15 {
        let value = number(bytes, at)?;
        kept[i] = value;
    }
    Ok(kept)
}

#[tactic(auto, unfolding(mx_snapshot::specs::Fields::frame_in))]
fn frame(bytes: &[u8], at: &mut usize, head: &Head) -> Result<Frame, SnapshotRefused>
    ensures { (before : List Frame) →
        IsTaken (λ f. f) (frame_in (head_seen head.now) before bytes.now at.old) at.new result }
{
    let back = pc(bytes, at)?;
    let caller = between(bytes, at, 1, head.modules)?;
    let kept = kept(bytes, at)?;
    Ok(Frame { back, caller, kept })
}

/// So many frames from the bottom, at most as many as a cross stack holds.
pub(crate) fn read_frames(
    bytes: &[u8],
    at: &mut usize,
    head: &Head,
    count: u32,
) -> Result<CrossStack, SnapshotRefused>
    requires { count ≤ most_frames }
    ensures { IsTaken (λ frames. frames)
        (list_of count (frame_in (head_seen head.now)) [] bytes.now at.old) at.new result }
{
    let mut frames = CrossStack::new();
    'frames: for _ in 0..count {
        let frame = frame(bytes, at, head)?;
        match frames.push(frame) {
            Ok(()) => {}
            Err(_) => unreachable!(),
        }
    }
    Ok(frames)
}
