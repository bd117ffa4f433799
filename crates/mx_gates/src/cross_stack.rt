//! The frames of one hart.

ghost use Rattle.std.specs.Prelude.{◌≡◌, ◌≤◌, ◌==◌, [], ◌∷◌, ◌++◌, OnOk, OnErr, is_err, length, slice_get};
ghost use Rattle.mx_model.specs.Gates.{most_frames, top, below_top, nearest};

use arrayvec::ArrayVec;
use mx_model::Frame;
use mx_words::MOST_FRAMES;
use std::marker::Model;

/// A frame was pushed onto a stack of 64.
#[derive(Clone, Copy, PartialEq, Eq, Debug)]
pub struct Full;

/// At most 64 frames of one hart, one for each gate through which it went and hasn't come back.
#[derive(Drop)]
pub struct CrossStack {
    frames: ArrayVec<Frame, MOST_FRAMES>,
}

impl Model for CrossStack {
    ghost use Rattle.std.specs.Prelude.{List};
    ghost use Rattle.mx_model.specs.declared.values.Frame.{Frame};

    ghost Value = { List Frame };

    ghost view = { λ s. s.frames.items };
}

impl CrossStack {
    /// No frame.
    pub fn new() -> CrossStack
        ensures { result ≡ [] }
    {
        CrossStack {
            frames: ArrayVec::new(),
        }
    }

    /// Makes the frame the top one. `Full` exactly where 64 frames are held; then nothing has changed.
    pub fn push(&mut self, frame: Frame) -> Result<(), Full>
        ensures ok { OnOk result (self.new ≡ self.old ++ frame ∷ []) }
        ensures full { is_err result ≡ (length self.old == most_frames) }
        ensures err { OnErr result (self.new ≡ self.old) }
    {
        if self.frames.is_full() {
            return Err(Full);
        }
        self.frames.push(frame);
        Ok(())
    }

    /// The top frame. `None` exactly where there is no frame.
    pub fn top(&self) -> Option<Frame>
        ensures { result ≡ top self.now }
    {
        self.frames.as_slice().last().copied()
    }

    /// The top frame, which is taken off. `None` exactly where there is no frame.
    pub fn pop(&mut self) -> Option<Frame>
        ensures top { result ≡ top self.old }
        ensures rest { self.new ≡ below_top self.old }
    {
        self.frames.pop()
    }

    /// The saved x2 of the frame nearest the top whose caller is `domain`. `None` exactly where there is no such frame.
    pub fn nearest(&self, domain: u32) -> Option<u32>
        ensures { result ≡ nearest self.now domain }
    {
        let frames = self.frames.as_slice();
        for i in (0..frames.len()).rev() {
            if frames[i].caller == domain {
                return Some(frames[i].kept[0]);
            }
        }
        None
    }

    /// The number of frames, 0 to 64.
    pub fn depth(&self) -> u32
        ensures number { result ≡ length self.now }
        ensures bounded { result ≤ most_frames }
    {
        self.frames.len() as u32
    }

    /// Frame `i` from the bottom, counted from 0. `None` exactly where `i` isn't below the depth.
    pub fn frame(&self, i: u32) -> Option<Frame>
        ensures { result ≡ slice_get self.now i }
    {
        self.frames.as_slice().get(i as usize).copied()
    }
}
