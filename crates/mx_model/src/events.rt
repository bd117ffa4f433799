//! What a turn adds to the console and to the report.
ghost use Rattle.std.specs.Prelude.{◌≡◌, ℕ, ◌+◌, ◌<◌, ◌≤◌, [], ◌∷◌, ◌++◌, length, slice_index};
ghost use Rattle.mx_words.specs.Limits.{most_written};
ghost use Rattle.mx_model.specs.Events.{no_events, Events};

use crate::Note;
use arrayvec::ArrayVec;
use mx_words::MOST_WRITTEN;
use std::marker::Model;

/// Up to 4096 console bytes and at most one note.
#[derive(Drop)]
pub struct Events {
    bytes: ArrayVec<u8, MOST_WRITTEN>,
    note: Option<Note>,
}

impl Model for Events {
    ghost use Rattle.std.specs.Prelude.{◌≤◌, length};
    ghost use Rattle.mx_words.specs.Limits.{most_written};
    ghost use Rattle.mx_model.specs.Events.{Events as EventsOf};

    ghost Value = { EventsOf };

    ghost view = { λ e. record { bytes = e.bytes.items; note = e.note } };

    ghost invariant = { λ e. length e.bytes.items ≤ most_written };
}

impl Events {
    /// No bytes and no note.
    pub fn new() -> Events
        ensures { result ≡ no_events }
    {
        Events {
            bytes: ArrayVec::new(),
            note: None,
        }
    }

    /// Drops the bytes and the note.
    pub fn clear(&mut self)
        ensures { self.new ≡ no_events }
    {
        self.bytes.clear();
        self.note = None;
    }

    /// Appends a byte. Fewer than 4096 are held.
    pub fn push(&mut self, byte: u8)
        requires { length self.old.bytes < most_written }
        ensures { self.new ≡ record self.old { bytes = self.old.bytes ++ byte ∷ [] } }
    {
        self.bytes.push(byte);
    }

    /// Sets the note.
    pub fn set_note(&mut self, note: Note)
        ensures { self.new ≡ record self.old { note = Some note } }
    {
        self.note = Some(note);
    }

    /// The number of bytes, at most 4096.
    pub fn len(&self) -> u32
        ensures count { result ≡ length self.now.bytes }
        ensures most { result ≤ most_written }
    {
        self.bytes.len() as u32
    }

    /// The byte at place `i`, counted from 0 and below `len`.
    pub fn byte(&self, i: u32) -> u8
        requires { i < length self.now.bytes }
        ensures { result ≡ slice_index self.now.bytes i }
    {
        self.bytes.as_slice()[i as usize]
    }

    /// The note. `None` exactly where none was set since `new` or the last `clear`.
    pub fn note(&self) -> Option<Note>
        ensures { result ≡ self.now.note }
    {
        self.note
    }
}
