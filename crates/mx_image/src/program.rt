//! Programs, piece by piece.

ghost use Rattle.std.specs.Prelude.{◌≡◌, ◌+◌, ◌<◌, ◌≤◌, ◌^◌, length, OnOk, OnErr};
ghost use Rattle.mx_image.specs.Program.{label, byte_count, no_program, with_entry, with_segment, with_byte};
ghost use Rattle.mx_image.specs.Program.{with_bytes, with_label};

use crate::segment::Segment;
use mx_words::NoMemory;
use std::alloc::Global;
use std::marker::Model;

/// A label: its name, as it stands in the text, and the address for which it stands.
#[derive(Clone, Copy)]
pub(crate) struct NamedAddress<'a> {
    pub(crate) name: &'a [u8],
    pub(crate) address: u32,
}

/// A program as it is put together. Each segment's bytes stand in a list of its own, so that they take at most twice
/// their number; a label takes 24 bytes, and its name stays where the text has it.
#[derive(Drop)]
pub struct ProgramBuilder<'a> {
    pub(crate) entry: u32,
    pub(crate) segments: Vec<Segment>,
    pub(crate) labels: Vec<NamedAddress<'a>>,
}

impl<'a> Model for ProgramBuilder<'a> {
    ghost use Rattle.mx_image.specs.Program.{Program};

    ghost Value = { Program };

    ghost use Rattle.mx_image.specs.Labels.{program_of};

    ghost view = { λ p. program_of p.entry p.segments.items p.labels.items };
}

impl<'a> ProgramBuilder<'a> {
    /// The program that begins at 0 and has neither segments nor labels.
    pub fn new(alloc: Global) -> ProgramBuilder<'a>
        ensures { result ≡ no_program }
    {
        ProgramBuilder {
            entry: 0,
            segments: Vec::new(alloc),
            labels: Vec::new(alloc),
        }
    }

    /// Sets the address at which the program begins.
    pub fn set_entry(&mut self, entry: u32)
        ensures { self.new ≡ with_entry entry self.old }
    {
        self.entry = entry;
    }

    /// Appends a segment. Where memory is refused, the program stays as it was.
    pub fn add_segment(&mut self, segment: Segment) -> Result<(), NoMemory>
        ensures ok { OnOk result (self.new ≡ with_segment segment self.old) }
        ensures err { OnErr result (self.new ≡ self.old) }
    {
        self.segments.push(segment)?;
        Ok(())
    }

    /// Appends a byte to the last segment. At least one segment is begun, and all together hold fewer than 2^31 bytes.
    /// Where memory is refused, the program stays as it was.
    pub fn add_byte(&mut self, byte: u8) -> Result<(), NoMemory>
        requires begun { 0 < length self.old.segments }
        requires room { byte_count self.old.segments < 2 ^ 31 }
        ensures ok { OnOk result (self.new ≡ with_byte byte self.old) }
        ensures err { OnErr result (self.new ≡ self.old) }
    {
        let last = self.segments.len() - 1;
        let segment = &mut self.segments[last];
        segment.bytes.push(byte)
    }

    /// Appends bytes to the last segment in one piece. At least one segment is begun, and all together then hold at
    /// most
    /// 2^31 bytes. Where memory is refused, the program stays as it was.
    pub fn add_bytes(&mut self, bytes: &[u8]) -> Result<(), NoMemory>
        requires begun { 0 < length self.old.segments }
        requires room { byte_count self.old.segments + length bytes.now ≤ 2 ^ 31 }
        ensures ok { OnOk result (self.new ≡ with_bytes bytes.now self.old) }
        ensures err { OnErr result (self.new ≡ self.old) }
    {
        let last = self.segments.len() - 1;
        let segment = &mut self.segments[last];
        segment.bytes.extend_from_slice(bytes)
    }

    /// Appends a label. Where memory is refused, the program stays as it was.
    pub fn add_label(&mut self, name: &'a [u8], address: u32) -> Result<(), NoMemory>
        ensures ok { OnOk result (self.new ≡ with_label (label name.now address) self.old) }
        ensures err { OnErr result (self.new ≡ self.old) }
    {
        self.labels.push(NamedAddress { name, address })?;
        Ok(())
    }
}
