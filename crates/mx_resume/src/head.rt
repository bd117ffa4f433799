//! The head of a snapshot.
ghost use Rattle.std.specs.Prelude.{◌-◌, ◌*◌, ◌^◌, ◌≡◌, ◌≤◌, ◌⊎◌, IfOk};
ghost use Rattle.std.specs.Str.{bytes_eq};
ghost use Rattle.mx_words.specs.Ranges.{most_words};
ghost use Rattle.mx_words.specs.Limits.{is_buffer, least_ram_kib};
ghost use Rattle.mx_manifest.specs.Forms.{is_within};
ghost use Rattle.mx_manifest.specs.InRange.{IsBetween};
ghost use Rattle.mx_snapshot.specs.Fields.{between, head_in, kind_by};
ghost use Rattle.mx_snapshot.specs.Reader.{meant, number, number_of, piece, such, such_or};
ghost use Rattle.mx_snapshot.specs.Rules.{is_ram};
ghost use Rattle.mx_snapshot.specs.Spelling.{sign};
ghost use Rattle.mx_resume.specs.Extents.{HasBounds};
ghost use Rattle.mx_resume.specs.Parts.{head_seen};
ghost use Rattle.mx_resume.specs.Taking.{IsTaken};

use crate::SnapshotRefused;
use crate::reading::{between, fault, long_number, number, out_of_range, piece};
use mx_table::MODULES;
use mx_words::{
    Kind, LEAST_RAM_KIB, MOST_HARTS, MOST_KEPT, MOST_LEAF, MOST_QUANTUM, MOST_SPILL, MOST_UPPER,
    MOST_WORDS, Need,
};

/// The first eight bytes of a snapshot: MXSN, and the version 1.
const SIGN: [u8; 8] = [0x4D, 0x58, 0x53, 0x4E, 1, 0, 0, 0];

/// The greatest numbers of harts and of kept spans, as fields.
const HARTS: u32 = MOST_HARTS as u32;

const KEPT: u32 = MOST_KEPT as u32;

/// The fewest words of a RAM.
const LEAST_WORDS: u32 = 256 * LEAST_RAM_KIB;

/// The most turns after which a snapshot is read.
const MOST_TURNS: u64 = (1 << 63) - 1;

/// The numbers at the head.
#[derive(Clone, Copy)]
pub(crate) struct Head {
    /// The words of RAM.
    pub words: u32,
    /// The kind of permission tables.
    pub kind: Kind,
    /// What the tables may take.
    pub limit: Need,
    /// The size of a lookaside buffer.
    pub lookaside: u32,
    /// The turns that a hart has in a row.
    pub quantum: u32,
    /// How many modules there are.
    pub modules: u32,
    /// How many harts there are.
    pub harts: u32,
    /// How many turns were made.
    pub turns: u64,
}

fn sign<'a>(bytes: &'a [u8], at: &mut usize) -> Result<&'a [u8], SnapshotRefused>
    ensures { IsTaken (λ p. p.now) (such_or 3 (bytes_eq sign) (piece 8) bytes.now at.old)
        at.new result }
{
    let first = *at;
    let sign = piece(bytes, at, 8)?;
    if sign != SIGN.as_slice() {
        return Err(fault(first, 3));
    }
    Ok(sign)
}

fn ram_words(bytes: &[u8], at: &mut usize) -> Result<u32, SnapshotRefused>
    ensures range { IfOk result (λ n. IsBetween (256 * least_ram_kib) most_words n) }
    ensures taken { IsTaken (λ n. n) (such is_ram number bytes.now at.old) at.new result }
{
    let first = *at;
    let words = number(bytes, at)?;
    if words < LEAST_WORDS || MOST_WORDS < words || words % 1024 != 0 {
        return Err(out_of_range(first));
    }
    Ok(words)
}

fn kind(bytes: &[u8], at: &mut usize) -> Result<Kind, SnapshotRefused>
    ensures { IsTaken (λ k. k) (meant kind_by (between 0 2) bytes.now at.old) at.new result }
{
    match between(bytes, at, 0, 2)? {
        0 => Ok(Kind::Segments),
        1 => Ok(Kind::Multilevel),
        _ => Ok(Kind::Packed),
    }
}

fn lookaside(bytes: &[u8], at: &mut usize) -> Result<u32, SnapshotRefused>
    ensures { IsTaken (λ n. n) (such is_buffer number bytes.now at.old) at.new result }
{
    let first = *at;
    let size = number(bytes, at)?;
    if size != 8 && size != 32 && size != KEPT {
        return Err(out_of_range(first));
    }
    Ok(size)
}

fn turns(bytes: &[u8], at: &mut usize) -> Result<u64, SnapshotRefused>
    ensures range { IfOk result (λ n. n ≤ 2 ^ 63 - 1) }
    ensures taken { IsTaken (λ n. n) (such (is_within 0 (2 ^ 63 - 1)) (number_of 8) bytes.now at.old)
        at.new result }
{
    let first = *at;
    let turns = long_number(bytes, at)?;
    if MOST_TURNS < turns {
        return Err(out_of_range(first));
    }
    Ok(turns)
}

/// The head.
#[tactic(auto, unfolding(mx_snapshot::specs::Fields::head_in))]
pub(crate) fn read_head(bytes: &[u8], at: &mut usize) -> Result<Head, SnapshotRefused>
    ensures taken { IsTaken head_seen (head_in bytes.now at.old) at.new result }
    ensures bounds { IfOk result HasBounds }
{
    sign(bytes, at)?;
    let words = ram_words(bytes, at)?;
    let kind = kind(bytes, at)?;
    let upper = between(bytes, at, 0, MOST_UPPER)?;
    let leaf = between(bytes, at, 0, MOST_LEAF)?;
    let spill = between(bytes, at, 0, MOST_SPILL)?;
    let lookaside = lookaside(bytes, at)?;
    let quantum = between(bytes, at, 1, MOST_QUANTUM)?;
    let modules = between(bytes, at, 1, MODULES)?;
    let harts = between(bytes, at, 1, HARTS)?;
    let turns = turns(bytes, at)?;
    Ok(Head {
        words,
        kind,
        limit: Need { upper, leaf, spill },
        lookaside,
        quantum,
        modules,
        harts,
        turns,
    })
}
