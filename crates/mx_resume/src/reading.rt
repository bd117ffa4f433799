//! Fields of a snapshot's bytes: pieces and numbers, from a place on. Numbers are little-endian.
ghost use Rattle.std.specs.Prelude.{◌≡◌, ◌+◌, nat_lt, length, IfOk};
ghost use Rattle.mx_manifest.specs.InRange.{IsBetween};
ghost use Rattle.mx_snapshot.specs.Fields.{between, flag_in};
ghost use Rattle.mx_snapshot.specs.Reader.{number, number_of, piece};
ghost use Rattle.mx_resume.specs.declared.refused.SnapshotRefused.TheVariants.{Fault};
ghost use Rattle.mx_resume.specs.Taking.{IsTaken};

use crate::SnapshotRefused;

/// The field that begins at a place has a fault.
pub(crate) fn fault(at: usize, number: u32) -> SnapshotRefused
    ensures { result ≡ Fault at number }
{
    SnapshotRefused::Fault {
        at: at as u64,
        number,
    }
}

/// The field that begins at a place is out of its range.
pub(crate) fn out_of_range(at: usize) -> SnapshotRefused
    ensures { result ≡ Fault at 4 }
{
    fault(at, 4)
}

/// Whether so many bytes from a place on end past the bytes that there are.
fn ends_past(bytes: &[u8], at: usize, size: usize) -> bool
    ensures { result ≡ nat_lt (length bytes.now) (at + size) }
{
    bytes.len() < size || bytes.len() - size < at
}

/// A field of so many bytes.
pub(crate) fn piece<'a>(
    bytes: &'a [u8],
    at: &mut usize,
    size: usize,
) -> Result<&'a [u8], SnapshotRefused>
    ensures { IsTaken (λ p. p.now) (piece size bytes.now at.old) at.new result }
{
    let first = *at;
    if ends_past(bytes, first, size) {
        return Err(fault(first, 2));
    }
    *at = first + size;
    Ok(&bytes[first..first + size])
}

/// A number of 4 bytes.
#[tactic(auto, unfolding(mx_words::specs::Bytes::number_at))]
pub(crate) fn number(bytes: &[u8], at: &mut usize) -> Result<u32, SnapshotRefused>
    ensures { IsTaken (λ n. n) (number bytes.now at.old) at.new result }
{
    let first = *at;
    if ends_past(bytes, first, 4) {
        return Err(fault(first, 2));
    }
    *at = first + 4;
    Ok(u32::from_le_bytes([
        bytes[first],
        bytes[first + 1],
        bytes[first + 2],
        bytes[first + 3],
    ]))
}

/// A number of 8 bytes.
#[tactic(auto, unfolding(mx_words::specs::Bytes::number_at))]
pub(crate) fn long_number(bytes: &[u8], at: &mut usize) -> Result<u64, SnapshotRefused>
    ensures { IsTaken (λ n. n) (number_of 8 bytes.now at.old) at.new result }
{
    let first = *at;
    if ends_past(bytes, first, 8) {
        return Err(fault(first, 2));
    }
    *at = first + 8;
    Ok(u64::from_le_bytes([
        bytes[first],
        bytes[first + 1],
        bytes[first + 2],
        bytes[first + 3],
        bytes[first + 4],
        bytes[first + 5],
        bytes[first + 6],
        bytes[first + 7],
    ]))
}

/// A number from `low` to `high`.
pub(crate) fn between(
    bytes: &[u8],
    at: &mut usize,
    low: u32,
    high: u32,
) -> Result<u32, SnapshotRefused>
    ensures range { IfOk result (λ n. IsBetween low high n) }
    ensures taken { IsTaken (λ n. n) (between low high bytes.now at.old) at.new result }
{
    let first = *at;
    let number = number(bytes, at)?;
    if number < low || high < number {
        return Err(out_of_range(first));
    }
    Ok(number)
}

/// A flag, 0 or 1.
pub(crate) fn flag(bytes: &[u8], at: &mut usize) -> Result<bool, SnapshotRefused>
    ensures { IsTaken (λ b. b) (flag_in bytes.now at.old) at.new result }
{
    let number = between(bytes, at, 0, 1)?;
    Ok(number == 1)
}
