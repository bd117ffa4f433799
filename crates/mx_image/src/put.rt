//! Zero bytes and numbers at the end of a list of bytes, each number little-endian (System V gABI, "Data
//! Representation").

ghost use Rattle.std.specs.Prelude.{◌≡◌, ◌+◌, ◌*◌, ◌≤◌, ◌^◌, ◌++◌, length, replicate, OnOk};
ghost use Rattle.mx_image.specs.Image.{halves, words};

use mx_words::{Blob, NoMemory};

/// Appends zero bytes.
pub(crate) fn put_zeros(out: &mut Blob, count: u32) -> Result<(), NoMemory>
    requires { length out.old + count ≤ 2 ^ 31 }
    ensures { OnOk result (out.new ≡ out.old ++ replicate count 0) }
{
    'zeros: for k in 0..count {
        out.push(0)?;
    }
    Ok(())
}

/// Appends numbers of 2 bytes each.
pub(crate) fn put_halves(out: &mut Blob, numbers: &[u16]) -> Result<(), NoMemory>
    requires { length out.old + 2 * length numbers.now ≤ 2 ^ 31 }
    ensures { OnOk result (out.new ≡ out.old ++ halves numbers.now) }
{
    'numbers: for half in numbers {
        out.extend_from_slice(&half.to_le_bytes())?;
    }
    Ok(())
}

/// Appends numbers of 4 bytes each.
pub(crate) fn put_words(out: &mut Blob, numbers: &[u32]) -> Result<(), NoMemory>
    requires { length out.old + 4 * length numbers.now ≤ 2 ^ 31 }
    ensures { OnOk result (out.new ≡ out.old ++ words numbers.now) }
{
    'numbers: for word in numbers {
        out.extend_from_slice(&word.to_le_bytes())?;
    }
    Ok(())
}
