//! Snapshots that are read back, and written again.

use crate::plans::{BLOCKS, CIRCLE, OWNERS, WAITING, gates};
use crate::saved::save_after;
use mx_boot_tests::manifests::THREE_WORDS;
use mx_io::Bytes;
use mx_resume::{Resumed, SnapshotRefused, read_snapshot};
use mx_snapshot::write_snapshot;
use mx_words::Blob;
use std::alloc::Global;
use std::test::Fail;

/// A copy of the first `size` bytes, in which those at a place are others.
fn changed(alloc: Global, bytes: &[u8], size: usize, at: usize, other: &[u8]) -> Option<Blob> {
    if size > bytes.len() || size > 100000 || at > size || other.len() > size - at {
        return None;
    }
    let mut blob = Blob::new(alloc);
    blob.extend_from_slice(&bytes[..at]).ok()?;
    blob.extend_from_slice(other).ok()?;
    blob.extend_from_slice(&bytes[at + other.len()..size]).ok()?;
    Some(blob)
}

/// What a machine of these bytes writes.
fn written_again(alloc: Global, bytes: &[u8]) -> Option<Bytes> {
    let blob = changed(alloc, bytes, bytes.len(), 0, &[])?;
    let mut sink = Bytes::new(alloc, 100000).ok()?;
    let Ok(resumed) = read_snapshot(alloc, &blob) else {
        return None;
    };
    let Resumed { machine, plan } = resumed;
    let whole = write_snapshot(&mut sink, &machine, &plan).is_ok();
    machine.end();
    if whole { Some(sink) } else { None }
}

/// Whether a snapshot after so many turns is read, and the machine writes the same bytes.
fn comes_back(alloc: Global, text: &str, harts: &[u32], turns: u32) -> bool {
    let Some(saved) = save_after(alloc, text, harts, turns, 100000, 0) else {
        return false;
    };
    match written_again(alloc, saved.sink.as_slice()) {
        Some(again) => again.as_slice() == saved.sink.as_slice(),
        None => false,
    }
}

#[test]
fn what_is_read_is_written_again(rt: HostRuntime) -> Result<(), Fail> {
    let text = gates(rt.alloc())?;
    assert!(rt; comes_back(rt.alloc(), THREE_WORDS, &[0], 1));
    assert!(rt; comes_back(rt.alloc(), WAITING, &[2, 0, 0, 0, 1, 1, 1, 3], 8));
    assert!(rt; comes_back(rt.alloc(), CIRCLE, &[0], 192));
    assert!(rt; comes_back(rt.alloc(), BLOCKS, &[0], 4095));
    assert!(rt; comes_back(rt.alloc(), text.as_str(), &[0], 0));
    assert!(rt; comes_back(rt.alloc(), OWNERS, &[0], 8190));
    Ok(())
}

/// Place and number of the fault of these bytes; 0 and 0 where they are read.
fn fault_of(alloc: Global, blob: &Blob) -> Option<(u64, u32)> {
    match read_snapshot(alloc, blob) {
        Ok(resumed) => {
            resumed.machine.end();
            Some((0, 0))
        }
        Err(SnapshotRefused::Fault { at, number }) => Some((at, number)),
        Err(_) => None,
    }
}

/// A change of four bytes at a place: the number that they then hold, and place and number of the fault, 0 and 0 where
/// there is none.
/// The faults are those that a reader in another language finds, which was made from the rule in docs/COMMANDS.md
/// alone.
static CHANGES: [(usize, u32, u64, u32); 72] = [
    (0, 4096, 0, 3),
    (14, 2, 12, 4),
    (22, 6, 20, 4),
    (28, 2147483648, 28, 4),
    (36, 2, 160, 4),
    (37, 0, 40, 4),
    (37, 16384, 36, 4),
    (46, 1024, 0, 0),
    (49, 8, 52, 4),
    (59, 2147483648, 61, 4),
    (68, 6, 69, 4),
    (74, 4294967295, 73, 4),
    (78, 255, 77, 4),
    (85, 4096, 105, 4),
    (87, 4, 89, 4),
    (91, 2147483648, 101, 4),
    (95, 8, 93, 4),
    (96, 1024, 97, 4),
    (122, 6, 124, 4),
    (128, 65536, 128, 4),
    (134, 4294967295, 132, 4),
    (147, 8, 144, 4),
    (148, 65536, 148, 4),
    (152, 7, 152, 4),
    (176, 4, 173, 4),
    (184, 65536, 193, 4),
    (201, 4294967295, 201, 4),
    (204, 256, 209, 4),
    (208, 255, 205, 4),
    (214, 6, 213, 4),
    (228, 16384, 229, 4),
    (236, 4, 233, 4),
    (244, 2, 241, 4),
    (251, 65, 249, 4),
    (252, 256, 261, 4),
    (259, 16, 257, 4),
    (266, 6, 281, 4),
    (268, 1, 265, 4),
    (270, 4294967295, 269, 4),
    (276, 255, 273, 4),
    (278, 16, 277, 4),
    (288, 0, 301, 4),
    (290, 65536, 289, 4),
    (295, 4, 293, 4),
    (306, 8, 305, 4),
    (309, 16777216, 309, 4),
    (316, 2, 313, 4),
    (317, 16384, 317, 4),
    (324, 2, 321, 4),
    (328, 4, 0, 0),
    (370, 9, 0, 0),
    (400, 255, 397, 4),
    (430, 4, 0, 0),
    (457, 17, 461, 4),
    (467, 16777217, 465, 4),
    (472, 17, 469, 4),
    (477, 65, 477, 4),
    (546, 16, 545, 4),
    (572, 4294967295, 0, 0),
    (589, 4096, 0, 0),
    (590, 9, 0, 0),
    (594, 4096, 0, 0),
    (597, 1, 0, 0),
    (612, 7, 609, 4),
    (615, 0, 617, 4),
    (635, 6, 0, 0),
    (754, 255, 753, 4),
    (765, 64, 765, 4),
    (775, 15, 773, 4),
    (795, 15, 0, 0),
    (846, 4096, 0, 0),
    (903, 9, 901, 4),
];

/// The snapshot of the waiting harts has a head of 52 bytes, three modules, six runs of owner, two gates and four
/// harts; RAM begins at
/// 909.
#[test]
fn a_damaged_field_has_its_fault(rt: HostRuntime) -> Result<(), Fail> {
    let harts = [2, 0, 0, 0, 1, 1, 1, 3];
    let Some(saved) = save_after(rt.alloc(), WAITING, &harts, 8, 100000, 0) else {
        return Err("no machine")?;
    };
    let bytes = saved.sink.as_slice();
    for (at, value, field, number) in &CHANGES {
        let Some(blob) = changed(rt.alloc(), bytes, 66445, *at, &value.to_le_bytes()) else {
            return Err("no bytes")?;
        };
        assert_eq!(rt; fault_of(rt.alloc(), &blob), Some((*field, *number)));
    }
    Ok(())
}

/// The first 8 bytes alone, a first byte that is 0, and one byte more.
#[test]
fn a_file_that_is_no_snapshot_has_its_fault(rt: HostRuntime) -> Result<(), Fail> {
    let Some(saved) = save_after(rt.alloc(), THREE_WORDS, &[0], 1, 100000, 0) else {
        return Err("no machine")?;
    };
    let bytes = saved.sink.as_slice();
    let Some(short) = changed(rt.alloc(), bytes, 8, 0, &[]) else {
        return Err("no bytes")?;
    };
    let Some(other) = changed(rt.alloc(), bytes, 65805, 0, &[0]) else {
        return Err("no bytes")?;
    };
    let Some(mut long) = changed(rt.alloc(), bytes, 65805, 0, &[]) else {
        return Err("no bytes")?;
    };
    let longer = long.len() <= 100000 && long.push(0).is_ok();
    assert!(rt; longer);
    assert_eq!(rt; fault_of(rt.alloc(), &short), Some((8, 2)));
    assert_eq!(rt; fault_of(rt.alloc(), &other), Some((0, 3)));
    assert_eq!(rt; fault_of(rt.alloc(), &long), Some((65805, 5)));
    Ok(())
}
