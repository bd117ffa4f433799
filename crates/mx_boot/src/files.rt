//! Step 5 of the tests: faults 10 and 11 of image files.

ghost use Rattle.std.specs.Prelude.{◌≡◌, ◌&&◌, not};
ghost use Rattle.std.specs.Option.{is_some};
ghost use Rattle.mx_elf.specs.Segment.{is_executable, is_writable};
ghost use Rattle.std.specs.List.{enumerate_from, flat_map};
ghost use Rattle.mx_words.specs.FirstRow.{first_row};
ghost use Rattle.mx_boot.specs.Areas.{homes};
ghost use Rattle.mx_boot.specs.Seen.{seen};
ghost use Rattle.mx_boot.specs.Faults.{flags_rows, image_rows};

use crate::home::{Home, home_at};
use crate::images::Images;
use crate::refused::{at_module, fault};
use mx_elf::Segs;
use mx_manifest::{BootFault, Key, Plan};
use mx_words::Perm;

/// Whether a segment is writable and executable.
fn is_mixed(flags: u32) -> bool
    ensures { result ≡ (is_writable flags && is_executable flags) }
{
    flags / 2 % 2 == 1 && flags % 2 == 1
}

/// Whether a segment with these flags is refused: it is writable and executable, and there is no `wx`.
fn is_refused(flags: u32, wx: Option<Perm>) -> bool
    ensures { result ≡ (is_writable flags && is_executable flags && not (is_some wx)) }
{
    is_mixed(flags) && wx.is_none()
}

/// The first fault 11 of a module's segments.
fn flags_fault(home: Home, segments: &Segs) -> Option<BootFault>
    ensures { result
        ≡ first_row (flat_map (flags_rows (seen home.entry)) (enumerate_from 0 segments.now)) }
{
    for k in 0..segments.len() {
        if is_refused(segments.get(k).flags, home.plan.wx) {
            return Some(fault(11, at_module(home.domain, Key::Image), k));
        }
    }
    None
}

/// The first fault 10 or 11 of a module.
fn image_fault(home: Home) -> Option<BootFault>
    ensures { result ≡ first_row (image_rows (seen home.entry)) }
{
    if home.plan.image.is_none() {
        return None;
    }
    match home.file.image() {
        Ok(image) => flags_fault(home, &image.segments),
        Err(file) => Some(fault(10, at_module(home.domain, Key::Image), file.number)),
    }
}

/// The first fault 10 or 11 of all modules.
pub(crate) fn images_fault(plan: &Plan, images: &Images) -> Option<BootFault>
    ensures { result ≡ first_row (flat_map image_rows (homes plan.now images.now)) }
{
    for i in 0..plan.modules() {
        if let Some(fault) = image_fault(home_at(plan, images, i)) {
            return Some(fault);
        }
    }
    None
}
