//! A module with its domain and its file.

ghost use Rattle.std.specs.Prelude.{◌≡◌, ◌-◌, ◌^◌, ◌<◌, ◌≤◌, length, slice_get, IfSome};
ghost use Rattle.mx_words.specs.Limits.{most_stack_words};
ghost use Rattle.mx_boot.specs.Areas.{homes};
ghost use Rattle.mx_boot.specs.Seen.{seen};

use crate::images::{Images, ModuleFile};
use mx_manifest::{ModulePlan, Plan};

/// A module with its domain and its file.
#[derive(Clone, Copy)]
pub(crate) struct Home<'p, 'i, 'f> {
    pub domain: u32,
    pub plan: &'p ModulePlan,
    pub file: &'i ModuleFile<'f>,
}

/// The module at a place, which counts from 0.
pub(crate) fn home_at<'p, 'i, 'f>(
    plan: &'p Plan,
    images: &'i Images<'f>,
    i: u32,
) -> Home<'p, 'i, 'f>
    requires below { i < length plan.now.modules }
    requires small { i < 2 ^ 32 - 1 }
    ensures home { slice_get (homes plan.now images.now) i ≡ Some (seen result) }
    ensures few { IfSome (seen result).plan.stack_words (λ words. words ≤ most_stack_words) }
{
    Home {
        domain: i + 1,
        plan: plan.module(i),
        file: images.file(i),
    }
}
