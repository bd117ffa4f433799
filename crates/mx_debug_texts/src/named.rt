//! What is known of a boot beside its machine.

ghost use Rattle.std.specs.Prelude.{◌≡◌, option_map};
ghost use Rattle.mx_debug_texts.specs.Documents.{file_at, first_domain, name_of};
ghost use Rattle.mx_debug_texts.specs.Window.{further};

use crate::window::Window;
use mx_manifest::Plan;
use mx_words::Blob;

/// The plan, and the files of the modules' images, one for each module.
#[derive(Clone, Copy)]
pub struct Named<'a> {
    /// What the manifest says.
    pub plan: &'a Plan,
    /// The images; that of an inline module is empty.
    pub images: &'a [Blob],
}

/// The name of a domain's module, or nothing where there is no such domain.
pub(crate) fn name_of(plan: &Plan, domain: u32) -> &str
    ensures { result.now ≡ name_of plan.now domain }
{
    let i = domain.saturating_sub(1);
    if i < plan.modules() {
        plan.module(i).name.as_str()
    } else {
        ""
    }
}

/// Puts that name.
pub(crate) fn put_name(window: &mut Window, plan: &Plan, domain: u32)
    ensures { window.new ≡ further window.old (name_of plan.now domain) }
{
    window.put(name_of(plan, domain).as_bytes());
}

/// The domain in which the first hart begins.
pub(crate) fn first_domain(plan: &Plan) -> u32
    ensures { result ≡ first_domain plan.now }
{
    if plan.harts() == 0 {
        0
    } else {
        plan.hart(0).module
    }
}

/// The name of the image of the module at a place, if it has one.
pub(crate) fn file_at(plan: &Plan, i: u32) -> Option<&str>
    ensures { option_map (λ name. name.now) result ≡ file_at plan.now i }
{
    if i < plan.modules() {
        match &plan.module(i).image {
            Some(name) => Some(name.as_str()),
            None => None,
        }
    } else {
        None
    }
}
