//! Values under names, as the stores in memory keep them.
ghost use Rattle.std.specs.Prelude.{◌≡◌, ◌∷◌, OnOk, OnErr, option_copied};
ghost use Rattle.std.specs.Ordering.{nat_cmp};
ghost use Rattle.std.specs.Cmp.Lexicographic.{slice_cmp};
ghost use Rattle.std.specs.FinMap.Entries.{find};
ghost use Rattle.mx_io.specs.Named.{named};

use mx_words::NoMemory;
use std::alloc::Global;
use std::collections::VecDeque;

/// A value under a name.
#[derive(Drop)]
pub(crate) struct Named<V> {
    pub(crate) name: String,
    pub(crate) value: V,
}

/// The newest value under the name. Reads the entries from the newest on, so the time grows with their number.
pub(crate) fn find<'a, V>(entries: &'a VecDeque<Named<V>>, name: &str) -> Option<&'a V>
    ensures { option_copied result ≡ find (slice_cmp nat_cmp) name.now (named entries.now.items) }
{
    for entry in entries {
        if entry.name.as_str() == name {
            return Some(&entry.value);
        }
    }
    None
}

/// Puts a value under the name, in place of an older one.
pub(crate) fn add<V: Drop>(
    alloc: Global,
    entries: &mut VecDeque<Named<V>>,
    name: &str,
    value: V,
) -> Result<(), NoMemory>
    ensures ok { OnOk result
        (named entries.new.items ≡ (name.now, value) ∷ named entries.old.items) }
    ensures err { OnErr result (named entries.new.items ≡ named entries.old.items) }
{
    let name = String::from_str(alloc, name)?;
    entries.push_front(Named { name, value })?;
    Ok(())
}
