//! The labels of a source.
ghost use Rattle.std.specs.Prelude.{◌≡◌, ◌≤◌, ◌^◌, length, IfOk, option_map, OnOk};
ghost use Rattle.mx_asm.specs.Labels.{definition_of, with_name};
ghost use Rattle.mx_asm.specs.LabelViews.{labels_view, definition_view};
ghost use Rattle.mx_source.specs.LineViews.{label_view};
ghost use Rattle.mx_asm.specs.Denoted.{labels_of_source};

use crate::hashing::LabelHashing;
use crate::places::{place_after, start};
use indexmap::IndexMap;
use mx_source::read_line;
use mx_words::NoMemory;
use std::alloc::Global;

/// The address for which a label stands, and the line that defines it first, counted from 1.
#[derive(Clone, Copy)]
pub(crate) struct LabelPlace {
    pub(crate) address: u64,
    pub(crate) line: u32,
}

/// The labels by their names, in the order of their definitions.
pub(crate) type Labels<'a> = IndexMap<&'a [u8], LabelPlace, LabelHashing>;

/// The definition of a name.
pub(crate) fn definition(labels: &Labels<'_>, name: &[u8]) -> Option<LabelPlace>
    ensures { option_map (definition_view name.now) result
        ≡ definition_of (labels_view labels.now) name.now }
{
    labels.get(name).copied()
}

/// Adds the label of a line, if no earlier line defines it.
#[tactic(auto, unfolding(crate::specs::Labels::with_name))]
fn define<'a>(
    labels: &mut Labels<'a>,
    label: Option<&'a [u8]>,
    address: u64,
    line: u32,
) -> Result<(), NoMemory>
    ensures { OnOk result (labels_view labels.new
        ≡ with_name (label_view label.entry) address line (labels_view labels.old)) }
{
    let Some(name) = label else {
        return Ok(());
    };
    if definition(labels, name).is_some() {
        return Ok(());
    }
    labels.insert(name, LabelPlace { address, line })?;
    Ok(())
}

/// The labels of a source.
pub(crate) fn collect_labels(alloc: Global, source: &str) -> Result<Labels<'_>, NoMemory>
    requires { length source.now ≤ 2 ^ 20 }
    ensures { IfOk result (λ labels. labels_view labels ≡ labels_of_source source.now) }
{
    let mut labels = IndexMap::with_hasher(alloc, LabelHashing::of(source));
    let mut place = start();
    let mut number = 1;
    'lines: for text in source.lines() {
        let line = read_line(text.as_bytes());
        define(&mut labels, line.label, place.here, number)?;
        place = place_after(line.statement, place);
        number += 1;
    }
    Ok(labels)
}
