//! What is kept of a plan.

use super::{HART, MODULE, TWO, judge};
use crate::checks::same;
use mx_snapshot::Kept;
use mx_words::{Kind, Need};
use std::alloc::Global;
use std::fmt::InlineText;
use std::test::Fail;

/// The lines of the keys that are kept.
const TOP: &str =
    "tables = \"multilevel\"\nupper = 3\nleaf = 5\nspill = 7\nlookaside = 8\nquantum = 1000\n";

/// A second module.
const SECOND: &str = "[[module]]\nname = \"n_2\"\nat = 0x80000004\nperm = \"r\"\nwords = [1]\n";

/// The kind of tables, their limit, the size of buffers, and the quantum.
type Keys = (Kind, Need, u32, u32);

/// What is kept: the keys, the number of modules, and the first two names.
type Told = (Keys, u32, [InlineText<32>; 2]);

/// A name, or no text where there is none.
fn name(kept: &Kept, i: u32) -> InlineText<32> {
    InlineText::of(if i < kept.modules() { kept.name(i) } else { "" })
}

fn told(kept: &Kept) -> Told {
    let keys = (kept.kind(), kept.limit(), kept.lookaside(), kept.quantum());
    (keys, kept.modules(), [name(kept, 0), name(kept, 1)])
}

/// What is kept of a manifest of two modules.
fn kept(alloc: Global, top: &str) -> Option<Told> {
    let plan = judge(alloc, &[TWO, top, MODULE, SECOND, HART]).ok()?;
    let kept = Kept::of(alloc, &plan).ok()?;
    Some(told(&kept))
}

#[test]
fn what_is_kept_of_a_plan(rt: HostRuntime) -> Result<(), Fail> {
    let (keys, modules, [first, second]) = kept(rt.alloc(), TOP).ok_or("refused")?;
    let limit = Need {
        upper: 3,
        leaf: 5,
        spill: 7,
    };
    same(&rt, "keys", keys, (Kind::Multilevel, limit, 8, 1000));
    same(&rt, "modules", modules, 2);
    same(&rt, "the first name", first.as_str(), "m");
    same(&rt, "the second name", second.as_str(), "n_2");
    Ok(())
}

#[test]
fn what_is_kept_of_a_plan_of_defaults(rt: HostRuntime) -> Result<(), Fail> {
    let (keys, _, _) = kept(rt.alloc(), "").ok_or("refused")?;
    let limit = Need {
        upper: 128,
        leaf: 4096,
        spill: 4096,
    };
    same(&rt, "keys", keys, (Kind::Packed, limit, 32, 1));
    Ok(())
}
