//! The entries of a root table. A region's entry stands at the place of the region's addresses, so the first
//! one isn't at place 0.
ghost use Rattle.std.specs.Prelude.{◌≡◌, ◌≢◌, ℕ, ◌<◌, length};
ghost use Rattle.mx_pool.specs.Frames.{frame_at, IsTaken, free_in};
ghost use Rattle.mx_trie.specs.Walk.{most_regions, root_place, root_word};

use mx_pool::Pool;
use mx_words::RAM_BASE;

/// How many bytes of the address space an entry of a root table stands for: 4 MiB.
const REGION_BYTES: u32 = 0x40_0000;

/// The place of a region's entry in a root table.
#[tactic(auto, unfolding(crate::specs::Walk::root_place))]
pub(crate) fn root_place(region: u32) -> u32
    requires { region < most_regions }
    ensures place { result ≡ root_place region }
    ensures within { result < 1024 }
{
    RAM_BASE / REGION_BYTES + region
}

/// The entry of a region in a root table.
pub(crate) fn root_entry(upper: &Pool<1024>, root: u32, region: u32) -> u32
    requires root { IsTaken upper.now root }
    requires region { region < most_regions }
    ensures { result ≡ root_word upper.now root region }
{
    upper.get(root, root_place(region))
}

/// Writes the entry of a region in a root table.
pub(crate) fn set_root_entry(upper: &mut Pool<1024>, root: u32, region: u32, entry: u32)
    requires root { IsTaken upper.old root }
    requires region { region < most_regions }
    ensures here { root_word upper.new root region ≡ entry }
    ensures others { (x : ℕ) → x ≢ region → root_word upper.new root x ≡ root_word upper.old root x }
    ensures taken { IsTaken upper.new root }
    ensures elsewhere { (g : ℕ) → g ≢ root → frame_at upper.new g ≡ frame_at upper.old g }
    ensures free { free_in upper.new ≡ free_in upper.old }
    ensures total { length upper.new ≡ length upper.old }
{
    upper.set(root, root_place(region), entry);
}
