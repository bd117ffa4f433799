//! The words of the lists' frames: read, written, and with one frame more or less.
ghost use Rattle.std.specs.Prelude.{◌≡◌, ◌≢◌, ℕ, ◌+◌, ◌-◌, ◌*◌, ◌<◌, ◌≤◌, length};
ghost use Rattle.mx_pool.specs.Frames.{free_in};
ghost use Rattle.mx_segments.specs.Store.{frames_in, word_in, IsStore, KeepsOthers};

use crate::Chains;
use mx_pool::Pool;

/// Word `i` of the list at a row.
pub(crate) fn word(leaf: &Pool<64>, chains: &Chains, row: u32, i: u32) -> u32
    requires store { IsStore leaf.now chains.now.lists }
    requires row { row < length chains.now.lists }
    requires place { i < 64 * frames_in chains.now.lists row }
    ensures { result ≡ word_in leaf.now chains.now.lists row i }
{
    leaf.get(chains.frame_at(row, i / 64), i % 64)
}

/// Writes word `i` of the list at a row.
pub(crate) fn put(leaf: &mut Pool<64>, chains: &Chains, row: u32, i: u32, value: u32)
    requires store { IsStore leaf.old chains.now.lists }
    requires row { row < length chains.now.lists }
    requires place { i < 64 * frames_in chains.now.lists row }
    ensures store { IsStore leaf.new chains.now.lists }
    ensures here { word_in leaf.new chains.now.lists row i ≡ value }
    ensures elsewhere { (j : ℕ) → j < 64 * frames_in chains.now.lists row → j ≢ i →
        word_in leaf.new chains.now.lists row j ≡ word_in leaf.old chains.now.lists row j }
    ensures others { KeepsOthers leaf.old chains.now.lists leaf.new chains.now.lists row }
    ensures free { free_in leaf.new ≡ free_in leaf.old }
{
    leaf.set(chains.frame_at(row, i / 64), i % 64, value);
}

/// Appends a frame of zeros to the list at a row.
pub(crate) fn grow(leaf: &mut Pool<64>, chains: &mut Chains, row: u32)
    requires store { IsStore leaf.old chains.old.lists }
    requires row { row < length chains.old.lists }
    requires memory { frames_in chains.old.lists row < chains.old.room }
    requires spare { 0 < free_in leaf.old }
    ensures store { IsStore leaf.new chains.new.lists }
    ensures frames { frames_in chains.new.lists row ≡ frames_in chains.old.lists row + 1 }
    ensures zeros { (j : ℕ) → 64 * frames_in chains.old.lists row ≤ j →
        j < 64 * frames_in chains.new.lists row → word_in leaf.new chains.new.lists row j ≡ 0 }
    ensures words { (j : ℕ) → j < 64 * frames_in chains.old.lists row →
        word_in leaf.new chains.new.lists row j ≡ word_in leaf.old chains.old.lists row j }
    ensures others { KeepsOthers leaf.old chains.old.lists leaf.new chains.new.lists row }
    ensures free { free_in leaf.new + 1 ≡ free_in leaf.old }
    ensures same_room { chains.new.room ≡ chains.old.room }
{
    match leaf.take() {
        Some(frame) => chains.push(row, frame),
        None => unreachable!(),
    }
}

/// Gives the last frame of the list at a row back.
pub(crate) fn shrink(leaf: &mut Pool<64>, chains: &mut Chains, row: u32)
    requires store { IsStore leaf.old chains.old.lists }
    requires row { row < length chains.old.lists }
    requires some { 0 < frames_in chains.old.lists row }
    ensures store { IsStore leaf.new chains.new.lists }
    ensures frames { frames_in chains.new.lists row + 1 ≡ frames_in chains.old.lists row }
    ensures words { (j : ℕ) → j < 64 * frames_in chains.new.lists row →
        word_in leaf.new chains.new.lists row j ≡ word_in leaf.old chains.old.lists row j }
    ensures others { KeepsOthers leaf.old chains.old.lists leaf.new chains.new.lists row }
    ensures free { free_in leaf.new ≡ free_in leaf.old + 1 }
    ensures same_room { chains.new.room ≡ chains.old.room }
{
    let frame = chains.pop(row);
    leaf.give(frame);
}
