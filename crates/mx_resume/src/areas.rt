//! The areas of a module, and the live blocks of its heap area.
ghost use Rattle.std.specs.Prelude.{◌≡◌, ℕ, ◌*◌, ◌+◌, ◌<◌, ◌≤◌, [], List, IfOk};
ghost use Rattle.mx_words.specs.FirstFit.{Area, most_blocks};
ghost use Rattle.mx_words.specs.Limits.{most_harts};
ghost use Rattle.mx_words.specs.Ranges.{most_words};
ghost use Rattle.mx_heap.specs.HeapState.{area_of};
ghost use Rattle.mx_snapshot.specs.Fields.{block_in};
ghost use Rattle.mx_snapshot.specs.Reader.{list_of, number, such};
ghost use Rattle.mx_snapshot.specs.Rules.{behind, is_area};
ghost use Rattle.mx_resume.specs.Taking.{IsTaken};

use crate::SnapshotRefused;
use crate::reading::{number, out_of_range};
use mx_heap::{Block, Heap};

/// Whether an area lies in a RAM of so many words, and is at word 0 where it has none.
fn is_area(words: u32, first: u32, count: u64) -> bool
    requires { count ≤ 17179869180 }
    ensures { result ≡ is_area words first count }
{
    u64::from(first) + count <= u64::from(words) && (0 < count || first == 0)
}

/// How many words an area has that begins at a word.
pub(crate) fn heap_words(
    bytes: &[u8],
    at: &mut usize,
    words: u32,
    first: u32,
) -> Result<u32, SnapshotRefused>
    ensures inside { IfOk result (λ n. first + n ≤ words) }
    ensures none { IfOk result (λ n. n ≡ 0 → first ≡ 0) }
    ensures taken { IsTaken (λ n. n) (such (is_area words first) number bytes.now at.old)
        at.new result }
{
    let field = *at;
    let count = number(bytes, at)?;
    if !is_area(words, first, u64::from(count)) {
        return Err(out_of_range(field));
    }
    Ok(count)
}

/// How many words for each of so many harts an area has that begins at a word.
pub(crate) fn stack_words(
    bytes: &[u8],
    at: &mut usize,
    words: u32,
    first: u32,
    harts: u32,
) -> Result<u32, SnapshotRefused>
    requires { harts ≤ most_harts }
    ensures { IsTaken (λ n. n) (such (λ (n : ℕ). is_area words first (n * harts)) number bytes.now at.old)
        at.new result }
{
    let field = *at;
    let count = number(bytes, at)?;
    if !is_area(words, first, u64::from(count) * u64::from(harts)) {
        return Err(out_of_range(field));
    }
    Ok(count)
}

/// The next live block, which begins at the word `from` or later and ends at the word `end` or before.
#[tactic(auto, unfolding(mx_snapshot::specs::Fields::block_in))]
fn block(bytes: &[u8], at: &mut usize, from: u32, end: u32) -> Result<Block, SnapshotRefused>
    ensures place { IfOk result (λ b. (0 < b.count) × (from ≤ b.first) × (b.first + b.count ≤ end)) }
    ensures taken { (heap : Area) (before : List Area) → behind heap before ≡ from →
        heap.first + heap.count ≡ end →
        IsTaken area_of (block_in heap before bytes.now at.old) at.new result }
{
    let first = number(bytes, at)?;
    let field = *at;
    let count = number(bytes, at)?;
    let fits = u64::from(first) + u64::from(count) <= u64::from(end);
    if count == 0 || first < from || !fits {
        return Err(out_of_range(field));
    }
    Ok(Block { first, count })
}

/// Makes so many blocks live, each behind those before it, in a heap without blocks.
pub(crate) fn restore_blocks(
    bytes: &[u8],
    at: &mut usize,
    heap: &mut Heap,
    count: u32,
) -> Result<(), SnapshotRefused>
    requires few { count ≤ most_blocks }
    requires empty { heap.old.blocks ≡ [] }
    requires small { heap.old.area.first + heap.old.area.count ≤ most_words }
    ensures taken { IsTaken (λ done. heap.new.blocks)
        (list_of count (block_in heap.old.area) [] bytes.now at.old) at.new result }
    ensures area { heap.new.area ≡ heap.old.area }
{
    let (first, words) = heap.area();
    let end = first + words;
    let mut from = first;
    'live: for _ in 0..count {
        let block = block(bytes, at, from, end)?;
        from = block.first + block.count;
        heap.restore(block.first, block.count);
    }
    Ok(())
}
