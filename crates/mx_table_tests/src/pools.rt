//! Frames that tables take and give back.
use mx_pool::Pool;
use std::alloc::Global;
use std::test::Fail;

/// How many frames of a pool of one are free, how many once it is taken, the last word written there, how many are free
/// once the
/// frame is given back, and its last word when it is taken again. `None` where no frame is there to take, or another
/// one.
fn taken_and_given(pool: &mut Pool<64>) -> Option<[u32; 5]> {
    let before = pool.free_frames();
    let first = pool.take()?;
    let then = pool.free_frames();
    pool.set(first, 63, 7);
    let written = pool.get(first, 63);
    if pool.take().is_some() {
        return None;
    }
    pool.give(first);
    let after = pool.free_frames();
    let again = pool.take()?;
    Some([before, then, written, after, pool.get(again, 63)])
}

/// The same of a new pool.
fn of_one_frame(alloc: Global) -> Option<[u32; 5]> {
    match Pool::new(alloc, 1) {
        Ok(mut pool) => taken_and_given(&mut pool),
        Err(_) => None,
    }
}

#[test]
fn frames_are_taken_given_and_zeroed(rt: HostRuntime) {
    let seen = of_one_frame(rt.alloc());
    assert_eq!(rt; seen, Some([1, 0, 7, 1, 0]));
}

/// Two frames of one word, and what stands in each once 5 is written to the first.
fn two_words(pool: &mut Pool<1>) -> Option<[(u32, u32); 2]> {
    let word = pool.take()?;
    pool.set(word, 0, 5);
    let other = pool.take()?;
    Some([(word, pool.get(word, 0)), (other, pool.get(other, 0))])
}

/// The same of a new pool of two frames.
fn of_two_frames(alloc: Global) -> Option<[(u32, u32); 2]> {
    match Pool::new(alloc, 2) {
        Ok(mut pool) => two_words(&mut pool),
        Err(_) => None,
    }
}

/// The last and the first word of a page's frame once 9 is written to the last.
fn ends_of_a_page(pool: &mut Pool<1024>) -> Option<(u32, u32)> {
    let root = pool.take()?;
    pool.set(root, 1023, 9);
    Some((pool.get(root, 1023), pool.get(root, 0)))
}

/// The same of a new pool of one frame.
fn of_a_page(alloc: Global) -> Option<(u32, u32)> {
    match Pool::new(alloc, 1) {
        Ok(mut pool) => ends_of_a_page(&mut pool),
        Err(_) => None,
    }
}

#[test]
fn frames_of_one_word_and_of_a_page(rt: HostRuntime) -> Result<(), Fail> {
    let [(word, first), (other, second)] = of_two_frames(rt.alloc()).ok_or("two frames are free")?;
    assert_ne!(rt; other, word);
    assert_eq!(rt; (first, second), (5, 0));
    let page = of_a_page(rt.alloc());
    assert_eq!(rt; page, Some((9, 0)));
    Ok(())
}
