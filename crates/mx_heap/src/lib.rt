//! Heaps: areas of RAM words in which blocks are placed by first fit.
#![tactic(auto)]

mod block;
mod heap;
mod list;
mod parts;

pub use block::{Block, HeapError};
pub use heap::Heap;
