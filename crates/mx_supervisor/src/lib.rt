//! The supervisor: it serves the calls by which modules change rights, owners, gates and their heaps, write to the
//! console,
//! exchange a word and end. It owns the checker, RAM, the owners of words, the gates, and one heap per module.
#![tactic(auto)]

mod answer;
mod heaps;
mod looks;
mod owned;
mod rights;
mod service;
mod supervisor;
mod words;

pub use answer::Answer;
pub use heaps::{Heaps, heaps_of};
pub use supervisor::Supervisor;
pub use words::{announced_range, is_announced};
