//! Laws of texts: the text of an instruction is assembled to it, and without `--counts` the texts of a run read no
//! cache.
#![tactic(auto)]

mod assembled;
mod caches;

pub use assembled::text_is_assembled;
pub use caches::{reports_read_no_cache, texts_read_no_cache};
