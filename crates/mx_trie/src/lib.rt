//! Tables of permissions as tries: a root table and mid tables per domain over leaf entries of any lawful form.
#![tactic(auto)]

mod after;
mod beside;
mod build;
mod change;
mod changed_view;
mod counts;
mod domain;
mod edges;
mod entry;
mod even;
mod flat;
mod frames;
mod laying;
mod leaf;
mod line;
mod page;
mod region;
mod root_table;
mod roots;
mod row_view;
mod scan;
mod sizes;
mod table_view;
mod trie;
mod vector;
mod view;
mod walk;

pub use frames::frames_are_needed;
pub use leaf::LeafForm;
pub use roots::Roots;
pub use trie::Trie;
pub use vector::Vector;
