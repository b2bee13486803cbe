//! Doubly linked lists over a fixed number of nodes, which take no memory.
//!
//! A table has `L` lists and `N` nodes. A node is named by its number, is in one list at most, and has
//! a value there. Each call takes constant time, with these exceptions. `Table::new`, `Table::copy` and
//! `Table::set_from` write the whole table, and `Table::is_same` reads it; `Table::is_clear` reads where
//! each node is. `Table::insert_sorted` walks along its list from the first node, and
//! `Table::insert_sorted_from_back` from the last.
//!
//! `are_same` and `are_same_bytes` look at all of two lists, so that many numbers are compared at a time, like the links and the values
//! of two tables: a node that leaves its list keeps nothing of it. `Table::is_clear` passes nodes in no list four at a time, and
//! `first_nonzero` does so with zeros.
#![tactic(auto)]

mod ids;
mod link;
mod table;
mod words;

pub use ids::{ListId, NodeId};
pub use table::Table;
pub use words::{are_same, are_same_bytes, first_nonzero};
