//! Lists of tasks: the kernel's lists over its 32 tasks, for the crates that keep some.
#![tactic(auto)]

mod task_lists;

pub use task_lists::TaskLists;
