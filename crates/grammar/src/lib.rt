//! The texts of ops and of points: which words spell which.
#![tactic(auto)]

mod finding;
mod isr_text;
mod name;
mod object_sort;
mod op_text;
mod point_text;
mod raw_point;
mod words;

pub use finding::{AnyName, Finding};
pub use isr_text::isr_op_of;
pub use name::is_name;
pub use object_sort::ObjectSort;
pub use op_text::{op_grammar, op_of};
pub use point_text::{points_grammar, read_point};
pub use raw_point::{RawInjection, RawPoint, RawRange};
