//! Loads an application from a TOML document: the one that the document names, or the first of its checks that fails.
#![tactic(auto)]

mod daemon;
mod document;
mod entries;
mod fault;
mod finding;
mod interrupts;
mod laws;
mod named;
mod named_daemon;
mod named_group;
mod named_object;
mod named_variable;
mod object_section;
mod objects;
mod ops;
mod place;
mod points;
mod raw_handler;
mod raw_task;
mod readers;
mod sections;
mod values;

pub use document::FromDocument;
pub use fault::{Fault, FaultKind, LoadError};
pub use laws::names_differ;
pub use place::{Key, Place, PlaceWord, Section};
