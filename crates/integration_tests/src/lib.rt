//! Tests of several crates together, for what only a library shows: how files are loaded, where each row begins, what is found
//! among all placements, what words ask for, and streams that are narrow or fail. The program's own tests compare what the program
//! writes with files. This crate contains only tests.
#![tactic(auto)]

#[cfg(test)]
mod bytes;
#[cfg(test)]
mod exploring;
#[cfg(test)]
mod handler_runs;
#[cfg(test)]
mod loading;
#[cfg(test)]
mod loading_ops;
#[cfg(test)]
mod shelves;
#[cfg(test)]
mod sinks;
#[cfg(test)]
mod streams;
#[cfg(test)]
mod unwatched;
#[cfg(test)]
mod values;
#[cfg(test)]
mod words;
