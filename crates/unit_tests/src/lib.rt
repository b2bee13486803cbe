//! Tests of the parts of a kernel on their own, for what only a library shows: lists, the clock, the scheduler, the objects, the
//! event groups and the kernel's state. They also cover divisions, lanes and seats, on one thread and on several. This crate
//! contains only tests.
#![tactic(auto)]

#[cfg(test)]
mod dealing;
#[cfg(test)]
mod divisions;
#[cfg(test)]
mod of_clock;
#[cfg(test)]
mod of_groups;
#[cfg(test)]
mod of_lists;
#[cfg(test)]
mod of_machine;
#[cfg(test)]
mod of_objects;
#[cfg(test)]
mod of_sched;
#[cfg(test)]
mod tallying;
#[cfg(test)]
mod threads;
