//! The kernel compared with the reference kernel, which follows the definitions line by line, on many random applications. This
//! crate contains only tests.
#![tactic(auto)]

#[cfg(test)]
mod campaigns;
#[cfg(test)]
mod file;
#[cfg(test)]
mod gates;
#[cfg(test)]
mod placements;
#[cfg(test)]
mod planner;
#[cfg(test)]
mod random;
#[cfg(test)]
mod search;
#[cfg(test)]
mod seen;
#[cfg(test)]
mod watching;
#[cfg(test)]
mod working;
