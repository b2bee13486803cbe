//! Injections that are asked for.

/// A handler, by its name, to be injected before the step of this number, from 0.
#[derive(Clone, Copy, PartialEq, Eq)]
pub struct At<'a> {
    pub step: u32,
    pub handler: &'a str,
}

/// One to three such injections (profile).
#[derive(Clone, Copy, PartialEq, Eq)]
pub enum NamedInjections<'a> {
    One(At<'a>),
    Two(At<'a>, At<'a>),
    Three(At<'a>, At<'a>, At<'a>),
}
