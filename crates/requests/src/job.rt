//! The jobs of the program.
ghost use Rattle.std.specs.Prelude.{◌≡◌};
ghost use Rattle.requests.specs.Jobs.{file_of, handler_of, is_unpaired};

use crate::most_injections::MostInjections;
use crate::named_point::NamedPoint;
use crate::names::name_at;
use crate::options::Options;
use report::{Shard, View};

/// What the program is to do.
#[derive(Clone, Copy, PartialEq, Eq)]
pub enum Job<'a> {
    /// Write the report of the run of this file's application: the base run, or row 0, with this point. The end state is
    /// written too, or isn't.
    Run {
        file: &'a str,
        point: Option<NamedPoint<'a>>,
        state: bool,
    },
    /// Nothing but to open this file: a run was asked for with a step and no handler, or with a handler and no step.
    RunUnpaired {
        file: &'a str,
    },
    /// Write what the view shows of the campaign of this file, or of this part of it, worked off as
    /// the options say. If it is quiet, nobody learns how far it has come.
    Campaign {
        file: &'a str,
        view: View,
        shard: Shard,
        options: Options,
        quiet: bool,
    },
    /// Write what is found among all placements of at most this many injections of these handlers,
    /// whose names are joined by commas, or of all handlers, in the run of this file's application.
    Explore {
        file: &'a str,
        injections: MostInjections,
        handlers: Option<&'a str>,
    },
}

impl<'a> Job<'a> {
    /// The name of the file that it reads.
    pub fn file(&self) -> &'a str
        ensures { result.now ≡ file_of self.now }
    {
        match self {
            Job::Run { file, .. }
            | Job::RunUnpaired { file }
            | Job::Campaign { file, .. }
            | Job::Explore { file, .. } => *file,
        }
    }

    /// The name of the handler that its words name in this place, from 0; empty if they name none
    /// there.
    pub fn handler(&self, place: usize) -> &'a str
        ensures { result.now ≡ handler_of self.now place }
    {
        match self {
            Job::Run {
                point: Some(point),
                ..
            } => point.handler(place),
            Job::Explore {
                handlers: Some(names),
                ..
            } => name_at(names, place),
            _ => "",
        }
    }

    /// Whether its step and its handler don't go together.
    pub fn is_unpaired(&self) -> bool
        ensures { result ≡ is_unpaired self.now }
    {
        match self {
            Job::RunUnpaired { .. } => true,
            Job::Run { .. } | Job::Campaign { .. } | Job::Explore { .. } => false,
        }
    }
}
