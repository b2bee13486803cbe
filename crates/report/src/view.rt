//! Which rows of a campaign's report are written, and what of them.
ghost use Rattle.std.specs.Prelude.{◌≡◌};
ghost use Rattle.report.specs.Views.{has_end, plain, shows, shows_events};

use model::End;

/// In which ways rows end.
#[derive(Clone, Copy, PartialEq, Eq)]
pub struct Ends {
    pub pass: bool,
    pub check: bool,
    pub misuse: bool,
    pub ticks: bool,
    pub steps: bool,
    pub stuck: bool,
}

/// Which rows of a campaign's report are written: those that end in one of these ways. If heads are
/// asked for, each is its head line alone, otherwise its events follow. The totals count all rows.
#[derive(Clone, Copy, PartialEq, Eq)]
pub struct View {
    pub ends: Ends,
    pub heads: bool,
}

impl Ends {
    /// Every way.
    pub const EVERY: Ends = Ends {
        pass: true,
        check: true,
        misuse: true,
        ticks: true,
        steps: true,
        stuck: true,
    };

    /// No way.
    pub const NONE: Ends = Ends {
        pass: false,
        check: false,
        misuse: false,
        ticks: false,
        steps: false,
        stuck: false,
    };

    /// Every way but that rows pass.
    pub const FAILING: Ends = Ends {
        pass: false,
        ..Ends::EVERY
    };

    /// Whether the end is one of these.
    pub fn has(&self, end: End) -> bool
        ensures { result ≡ has_end self.now end }
    {
        match end {
            End::Pass => self.pass,
            End::Check(_, _) | End::HandlerCheck(_, _) => self.check,
            End::Misuse(_, _, _) => self.misuse,
            End::Ticks => self.ticks,
            End::Steps => self.steps,
            End::Stuck => self.stuck,
        }
    }
}

impl View {
    /// Every row, with its events.
    pub fn plain() -> View
        ensures { result ≡ plain }
    {
        View {
            ends: Ends::EVERY,
            heads: false,
        }
    }

    /// Whether a row that ends in this way is written.
    pub fn shows(&self, end: End) -> bool
        ensures { result ≡ shows self.now end }
    {
        self.ends.has(end)
    }

    /// Whether its events are written too.
    pub fn shows_events(&self, end: End) -> bool
        ensures { result ≡ shows_events self.now end }
    {
        self.shows(end) && !self.heads
    }
}
