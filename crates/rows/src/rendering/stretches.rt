//! Stretches of a trail that many rows have, each rendered once.
ghost use Rattle.std.specs.Prelude.{◌≡◌, ◌≤◌, ◌<◌, length, slice_range, IfOk, IfSome};
ghost use Rattle.machine.specs.Logged.{all_of};
ghost use Rattle.rows.specs.Stretches.{AreOfPart, AreOfParts, IsTail};

use crate::campaign_report::Rows;
use crate::rows::Part;
use model::{App, Event, Memory};
use report::{BaseEvents, EventRenderer};
use std::alloc::Global;
use std::marker::Model;
use std::thread;
use std::thread::Threads;

// A leg of fewer events than this many is rendered for each row that goes over it. Few others go over most of those.
const LEAST_EVENTS: usize = 64;

// This many events of a part are rendered at most, which are some 100 MB of text.
const MOST_EVENTS: usize = 1 << 22;

// The number of a leg whose stretch is not rendered.
const NO_STRETCH: u32 = u32::MAX;

/// The events of a trail from one place up to another, and their text as far as there was memory for it.
#[derive(Drop)]
pub(crate) struct Stretch<'a> {
    first: usize,
    to: usize,
    events: BaseEvents<'a>,
}

/// What is found of a trail up to some place: events; this many of them come before those that are
/// looked for.
#[derive(Clone, Copy)]
pub(crate) struct Found<'s, 'a> {
    pub(crate) events: &'s BaseEvents<'a>,
    pub(crate) before: usize,
}

/// The long stretches of a part's trail, each rendered once, and a guess at which is that of which leg.
#[derive(Drop)]
pub(crate) struct Stretches<'a> {
    app: &'a App,
    trail: &'a [Event],
    stretches: Vec<Stretch<'a>>,
    of_legs: Vec<u32>,
}

// Clauses see the application and the trail.
impl<'a> Model for Stretches<'a> {
    ghost use Rattle.std.specs.List.{AllByRecursion};
    ghost use Rattle.report.specs.Writing.{Events};
    ghost use Rattle.rows.specs.Stretches.{IsStretch};

    ghost Value = { Events };

    ghost view = { λ s. record { app = s.app.now; events = s.trail.now } };

    ghost invariant = { λ s. AllByRecursion (IsStretch s.app.now s.trail.now) s.stretches.items };
}

impl<'a> Stretches<'a> {
    // No stretch is rendered.
    fn new(alloc: Global, app: &'a App, trail: &'a [Event]) -> Stretches<'a>
        ensures app { result.app ≡ app.now }
        ensures trail { result.events ≡ trail.now }
    {
        Stretches {
            app,
            trail,
            stretches: Vec::new(alloc),
            of_legs: Vec::new(alloc),
        }
    }

    /// The stretches of a part's long legs, as far as there is memory for them.
    pub(crate) fn rendered(
        alloc: Global,
        renderer: &mut EventRenderer<'a>,
        app: &'a App,
        part: &'a Part,
    ) -> Stretches<'a>
        requires { renderer.old ≡ app.now }
        ensures renderer { renderer.new ≡ renderer.old }
        ensures app { result.app ≡ app.now }
        ensures trail { result.events ≡ all_of part.now.trail }
    {
        let mut stretches = Stretches::new(alloc, app, part.trail.events());
        let mut first = 0;
        let mut room = MOST_EVENTS;
        for leg in &part.legs {
            let count = leg.to.saturating_sub(first);
            let is_long = LEAST_EVENTS <= count && count <= room;
            if is_long {
                room -= count;
            }
            stretches.add(alloc, renderer, first, leg.to, is_long);
            first = leg.to;
        }
        stretches
    }

    // Adds the stretch of the next leg, if it is long.
    fn add(
        &mut self,
        alloc: Global,
        renderer: &mut EventRenderer<'a>,
        first: usize,
        to: usize,
        is_long: bool,
    )
        requires { renderer.old ≡ self.old.app }
        ensures renderer { renderer.new ≡ renderer.old }
        ensures same { self.new ≡ self.old }
    {
        let number = self.stretches.len();
        let is_added = is_long && self.push(alloc, renderer, first, to);
        let number = if is_added {
            u32::try_from(number).unwrap_or(NO_STRETCH)
        } else {
            NO_STRETCH
        };
        let _refused = self.of_legs.push(number).is_err();
    }

    // Renders the events of the trail between these places, if they are there. Returns whether there
    // was memory for it.
    fn push(
        &mut self,
        alloc: Global,
        renderer: &mut EventRenderer<'a>,
        first: usize,
        to: usize,
    ) -> bool
        requires { renderer.old ≡ self.old.app }
        ensures renderer { renderer.new ≡ renderer.old }
        ensures same { self.new ≡ self.old }
    {
        if to < first || self.trail.len() < to {
            return false;
        }
        let stretch = Stretch {
            first,
            to,
            events: BaseEvents::rendered(alloc, renderer, &self.trail[first..to]),
        };
        self.stretches.push(stretch).is_ok()
    }

    /// What is rendered of the trail's events between these places, which are on the leg of this number.
    pub(crate) fn find(&self, leg: usize, from: usize, to: usize) -> Option<Found<'_, 'a>>
        requires rises { from ≤ to }
        requires within { to ≤ length self.now.events }
        ensures { IfSome result (IsTail self.now.app (slice_range self.now.events from to)) }
    {
        let place = *self.of_legs.get(leg)?;
        let stretch = self.stretches.get(place as usize)?;
        if stretch.to == to && stretch.first <= from {
            Some(Found {
                events: &stretch.events,
                before: from - stretch.first,
            })
        } else {
            None
        }
    }
}

// The stretches of the part of this number.
fn stretches_of_part<'a>(
    alloc: Global,
    app: &'a App,
    rows: &'a Rows,
    number: usize,
) -> Stretches<'a>
    requires { number < length rows.now.parts.items }
    ensures { AreOfPart app.now rows.now number result }
{
    let mut renderer = EventRenderer::new(app);
    Stretches::rendered(alloc, &mut renderer, app, &rows.parts[number])
}

/// The stretches of each part's long legs, part by part. Those of each are rendered in a thread of
/// its own if one can be started.
pub(crate) fn stretches_of<'a, R: Threads + Sync>(
    rt: &R,
    alloc: Global,
    app: &'a App,
    rows: &'a Rows,
) -> Result<Vec<Stretches<'a>>, Memory>
    ensures { IfOk result (λ s. AreOfParts app.now rows.now s.items) }
{
    let each = |number: usize| -> Stretches<'_>
        requires { number < length rows.now.parts.items }
        ensures { AreOfPart app.entry.now rows.entry.now number result }
    { stretches_of_part(alloc, app, rows, number) };
    match thread::map_indices(rt, alloc, rows.parts.len(), &each) {
        Ok(all) => Ok(all),
        Err(_) => Err(Memory),
    }
}
