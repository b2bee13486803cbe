//! The events of a campaign's base run, with which its rows begin and many end, and their text.
ghost use Rattle.std.specs.Prelude.{◌≡◌, ◌≤◌, ◌+◌, ◌∷◌, ◌++◌, [], length, take, drop, slice_index_or, vec_len, IfOk, OnOk};
ghost use Rattle.std.specs.List.{flat_map};
ghost use Rattle.report.specs.Text.{event_text};
ghost use Rattle.report.specs.Writing.{IsRendered};

use crate::lines::Lines;
use byte_io::Page;
use model::{App, Event, Memory};
use std::alloc::Global;
use std::marker::Model;

// No line is added to a text that is longer than this, in bytes.
const MOST_TEXT: usize = 1 << 26;

// The text of the first of some events, and where the line of each ends in it.
#[derive(Drop)]
pub(crate) struct Rendered {
    text: Vec<u8>,
    ends: Vec<u32>,
}

/// Events in two parts: some by their text, and those after them.
#[derive(Drop)]
pub(crate) struct Tail<'a> {
    pub(crate) text: &'a [u8],
    pub(crate) behind: &'a [Event],
}

/// The events of the base run of an application, and the text of the first of them.
///
/// The events of a row begin with some of these, and if it comes back to the base run they end with
/// some, so they are rendered once for all rows: as far as there is memory for their text, and about
/// 64 MiB of it at most. The others are rendered for each row.
#[derive(Drop)]
pub struct BaseEvents<'a> {
    app: &'a App,
    events: &'a [Event],
    rendered: Option<Rendered>,
}

// Clauses see the application and the events.
impl<'a> Model for BaseEvents<'a> {
    ghost use Rattle.std.specs.Prelude.{IfSome};
    ghost use Rattle.report.specs.Writing.{Events, IsRendered};

    ghost Value = { Events };

    ghost view = { λ b. record { app = b.app.now; events = b.events.now } };

    ghost invariant = { λ b. IfSome b.rendered (λ s. IsRendered b.app.now b.events.now s.text.items s.ends.items) };
}

impl Rendered {
    // No text yet.
    fn new(alloc: Global) -> Rendered
        ensures text { result.text.items ≡ [] }
        ensures ends { result.ends.items ≡ [] }
    {
        Rendered {
            text: Vec::new(alloc),
            ends: Vec::new(alloc),
        }
    }

    // Adds the line of the next event, which is given as a list of one, by way of the page.
    fn add(&mut self, lines: &mut Lines<'_>, page: &mut Page, next: &[Event]) -> Result<(), Memory>
        requires few { length next.now ≤ 1 }
        requires short { vec_len self.old.text ≤ MOST_TEXT }
        ensures app { lines.new ≡ lines.old }
        ensures text { OnOk result (self.new.text.items ≡ self.old.text.items ++ flat_map (event_text lines.old) next.now) }
        ensures ends { OnOk result (self.new.ends.items ≡ self.old.ends.items ++ length self.new.text.items ∷ []) }
    {
        page.clear();
        lines.push_all(page, next);
        self.text.extend_from_slice(page.bytes())?;
        self.ends.push(self.text.len() as u32)?;
        Ok(())
    }

    // Where the text of this many first events ends.
    fn end_of(&self, count: usize) -> usize
        requires { count ≤ length self.now.ends.items }
        ensures { result ≡ slice_index_or (0 ∷ self.now.ends.items) count 0 }
    {
        if count == 0 {
            0
        } else {
            self.ends[count - 1] as usize
        }
    }
}

/// What renders the lines of an application's events: a page for one of them, and what lines have in common.
///
/// It takes no memory, and is some 107 kB large: make it once for many texts.
#[derive(Drop)]
pub struct EventRenderer<'a> {
    page: Page,
    lines: Lines<'a>,
}

// Clauses see the application.
impl<'a> Model for EventRenderer<'a> {
    ghost use Rattle.model.specs.Application.{Application};

    ghost Value = { Application };

    ghost view = { λ s. s.lines };
}

impl<'a> EventRenderer<'a> {
    /// For events of this application.
    pub fn new(app: &'a App) -> EventRenderer<'a>
        ensures { result ≡ app.now }
    {
        EventRenderer {
            page: Page::new(),
            lines: Lines::new(app),
        }
    }
}

// Renders the events of an application, one after another, each by way of the page.
fn render(
    alloc: Global,
    lines: &mut Lines<'_>,
    page: &mut Page,
    events: &[Event],
) -> Result<Rendered, Memory>
    ensures app { lines.new ≡ lines.old }
    ensures text { IfOk result (λ s. IsRendered lines.old events.now s.text.items s.ends.items) }
{
    let mut rendered = Rendered::new(alloc);
    for number in 0..events.len() {
        if rendered.text.len() > MOST_TEXT {
            break;
        }
        rendered.add(lines, page, &events[number..number + 1])?;
    }
    Ok(rendered)
}

impl<'a> BaseEvents<'a> {
    /// The events of the base run of this application; none is rendered yet. It takes no memory.
    pub fn new(app: &'a App, events: &'a [Event]) -> BaseEvents<'a>
        ensures app { result.app ≡ app.now }
        ensures events { result.events ≡ events.now }
    {
        BaseEvents {
            app,
            events,
            rendered: None,
        }
    }

    /// The events of the base run of the renderer's application, rendered as far as there is memory for their text.
    pub fn rendered(
        alloc: Global,
        renderer: &mut EventRenderer<'a>,
        events: &'a [Event],
    ) -> BaseEvents<'a>
        ensures renderer { renderer.new ≡ renderer.old }
        ensures app { result.app ≡ renderer.old }
        ensures events { result.events ≡ events.now }
    {
        BaseEvents {
            app: renderer.lines.app(),
            events,
            rendered: render(alloc, &mut renderer.lines, &mut renderer.page, events).ok(),
        }
    }

    /// The events.
    pub(crate) fn events(&self) -> &'a [Event]
        ensures { result.now ≡ self.now.events }
    {
        self.events
    }

    /// The text of some of the first events, from the first on and at most this many, and how many events these are.
    pub(crate) fn front(&self, count: usize) -> (&[u8], usize)
        ensures within { result.1 ≤ count }
        ensures text { result.0.now ≡ flat_map (event_text self.now.app) (take result.1 self.now.events) }
    {
        let Some(rendered) = &self.rendered else {
            return (&[], 0);
        };
        let count = count.min(rendered.ends.len());
        let end = rendered.end_of(count);
        (&rendered.text[..end], count)
    }

    /// The events from this one on: the text of those that are rendered, and the others.
    pub(crate) fn tail(&self, from: usize) -> Tail<'_>
        requires { from ≤ length self.now.events }
        ensures { result.text.now ++ flat_map (event_text self.now.app) result.behind.now
            ≡ flat_map (event_text self.now.app) (drop from self.now.events) }
    {
        match &self.rendered {
            Some(rendered) if from < rendered.ends.len() => Tail {
                text: &rendered.text[rendered.end_of(from)..],
                behind: &self.events[rendered.ends.len()..],
            },
            _ => Tail {
                text: &[],
                behind: &self.events[from..],
            },
        }
    }
}
