//! Which handlers may come before a step.
ghost use Rattle.std.specs.Prelude.{◌≡◌, ◌≤◌, ◌+◌, IfOk, OnOk, ◌++◌, [], ◌∷◌, length, map};
ghost use Rattle.std.specs.List.{flat_map};
ghost use Rattle.explorer.specs.Choosing.{AreLevels, HasMarks, IsSetOf};

use model::{HandlerId, Memory};
use std::alloc::Global;
use std::marker::Model;

/// Handlers that come before one step, in turn.
#[derive(Drop)]
pub(crate) struct Choice {
    handlers: Vec<HandlerId>,
}

// Clauses see the list of them.
impl Model for Choice {
    ghost use Rattle.std.specs.Prelude.{ℕ, List};

    ghost Value = { List ℕ };

    ghost view = { λ c. c.handlers.items };
}

impl Choice {
    // That no handler comes.
    fn none(alloc: Global) -> Choice
        ensures { result ≡ [] }
    {
        Choice {
            handlers: Vec::new(alloc),
        }
    }

    // The handler, and then the others.
    fn of(alloc: Global, first: HandlerId, others: &Choice) -> Result<Choice, Memory>
        ensures { IfOk result (λ choice. choice ≡ first ∷ others.now) }
    {
        let mut handlers = Vec::with_capacity(alloc, others.handlers.len().saturating_add(1))?;
        handlers.push(first)?;
        handlers.extend_from_slice(others.as_slice())?;
        Ok(Choice { handlers })
    }

    /// The handlers, in turn.
    pub(crate) fn as_slice(&self) -> &[HandlerId]
        ensures { result.now ≡ self.now }
    {
        self.handlers.as_slice()
    }
}

/// All choices of one number of handlers.
#[derive(Drop)]
pub(crate) struct Level {
    choices: Vec<Choice>,
}

// Clauses see the list of them.
impl Model for Level {
    ghost use Rattle.std.specs.Prelude.{ℕ, List};

    ghost Value = { List (List ℕ) };

    ghost view = { λ l. l.choices.items };
}

impl Level {
    // The choice that no handler comes.
    fn none(alloc: Global) -> Result<Level, Memory>
        ensures { IfOk result (λ level. level ≡ [] ∷ []) }
    {
        let mut choices = Vec::new(alloc);
        choices.push(Choice::none(alloc))?;
        Ok(Level { choices })
    }

    // Each handler followed by each of these choices.
    fn longer(&self, alloc: Global, handlers: &[HandlerId]) -> Result<Level, Memory>
        ensures { IfOk result (λ level. level
            ≡ flat_map (λ handler. map (λ others. handler ∷ others) self.now) handlers.now) }
    {
        let mut choices = Vec::new(alloc);
        for handler in handlers {
            push_all(alloc, *handler, self.as_slice(), &mut choices)?;
        }
        Ok(Level { choices })
    }

    /// The choices.
    pub(crate) fn as_slice(&self) -> &[Choice]
        ensures { result.now ≡ self.now }
    {
        self.choices.as_slice()
    }
}

/// The handlers that may come, and for each number of them up to the greatest all choices.
#[derive(Drop)]
pub(crate) struct Choices {
    pub(crate) handlers: Vec<HandlerId>,
    pub(crate) levels: Vec<Level>,
}

impl Choices {
    /// The choices of these handlers, up to this many at once.
    pub(crate) fn new(alloc: Global, handlers: &[HandlerId], most: usize) -> Result<Choices, Memory>
        requires { most ≤ 3 }
        ensures levels { IfOk result (λ choices. AreLevels choices.handlers.items choices.levels.items) }
        ensures long { IfOk result (λ choices. length choices.levels.items ≡ most + 1) }
        ensures set { IfOk result (λ choices. IsSetOf handlers.now choices.handlers.items) }
        ensures few { IfOk result (λ choices. length choices.handlers.items ≤ 17) }
    {
        let handlers = set_of(alloc, handlers)?;
        let mut levels = Vec::new(alloc);
        levels.push(Level::none(alloc)?)?;
        for number in 0..most {
            let longer = levels[number].longer(alloc, handlers.as_slice())?;
            levels.push(longer)?;
        }
        Ok(Choices { handlers, levels })
    }
}

// Puts the handler followed by each of these choices after the others.
fn push_all(
    alloc: Global,
    handler: HandlerId,
    choices: &[Choice],
    longer: &mut Vec<Choice>,
) -> Result<(), Memory>
    ensures { OnOk result (longer.new.items ≡ longer.old.items ++ map (λ others. handler ∷ others) choices.now) }
{
    for others in choices {
        longer.push(Choice::of(alloc, handler, others)?)?;
    }
    Ok(())
}

// For each number whether the handler of this number is one of these.
fn marks_of(handlers: &[HandlerId]) -> [bool; 17]
    ensures marks { HasMarks handlers.now result }
    ensures long { length result ≡ 17 }
{
    let mut marks = [false; 17];
    for handler in handlers {
        let number = handler.number as usize;
        marks[number] = true;
    }
    marks
}

// These handlers, each once, in the order of their numbers.
fn set_of(alloc: Global, handlers: &[HandlerId]) -> Result<Vec<HandlerId>, Memory>
    ensures set { IfOk result (λ set. IsSetOf handlers.now set.items) }
    ensures few { IfOk result (λ set. length set.items ≤ 17) }
{
    let marks = marks_of(handlers);
    let mut set = Vec::new(alloc);
    for number in 0..17 {
        if marks[number as usize] {
            set.push(HandlerId { number })?;
        }
    }
    Ok(set)
}
