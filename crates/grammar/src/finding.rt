//! How names in the text of an op are read.
use crate::name::is_name;
use crate::object_sort::ObjectSort;
use model::{GroupId, HandlerId, ObjectId, TaskId, VariableId};

/// How names in the text of an op are read.
pub trait Finding {
    ghost use Rattle.std.specs.Prelude.{◌≡◌, option_map};
    ghost use Rattle.grammar.specs.Grammar.{Naming, OfObject, OfGroup, OfTask, OfVariable, OfHandler, variable_of};

    // Which entry of a sort a word names.
    ghost naming: { Self → Naming };

    /// The object of this sort that a word names.
    fn object(&self, sort: ObjectSort, word: &[u8]) -> Option<ObjectId>
        ensures { result ≡ naming self.now (OfObject sort) word.now };

    /// The event group that a word names.
    fn group(&self, word: &[u8]) -> Option<GroupId>
        ensures { result ≡ naming self.now OfGroup word.now };

    /// The task that a word names.
    fn task(&self, word: &[u8]) -> Option<TaskId>
        ensures { result ≡ naming self.now OfTask word.now };

    /// The variable that a word names.
    fn variable(&self, word: &[u8]) -> Option<VariableId>
        ensures { result ≡ option_map variable_of (naming self.now OfVariable word.now) };

    /// The handler that a word names.
    fn handler(&self, word: &[u8]) -> Option<HandlerId>
        ensures { result ≡ naming self.now OfHandler word.now };
}

/// Any name will do: a text is only looked at for what it spells.
#[derive(Clone, Copy)]
pub struct AnyName;

impl Finding for AnyName {
    ghost use Rattle.grammar.specs.Finding.{any_name};

    ghost naming = { λ finding. any_name };

    fn object(&self, _sort: ObjectSort, word: &[u8]) -> Option<ObjectId> {
        if is_name(word) {
            ObjectId::new(0)
        } else {
            None
        }
    }

    fn group(&self, word: &[u8]) -> Option<GroupId> {
        if is_name(word) { GroupId::new(0) } else { None }
    }

    fn task(&self, word: &[u8]) -> Option<TaskId> {
        if is_name(word) { TaskId::new(0) } else { None }
    }

    fn variable(&self, word: &[u8]) -> Option<VariableId> {
        if is_name(word) {
            Some(VariableId { number: 0 })
        } else {
            None
        }
    }

    fn handler(&self, word: &[u8]) -> Option<HandlerId> {
        if is_name(word) {
            HandlerId::new(0)
        } else {
            None
        }
    }
}
