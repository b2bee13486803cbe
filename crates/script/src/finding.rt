//! Which entry a name in a text is that of.
ghost use Rattle.std.specs.Prelude.{◌≡◌, ◌≤◌, map, length};
ghost use Rattle.std.specs.List.{position_from};
ghost use Rattle.model.specs.Scripts.{most_objects};
ghost use Rattle.script.specs.Entries.{object_view};
ghost use Rattle.script.specs.Finding.{is_called};

use crate::entries::NamedEntries;
use crate::interrupts::handler_among;
use crate::named::index_of;
use crate::named_object::NamedObject;
use grammar::{Finding, ObjectSort};
use model::{GroupId, HandlerId, ObjectId, TaskId, VariableId};

// Whether it is an object of this sort and this name.
fn is_called(object: &NamedObject<'_>, sort: ObjectSort, word: &[u8]) -> bool
    ensures { result ≡ is_called sort word.now (object_view object.now) }
{
    sort.has(object.kind) && object.name.as_bytes() == word
}

// The object of this sort and this name.
fn object_among(objects: &[NamedObject<'_>], sort: ObjectSort, word: &[u8]) -> Option<ObjectId>
    requires { length objects.now ≤ most_objects }
    ensures { result ≡ position_from (is_called sort word.now) 0 (map object_view objects.now) }
{
    for (index, object) in objects.iter().enumerate() {
        if is_called(object, sort, word) {
            return ObjectId::new(index as u8);
        }
    }
    None
}

// A name is that of one of these entries, which has to be what the op asks for.
impl Finding for NamedEntries<'_> {
    ghost use Rattle.script.specs.Entries.{entries_view};
    ghost use Rattle.script.specs.Finding.{among};

    ghost naming = { λ entries. among (entries_view entries) };

    fn object(&self, sort: ObjectSort, word: &[u8]) -> Option<ObjectId> {
        object_among(self.objects.as_slice(), sort, word)
    }

    fn group(&self, word: &[u8]) -> Option<GroupId> {
        let index = index_of(self.groups.as_slice(), word)?;
        GroupId::new(index as u8)
    }

    fn task(&self, word: &[u8]) -> Option<TaskId> {
        let index = index_of(self.tasks.as_slice(), word)?;
        TaskId::new(index as u8)
    }

    fn variable(&self, word: &[u8]) -> Option<VariableId> {
        let index = index_of(self.variables.as_slice(), word)?;
        VariableId::new(index as u8)
    }

    fn handler(&self, word: &[u8]) -> Option<HandlerId> {
        handler_among(self, word)
    }
}
