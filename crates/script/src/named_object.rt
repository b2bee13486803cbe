//! Objects as the file has them.
ghost use Rattle.model.specs.Scripts.{IsObjectKind};
ghost use Rattle.script.specs.Kinds.{IsObjectKind-prop};

use arrayvec::ArrayVec;
use model::{App, ObjectKind};

/// An object and its name.
#[derive(Clone, Copy, Drop)]
pub(crate) struct NamedObject<'a> {
    pub(crate) name: &'a str,
    pub(crate) kind: ObjectKind,
    pub(crate) ghost formed: { IsObjectKind kind } by { IsObjectKind-prop kind },
}

// What an array of objects has in a place that is still free.
impl Default for NamedObject<'_> {
    fn default() -> Self {
        NamedObject {
            name: "",
            kind: ObjectKind::Queue(1),
        }
    }
}

/// The objects of a document, in their order.
pub(crate) type Objects<'a> = ArrayVec<NamedObject<'a>, { App::MOST_OBJECTS }>;
