//! Event groups as the file has them.
use arrayvec::ArrayVec;
use model::App;

/// An event group. The file has only its name.
#[derive(Drop)]
pub(crate) struct NamedGroup<'a> {
    pub(crate) name: &'a str,
}

// What an array of event groups has in a place that is still free.
impl Default for NamedGroup<'_> {
    fn default() -> Self {
        NamedGroup { name: "" }
    }
}

/// The event groups of a document, in their order.
pub(crate) type Groups<'a> = ArrayVec<NamedGroup<'a>, { App::MOST_GROUPS }>;
