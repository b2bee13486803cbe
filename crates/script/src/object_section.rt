//! The sections of objects.
ghost use Rattle.std.specs.Prelude.{◌≡◌};
ghost use Rattle.script.specs.Sections.{section_of};

use crate::place::Section;

/// A section whose entries are objects.
#[derive(Clone, Copy)]
pub(crate) enum ObjectSection {
    Queue,
    Binary,
    Counting,
    Mutex,
}

impl ObjectSection {
    /// As a section of the file.
    pub(crate) fn section(self) -> Section
        ensures { result ≡ section_of self }
    {
        match self {
            ObjectSection::Queue => Section::Queue,
            ObjectSection::Binary => Section::Binary,
            ObjectSection::Counting => Section::Counting,
            ObjectSection::Mutex => Section::Mutex,
        }
    }
}
