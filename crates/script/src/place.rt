//! Places of a file.

/// A section of the file.
#[derive(Clone, Copy)]
pub enum Section {
    Start,
    Tickless,
    Limits,
    Queue,
    Binary,
    Counting,
    Mutex,
    Group,
    Variable,
    Handler,
    Task,
    Daemon,
    Interrupt,
    Campaign,
}

impl Section {
    ghost use Rattle.std.specs.Prelude.{◌≡◌};
    ghost use Rattle.script.specs.Faults.{section_word};

    /// Its name in the file.
    pub fn word(self) -> &'static str
        ensures { result.now ≡ section_word self }
    {
        match self {
            Section::Start => "start",
            Section::Tickless => "tickless",
            Section::Limits => "limits",
            Section::Queue => "queue",
            Section::Binary => "binary",
            Section::Counting => "counting",
            Section::Mutex => "mutex",
            Section::Group => "group",
            Section::Variable => "variable",
            Section::Handler => "handler",
            Section::Task => "task",
            Section::Daemon => "daemon",
            Section::Interrupt => "interrupt",
            Section::Campaign => "campaign",
        }
    }
}

/// A key of a section.
#[derive(Clone, Copy)]
pub enum Key {
    Ticks,
    Steps,
    Name,
    Length,
    Max,
    Initial,
    Ops,
    Armed,
    Apart,
    Priority,
    Endless,
    Script,
    Tick,
    Handler,
    Points,
}

impl Key {
    ghost use Rattle.std.specs.Prelude.{◌≡◌};
    ghost use Rattle.script.specs.Faults.{key_word};

    /// Its name in the file.
    pub fn word(self) -> &'static str
        ensures { result.now ≡ key_word self }
    {
        match self {
            Key::Ticks => "ticks",
            Key::Steps => "steps",
            Key::Name => "name",
            Key::Length => "length",
            Key::Max => "max",
            Key::Initial => "initial",
            Key::Ops => "ops",
            Key::Armed => "armed",
            Key::Apart => "apart",
            Key::Priority => "priority",
            Key::Endless => "endless",
            Key::Script => "script",
            Key::Tick => "tick",
            Key::Handler => "handler",
            Key::Points => "points",
        }
    }
}

/// A word of a place.
#[derive(Clone, Copy)]
pub enum PlaceWord {
    Name(&'static str),
    Index(usize),
}

/// Where in the file: the section, the index of the entry, the key, the index inside the key's array. Parts that do
/// not apply are left out.
#[derive(Clone, Copy)]
pub struct Place {
    pub section: Section,
    pub entry: Option<usize>,
    pub key: Option<Key>,
    pub index: Option<usize>,
}

impl Place {
    ghost use Rattle.std.specs.Prelude.{◌≡◌, option_map};
    ghost use Rattle.std.specs.List.{filter_map};
    ghost use Rattle.script.specs.Faults.{word_text, place_words, at_section, at_entry, at_key, at_element};

    /// The words that name it, in order; `None` is for a part that does not apply.
    pub fn words(self) -> [Option<PlaceWord>; 4]
        ensures { filter_map (option_map word_text) result ≡ place_words self }
    {
        [
            Some(PlaceWord::Name(self.section.word())),
            self.entry.map(PlaceWord::Index),
            self.key.map(|key| PlaceWord::Name(key.word())),
            self.index.map(PlaceWord::Index),
        ]
    }

    // A section as a whole.
    pub(crate) fn section(section: Section) -> Self
        ensures { result ≡ at_section section }
    {
        Place {
            section,
            entry: None,
            key: None,
            index: None,
        }
    }

    // An entry of a section.
    pub(crate) fn entry(section: Section, entry: usize) -> Self
        ensures { result ≡ at_entry section entry }
    {
        Place {
            entry: Some(entry),
            ..Place::section(section)
        }
    }

    // A key of what is at this place.
    pub(crate) fn key(self, key: Key) -> Self
        ensures { result ≡ at_key self key }
    {
        Place {
            key: Some(key),
            ..self
        }
    }

    // An element of the array at this place.
    pub(crate) fn element(self, index: usize) -> Self
        ensures { result ≡ at_element self index }
    {
        Place {
            index: Some(index),
            ..self
        }
    }
}
