//! Laws of the definitions: each is the contract of a function that does nothing.
ghost use Rattle.std.specs.Prelude.{◌≡◌, None};
ghost use Rattle.toml.specs.Data.{Members};
ghost use Rattle.script.specs.Load.{load_fault, document_names};
ghost use Rattle.script.specs.Names.{AreDistinct};

/// In a document that is taken, each object, event group, variable, handler and task has a name of its own.
pub fn names_differ()
    ensures { (document : Members)
        → load_fault document ≡ None → AreDistinct (document_names document) }
{}
