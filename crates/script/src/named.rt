//! Entries that have names.
ghost use Rattle.std.specs.Prelude.{◌≡◌, ◌<◌, map, length, IfSome};
ghost use Rattle.std.specs.List.{list_any};
ghost use Rattle.std.specs.Str.{bytes_eq};
ghost use Rattle.grammar.specs.Names.{index_of};

/// An entry with a name.
pub(crate) trait Named {
    ghost use Rattle.std.specs.Prelude.{◌≡◌, List, ℕ};

    // What clauses see of it.
    ghost Shown: { Type 0 };

    ghost shown: { Self → Shown };

    ghost name_of: { Shown → List ℕ };

    /// The name.
    fn name(&self) -> &str
        ensures { result.now ≡ name_of (shown self.now) };
}

/// Whether one of these entries has this name.
pub(crate) fn has_name<E: Named>(entries: &[E], name: &str) -> bool
    ensures { result ≡ list_any (bytes_eq name.now) (map E.name_of (map E.shown entries.now)) }
{
    for entry in entries {
        if name == entry.name() {
            return true;
        }
    }
    false
}

/// The index of the first of these entries that has this name.
pub(crate) fn index_of<E: Named>(entries: &[E], name: &[u8]) -> Option<usize>
    ensures index { result ≡ index_of name.now (map E.name_of (map E.shown entries.now)) }
    ensures below { IfSome result (λ index. index < length entries.now) }
{
    for (index, entry) in entries.iter().enumerate() {
        if entry.name().as_bytes() == name {
            return Some(index);
        }
    }
    None
}
