//! Sections, whose entries are read one after the other.
ghost use Rattle.std.specs.Prelude.{◌≡◌, ◌≤◌, ◌+◌, ◌-◌, ◌++◌, [], map, length, OnOk};
ghost use Rattle.toml.specs.Data.{as_table};
ghost use Rattle.toml.specs.View.{view, table_view};
ghost use Rattle.script.specs.declared.fault.FaultKind.TheVariants.{WrongKind, TooMany};
ghost use Rattle.script.specs.Faults.{Judges, seen, at_section, fault_at, need};
ghost use Rattle.script.specs.Arrays.{tables, each_fault, section_fault, section_named};
ghost use Rattle.script.specs.Sections.{data_at};

use crate::fault::{Fault, FaultKind};
use crate::place::{Place, Section};
use crate::values::{array, at_section};
use arrayvec::ArrayVec;
use toml::{Table, Value};

/// Reads the entries of a section.
pub(crate) trait EntryReader<'a> {
    type Entry: Default + Drop;

    ghost use Rattle.std.specs.Prelude.{List, Option, Some, map};
    ghost use Rattle.toml.specs.Data.{Members};
    ghost use Rattle.toml.specs.View.{table_view};
    ghost use Rattle.script.specs.declared.fault.Fault.{Fault};
    ghost use Rattle.script.specs.declared.place.Place.{Place};
    ghost use Rattle.script.specs.Faults.{Judges, seen};

    // What clauses see of an entry.
    ghost Shown: { Type 0 };

    ghost shown: { Self.Entry → Shown };

    // The checks of its keys, after the entries before it.
    ghost keys: { Self → List Shown → Place → Members → Option Fault };

    // What it is.
    ghost named: { Self → Option Members → Shown };

    /// The entry of this table, which is at this place, after the entries before it.
    fn read(
        &self,
        table: &'a Table,
        place: Place,
        before: &[Self::Entry],
    ) -> Result<Self::Entry, Fault>
        ensures { Judges (seen shown result)
            (keys self.now (map shown before.now) place (table_view table.now))
            (named self.now (Some (table_view table.now))) };
}

// The entry at this place, which has to be a table.
fn read_entry<'a, R: EntryReader<'a>>(
    reader: &R,
    value: &'a Value,
    place: Place,
    before: &[R::Entry],
) -> Result<R::Entry, Fault>
    ensures { Judges (seen R.shown result)
        (need (fault_at WrongKind place) (as_table (view value.now))
        (R.keys reader.now (map R.shown before.now) place))
        (R.named reader.now (as_table (view value.now))) }
{
    let Some(table) = value.as_table() else {
        return Err(FaultKind::WrongKind.at(place));
    };
    reader.read(table, place, before)
}

// Reads each of these entries, after those before.
fn read_each<'a, R: EntryReader<'a>, const N: usize>(
    reader: &R,
    section: Section,
    values: &'a [Value],
    read: &mut ArrayVec<R::Entry, N>,
) -> Result<(), Fault>
    requires { length read.old.items + length values.now ≤ N }
    ensures checks { Judges result
        (each_fault (tables section (R.named reader.now) (R.keys reader.now))
        (map R.shown read.old.items) 0 (map view values.now)) tt }
    ensures added { OnOk result (map R.shown read.new.items ≡ map R.shown read.old.items
        ++ map (λ d. R.named reader.now (as_table d)) (map view values.now)) }
{
    for (index, value) in values.iter().enumerate() {
        let entry = read_entry(reader, value, Place::entry(section, index), read.as_slice())?;
        read.push(entry);
    }
    Ok(())
}

/// Reads the entries of a section, which may be left out, after those before: together no more than there may be.
pub(crate) fn read_section<'a, R: EntryReader<'a>, const N: usize>(
    reader: &R,
    section: Section,
    document: &'a Table,
    read: &mut ArrayVec<R::Entry, N>,
) -> Result<(), Fault>
    ensures checks { Judges result
        (section_fault N section (R.named reader.now) (R.keys reader.now) (map R.shown read.old.items)
        (data_at section (table_view document.now))) tt }
    ensures added { OnOk result (map R.shown read.new.items ≡ map R.shown read.old.items
        ++ section_named (R.named reader.now) (data_at section (table_view document.now))) }
{
    let Some(value) = at_section(document, section) else {
        return Ok(());
    };
    let Some(values) = array(value) else {
        return Err(FaultKind::WrongKind.at(Place::section(section)));
    };
    if values.len() > read.remaining_capacity() {
        return Err(FaultKind::TooMany.at(Place::section(section)));
    }
    read_each(reader, section, values, read)
}

/// All entries of a section, which may be left out.
pub(crate) fn whole_section<'a, R: EntryReader<'a>, const N: usize>(
    reader: &R,
    section: Section,
    document: &'a Table,
) -> Result<ArrayVec<R::Entry, N>, Fault>
    ensures { Judges (seen (λ v. map R.shown v.items) result)
        (section_fault N section (R.named reader.now) (R.keys reader.now) [] (data_at section (table_view document.now)))
        (section_named (R.named reader.now) (data_at section (table_view document.now))) }
{
    let mut entries = ArrayVec::new();
    read_section(reader, section, document, &mut entries)?;
    Ok(entries)
}
