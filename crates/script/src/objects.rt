//! The objects of a document: its queues, semaphores and mutexes.
ghost use Rattle.std.specs.Prelude.{◌≡◌, map, Some, IfOk, OnOk};
ghost use Rattle.std.specs.List.{AllByRecursion};
ghost use Rattle.toml.specs.View.{table_view};
ghost use Rattle.model.specs.Scripts.{IsObjectKind};
ghost use Rattle.script.specs.Faults.{Judges, seen};
ghost use Rattle.script.specs.Entries.{ObjectEntry, object_view};
ghost use Rattle.script.specs.Sections.{kind_fault, kind_named, more_objects_fault, with_objects, objects_fault, objects_named};

use crate::entries::NamedEntries;
use crate::fault::Fault;
use crate::named_object::{NamedObject, Objects};
use crate::object_section::ObjectSection;
use crate::place::{Key, Place};
use crate::sections::{EntryReader, read_section};
use crate::values::{at_key, new_name, optional_number, required_number};
use arrayvec::ArrayVec;
use model::ObjectKind;
use std::alloc::{AllocError, Global};
use toml::Table;

// ---- the keys of an object beside its name

// The most items of a queue, as a number of the file.
pub(crate) const MOST_ITEMS: u32 = ObjectKind::MOST_ITEMS as u32;

// The most that a semaphore counts to (profile).
const MOST_COUNT: u32 = u16::MAX as u32;

// The object at this place. A binary semaphore counts to 1 and starts empty.
fn kind(section: ObjectSection, table: &Table, place: Place) -> Result<ObjectKind, Fault>
    ensures checks { Judges result
        (kind_fault section place (table_view table.now))
        (kind_named section (Some (table_view table.now))) }
    ensures formed { IfOk result IsObjectKind }
{
    match section {
        ObjectSection::Queue => {
            let length = required_number(table, place, Key::Length, 1, MOST_ITEMS)?;
            Ok(ObjectKind::Queue(length as u16))
        }
        ObjectSection::Binary => Ok(ObjectKind::Semaphore(1, 0)),
        ObjectSection::Counting => {
            let max = required_number(table, place, Key::Max, 1, MOST_COUNT)?;
            let value = at_key(table, Key::Initial);
            let initial = optional_number(value, place.key(Key::Initial), 0, max, 0)?;
            Ok(ObjectKind::Semaphore(max as u16, initial as u16))
        }
        ObjectSection::Mutex => Ok(ObjectKind::Mutex),
    }
}

// ---- the sections

#[derive(Drop)]
struct ObjectReader<'e> {
    section: ObjectSection,
    earlier: &'e NamedEntries<'e>,
}

impl<'a> EntryReader<'a> for ObjectReader<'_> {
    type Entry = NamedObject<'a>;

    ghost use Rattle.script.specs.Entries.{ObjectEntry, object_view, entries_view};
    ghost use Rattle.script.specs.Sections.{object_keys, object_named};

    ghost Shown = { ObjectEntry };

    ghost shown = { object_view };

    ghost keys = { λ r. object_keys r.section (entries_view r.earlier.now) };

    ghost named = { λ r. object_named r.section };

    fn read(
        &self,
        table: &'a Table,
        place: Place,
        before: &[NamedObject<'a>],
    ) -> Result<NamedObject<'a>, Fault> {
        let name = new_name(table, place, self.earlier, before)?;
        let kind = kind(self.section, table, place)?;
        Ok(NamedObject { name, kind })
    }
}

// Adds the objects of a section.
#[tactic(auto, unfolding(crate::specs::Sections::more_objects_fault, crate::specs::Sections::with_objects))]
fn add_section<'a>(
    objects: &mut Objects<'a>,
    section: ObjectSection,
    document: &'a Table,
) -> Result<(), Fault>
    ensures checks { Judges result
        (more_objects_fault (map object_view objects.old.items) section (table_view document.now)) tt }
    ensures added { OnOk result (map object_view objects.new.items
        ≡ with_objects (map object_view objects.old.items) section (table_view document.now)) }
{
    let earlier = NamedEntries::none();
    let reader = ObjectReader {
        section,
        earlier: &earlier,
    };
    read_section(&reader, section.section(), document, objects)
}

/// The objects of a document, 32 at most: its queues, its binary and its counting semaphores and its mutexes, numbered in
/// this order.
#[tactic(auto, unfolding(crate::specs::Sections::objects_fault, crate::specs::Sections::objects_named))]
pub(crate) fn objects(document: &Table) -> Result<Objects<'_>, Fault>
    ensures { Judges (seen (λ v. map object_view v.items) result)
        (objects_fault (table_view document.now)) (objects_named (table_view document.now)) }
{
    let mut objects = ArrayVec::new();
    add_section(&mut objects, ObjectSection::Queue, document)?;
    add_section(&mut objects, ObjectSection::Binary, document)?;
    add_section(&mut objects, ObjectSection::Counting, document)?;
    add_section(&mut objects, ObjectSection::Mutex, document)?;
    Ok(objects)
}

/// The objects without their names.
pub(crate) fn kinds_of(
    alloc: Global,
    objects: &[NamedObject<'_>],
) -> Result<Vec<ObjectKind>, AllocError>
    ensures kinds { IfOk result (λ v. v.items ≡ map (λ (o : ObjectEntry). o.kind) (map object_view objects.now)) }
    ensures formed { IfOk result (λ v. AllByRecursion IsObjectKind v.items) }
{
    let mut kinds = Vec::new(alloc);
    for object in objects {
        kinds.push(object.kind)?;
    }
    Ok(kinds)
}
