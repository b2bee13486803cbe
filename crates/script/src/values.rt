//! What is in a table: numbers, booleans, names, arrays and texts.
ghost use Rattle.std.specs.Prelude.{◌≡◌, ◌≤◌, ◌++◌, Some, map, length, option_map, option_and_then, IfOk};
ghost use Rattle.toml.specs.Data.{get_member, as_integer};
ghost use Rattle.toml.specs.View.{view, table_view};
ghost use Rattle.model.specs.Scripts.{most_name_bytes};
ghost use Rattle.script.specs.declared.place.Key.TheVariants as key;
ghost use Rattle.script.specs.Faults.{Judges, seen, key_word, required};
ghost use Rattle.script.specs.Values.{data_of, number_fault, integer_named, number_or, number_named, boolean_fault, boolean_or, name_fault, name_named, text_elements, texts_fault, texts_named};
ghost use Rattle.script.specs.Arrays.{each_fault, array_of};
ghost use Rattle.script.specs.Entries.{entries_view, names_of};
ghost use Rattle.script.specs.Sections.{data_at};

use crate::entries::NamedEntries;
use crate::fault::{Fault, FaultKind};
use crate::named::{Named, has_name};
use crate::place::{Key, Place, Section};
use grammar::is_name;
use toml::{Table, Value};

// ---- what is there

// What is at a word.
fn member<'a>(table: &'a Table, word: &str) -> Option<&'a Value>
    ensures { data_of result ≡ get_member word.now (table_view table.now) }
{
    table.get(word)
}

/// What is at a key.
pub(crate) fn at_key<'a>(table: &'a Table, key: Key) -> Option<&'a Value>
    ensures { data_of result ≡ get_member (key_word key) (table_view table.now) }
{
    member(table, key.word())
}

/// What is at a section of a document.
pub(crate) fn at_section<'a>(document: &'a Table, section: Section) -> Option<&'a Value>
    ensures { data_of result ≡ data_at section (table_view document.now) }
{
    member(document, section.word())
}

/// The elements of an array.
#[tactic(auto, using(crate::proofs::Views::list_of_view))]
pub(crate) fn array(value: &Value) -> Option<&[Value]>
    ensures { option_map (λ values. map view values.now) result ≡ array_of (view value.now) }
{
    match value.as_array() {
        Some(values) => Some(values.as_slice()),
        None => None,
    }
}

// ---- numbers

// A number of this range.
fn long_number(value: &Value, place: Place, least: u64, most: u64) -> Result<u64, Fault>
    ensures checks { Judges result (number_fault least most place (view value.now))
        (integer_named (as_integer (view value.now))) }
    ensures range { IfOk result (λ n. (least ≤ n) × (n ≤ most)) }
{
    match value.as_integer() {
        None => Err(FaultKind::WrongKind.at(place)),
        Some(number) => match u64::try_from(number) {
            Ok(number) if least <= number && number <= most => Ok(number),
            _ => Err(FaultKind::OutOfRange.at(place)),
        },
    }
}

// The same of 32 bits.
fn number(value: &Value, place: Place, least: u32, most: u32) -> Result<u32, Fault>
    ensures checks { Judges result (number_fault least most place (view value.now))
        (integer_named (as_integer (view value.now))) }
    ensures range { IfOk result (λ n. (least ≤ n) × (n ≤ most)) }
{
    let number = long_number(value, place, least as u64, most as u64)?;
    Ok(number as u32)
}

/// A number of this range, or the default if there is none.
pub(crate) fn optional_long_number(
    value: Option<&Value>,
    place: Place,
    least: u64,
    most: u64,
    default: u64,
) -> Result<u64, Fault>
    requires low { least ≤ default }
    requires high { default ≤ most }
    ensures checks { Judges result
        (option_and_then (number_fault least most place) (data_of value.entry))
        (number_or default (data_of value.entry)) }
    ensures range { IfOk result (λ n. (least ≤ n) × (n ≤ most)) }
{
    match value {
        None => Ok(default),
        Some(value) => long_number(value, place, least, most),
    }
}

/// The same of 32 bits.
pub(crate) fn optional_number(
    value: Option<&Value>,
    place: Place,
    least: u32,
    most: u32,
    default: u32,
) -> Result<u32, Fault>
    requires low { least ≤ default }
    requires high { default ≤ most }
    ensures checks { Judges result
        (option_and_then (number_fault least most place) (data_of value.entry))
        (number_or default (data_of value.entry)) }
    ensures range { IfOk result (λ n. (least ≤ n) × (n ≤ most)) }
{
    match value {
        None => Ok(default),
        Some(value) => number(value, place, least, most),
    }
}

/// The number of this range at a key.
pub(crate) fn required_number(
    table: &Table,
    place: Place,
    key: Key,
    least: u32,
    most: u32,
) -> Result<u32, Fault>
    ensures checks { Judges result
        (required place key (number_fault least most) (table_view table.now))
        (number_named key (Some (table_view table.now))) }
    ensures range { IfOk result (λ n. (least ≤ n) × (n ≤ most)) }
{
    match at_key(table, key) {
        None => Err(FaultKind::Missing.at(place.key(key))),
        Some(value) => number(value, place.key(key), least, most),
    }
}

// ---- booleans

/// A boolean, or the default if there is none.
pub(crate) fn optional_boolean(
    value: Option<&Value>,
    place: Place,
    default: bool,
) -> Result<bool, Fault>
    ensures { Judges result
        (option_and_then (boolean_fault place) (data_of value.entry)) (boolean_or default (data_of value.entry)) }
{
    let Some(value) = value else {
        return Ok(default);
    };
    match value.as_bool() {
        Some(boolean) => Ok(boolean),
        None => Err(FaultKind::WrongKind.at(place)),
    }
}

// ---- names

/// The name of an entry, which no earlier entry has, in the sections before or in its own.
pub(crate) fn new_name<'a, E: Named>(
    table: &'a Table,
    place: Place,
    earlier: &NamedEntries<'_>,
    before: &[E],
) -> Result<&'a str, Fault>
    ensures checks { Judges (seen (λ name. name.now) result)
        (required place key.Name (name_fault (names_of (entries_view earlier.now)
        ++ map E.name_of (map E.shown before.now))) (table_view table.now))
        (name_named (Some (table_view table.now))) }
    ensures length { IfOk result (λ name. length name.now ≤ most_name_bytes) }
{
    let place = place.key(Key::Name);
    let Some(value) = at_key(table, Key::Name) else {
        return Err(FaultKind::Missing.at(place));
    };
    let Some(name) = value.as_str() else {
        return Err(FaultKind::WrongKind.at(place));
    };
    if !is_name(name.as_bytes()) {
        return Err(FaultKind::OutOfRange.at(place));
    }
    if earlier.has_name(name) || has_name(before, name) {
        return Err(FaultKind::DoubleName.at(place));
    }
    Ok(name)
}

// ---- texts

// Each is a text.
fn check_texts(values: &[Value], place: Place) -> Result<(), Fault>
    ensures { Judges result (each_fault (text_elements place) tt 0 (map view values.now)) tt }
{
    for (index, value) in values.iter().enumerate() {
        if !value.is_str() {
            return Err(FaultKind::WrongKind.at(place.element(index)));
        }
    }
    Ok(())
}

/// The texts at a key, at most this many.
pub(crate) fn texts<'a>(
    table: &'a Table,
    place: Place,
    key: Key,
    most: usize,
) -> Result<&'a [Value], Fault>
    ensures checks { Judges (seen (λ texts. map view texts.now) result)
        (required place key (texts_fault most) (table_view table.now))
        (texts_named key (Some (table_view table.now))) }
    ensures few { IfOk result (λ texts. length texts.now ≤ most) }
{
    let place = place.key(key);
    let Some(value) = at_key(table, key) else {
        return Err(FaultKind::Missing.at(place));
    };
    let Some(values) = array(value) else {
        return Err(FaultKind::WrongKind.at(place));
    };
    if values.len() > most {
        return Err(FaultKind::TooMany.at(place));
    }
    check_texts(values, place)?;
    Ok(values)
}
