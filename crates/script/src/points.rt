//! The points of a document's campaign.
ghost use Rattle.std.specs.Prelude.{◌≡◌, ◌≤◌, [], map, filter_map, length, option_map, true, vec_capacity, Some};
ghost use Rattle.model.specs.declared.plan.PointEntry.TheVariants.{Each};
ghost use Rattle.grammar.specs.Points.{RawEach, all_known, entry_from, is_formed, may_be_point, pair_view, raw_view, span_view};
ghost use Rattle.toml.specs.View.{view, table_view};
ghost use Rattle.script.specs.Faults.{Judges, Loads, seen};
ghost use Rattle.script.specs.Arrays.{each_fault};
ghost use Rattle.script.specs.Entries.{source_names, entries_view};
ghost use Rattle.script.specs.Points.{entry_fault, entry_named, point_elements, campaign_fault, campaign_named};

use crate::entries::NamedEntries;
use crate::fault::{Fault, FaultKind, LoadError};
use crate::interrupts::source_among;
use crate::place::{Key, Place, Section};
use crate::values::{array, at_key, at_section};
use arrayvec::ArrayVec;
use grammar::{RawInjection, RawPoint, RawRange, read_point};
use model::{App, Injection, Point, PointEntry, PointRange};
use std::alloc::Global;
use toml::{Table, Value};

// The injections, if there are handlers of their names.
fn injections(
    pairs: &[RawInjection<'_>],
    entries: &NamedEntries<'_>,
) -> Option<ArrayVec<Injection, 3>>
    requires { length pairs.now ≤ 3 }
    ensures { option_map (λ v. v.items) result ≡ all_known (source_names (entries_view entries.now)) (map pair_view pairs.now) }
{
    let mut injections = ArrayVec::new();
    for pair in pairs {
        let handler = source_among(entries, pair.handler)?;
        let step = pair.step;
        injections.push(Injection { step, handler });
    }
    Some(injections)
}

// The point of these injections, if there are handlers of their names.
fn point_of(pairs: &[RawInjection<'_>], entries: &NamedEntries<'_>) -> Option<Point>
    requires { may_be_point (map pair_view pairs.now) ≡ true }
    ensures { result ≡ all_known (source_names (entries_view entries.now)) (map pair_view pairs.now) }
{
    // Usually it is one, which needs no list.
    if let [pair] = pairs {
        return Some(Point::one(pair.step, source_among(entries, pair.handler)?));
    }
    let injections = injections(pairs, entries)?;
    Point::new(injections.as_slice()).ok()
}

// The range, if there is a handler of its name.
fn range_of(raw: &RawRange<'_>, entries: &NamedEntries<'_>) -> Option<PointRange>
    ensures { option_map Each result ≡ entry_from (source_names (entries_view entries.now)) (RawEach (span_view raw.now)) }
{
    let handler = source_among(entries, raw.handler)?;
    Some(PointRange {
        handler,
        first: raw.first,
        last: raw.last,
    })
}

// The entry, if there are handlers of its names.
fn known_entry(raw: &RawPoint<'_>, entries: &NamedEntries<'_>) -> Option<PointEntry>
    requires { is_formed (raw_view raw.now) ≡ true }
    ensures { result ≡ entry_from (source_names (entries_view entries.now)) (raw_view raw.now) }
{
    match raw {
        RawPoint::One(pairs) => Some(PointEntry::One(point_of(pairs.as_slice(), entries)?)),
        RawPoint::Each(range) => Some(PointEntry::Each(range_of(range, entries)?)),
    }
}

// The entry that a value spells.
fn entry(value: &Value, place: Place, entries: &NamedEntries<'_>) -> Result<PointEntry, Fault>
    ensures { Judges (seen Some result)
        (entry_fault (source_names (entries_view entries.now)) place (view value.now))
        (entry_named (source_names (entries_view entries.now)) (view value.now)) }
{
    let Some(text) = value.as_str() else {
        return Err(FaultKind::WrongKind.at(place));
    };
    let Some(raw) = read_point(text.as_bytes()) else {
        return Err(FaultKind::BadOp.at(place));
    };
    known_entry(&raw, entries).ok_or(FaultKind::UnknownName.at(place))
}

// Each of these entries in order, for which there is room.
fn push_all(
    mut points: Vec<PointEntry>,
    values: &[Value],
    place: Place,
    entries: &NamedEntries<'_>,
) -> Result<Vec<PointEntry>, Fault>
    requires none { points.items ≡ [] }
    requires room { length values.now ≤ vec_capacity points }
    ensures { Judges (seen (λ v. v.items) result)
        (each_fault (point_elements (source_names (entries_view entries.now)) place) tt 0 (map view values.now))
        (filter_map (entry_named (source_names (entries_view entries.now))) (map view values.now)) }
{
    for (index, value) in values.iter().enumerate() {
        points.push_reserved(entry(value, place.element(index), entries)?);
    }
    Ok(points)
}

// Checks each of these entries in order, without room for any.
fn check_all(values: &[Value], place: Place, entries: &NamedEntries<'_>) -> Result<(), Fault>
    ensures { Judges result
        (each_fault (point_elements (source_names (entries_view entries.now)) place) tt 0 (map view values.now)) tt }
{
    for (index, value) in values.iter().enumerate() {
        let _ = entry(value, place.element(index), entries)?;
    }
    Ok(())
}

// Each of these entries in order, for which room is made at once; if it is refused, they are
// checked all the same.
fn points_of(
    alloc: Global,
    values: &[Value],
    place: Place,
    entries: &NamedEntries<'_>,
) -> Result<Vec<PointEntry>, LoadError>
    ensures { Loads (seen (λ v. v.items) result)
        (each_fault (point_elements (source_names (entries_view entries.now)) place) tt 0 (map view values.now))
        (filter_map (entry_named (source_names (entries_view entries.now))) (map view values.now)) }
{
    let Ok(points) = Vec::with_capacity(alloc, values.len()) else {
        check_all(values, place, entries)?;
        return Err(LoadError::Memory);
    };
    Ok(push_all(points, values, place, entries)?)
}

/// The points of a document, in its order. Each text is read once. If memory is refused, they are
/// still checked.
#[tactic(auto, unfolding(crate::specs::Points::campaign_fault, crate::specs::Points::campaign_named))]
pub(crate) fn points(
    alloc: Global,
    document: &Table,
    entries: &NamedEntries<'_>,
) -> Result<Vec<PointEntry>, LoadError>
    ensures { Loads (seen (λ v. v.items) result)
        (campaign_fault (source_names (entries_view entries.now)) (table_view document.now))
        (campaign_named (source_names (entries_view entries.now)) (table_view document.now)) }
{
    let Some(value) = at_section(document, Section::Campaign) else {
        return Ok(Vec::new(alloc));
    };
    let place = Place::section(Section::Campaign);
    let Some(table) = value.as_table() else {
        return Err(FaultKind::WrongKind.at(place).into());
    };
    let place = place.key(Key::Points);
    let Some(points) = at_key(table, Key::Points) else {
        return Err(FaultKind::Missing.at(place).into());
    };
    let Some(values) = array(points) else {
        return Err(FaultKind::WrongKind.at(place).into());
    };
    if values.len() > App::MOST_POINTS {
        return Err(FaultKind::TooMany.at(place).into());
    }
    points_of(alloc, values, place, entries)
}
