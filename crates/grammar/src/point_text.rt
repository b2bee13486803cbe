//! Which text spells which entry of points.
ghost use Rattle.std.specs.Prelude.{◌≡◌, ◌≢◌, ◌≤◌, [], List, ℕ, map, option_and_then, option_map, None, Some, IfSome, MatchOption};
ghost use Rattle.model.specs.declared.plan.PointEntry.{PointEntry};
ghost use Rattle.model.specs.Scripts.{last_point};
ghost use Rattle.grammar.specs.Grammar.{number_of, words_of};
ghost use Rattle.grammar.specs.Points.{SpellsEntry, RawEntry, after_all, all_there, entry_of, falls_from, if_point, pair_view, raw_of, raw_pair, raw_pairs, raw_view, span_between, span_of, span_of_steps, span_view, step_of};

use crate::name::is_name;
use crate::raw_point::{RawInjection, RawPoint, RawRange};
use crate::words::{Words, number_of};
use arrayvec::ArrayVec;

// The last step before which an injection may be (profile).
const LAST_STEP: u32 = 1_000_000;

// The step that a word writes, if an injection may be before it.
fn step_of(word: &[u8]) -> Option<u32>
    ensures step { result ≡ step_of word.now }
    ensures range { IfSome result (λ n. n ≤ last_point) }
{
    let step = number_of(word)?;
    if step <= LAST_STEP { Some(step) } else { None }
}

// The injection that two words spell.
fn raw_pair<'a>(word: &[u8], name: &'a [u8]) -> Option<RawInjection<'a>>
    ensures { option_map pair_view result ≡ raw_pair word.now name.now }
{
    if !is_name(name) {
        return None;
    }
    let step = step_of(word)?;
    Some(RawInjection {
        step,
        handler: name,
    })
}

// The injection that the next two words spell; the first of them is there.
fn next_pair<'a>(words: &mut Words<'a>) -> Option<RawInjection<'a>>
    requires { words.old ≢ [] }
    ensures { MatchOption result (raw_pairs words.old ≡ None)
        (λ pair. raw_pairs words.old ≡ all_there (Some (pair_view pair)) (raw_pairs words.new)) }
{
    let step = words.next()?;
    let name = words.next()?;
    raw_pair(step, name)
}

// The injections that the words spell, if they are at most three.
fn next_pairs<'a>(words: &mut Words<'a>) -> Option<ArrayVec<RawInjection<'a>, 3>>
    ensures { MatchOption result (option_and_then if_point (raw_pairs words.old) ≡ None)
        (λ pairs. raw_pairs words.old ≡ Some (map pair_view pairs.items)) }
{
    let mut pairs = ArrayVec::new();
    while !words.is_at_end() {
        if pairs.is_full() {
            return None;
        }
        pairs.push(next_pair(words)?);
    }
    Some(pairs)
}

// Whether some step is less than the one before it.
fn falls(pairs: &[RawInjection<'_>]) -> bool
    ensures { result ≡ falls_from 0 (map pair_view pairs.now) }
{
    let mut last = 0;
    for pair in pairs {
        if pair.step < last {
            return true;
        }
        last = pair.step;
    }
    false
}

// The point that a text spells, if some handlers have its names.
fn read_one(text: &[u8]) -> Option<RawPoint<'_>>
    ensures { option_map raw_view result ≡ option_and_then if_point (raw_pairs (words_of text.now)) }
{
    let pairs = next_pairs(&mut Words::new(text))?;
    if pairs.is_empty() || falls(pairs.as_slice()) {
        return None;
    }
    Some(RawPoint::One(pairs))
}

// The words after `all`, if that is the first one of a text.
fn after_all(text: &[u8]) -> Option<Words<'_>>
    ensures { result ≡ after_all (words_of text.now) }
{
    let mut words = Words::new(text);
    if words.next()? == b"all".as_slice() {
        Some(words)
    } else {
        None
    }
}

// The range of a handler from the step that one word writes to that of another.
fn range_between<'a>(handler: &'a [u8], first: &[u8], last: &[u8]) -> Option<RawRange<'a>>
    ensures { option_map span_view result ≡ span_between handler.now (step_of first.now) (step_of last.now) }
{
    let first = step_of(first)?;
    let last = step_of(last)?;
    if first > last {
        return None;
    }
    Some(RawRange {
        handler,
        first,
        last,
    })
}

// The range of a handler whose steps the words spell.
fn range_of_steps<'a>(handler: &'a [u8], words: &mut Words<'_>) -> Option<RawRange<'a>>
    ensures { option_map span_view result ≡ span_of_steps handler.now words.old }
{
    if words.is_at_end() {
        return Some(RawRange {
            handler,
            first: 0,
            last: LAST_STEP,
        });
    }
    let from = words.next()?;
    let first = words.next()?;
    let to = words.next()?;
    let last = words.next()?;
    if words.is_at_end() && from == b"from".as_slice() && to == b"to".as_slice() {
        range_between(handler, first, last)
    } else {
        None
    }
}

// The range that the words after `all` spell.
fn range_of<'a>(words: &mut Words<'a>) -> Option<RawRange<'a>>
    ensures { option_map span_view result ≡ span_of words.old }
{
    let handler = words.next()?;
    if is_name(handler) {
        range_of_steps(handler, words)
    } else {
        None
    }
}

/// The entry that a text spells, if some handlers have its names; `None` if it spells none,
/// whatever handlers there are.
pub fn read_point(text: &[u8]) -> Option<RawPoint<'_>>
    ensures { option_map raw_view result ≡ raw_of (words_of text.now) }
{
    let Some(mut words) = after_all(text) else {
        return read_one(text);
    };
    Some(RawPoint::Each(range_of(&mut words)?))
}

/// What the reader of points takes is what the grammar spells, and `BadOp` is for words that spell no entry, whatever
/// names the handlers have.
pub fn points_grammar()
    ensures sound { (names : List (List ℕ)) (ws : List (List ℕ)) (entry : PointEntry)
        → entry_of names ws ≡ Some entry → SpellsEntry names entry ws }
    ensures complete { (names : List (List ℕ)) (ws : List (List ℕ)) (entry : PointEntry)
        → SpellsEntry names entry ws → entry_of names ws ≡ Some entry }
    ensures never { (names : List (List ℕ)) (ws : List (List ℕ)) (entry : PointEntry)
        → raw_of ws ≡ None → SpellsEntry names entry ws → ⊥ }
    ensures with_some_names { (ws : List (List ℕ)) (raw : RawEntry) → raw_of ws ≡ Some raw
        → (names : List (List ℕ)) × (entry : PointEntry) × SpellsEntry names entry ws }
{}
