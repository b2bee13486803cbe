//! The rows that a worker keeps.
ghost use Rattle.std.specs.Prelude.{◌≡◌, ◌<◌, ◌^◌, ◌++◌, ◌∷◌, [], length, option_map, slice_get, Some, IsTrue, OnErr, OnOk};
ghost use Rattle.rows.specs.declared.rows.KeptRow as declared;

use crate::rows::KeptRow;
use model::Memory;
use std::alloc::Global;
use std::marker::Model;

/// Rows in order. One that comes again is kept once, so of a million points that are few different ones each takes a place, and
/// no row.
#[derive(Drop)]
pub struct KeptRows {
    different: Vec<KeptRow>,
    places: Vec<usize>,
}

// Clauses see the rows in order.
impl Model for KeptRows {
    ghost use Rattle.std.specs.Prelude.{◌<◌, List, length, slice_get};
    ghost use Rattle.std.specs.List.{AllByRecursion, filter_map};
    ghost use Rattle.rows.specs.declared.rows.KeptRow.{KeptRow};

    ghost Value = { List KeptRow };

    ghost view = { λ rows. filter_map (slice_get rows.different.items) rows.places.items };

    ghost invariant = { λ rows. AllByRecursion (λ place. place < length rows.different.items) rows.places.items };
}

impl KeptRows {
    /// No rows yet, with room for this many if there is memory for it. Rows that needn't move as
    /// they become more leave no gaps behind, and unused room usually takes none of the machine's
    /// memory.
    pub fn with_room(alloc: Global, count: usize) -> KeptRows
        ensures { result ≡ [] }
    {
        let mut different = Vec::new(alloc);
        let mut places = Vec::new(alloc);
        // If there is none for all, there may be for those that come.
        let _refused = different.reserve_exact(count).is_err();
        let _refused = places.reserve_exact(count).is_err();
        KeptRows { different, places }
    }

    /// How many rows there are.
    pub fn len(&self) -> usize
        ensures value { result ≡ length self.now }
        ensures fits { result < 2 ^ 63 }
    {
        self.places.len()
    }

    /// The row of this number, from 0, if there are this many.
    pub fn get(&self, number: usize) -> Option<&KeptRow>
        ensures { option_map (λ row. row.now) result ≡ slice_get self.now number }
    {
        if number < self.len() {
            Some(self.at(number))
        } else {
            None
        }
    }

    /// The row of this number, from 0.
    pub fn at(&self, number: usize) -> &KeptRow
        requires { number < length self.now }
        ensures { slice_get self.now number ≡ Some result.now }
    {
        let place = self.places[number];
        &self.different[place]
    }

    /// Whether most rows are rows that came before.
    pub(crate) fn come_again(&self) -> bool {
        self.different.len() < self.places.len() / 2
    }

    /// The place of the row of this number among the different ones, which are in the order of their first numbers.
    pub(crate) fn place(&self, number: usize) -> usize
        requires { number < length self.now }
    {
        self.places[number]
    }

    /// Whether the row of this number is the other one once more.
    pub(crate) fn is_again(&self, number: usize, other: usize) -> bool
        requires number { number < length self.now }
        requires other { other < length self.now }
        ensures { IsTrue result → slice_get self.now other ≡ slice_get self.now number }
    {
        self.places[number] == self.places[other]
    }

    /// Appends a row.
    pub fn push(&mut self, row: KeptRow) -> Result<(), Memory>
        ensures { OnOk result (self.new ≡ self.old ++ row ∷ []) }
    {
        let place = self.different.len();
        push(&mut self.different, row)?;
        self.places.push(place)?;
        Ok(())
    }

    /// Appends the row of this number, from 0, once more.
    pub fn repeat(&mut self, number: usize) -> Result<(), Memory>
        requires { number < length self.old }
        ensures { OnOk result ((row : declared.KeptRow) → slice_get self.old number ≡ Some row → self.new ≡ self.old ++ row ∷ []) }
    {
        let place = self.places[number];
        self.places.push(place)?;
        Ok(())
    }
}

// Appends a row.
fn push(rows: &mut Vec<KeptRow>, row: KeptRow) -> Result<(), Memory>
    ensures ok { OnOk result (rows.new.items ≡ rows.old.items ++ row ∷ []) }
    ensures err { OnErr result (rows.new.items ≡ rows.old.items) }
{
    // Taken apart and made again, since the check proves no push of the whole.
    let KeptRow {
        point,
        reached,
        shared,
        link,
        steps,
        ticks,
        end,
    } = row;
    let row = KeptRow {
        point,
        reached,
        shared,
        link,
        steps,
        ticks,
        end,
    };
    if rows.push(row).is_err() {
        return Err(Memory);
    }
    Ok(())
}
