//! A piece of a report's rows.
ghost use Rattle.std.specs.Prelude.{◌≡◌, ◌<◌, ◌+◌, length, IfOk};
ghost use Rattle.rows.specs.Report.{whole, IsPlace, IsSound};
ghost use Rattle.rows.specs.Pieces.{piece_rows, ArePieces, IsAt, IsPiece};

use crate::campaign_report::Rows;
use crate::cursor::Cursor;
use crate::rows::Place;
use model::Memory;
use report::View;
use std::alloc::Global;

// When the text of a piece is guessed, at most this many rows are taken to be as long as the first
// of them.
const MOST_ALIKE: usize = 16;

// This many if only heads are written, which are all of about the same length.
const MOST_HEADS: usize = 1024;

/// This many rows of a report, from the cursor on.
#[derive(Clone, Copy)]
pub(crate) struct Piece {
    pub(crate) from: Cursor,
    pub(crate) count: usize,
}

// How long a head line is taken to be, in bytes.
const HEAD: usize = 64;

// A guess at how many bytes the view shows of the first row of a place: 32 for each line, and as many lines a step as the base run has. It is
// at least 1.
fn guess(rows: &Rows, place: &Place) -> usize
    requires place { IsPlace rows.now.parts.items place.now }
    requires some { 0 < place.now.count }
    ensures { 0 < result }
{
    // No row is looked at, even if the view shows only some: to read them all would cost more than
    // pieces of other lengths.
    if rows.view.heads {
        return HEAD;
    }
    let row = rows.parts[place.part].kept.at(place.first);
    if !rows.view.shows(row.end) {
        return 1;
    }
    let base = &rows.base;
    let steps = (base.steps as usize).max(1);
    let lines = base.events.len().saturating_mul(row.steps as usize) / steps;
    lines.saturating_add(1).saturating_mul(32)
}

// How many rows are taken for as long as the first of them.
fn most_alike(view: View) -> usize
    ensures { 0 < result }
{
    if view.heads { MOST_HEADS } else { MOST_ALIKE }
}

impl Piece {
    /// All rows.
    pub(crate) fn all(rows: &Rows) -> Piece
        requires { IsSound rows.now }
        ensures piece { IsPiece rows.now result }
        ensures from { result.from.number ≡ 0 }
        ensures rows { piece_rows rows.now result ≡ whole rows.now }
    {
        Piece {
            from: Cursor::start(),
            count: rows.count(),
        }
    }

    /// The rows after the cursor whose text takes about this many bytes, or all that are left. The
    /// cursor goes over them. How long a text is, is a guess.
    pub(crate) fn next(cursor: &mut Cursor, rows: &Rows, bytes: usize) -> Piece
        requires sound { IsSound rows.now }
        requires at { IsAt rows.now cursor.old }
        requires some { 0 < bytes }
        ensures at { IsAt rows.now cursor.new }
        ensures piece { IsPiece rows.now result }
        ensures from { result.from ≡ cursor.old }
        ensures number { cursor.new.number ≡ cursor.old.number + result.count }
        ensures more { cursor.old.number < length (whole rows.now) → 0 < result.count }
    {
        let from = *cursor;
        let total = rows.count();
        let mut most = 1;
        let mut left = bytes;
        while left > 0 && cursor.number < total {
            let place = cursor.take(rows, most);
            let each = guess(rows, &place);
            left = left.saturating_sub(each.saturating_mul(place.count));
            most = (left / each).clamp(1, most_alike(rows.view));
        }
        Piece {
            from,
            count: cursor.number - from.number,
        }
    }
}

/// All rows, in pieces whose texts take about this many bytes each.
pub(crate) fn pieces_of(alloc: Global, rows: &Rows, bytes: usize) -> Result<Vec<Piece>, Memory>
    requires sound { IsSound rows.now }
    requires some { 0 < bytes }
    ensures { IfOk result (λ pieces. ArePieces rows.now 0 (length (whole rows.now)) pieces.items) }
{
    let total = rows.count();
    let mut pieces = Vec::new(alloc);
    let mut cursor = Cursor::start();
    while cursor.number < total {
        pieces.push(Piece::next(&mut cursor, rows, bytes))?;
    }
    Ok(pieces)
}
