//! A line of text, made of pieces.
ghost use Rattle.std.specs.Prelude.{◌≡◌, ◌∷◌, ◌++◌, codes, false, map};
ghost use Rattle.std.specs.List.{flat_map};
ghost use Rattle.std.specs.Result.{is_err};
ghost use Rattle.byte_io.specs.Bytes.{Writes, Adds};
ghost use Rattle.byte_io.specs.Line.{piece_text, spaced_text, joined_line};
ghost use Rattle.byte_io.specs.Shown.{shown_name};

use crate::add::{add_text, flush};
use crate::page::Page;
use crate::put::WriteFault;
use crate::shown::add_shown;
use crate::stream::Sink;

/// A piece of a line.
#[derive(Clone, Copy)]
pub enum Piece<'a> {
    /// The text itself.
    Text(&'a str),
    /// A name from outside: its control characters are escaped.
    Name(&'a str),
    /// The same, and a colon.
    Label(&'a str),
    /// A number in decimal digits.
    Number(u64),
}

impl Default for Piece<'_> {
    fn default() -> Self {
        Piece::Text("")
    }
}

// Adds a name from outside, and a colon.
fn add_label<W: Sink>(writer: &mut W, page: &mut Page, name: &str) -> Result<(), WriteFault>
    requires { W.has_failed writer.old ≡ false }
    ensures text { Adds (W.held writer.old) (W.held writer.new) page.old page.new result
        (shown_name name.now ++ codes ":") }
    ensures failed { W.has_failed writer.new ≡ is_err result }
{
    add_shown(writer, page, name, false)?;
    add_text(writer, page, b":")
}

fn add_piece<W: Sink>(writer: &mut W, page: &mut Page, piece: Piece<'_>) -> Result<(), WriteFault>
    requires { W.has_failed writer.old ≡ false }
    ensures text { Adds (W.held writer.old) (W.held writer.new) page.old page.new result
        (piece_text piece.entry) }
    ensures failed { W.has_failed writer.new ≡ is_err result }
{
    match piece {
        Piece::Text(text) => add_text(writer, page, text.as_bytes()),
        Piece::Name(name) => add_shown(writer, page, name, false),
        Piece::Label(name) => add_label(writer, page, name),
        Piece::Number(number) => {
            let mut buffer = itoa::Buffer::new();
            add_text(writer, page, buffer.format(number).as_bytes())
        }
    }
}

fn add_spaced<W: Sink>(writer: &mut W, page: &mut Page, piece: Piece<'_>) -> Result<(), WriteFault>
    requires { W.has_failed writer.old ≡ false }
    ensures text { Adds (W.held writer.old) (W.held writer.new) page.old page.new result
        (spaced_text (piece_text piece.entry)) }
    ensures failed { W.has_failed writer.new ≡ is_err result }
{
    add_text(writer, page, b" ")?;
    add_piece(writer, page, piece)
}

fn add_others<W: Sink>(
    writer: &mut W,
    page: &mut Page,
    others: &[Piece<'_>],
) -> Result<(), WriteFault>
    requires { W.has_failed writer.old ≡ false }
    ensures text { Adds (W.held writer.old) (W.held writer.new) page.old page.new result
        (flat_map (λ piece. spaced_text (piece_text piece)) others.now) }
    ensures failed { W.has_failed writer.new ≡ is_err result }
{
    for piece in others {
        add_spaced(writer, page, *piece)?;
    }
    Ok(())
}

fn add_all<W: Sink>(
    writer: &mut W,
    page: &mut Page,
    first: Piece<'_>,
    others: &[Piece<'_>],
) -> Result<(), WriteFault>
    requires { W.has_failed writer.old ≡ false }
    ensures text { Adds (W.held writer.old) (W.held writer.new) page.old page.new result
        (joined_line (map piece_text (first.entry ∷ others.now))) }
    ensures failed { W.has_failed writer.new ≡ is_err result }
{
    add_piece(writer, page, first)?;
    add_others(writer, page, others)?;
    add_text(writer, page, b"\n")
}

#[tactic(auto, using(std::proofs::lemmas::Slice::first_rest))]
fn add_line<W: Sink>(
    writer: &mut W,
    page: &mut Page,
    pieces: &[Piece<'_>],
) -> Result<(), WriteFault>
    requires { W.has_failed writer.old ≡ false }
    ensures text { Adds (W.held writer.old) (W.held writer.new) page.old page.new result
        (joined_line (map piece_text pieces.now)) }
    ensures failed { W.has_failed writer.new ≡ is_err result }
{
    match pieces {
        [] => add_text(writer, page, b"\n"),
        [first, others @ ..] => add_all(writer, page, *first, others),
    }
}

/// Writes a line: its pieces, with a single space between each two, and a line feed. At `Err` the writer failed or took
/// none of some bytes, and it has taken a beginning of the line.
// It has a page on the stack, and few jobs end by such a line.
#[inline(never)]
pub fn write_line<W: Sink>(writer: &mut W, pieces: &[Piece<'_>]) -> Result<(), WriteFault>
    requires { W.has_failed writer.old ≡ false }
    ensures text { Writes (W.held writer.old) (W.held writer.new) result
        (joined_line (map piece_text pieces.now)) }
    ensures failed { W.has_failed writer.new ≡ is_err result }
{
    let mut page = Page::new();
    add_line(writer, &mut page, pieces)?;
    flush(writer, &mut page)
}
