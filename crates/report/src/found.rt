//! The lines of what is found among all placements, to a page before a sink.
ghost use Rattle.std.specs.Prelude.{◌≡◌, ◌≤◌, ◌+◌, ◌++◌, length, decimal, false};
ghost use Rattle.std.specs.Result.{is_err};
ghost use Rattle.byte_io.specs.Bytes.{Adds};
ghost use Rattle.report.specs.Found.{found_of, found_text, placement_text, placements_text, placements_total_text};

use crate::text::{push_injections, push_verdict};
use byte_io::{Page, Sink, WriteFault, make_room};
use model::{App, Ending, Injection};

// The room that a number of 128 bits needs at most.
const MAX_DIGITS: usize = 40;

// The room that the line of an end needs at most: a verdict of at most 64 bytes, injections of at most 83, a number of 128 bits, steps
// of 10 digits, ticks of 20, and 43 bytes of words.
const MAX_FOUND: usize = 260;

// The room that the last line needs at most, with its 7 bytes of words.
const MAX_TOTAL: usize = MAX_DIGITS + 7;

// Adds a number of 128 bits.
fn push_wide_number(page: &mut Page, number: u128)
    requires { length page.old + MAX_DIGITS ≤ Page.SIZE }
    ensures text { page.new ≡ page.old ++ decimal number }
    ensures size { length page.new ≤ length page.old + MAX_DIGITS }
{
    let mut buffer = itoa::Buffer::new();
    page.push_text(buffer.format(number).as_bytes());
}

// Adds how many placements there are: 51 bytes at most.
fn push_placements(page: &mut Page, number: u128)
    requires { length page.old + 51 ≤ Page.SIZE }
    ensures text { page.new ≡ page.old ++ placements_text number }
    ensures size { length page.new ≤ length page.old + 51 }
{
    push_wide_number(page, number);
    if number == 1 {
        page.push_array(b" placement");
    } else {
        page.push_array(b" placements");
    }
}

// Adds the injections of a placement: 83 bytes at most.
fn push_placement(page: &mut Page, app: &App, injections: &[Injection])
    requires room { length page.old + 83 ≤ Page.SIZE }
    requires few { length injections.now ≤ 3 }
    ensures text { page.new ≡ page.old ++ placement_text app.now injections.now }
    ensures size { length page.new ≤ length page.old + 83 }
{
    if injections.is_empty() {
        page.push_array(b"none");
    } else {
        push_injections(page, app, injections);
    }
}

// Adds the line of an end.
fn push_found(page: &mut Page, app: &App, number: u128, least: &[Injection], ending: Ending)
    requires room { length page.old + MAX_FOUND ≤ Page.SIZE }
    requires few { length least.now ≤ 3 }
    ensures { page.new ≡ page.old ++ found_text app.now (found_of number least.now ending) }
{
    push_verdict(page, app, ending.end);
    page.push_array(b": ");
    push_placements(page, number);
    page.push_array(b", least is ");
    push_placement(page, app, least);
    page.push_array(b" in ");
    page.push_number(ending.steps);
    page.push_array(b" steps, ");
    page.push_long_number(ending.ticks);
    page.push_array(b" ticks\n");
}

// Adds the last line.
fn push_placements_total(page: &mut Page, number: u128)
    requires { length page.old + MAX_TOTAL ≤ Page.SIZE }
    ensures { page.new ≡ page.old ++ placements_total_text number }
{
    page.push_array(b"total ");
    push_wide_number(page, number);
    page.push_array(b"\n");
}

/// Adds the line of an end that this many placements have; the least of them has these injections
/// and this ending.
///
/// At `Err` the writer failed or took none of some bytes, and it has taken a beginning of the page's bytes and the line.
pub fn add_found<W: Sink>(
    writer: &mut W,
    page: &mut Page,
    app: &App,
    number: u128,
    least: &[Injection],
    ending: Ending,
) -> Result<(), WriteFault>
    requires working { W.has_failed writer.old ≡ false }
    requires few { length least.now ≤ 3 }
    ensures text { Adds (W.held writer.old) (W.held writer.new) page.old page.new result
        (found_text app.now (found_of number least.now ending)) }
    ensures failed { W.has_failed writer.new ≡ is_err result }
{
    make_room(writer, page, MAX_FOUND)?;
    push_found(page, app, number, least, ending);
    Ok(())
}

/// Adds the last line: how many placements there are in all. At `Err` it is as with `add_found`.
pub fn add_placements_total<W: Sink>(
    writer: &mut W,
    page: &mut Page,
    number: u128,
) -> Result<(), WriteFault>
    requires { W.has_failed writer.old ≡ false }
    ensures text { Adds (W.held writer.old) (W.held writer.new) page.old page.new result (placements_total_text number) }
    ensures failed { W.has_failed writer.new ≡ is_err result }
{
    make_room(writer, page, MAX_TOTAL)?;
    push_placements_total(page, number);
    Ok(())
}
