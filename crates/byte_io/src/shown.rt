//! Texts as they are shown to a reader: their control characters are escaped.
ghost use Rattle.std.specs.Prelude.{◌≡◌, ◌<◌, false};
ghost use Rattle.std.specs.Char.{digit_char};
ghost use Rattle.std.specs.Result.{is_err};
ghost use Rattle.byte_io.specs.Bytes.{Adds, Writes};
ghost use Rattle.byte_io.specs.Shown.{escape, is_plain, shown, shown_char, shown_lines};

use crate::add::{add_text, flush};
use crate::page::Page;
use crate::put::WriteFault;
use crate::stream::Sink;

// A hexadecimal digit.
fn digit(value: u32) -> u8
    requires { value < 16 }
    ensures { result ≡ digit_char value }
{
    if value < 10 {
        b'0' + value as u8
    } else {
        b'a' - 10 + value as u8
    }
}

// The escape of a control character.
fn escape(c: u32) -> [u8; 6]
    requires { c < 256 }
    ensures { result ≡ escape c }
{
    [b'\\', b'u', b'{', digit(c / 16), digit(c % 16), b'}']
}

// Whether a character is shown as it is: any but a control character, and of a text of lines the line feed too.
fn is_plain(c: char, lines: bool) -> bool
    ensures { result ≡ is_plain lines c }
{
    !c.is_control() || lines && c == '\n'
}

fn add_char<W: Sink>(
    writer: &mut W,
    page: &mut Page,
    c: char,
    lines: bool,
) -> Result<(), WriteFault>
    requires { W.has_failed writer.old ≡ false }
    ensures text { Adds (W.held writer.old) (W.held writer.new) page.old page.new result
        (shown_char lines c) }
    ensures failed { W.has_failed writer.new ≡ is_err result }
{
    if is_plain(c, lines) {
        let mut bytes = [0; 4];
        add_text(writer, page, c.encode_utf8(&mut bytes).as_bytes())
    } else {
        add_text(writer, page, &escape(c as u32))
    }
}

// Adds a text as it is shown.
pub(crate) fn add_shown<W: Sink>(
    writer: &mut W,
    page: &mut Page,
    text: &str,
    lines: bool,
) -> Result<(), WriteFault>
    requires { W.has_failed writer.old ≡ false }
    ensures text { Adds (W.held writer.old) (W.held writer.new) page.old page.new result
        (shown lines text.now) }
    ensures failed { W.has_failed writer.new ≡ is_err result }
{
    for c in text.chars() {
        add_char(writer, page, c, lines)?;
    }
    Ok(())
}

/// Puts a text of lines as it is shown: its control characters are escaped, except for the line feeds. At `Err` the writer failed
/// or took none of some bytes, and it has taken a beginning of that.
// It has a page on the stack, and few jobs put such a text.
#[inline(never)]
pub fn put_lines<W: Sink>(writer: &mut W, text: &str) -> Result<(), WriteFault>
    requires { W.has_failed writer.old ≡ false }
    ensures text { Writes (W.held writer.old) (W.held writer.new) result (shown_lines text.now) }
    ensures failed { W.has_failed writer.new ≡ is_err result }
{
    let mut page = Page::new();
    add_shown(writer, &mut page, text, true)?;
    flush(writer, &mut page)
}
