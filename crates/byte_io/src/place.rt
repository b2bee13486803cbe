//! Text put into bytes at a place. The place is handed on: each function returns the place at which
//! the text ends.
//!
//! What puts many pieces in turn keeps the place in a variable by this. In a field it would be stored and read again for each
//! piece, since a byte written at a place that the compiler can't bound might be the field's.
ghost use Rattle.std.specs.Prelude.{◌≡◌, ◌<◌, ◌≤◌, ◌+◌, ◌++◌, ◌∷◌, [], length, take, decimal};

use crate::numeral::Numeral;

/// Copies the text.
#[inline]
pub fn put_text(bytes: &mut [u8], at: usize, text: &[u8]) -> usize
    requires { at + length text.now ≤ length bytes.old }
    ensures end { result ≡ at + length text.now }
    ensures text { take result bytes.new ≡ take at bytes.old ++ text.now }
{
    let end = at + text.len();
    bytes[at..end].copy_from_slice(text);
    end
}

// Makes the place equal to the text.
//
// As an assignment of an array this is a few moves of whole registers. `copy_from_slice` first compares the two places, since
// it doesn't know that they don't overlap.
#[inline]
fn assign<const N: usize>(place: &mut [u8], text: &[u8; N])
    requires { length place.old ≡ N }
    ensures { place.new ≡ text.now }
{
    if let Some(array) = place.as_mut_array::<N>() {
        *array = *text;
    }
}

/// Copies this many bytes from the front of the text. There has to be room for all of the text, since all of it is copied.
#[inline(always)]
pub fn put_front<const N: usize>(bytes: &mut [u8], at: usize, text: &[u8; N], count: usize) -> usize
    requires room { at + N ≤ length bytes.old }
    requires count { count ≤ N }
    ensures end { result ≡ at + count }
    ensures text { take result bytes.new ≡ take at bytes.old ++ take count text.now }
{
    assign(&mut bytes[at..at + N], text);
    at + count
}

/// Copies all of the text. Its length is a constant, so this is a few moves of whole registers.
#[inline(always)]
pub fn put_array<const N: usize>(bytes: &mut [u8], at: usize, text: &[u8; N]) -> usize
    requires { at + N ≤ length bytes.old }
    ensures end { result ≡ at + N }
    ensures text { take result bytes.new ≡ take at bytes.old ++ text.now }
{
    put_front(bytes, at, text, N)
}

// Writes the byte.
#[inline]
fn put_byte(bytes: &mut [u8], at: usize, byte: u8) -> usize
    requires { at < length bytes.old }
    ensures end { result ≡ at + 1 }
    ensures text { take result bytes.new ≡ take at bytes.old ++ byte ∷ [] }
{
    bytes[at] = byte;
    at + 1
}

/// Writes the digits, and a byte after them.
#[inline]
pub fn put_numeral(bytes: &mut [u8], at: usize, numeral: Numeral<'_>, after: u8) -> usize
    requires { at + 16 ≤ length bytes.old }
    ensures end { result ≤ at + 12 }
    ensures text { take result bytes.new ≡ take at bytes.old ++ numeral.entry ++ after ∷ [] }
{
    let at = put_front(bytes, at, numeral.front, numeral.len);
    let at = put_byte(bytes, at, numeral.last);
    put_byte(bytes, at, after)
}

/// Writes the number in decimal digits, at most 5 of them.
#[inline]
pub fn put_short_number(bytes: &mut [u8], at: usize, number: u16) -> usize
    requires { at + 5 ≤ length bytes.old }
    ensures end { result ≤ at + 5 }
    ensures digits { result ≡ at + length (decimal number) }
    ensures text { take result bytes.new ≡ take at bytes.old ++ decimal number }
{
    let mut buffer = itoa::Buffer::new();
    put_text(bytes, at, buffer.format(number).as_bytes())
}

/// Writes the number in decimal digits, at most 10 of them.
#[inline]
pub fn put_number(bytes: &mut [u8], at: usize, number: u32) -> usize
    requires { at + 10 ≤ length bytes.old }
    ensures end { result ≤ at + 10 }
    ensures text { take result bytes.new ≡ take at bytes.old ++ decimal number }
{
    let mut buffer = itoa::Buffer::new();
    put_text(bytes, at, buffer.format(number).as_bytes())
}
