//! All digits of a number but the last, kept for the next number.
ghost use Rattle.std.specs.Prelude.{◌≡◌, ◌<◌, ◌+◌, ◌*◌, ◌/◌, ◌^◌, true, false, decimal, slice_set};

use byte_io::Numeral;
use std::marker::Model;
use std::simd::prelude::*;

/// All digits of a number but the last one, at the front of 16 bytes; none of a number below 10.
///
/// Numbers that count up share them ten at a time. The last digit is kept apart: a copy of 16 bytes,
/// one of which was just written, has to wait until that byte has left the processor's store
/// buffer.
#[derive(Drop)]
pub(crate) struct Tens {
    text: [u8; 16],
    len: usize,
    // The number that has these digits and then a 0. A `u64`, so that what a number is above it never wraps to below 10.
    first: u64,
}

// Clauses see that number.
impl Model for Tens {
    ghost use Rattle.std.specs.Prelude.{ℕ};
    ghost use Rattle.report.specs.Tens.{AreTens};

    ghost Value = { ℕ };

    ghost view = { λ t. t.first };

    ghost invariant = { λ t. AreTens t.first t.len t.text };
}

// The digit that is carried.
const NINE: u8 = b'9';

// The places of 16 bytes.
const PLACES: [u8; 16] = [0, 1, 2, 3, 4, 5, 6, 7, 8, 9, 10, 11, 12, 13, 14, 15];

// The text with another byte at this place.
//
// It is made as a whole, so that it is also stored as a whole: a copy of 16 bytes, one of which
// was just written, has to wait until that byte has left the processor's store buffer.
fn replaced(text: &[u8; 16], at: u8, byte: u8) -> [u8; 16]
    requires { at < 16 }
    ensures { result ≡ slice_set text.now at byte }
{
    let is_there = u8x16::from_array(PLACES).simd_eq(u8x16::splat(at));
    is_there
        .select(u8x16::splat(byte), u8x16::from_array(*text))
        .to_array()
}

impl Tens {
    /// No digits, which numbers below 10 have.
    pub(crate) fn new() -> Tens
        ensures { result ≡ 0 }
    {
        Tens {
            text: [0; 16],
            len: 0,
            first: 0,
        }
    }

    // Renders the digits of this number, which is not 0.
    #[inline(never)]
    fn render(&mut self, tens: u32)
        requires few { tens * 10 < 2 ^ 32 }
        requires some { 0 < tens }
        ensures { self.new ≡ 10 * tens }
    {
        let mut buffer = itoa::Buffer::new();
        let digits = buffer.format(tens).as_bytes();
        let len = digits.len();
        self.text[..len].copy_from_slice(digits);
        self.len = len;
        self.first = 10 * tens as u64;
    }

    // Goes on to the next ten if that changes one digit alone, and returns whether it did.
    fn count_up(&mut self) -> bool
        requires { self.old + 10 < 2 ^ 32 }
        ensures counted { result ≡ true → self.new ≡ self.old + 10 }
        ensures kept { result ≡ false → self.new ≡ self.old }
    {
        if self.len == 0 {
            return false;
        }
        let digit = self.text[self.len - 1];
        if digit >= NINE {
            return false;
        }
        let text = replaced(&self.text, self.len as u8 - 1, digit + 1);
        self.text = text;
        self.first += 10;
        true
    }

    // Takes the digits of another number, most often of the next ten.
    #[inline(never)]
    fn renew(&mut self, number: u32)
        ensures { self.new ≡ 10 * (number / 10) }
    {
        let above = (number as u64).wrapping_sub(self.first);
        if above >= 10 && above < 20 && self.count_up() {
            return;
        }
        if number < 10 {
            self.len = 0;
            self.first = 0;
        } else {
            self.render(number / 10);
        }
    }

    // Takes the digits that the number has, if these are others.
    #[inline]
    fn set(&mut self, number: u32)
        ensures { self.new ≡ 10 * (number / 10) }
    {
        let last = (number as u64).wrapping_sub(self.first);
        if last >= 10 {
            self.renew(number);
        }
    }

    /// The digits of the number.
    #[inline]
    pub(crate) fn numeral(&mut self, number: u32) -> Numeral<'_>
        ensures { result ≡ decimal number }
    {
        self.set(number);
        let last = (number as u64 - self.first) as u8;
        Numeral::new(&self.text, self.len, b'0' + last)
    }
}
