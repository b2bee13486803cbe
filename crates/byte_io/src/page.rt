//! A page: bytes that wait, to be put with one call.
ghost use Rattle.std.specs.Prelude.{◌≡◌, ◌≤◌, ◌+◌, ◌↔◌, ◌++◌, [], length, decimal, IsTrue};

use crate::place::{put_array, put_number, put_text};
use std::marker::Model;

/// At most `SIZE` bytes. It is on the stack and takes no memory.
///
/// The fields are public for callers that add many pieces in turn. Such a caller puts them into the bytes by itself
/// (`place`), and keeps the place where they end in a variable. It sets `used` once, after the last of them.
#[derive(Drop)]
pub struct Page {
    /// The bytes that are used, and room for others after them.
    pub bytes: [u8; 32768],
    /// How many bytes are used.
    pub used: usize,
}

impl Model for Page {
    ghost use Rattle.std.specs.Prelude.{ℕ, List, take, ◌≤◌};

    ghost Value = { List ℕ };

    ghost view = { λ p. take p.used p.bytes };

    ghost invariant = { λ p. p.used ≤ 32768 };
}

impl Page {
    /// How many bytes a page holds at most: as many as the buffers of Rust's standard library.
    pub const SIZE: usize = 32768;

    /// A page without bytes.
    pub fn new() -> Page
        ensures { result ≡ [] }
    {
        Page {
            bytes: [0; 32768],
            used: 0,
        }
    }

    /// The bytes.
    pub fn bytes(&self) -> &[u8]
        ensures { result.now ≡ self.now }
    {
        &self.bytes[..self.used]
    }

    /// Forgets the bytes.
    pub fn clear(&mut self)
        ensures { self.new ≡ [] }
    {
        self.used = 0;
    }

    /// Whether this many more bytes fit.
    #[inline]
    pub fn has_room(&self, count: usize) -> bool
        ensures { IsTrue result ↔ (length self.now + count ≤ Self.SIZE) }
    {
        count <= Page::SIZE - self.used
    }

    /// How many more bytes fit.
    #[inline]
    pub fn room(&self) -> usize
        ensures { length self.now + result ≡ Self.SIZE }
    {
        Page::SIZE - self.used
    }

    /// Adds the text.
    #[inline]
    pub fn push_text(&mut self, text: &[u8])
        requires { length self.old + length text.now ≤ Self.SIZE }
        ensures text { self.new ≡ self.old ++ text.now }
        ensures size { length self.new ≡ length self.old + length text.now }
    {
        self.used = put_text(&mut self.bytes, self.used, text);
    }

    /// Adds all of the text. Its length is a constant, so this is a few moves of whole registers.
    #[inline(always)]
    pub fn push_array<const N: usize>(&mut self, text: &[u8; N])
        requires { length self.old + N ≤ Self.SIZE }
        ensures text { self.new ≡ self.old ++ text.now }
        ensures size { length self.new ≡ length self.old + N }
    {
        self.used = put_array(&mut self.bytes, self.used, text);
    }

    /// Adds the number in decimal digits, at most 10 of them.
    #[inline]
    pub fn push_number(&mut self, number: u32)
        requires { length self.old + 10 ≤ Self.SIZE }
        ensures text { self.new ≡ self.old ++ decimal number }
        ensures size { length self.new ≤ length self.old + 10 }
    {
        self.used = put_number(&mut self.bytes, self.used, number);
    }

    /// Adds the number in decimal digits, at most 20 of them.
    #[inline]
    pub fn push_long_number(&mut self, number: u64)
        requires { length self.old + 20 ≤ Self.SIZE }
        ensures text { self.new ≡ self.old ++ decimal number }
        ensures size { length self.new ≤ length self.old + 20 }
    {
        let mut buffer = itoa::Buffer::new();
        self.push_text(buffer.format(number).as_bytes());
    }
}
