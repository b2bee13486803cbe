//! Sinks and sources that are narrow, or fail.
ghost use Rattle.std.specs.Prelude.{◌≡◌, false};

use byte_io::{Failed, Sink, Source};
use std::alloc::Global;
use std::process::Abort;

/// Holds what it is given, at most this many bytes per call. When it is full, it fails or takes no more.
#[derive(Drop)]
pub(crate) struct Holder {
    bytes: Vec<u8>,
    at_once: usize,
    room: usize,
    is_polite: bool,
    failed: bool,
}

impl Holder {
    /// A sink with this much room. When it is full, a polite one takes nothing.
    pub(crate) fn new(alloc: Global, at_once: usize, room: usize, is_polite: bool) -> Self
        ensures { result.failed ≡ false }
    {
        Holder {
            bytes: Vec::new(alloc),
            at_once,
            room,
            is_polite,
            failed: false,
        }
    }

    /// A sink with ample room.
    pub(crate) fn wide(alloc: Global, at_once: usize) -> Self
        ensures { result.failed ≡ false }
    {
        Holder::new(alloc, at_once, usize::MAX, true)
    }

    /// The bytes that it holds.
    pub(crate) fn bytes(&self) -> &[u8] {
        self.bytes.as_slice()
    }
}

impl Sink for Holder {
    ghost use Rattle.std.specs.Prelude.{Some};

    ghost held = { λ s. Some s.bytes.items };

    ghost has_failed = { λ s. s.failed };

    fn put(&mut self, bytes: &[u8]) -> Result<usize, Failed> {
        let count = bytes.len().min(self.at_once).min(self.room);
        let is_full = count == 0 && !bytes.is_empty();
        if (is_full && !self.is_polite) || self.bytes.extend_from_slice(&bytes[..count]).is_err() {
            self.failed = true;
            return Err(Failed);
        }
        self.room -= count;
        self.failed = is_full;
        Ok(count)
    }
}

/// Returns the same bytes this many times, and then fails. A folder that is read fails like this at once.
#[derive(Drop)]
pub(crate) struct Breaking {
    text: &'static [u8],
    calls: u32,
    failed: bool,
}

impl Breaking {
    pub(crate) fn new(text: &'static [u8], calls: u32) -> Self
        ensures { result.failed ≡ false }
    {
        Breaking {
            text,
            calls,
            failed: false,
        }
    }
}

impl Source for Breaking {
    ghost use Rattle.std.specs.Prelude.{None};

    ghost left = { λ s. None };

    ghost has_failed = { λ s. s.failed };

    fn pull(&mut self, buffer: &mut [u8]) -> Result<usize, Failed> {
        let count = self.text.len();
        if self.calls == 0 || buffer.len() < count {
            self.failed = true;
            return Err(Failed);
        }
        self.calls -= 1;
        buffer[..count].copy_from_slice(self.text);
        Ok(count)
    }
}

/// Compares a text with the expected one, and shows both if they differ.
pub(crate) fn check_text(rt: &impl Abort, alloc: Global, name: &str, got: &[u8], wanted: &str) {
    if got != wanted.as_bytes() {
        let got = String::from_utf8_lossy(alloc, got).expect(rt, "memory");
        panic!(rt; "{name}: got\n{got}\nin place of\n{wanted}");
    }
}
