//! Bytes in memory, as a sink.
ghost use Rattle.std.specs.Prelude.{◌≡◌, ◌≤◌, ◌++◌, [], Some, false, length, MatchResult};

use crate::stream::{Failed, Sink};
use std::alloc::Global;

/// Bytes that are kept in memory, at most this many. As a sink it takes all bytes of a call or
/// fails: if they are too many, or if it gets no memory for them.
#[derive(Drop)]
pub struct Buffer {
    bytes: Vec<u8>,
    most: usize,
    failed: bool,
    ghost within: { length bytes.items ≤ most },
}

impl Buffer {
    ghost use Rattle.byte_io.specs.Buffers.{bytes_of, most_of, buffer_failed};

    /// A buffer without bytes, for at most this many. It takes no memory yet.
    pub fn new(alloc: Global, most: usize) -> Buffer
        ensures bytes { bytes_of result ≡ [] }
        ensures most { most_of result ≡ most }
        ensures working { buffer_failed result ≡ false }
    {
        Buffer {
            bytes: Vec::new(alloc),
            most,
            failed: false,
        }
    }

    /// The bytes, at most as many as it is for.
    pub fn bytes(&self) -> &[u8]
        ensures bytes { result.now ≡ bytes_of self.now }
        ensures within { length result.now ≤ most_of self.now }
    {
        &self.bytes
    }

    /// Whether a call has failed.
    pub fn has_failed(&self) -> bool
        ensures { result ≡ buffer_failed self.now }
    {
        self.failed
    }

    /// Forgets the bytes, and that a call has failed. The memory is kept.
    pub fn clear(&mut self)
        ensures bytes { bytes_of self.new ≡ [] }
        ensures most { most_of self.new ≡ most_of self.old }
        ensures working { buffer_failed self.new ≡ false }
    {
        self.bytes.clear();
        self.failed = false;
    }

    // Adds all of the bytes, or none.
    fn extend(&mut self, bytes: &[u8]) -> Result<(), Failed>
        ensures bytes { MatchResult result (λ _. bytes_of self.new ≡ bytes_of self.old ++ bytes.now)
            (λ _. bytes_of self.new ≡ bytes_of self.old) }
        ensures most { most_of self.new ≡ most_of self.old }
        ensures failed { buffer_failed self.new ≡ buffer_failed self.old }
    {
        if bytes.len() > self.most.saturating_sub(self.bytes.len()) {
            return Err(Failed);
        }
        if self.bytes.extend_from_slice(bytes).is_err() {
            return Err(Failed);
        }
        Ok(())
    }
}

impl Sink for Buffer {
    ghost use Rattle.byte_io.specs.Buffers.{bytes_of, buffer_failed};

    ghost held = { λ b. Some (bytes_of b) };

    ghost has_failed = { buffer_failed };

    fn put(&mut self, bytes: &[u8]) -> Result<usize, Failed> {
        if self.extend(bytes).is_err() {
            self.failed = true;
            return Err(Failed);
        }
        Ok(bytes.len())
    }
}
