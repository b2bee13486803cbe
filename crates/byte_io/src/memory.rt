//! Bytes in memory, as a source.
use crate::stream::{Failed, Source};

/// They are given from the front, and it never fails.
impl Source for &[u8] {
    ghost use Rattle.std.specs.Prelude.{Some, false};

    ghost left = { λ s. Some s.now };

    ghost has_failed = { λ _. false };

    fn pull(&mut self, buffer: &mut [u8]) -> Result<usize, Failed> {
        let count = buffer.len().min(self.len());
        let (given, left) = self.split_at(count);
        buffer[..count].copy_from_slice(given);
        *self = left;
        Ok(count)
    }
}
