//! All bytes of a source.
ghost use Rattle.std.specs.Prelude.{◌≡◌, ◌≢◌, ◌<◌, ◌≤◌, [], false, length, IfOk, IfSome, Ok, Err, Some, None};
ghost use Rattle.byte_io.specs.Read.{read_failed};
ghost use Rattle.byte_io.specs.declared.read.ReadFault.TheVariants.{Memory};

use crate::stream::{Failed, Source};
use std::alloc::{AllocError, Global};

// How many bytes are asked for at once.
const CHUNK: usize = 4096;

/// Why not all bytes were read.
#[derive(Clone, Copy)]
pub enum ReadFault {
    /// The source failed.
    Failed,
    /// No memory is left.
    Memory,
}

impl From<AllocError> for ReadFault {
    ghost from_gives = { λ _ e. e ≡ Memory };

    fn from(_: AllocError) -> ReadFault {
        ReadFault::Memory
    }
}

/// Reads to the end: all bytes that the source has left, if they are at most this many; `None` if
/// they are more. `Failed` exactly if the source failed. At `None` and at `Err` some bytes of the
/// source may be lost.
pub fn read_at_most<R: Source>(
    alloc: Global,
    source: &mut R,
    most: usize,
) -> Result<Option<Vec<u8>>, ReadFault>
    requires { R.has_failed source.old ≡ false }
    ensures bytes { IfOk result (λ read. IfSome read (λ v.
        IfSome (R.left source.old) (λ bytes. v.items ≡ bytes) × (length v.items ≤ most))) }
    ensures many { result ≡ Ok None → IfSome (R.left source.old) (λ bytes. most < length bytes) }
    ensures failed { R.has_failed source.new ≡ read_failed result }

    // For no bytes no memory is needed.
    ensures memory { result ≡ Err ReadFault.Memory → R.left source.old ≢ Some [] }
{
    let mut bytes = Vec::new(alloc);
    let mut buffer = [0u8; CHUNK];
    loop {
        match source.pull(&mut buffer) {
            Ok(0) => return Ok(Some(bytes)),
            Ok(n) if n > most - bytes.len() => return Ok(None),
            Ok(n) => bytes.extend_from_slice(&buffer[..n])?,
            Err(Failed) => return Err(ReadFault::Failed),
        }
    }
}

/// Reads to the end: all bytes that the source has left. `Failed` exactly if the source failed. At
/// `Err` some bytes of the source may be lost.
pub fn read_all<R: Source>(alloc: Global, source: &mut R) -> Result<Vec<u8>, ReadFault>
    requires { R.has_failed source.old ≡ false }
    ensures bytes { IfOk result (λ v. IfSome (R.left source.old) (λ bytes. v.items ≡ bytes)) }
    ensures failed { R.has_failed source.new ≡ read_failed result }

    // For no bytes no memory is needed.
    ensures memory { result ≡ Err ReadFault.Memory → R.left source.old ≢ Some [] }
{
    // More bytes than there are addresses find no memory.
    read_at_most(alloc, source, usize::MAX)?.ok_or(ReadFault::Memory)
}
