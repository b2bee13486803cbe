//! All of some bytes, to a sink.
ghost use Rattle.std.specs.Prelude.{◌≡◌, false};
ghost use Rattle.std.specs.Result.{is_err};
ghost use Rattle.byte_io.specs.Bytes.{Writes};

use crate::stream::{Failed, Sink};

/// The sink failed, or took none of the bytes.
#[derive(Clone, Copy)]
pub struct WriteFault;

/// Puts all of the bytes. At `Err` the sink failed or took none of some bytes, and it has taken a beginning of them.
pub fn put_all<W: Sink>(writer: &mut W, bytes: &[u8]) -> Result<(), WriteFault>
    requires { W.has_failed writer.old ≡ false }
    ensures text { Writes (W.held writer.old) (W.held writer.new) result bytes.now }
    ensures failed { W.has_failed writer.new ≡ is_err result }
{
    let mut rest = bytes;
    while !rest.is_empty() {
        match writer.put(rest) {
            Ok(0) => return Err(WriteFault),
            Ok(n) => rest = &rest[n..],
            Err(Failed) => return Err(WriteFault),
        }
    }
    Ok(())
}
