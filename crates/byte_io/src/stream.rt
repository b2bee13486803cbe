//! Where bytes come from and where they go.
ghost use Rattle.std.specs.Prelude.{◌≡◌, ◌≤◌, ℕ, List, Option, Bool, false, length, IfOk};
ghost use Rattle.std.specs.Io.KnownBytes.{WriteAppends, ReadConsumes};
ghost use Rattle.std.specs.Result.{is_err};
ghost use Rattle.byte_io.specs.Bytes.{failed_after};

/// A call of a source or a sink failed.
#[derive(Clone, Copy)]
pub struct Failed;

/// What takes bytes.
pub trait Sink {
    // The bytes that it holds, if they are known.
    ghost held: { Self → Option (List ℕ) };

    // A call has failed, or took none of some bytes.
    ghost has_failed: { Self → Bool };

    /// Takes bytes from the front of `bytes`, and says how many. It may take fewer than all. At `Err` it took none, and
    /// it is not called again.
    fn put(&mut self, bytes: &[u8]) -> Result<usize, Failed>
        requires { has_failed self.old ≡ false }
        ensures within { IfOk result (λ n. n ≤ length bytes.now) }
        ensures taken { WriteAppends (held self.old) (held self.new) result bytes.now }
        ensures failed { has_failed self.new ≡ failed_after result bytes.now };
}

/// What gives bytes.
pub trait Source {
    // The bytes that it still gives, if they are known.
    ghost left: { Self → Option (List ℕ) };

    // A call has failed.
    ghost has_failed: { Self → Bool };

    /// Puts bytes into the front of the buffer, and says how many: 0 only at the end, or if the
    /// buffer is empty. At `Err` it gave none, and it is not called again.
    fn pull(&mut self, buffer: &mut [u8]) -> Result<usize, Failed>
        requires { has_failed self.old ≡ false }
        ensures within { IfOk result (λ n. n ≤ length buffer.new) }
        ensures given { ReadConsumes (left self.old) (left self.new) result buffer.new }
        ensures failed { has_failed self.new ≡ is_err result };
}
