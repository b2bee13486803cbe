//! The two streams of a program whose output may go through a pipe. The reader of a pipe may leave before it has read everything,
//! as `head` does. That is no fault of the output, so the other stream must not call it one.
//!
//! The streams share a cell, which says whether the reader has left. No clause can say what a cell holds: that is tested.
use crate::stream::{Failed, Sink};
use std::cell::Cell;
use std::io::{ErrorKind, Write};

/// A writer as the sink of the output. Any error of the writer is a failed call, after which there is none. If the error is a
/// closed pipe, the cell is set.
#[derive(Drop)]
pub struct Output<'a, W> {
    writer: W,
    failed: bool,
    reader_left: &'a Cell<bool>,
}

impl<'a, W: Write> Output<'a, W> {
    ghost use Rattle.std.specs.Prelude.{◌≡◌, false};
    ghost use Rattle.byte_io.specs.Pipe.{output_of, output_failed};

    /// The writer as a sink that has not failed.
    pub fn new(writer: W, reader_left: &'a Cell<bool>) -> Output<'a, W>
        ensures writer { output_of result ≡ writer }
        ensures working { output_failed result ≡ false }
    {
        Output {
            writer,
            failed: false,
            reader_left,
        }
    }
}

impl<W: Write> Sink for Output<'_, W> {
    ghost use Rattle.byte_io.specs.Pipe.{output_of, output_failed};

    ghost held = { λ s. W.contents (output_of s) };

    ghost has_failed = { output_failed };

    fn put(&mut self, bytes: &[u8]) -> Result<usize, Failed> {
        match self.writer.write(bytes) {
            Ok(n) => {
                self.failed = n == 0 && !bytes.is_empty();
                Ok(n)
            }
            Err(error) => {
                self.failed = true;
                if error.kind() == ErrorKind::BrokenPipe {
                    self.reader_left.set(true);
                }
                Err(Failed)
            }
        }
    }
}

/// A writer as the sink of messages. Any error of the writer is a failed call, after which there is none. If the reader of the output
/// has left, the next call fails too, and the writer gets nothing.
#[derive(Drop)]
pub struct Messages<'a, W> {
    writer: W,
    failed: bool,
    reader_left: &'a Cell<bool>,
}

impl<'a, W: Write> Messages<'a, W> {
    ghost use Rattle.std.specs.Prelude.{◌≡◌, false};
    ghost use Rattle.byte_io.specs.Pipe.{messages_of, messages_failed};

    /// The writer as a sink that has not failed.
    pub fn new(writer: W, reader_left: &'a Cell<bool>) -> Messages<'a, W>
        ensures writer { messages_of result ≡ writer }
        ensures working { messages_failed result ≡ false }
    {
        Messages {
            writer,
            failed: false,
            reader_left,
        }
    }
}

impl<W: Write> Sink for Messages<'_, W> {
    ghost use Rattle.byte_io.specs.Pipe.{messages_of, messages_failed};

    ghost held = { λ s. W.contents (messages_of s) };

    ghost has_failed = { messages_failed };

    fn put(&mut self, bytes: &[u8]) -> Result<usize, Failed> {
        if self.reader_left.get() {
            self.failed = true;
            return Err(Failed);
        }
        match self.writer.write(bytes) {
            Ok(n) => {
                self.failed = n == 0 && !bytes.is_empty();
                Ok(n)
            }
            Err(_) => {
                self.failed = true;
                Err(Failed)
            }
        }
    }
}
