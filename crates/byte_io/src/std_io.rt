//! The standard library's readers and writers as sources and sinks.
//!
//! The contracts of `pull` and `put` say what is done with the bytes, and that a fault is reported.
//! That they call the reader and the writer, and fail only if these fail, no contract of the
//! standard library lets us say: it is tested.
use crate::stream::{Failed, Sink, Source};
use std::io::{Read, Write};

/// A reader as a source. Any error of the reader is a failed call, after which there is none.
#[derive(Drop)]
pub struct FromReader<R> {
    reader: R,
    failed: bool,
}

impl<R: Read> FromReader<R> {
    ghost use Rattle.std.specs.Prelude.{◌≡◌, false};
    ghost use Rattle.byte_io.specs.StdIo.{reader_of, reader_failed};

    /// The reader as a source that has not failed.
    pub fn new(reader: R) -> FromReader<R>
        ensures reader { reader_of result ≡ reader }
        ensures working { reader_failed result ≡ false }
    {
        FromReader {
            reader,
            failed: false,
        }
    }
}

impl<R: Read> Source for FromReader<R> {
    ghost use Rattle.byte_io.specs.StdIo.{reader_of, reader_failed};

    ghost left = { λ s. R.remaining (reader_of s) };

    ghost has_failed = { reader_failed };

    fn pull(&mut self, buffer: &mut [u8]) -> Result<usize, Failed> {
        match self.reader.read(buffer) {
            Ok(n) => Ok(n),
            Err(_) => {
                self.failed = true;
                Err(Failed)
            }
        }
    }
}

/// A writer as a sink. Any error of the writer is a failed call, after which there is none.
#[derive(Drop)]
pub struct ToWriter<W> {
    writer: W,
    failed: bool,
}

impl<W: Write> ToWriter<W> {
    ghost use Rattle.std.specs.Prelude.{◌≡◌, false};
    ghost use Rattle.byte_io.specs.StdIo.{writer_of, writer_failed};

    /// The writer as a sink that has not failed.
    pub fn new(writer: W) -> ToWriter<W>
        ensures writer { writer_of result ≡ writer }
        ensures working { writer_failed result ≡ false }
    {
        ToWriter {
            writer,
            failed: false,
        }
    }
}

impl<W: Write> Sink for ToWriter<W> {
    ghost use Rattle.byte_io.specs.StdIo.{writer_of, writer_failed};

    ghost held = { λ s. W.contents (writer_of s) };

    ghost has_failed = { writer_failed };

    fn put(&mut self, bytes: &[u8]) -> Result<usize, Failed> {
        match self.writer.write(bytes) {
            Ok(n) => {
                self.failed = n == 0 && !bytes.is_empty();
                Ok(n)
            }
            Err(_) => {
                self.failed = true;
                Err(Failed)
            }
        }
    }
}
