//! What is done for the words of the command line.
ghost use Rattle.std.specs.Prelude.{◌≡◌, ◌≢◌, ◌⊎◌, false, map, option_map, string_bytes};
ghost use Rattle.std.specs.Int.NonZero.{non_zero_usize_get};
ghost use Rattle.byte_io.specs.Shown.{shown_lines};
ghost use Rattle.clap.specs.Words.{kind_of};
ghost use Rattle.jobs.specs.Acting.{Tells};
ghost use Rattle.clap.specs.declared.error.kind.ErrorKind.TheVariants.{OutOfMemory};
ghost use Rattle.jobs.specs.Obeying.{Concludes, Obeys, RefusesWords, ShownTells, Shows, shown_status};
ghost use Rattle.requests.specs.Processors.{meant};

use crate::host::Host;
use crate::run_job::{open_and_act, refuse};
use byte_io::{Sink, WriteFault, put_all, put_lines};
use campaign::{Gate, ServeFault};
use clap::Error;
use clap::error::ErrorKind;
use explorer::Watch;
use requests::{job_named, meant};
use std::alloc::{AllocError, Global};
use std::num::NonZeroUsize;
use std::rt::Files;
use std::sync::Wait;
use std::thread::Threads;

// Writes help or the version, as far as the writer takes it.
fn show<W: Sink, F: Sink>(text: &str, writer: &mut W, faults: &mut F) -> u8
    requires writes { W.has_failed writer.old ≡ false }
    requires tells { F.has_failed faults.old ≡ false }
    ensures writes { Tells (W.held writer.old) (W.held writer.new) (W.has_failed writer.new)
        text.now }
    ensures tells { ShownTells (W.has_failed writer.new)
        (F.held faults.old) (F.held faults.new) (F.has_failed faults.new) }
    ensures status { result ≡ shown_status (W.has_failed writer.new) }
{
    match put_all(writer, text.as_bytes()) {
        Ok(()) => 0,
        Err(WriteFault) => refuse(faults, ServeFault::Write),
    }
}

// Prints why the words are refused: the text of `clap`, which may contain the words. The status is
// the same if it can't be put.
fn refuse_words<F: Sink>(text: &str, faults: &mut F) -> u8
    requires { F.has_failed faults.old ≡ false }
    ensures tells { Tells (F.held faults.old) (F.held faults.new) (F.has_failed faults.new)
        (shown_lines text.now) }
    ensures status { result ≡ 2 }
{
    let _ = put_lines(faults, text);
    2
}

// Ends a call whose words name no job, by the text of `clap` for their kind.
fn conclude_text<W: Sink, F: Sink>(
    kind: ErrorKind,
    text: &str,
    writer: &mut W,
    faults: &mut F,
) -> u8
    requires writes { W.has_failed writer.old ≡ false }
    requires tells { F.has_failed faults.old ≡ false }
    requires kind { kind ≢ OutOfMemory }
    ensures { Shows kind
        (W.held writer.old) (W.held writer.new) (W.has_failed writer.new)
        (F.held faults.old) (F.held faults.new) (F.has_failed faults.new) result
        ⊎ RefusesWords kind
        (W.held writer.old) (W.held writer.new) (W.has_failed writer.new)
        (F.held faults.old) (F.held faults.new) (F.has_failed faults.new) result }
{
    match kind {
        ErrorKind::DisplayHelp | ErrorKind::DisplayVersion => show(text, writer, faults),
        _ => refuse_words(text, faults),
    }
}

/// Ends a call whose words name no job: help and the version are written, any other text of `clap` is printed as a fault, its
/// control characters escaped except for the line feeds.
pub fn conclude_error<W: Sink, F: Sink>(
    alloc: Global,
    error: &Error,
    writer: &mut W,
    faults: &mut F,
) -> u8
    requires writes { W.has_failed writer.old ≡ false }
    requires tells { F.has_failed faults.old ≡ false }
    ensures { Concludes (kind_of error.now)
        (W.held writer.old) (W.held writer.new) (W.has_failed writer.new)
        (F.held faults.old) (F.held faults.new) (F.has_failed faults.new) result }
{
    let kind = error.kind();
    if kind == ErrorKind::OutOfMemory {
        return refuse(faults, ServeFault::Memory);
    }
    let Ok(text) = error.to_string(alloc) else {
        return refuse(faults, ServeFault::Memory);
    };
    conclude_text(kind, text.as_str(), writer, faults)
}

// Does what these words ask for, in which `auto` means nothing.
fn obey_meant<T: Threads + Wait + Files + Sync, W: Sink, F: Sink, G: Gate + Watch + Sync>(
    host: &Host<'_, T, G>,
    words: &[String],
    writer: &mut W,
    faults: &mut F,
) -> u8
    requires writes { W.has_failed writer.old ≡ false }
    requires tells { F.has_failed faults.old ≡ false }
    ensures { Obeys (map string_bytes words.entry.now)
        (W.held writer.old) (W.held writer.new) (W.has_failed writer.new)
        (F.held faults.old) (F.held faults.new) (F.has_failed faults.new) result }
{
    match job_named(host.alloc, words) {
        Ok(job) => open_and_act(host, &job, writer, faults),
        Err(error) => conclude_error(host.alloc, &error, writer, faults),
    }
}

/// Does what the words ask for: a job over the two sinks, or to show help or the version, or to say why they are refused. The first
/// of them is the name of the program. `auto` as the value of `--workers` means as many workers as there are processors that the
/// program may use, 64 at most, and 1 if the system doesn't say how many. The host's gate learns how far a campaign has come,
/// unless the words ask for quiet, or how far exploring has. It waits for the workers of a campaign, whose threads are the host's,
/// as the files are.
pub fn obey<T: Threads + Wait + Files + Sync, W: Sink, F: Sink, G: Gate + Watch + Sync>(
    host: &Host<'_, T, G>,
    words: &[String],
    processors: Option<NonZeroUsize>,
    writer: &mut W,
    faults: &mut F,
) -> u8
    requires writes { W.has_failed writer.old ≡ false }
    requires tells { F.has_failed faults.old ≡ false }
    ensures { Obeys (meant (option_map non_zero_usize_get processors) (map string_bytes words.entry.now))
        (W.held writer.old) (W.held writer.new) (W.has_failed writer.new)
        (F.held faults.old) (F.held faults.new) (F.has_failed faults.new) result }
{
    match meant(host.alloc, processors, words) {
        Ok(meant) => obey_meant(host, &meant, writer, faults),
        Err(AllocError) => refuse(faults, ServeFault::Memory),
    }
}
