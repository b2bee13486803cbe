//! A job of the program, over a source and two sinks.
ghost use Rattle.std.specs.Prelude.{◌≡◌, ◌≢◌, ◌≤◌, ◌⊎◌, Bool, true, false, [], length, Some, Result, Err, IfErr, IfOk, MatchResult};
ghost use Rattle.std.specs.IoError.{error_kind};
ghost use Rattle.campaign.specs.declared.file.ServeFault.{ServeFault};
ghost use Rattle.jobs.specs.declared.run_job.JobFault.{JobFault};
ghost use Rattle.jobs.specs.declared.run_job.JobFault.TheVariants as job_fault;
ghost use Rattle.requests.specs.Jobs.{is_unpaired};
ghost use Rattle.campaign.specs.Campaigns.{ServesCampaign};
ghost use Rattle.campaign.specs.Serving.{streams_of};
ghost use Rattle.jobs.specs.Passing.{IsServed};
ghost use Rattle.jobs.specs.Acting.{Does, DoesAsRead, DoesOverFile, OpensAndDoes, ReadsFor, FailsToRead, ServesRunAt, Tells};
ghost use Rattle.jobs.specs.Acting.{all_pass, fault_line, message_of, most_bytes, name_in_message, status_of};

use crate::end_state::serve_end_state;
use crate::exploring::serve_exploration;
use crate::fault_line::tell;
use crate::host::Host;
use byte_io::{FromReader, ReadFault, Sink, Source, read_all, read_at_most};
use campaign::{Gate, Request, ServeFault, serve_of, serve_run_of};
use explorer::Watch;
use model::End;
use report::{Shard, View};
use requests::{Job, NamedPoint, Options};
use std::alloc::Global;
use std::fs::File;
use std::io::{self, ErrorKind};
use std::rt::Files;
use std::sync::Wait;
use std::thread::Threads;

/// Why a job was not done, or not as a whole.
#[derive(Clone, Copy)]
pub enum JobFault {
    /// A step is named and no handler, or a handler and no step.
    Unpaired,
    /// The job's file is larger than 64 MiB (profile).
    TooLarge,
    /// What is asked for could not be served.
    Serve(ServeFault),
}

impl From<ServeFault> for JobFault {
    ghost from_gives = { λ fault given. given ≡ job_fault.Serve fault };

    fn from(fault: ServeFault) -> JobFault {
        JobFault::Serve(fault)
    }
}

// The name in the line of this fault of a job.
fn name_in_message<'a>(job: &Job<'a>, fault: JobFault) -> &'a str
    ensures { result.now ≡ name_in_message job.now fault }
{
    match fault {
        JobFault::Serve(ServeFault::UnknownHandler(place)) => job.handler(place),
        _ => job.file(),
    }
}

/// The status of a job. It is 0 if its run passes, or all rows of its part of a campaign do,
/// written or not, or the runs of all placements, and 1 if it or some of them don't. It is 2 if a
/// step and a handler don't go together, or the handler is unknown; and 3 if the file has a fault
/// or too many points, or can't be read. It is 4 if memory ran out, and 5 if the report can't be
/// written.
pub fn status_of(outcome: Result<bool, JobFault>) -> u8
    ensures { result ≡ status_of outcome }
{
    match outcome {
        Ok(true) => 0,
        Ok(false) => 1,
        Err(JobFault::Unpaired | JobFault::Serve(ServeFault::UnknownHandler(_))) => 2,
        Err(
            JobFault::TooLarge
            | JobFault::Serve(
                ServeFault::Read
                | ServeFault::NotToml
                | ServeFault::Load(_)
                | ServeFault::TooManyPoints,
            ),
        ) => 3,
        Err(JobFault::Serve(ServeFault::Memory)) => 4,
        Err(JobFault::Serve(ServeFault::Write)) => 5,
    }
}

/// Prints a fault of words that name no job. Returns its status.
pub fn refuse<F: Sink>(faults: &mut F, fault: ServeFault) -> u8
    requires { F.has_failed faults.old ≡ false }
    ensures message { Tells (F.held faults.old) (F.held faults.new) (F.has_failed faults.new)
        (fault_line [] (job_fault.Serve fault)) }
    ensures status { result ≡ status_of (Err (job_fault.Serve fault)) }
{
    tell(faults, "", JobFault::Serve(fault));
    status_of(Err(JobFault::Serve(fault)))
}

/// Ends a job of this outcome: prints its fault, if it has one, and returns its status. That the
/// line can't be put changes nothing of the status.
pub fn conclude<F: Sink>(job: &Job<'_>, faults: &mut F, outcome: Result<bool, JobFault>) -> u8
    requires { F.has_failed faults.old ≡ false }
    ensures message { Tells (F.held faults.old) (F.held faults.new) (F.has_failed faults.new)
        (message_of job.now outcome) }
    ensures status { result ≡ status_of outcome }
{
    if let Err(fault) = outcome {
        tell(faults, name_in_message(job, fault), fault);
    }
    status_of(outcome)
}

// Serves a run, and its end state if that is asked for. Returns whether the run passes.
// A call, so that its kernel lies on the stack of no other job.
#[inline(never)]
fn serve_run_at<W: Sink>(
    alloc: Global,
    point: Option<NamedPoint<'_>>,
    state: bool,
    bytes: &[u8],
    writer: &mut W,
) -> Result<bool, ServeFault>
    requires { W.has_failed writer.old ≡ false }
    ensures { ServesRunAt point.entry state (streams_of (Some bytes.now) false
        (W.held writer.old) (W.held writer.new) (W.has_failed writer.new)) result }
{
    let end = if state {
        serve_end_state(alloc, bytes, writer, point)?
    } else {
        serve_run_of(alloc, bytes, writer, point)?
    };
    Ok(matches!(end, End::Pass))
}

// Serves a part of a campaign. Returns whether all its rows pass.
#[inline(never)]
fn serve_campaign<T: Threads + Wait + Sync, W: Sink, G: Gate + Sync>(
    host: &Host<'_, T, G>,
    view: View,
    shard: Shard,
    options: Options,
    bytes: &[u8],
    writer: &mut W,
) -> Result<bool, ServeFault>
    requires { W.has_failed writer.old ≡ false }
    ensures { IsServed all_pass (ServesCampaign view shard (streams_of (Some bytes.now) false
        (W.held writer.old) (W.held writer.new) (W.has_failed writer.new))) result }
{
    let request = Request {
        view,
        shard,
        options,
    };
    let totals = serve_of(host.rt, host.alloc, bytes, writer, &request, host.gate)?;
    Ok(totals.pass == totals.rows)
}

// Writes to `writer` what the job asks for of the file of these bytes.
fn serve_job<T: Threads + Wait + Sync, W: Sink, G: Gate + Watch + Sync>(
    host: &Host<'_, T, G>,
    job: &Job<'_>,
    bytes: &[u8],
    writer: &mut W,
) -> Result<bool, JobFault>
    requires { W.has_failed writer.old ≡ false }
    ensures { Does job.now (streams_of (Some bytes.now) false
        (W.held writer.old) (W.held writer.new) (W.has_failed writer.new)) result }
{
    let served = match job {
        Job::RunUnpaired { .. } => return Err(JobFault::Unpaired),
        Job::Run { point, state, .. } => serve_run_at(host.alloc, *point, *state, bytes, writer),
        Job::Campaign {
            view,
            shard,
            options,
            quiet: false,
            ..
        } => serve_campaign(host, *view, *shard, *options, bytes, writer),
        Job::Campaign {
            view,
            shard,
            options,
            quiet: true,
            ..
        } => serve_campaign(&host.quiet(), *view, *shard, *options, bytes, writer),
        Job::Explore {
            injections,
            handlers,
            ..
        } => serve_exploration(host, *injections, *handlers, bytes, writer),
    };
    Ok(served?)
}

// Does the job over what was read of its file, if that was read, and ends it.
fn act_on<T: Threads + Wait + Sync, W: Sink, F: Sink, G: Gate + Watch + Sync>(
    host: &Host<'_, T, G>,
    job: &Job<'_>,
    read: Result<Vec<u8>, JobFault>,
    writer: &mut W,
    faults: &mut F,
) -> u8
    requires writes { W.has_failed writer.old ≡ false }
    requires tells { F.has_failed faults.old ≡ false }
    ensures { (outcome : Result Bool JobFault)
        × DoesAsRead job.now read
        (W.held writer.old) (W.held writer.new) (W.has_failed writer.new) outcome
        × Tells (F.held faults.old) (F.held faults.new) (F.has_failed faults.new) (message_of job.now outcome)
        × (result ≡ status_of outcome) }
{
    match read {
        Ok(bytes) => {
            let outcome = serve_job(host, job, bytes.as_slice(), writer);
            conclude(job, faults, outcome)
        }
        Err(fault) => conclude(job, faults, Err(fault)),
    }
}

// All bytes of the job's file. None are read if its step and its handler don't go together.
fn all_for<R: Source>(alloc: Global, job: &Job<'_>, reader: &mut R) -> Result<Vec<u8>, JobFault>
    requires { R.has_failed reader.old ≡ false }
    ensures read { MatchResult result
        (λ bytes. ReadsFor job.now (R.left reader.old) (R.has_failed reader.new) bytes.items)
        (FailsToRead job.now (R.left reader.old) (R.has_failed reader.new)) }
    ensures any_size { IfErr result (λ fault. fault ≢ job_fault.TooLarge) }
    ensures unread { is_unpaired job.now ≡ true → R.left reader.new ≡ R.left reader.old }
{
    if job.is_unpaired() {
        return Ok(Vec::new(alloc));
    }
    match read_all(alloc, reader) {
        Ok(bytes) => Ok(bytes),
        Err(ReadFault::Failed) => Err(JobFault::Serve(ServeFault::Read)),
        Err(ReadFault::Memory) => Err(JobFault::Serve(ServeFault::Memory)),
    }
}

/// Does the job: reads its file from `reader`, and writes to `writer` what the job asks for.
/// Returns the status that the program ends with, and puts the line of a fault, if any, to
/// `faults`; that this fails changes nothing.
///
/// If the job's step and its handler don't go together, nothing is read. The gate learns how far a campaign has come, unless it is
/// quiet, or how far exploring has; no clause speaks of that. It waits for the workers of a campaign, whose threads are this
/// runtime's.
pub fn act<T: Threads + Wait + Sync, R: Source, W: Sink, F: Sink, G: Gate + Watch + Sync>(
    rt: &T,
    alloc: Global,
    job: &Job<'_>,
    reader: &mut R,
    writer: &mut W,
    faults: &mut F,
    gate: &G,
) -> u8
    requires reads { R.has_failed reader.old ≡ false }
    requires writes { W.has_failed writer.old ≡ false }
    requires tells { F.has_failed faults.old ≡ false }
    ensures does { (outcome : Result Bool JobFault)
        × Does job.now (streams_of (R.left reader.old) (R.has_failed reader.new)
        (W.held writer.old) (W.held writer.new) (W.has_failed writer.new)) outcome
        × Tells (F.held faults.old) (F.held faults.new) (F.has_failed faults.new) (message_of job.now outcome)
        × (result ≡ status_of outcome) }
    ensures unread { is_unpaired job.now ≡ true → R.left reader.new ≡ R.left reader.old }
{
    let read = all_for(alloc, job, reader);
    act_on(&Host { rt, alloc, gate }, job, read, writer, faults)
}

// 64 MiB (profile).
const MOST: usize = 67_108_864;

// The same bytes as `all_for`, if they are 64 MiB at most.
fn bytes_for<R: Source>(alloc: Global, job: &Job<'_>, reader: &mut R) -> Result<Vec<u8>, JobFault>
    requires { R.has_failed reader.old ≡ false }
    ensures read { MatchResult result
        (λ bytes. ReadsFor job.now (R.left reader.old) (R.has_failed reader.new) bytes.items)
        (FailsToRead job.now (R.left reader.old) (R.has_failed reader.new)) }
    ensures few { IfOk result (λ bytes. length bytes.items ≤ most_bytes) }
    ensures unread { is_unpaired job.now ≡ true → R.left reader.new ≡ R.left reader.old }
{
    if job.is_unpaired() {
        return Ok(Vec::new(alloc));
    }
    match read_at_most(alloc, reader, MOST) {
        Ok(Some(bytes)) => Ok(bytes),
        Ok(None) => Err(JobFault::TooLarge),
        Err(ReadFault::Failed) => Err(JobFault::Serve(ServeFault::Read)),
        Err(ReadFault::Memory) => Err(JobFault::Serve(ServeFault::Memory)),
    }
}

// Does the job over its file, which `reader` gives. Nothing is read if its step and its handler don't go together.
fn act_over_file<T: Threads + Wait + Sync, R: Source, W: Sink, F: Sink, G: Gate + Watch + Sync>(
    host: &Host<'_, T, G>,
    job: &Job<'_>,
    reader: &mut R,
    writer: &mut W,
    faults: &mut F,
) -> u8
    requires reads { R.has_failed reader.old ≡ false }
    requires writes { W.has_failed writer.old ≡ false }
    requires tells { F.has_failed faults.old ≡ false }
    ensures does { (outcome : Result Bool JobFault)
        × DoesOverFile job.now (streams_of (R.left reader.old) (R.has_failed reader.new)
        (W.held writer.old) (W.held writer.new) (W.has_failed writer.new)) outcome
        × Tells (F.held faults.old) (F.held faults.new) (F.has_failed faults.new) (message_of job.now outcome)
        × (result ≡ status_of outcome) }
    ensures unread { is_unpaired job.now ≡ true → R.left reader.new ≡ R.left reader.old }
{
    let read = bytes_for(host.alloc, job, reader);
    act_on(host, job, read, writer, faults)
}

// The fault of a file that could not be opened.
fn fault_of(error: &io::Error) -> ServeFault
    ensures memory { error_kind error.now ≡ ErrorKind.OutOfMemory → result ≡ ServeFault.Memory }
    ensures read { error_kind error.now ≢ ErrorKind.OutOfMemory → result ≡ ServeFault.Read }
    ensures either { (result ≡ ServeFault.Memory) ⊎ (result ≡ ServeFault.Read) }
{
    if error.kind() == ErrorKind::OutOfMemory {
        ServeFault::Memory
    } else {
        ServeFault::Read
    }
}

/// Opens the file of the job, and does the job over it and the two sinks. At most 64 MiB of it are read (profile): of a larger
/// file, or of a device that has no end, this is the fault. A file that can't be opened is one that can't be read, even if the
/// job's step and handler don't go together. The contract says of the file's bytes that there are such; that they are those of the
/// file, the tests show.
pub fn open_and_act<T: Threads + Wait + Files + Sync, W: Sink, F: Sink, G: Gate + Watch + Sync>(
    host: &Host<'_, T, G>,
    job: &Job<'_>,
    writer: &mut W,
    faults: &mut F,
) -> u8
    requires writes { W.has_failed writer.old ≡ false }
    requires tells { F.has_failed faults.old ≡ false }
    ensures { (outcome : Result Bool JobFault)
        × OpensAndDoes job.now (W.held writer.old) (W.held writer.new) (W.has_failed writer.new) outcome
        × Tells (F.held faults.old) (F.held faults.new) (F.has_failed faults.new) (message_of job.now outcome)
        × (result ≡ status_of outcome) }
{
    match File::open(host.rt, job.file()) {
        Ok(file) => {
            let mut reader = FromReader::new(file);
            act_over_file(host, job, &mut reader, writer, faults)
        }
        Err(error) => conclude(job, faults, Err(JobFault::Serve(fault_of(&error)))),
    }
}
