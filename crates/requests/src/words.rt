//! The words of the command line.
ghost use Rattle.std.specs.Prelude.{◌≡◌, Some, IfOk, IfErr, IfSome, IsSome, IsNone, MatchResult, true, [], ◌∷◌, map, option_map};
ghost use Rattle.clap.specs.Words.{takes, kind_of, subcommand_of, first_of, one_of, found_of, rows_of, subcommand_rows_of, FailsBy, HasKind};
ghost use Rattle.clap.specs.declared.error.kind.ErrorKind.TheVariants.{OutOfMemory, ValueValidation};
ghost use Rattle.requests.specs.Asked.{pairs_in};
ghost use Rattle.requests.specs.Words.{rtosim_app, number_of, is_given, ends_in, view_in, shard_of_words, shard_in_rows, handlers_in, handlers_in_rows, handlers_faults, faults_without, value_faults, faults_of, IsStepOf, IsRunOf, IsRunWith, asking, injecting, run_faults, AreOptionsOf, IsCampaignOf, AreInjectionsOf, IsExploreOf, IsJobOf, IsNoNumber, NamesNoStep, NamesNoRun, NamesNoOptions, NamesNoCampaign, NamesNoInjections, NamesNoExplore, NamesNoJob};

use crate::arguments::command;
use crate::job::Job;
use crate::most_injections::MostInjections;
use crate::named_point::NamedPoint;
use crate::names::are_names;
use crate::options::Options;
use crate::point_words::point_spelled;
use crate::shown::{ends_of, shard_named};
use clap::error::ErrorKind;
use clap::{ArgMatches, Error};
use report::{Ends, Shard, View};
use std::alloc::{AllocError, Global};
use std::convert::AsStr;
use std::num::ParseIntError;

// What is said of a list that is none, and of a shard.
const BAD_LIST: &str =
    "the value of '--only' must be pass, check, misuse, ticks, steps, stuck or failing, or several of them joined by commas";

const BAD_SHARD: &str =
    "the value of '--shard' must be I/N, with N from 1 to 1000000 and I from 1 to N";

// What is said of a point that is none, or that isn't alone.
const BAD_POINT: &str =
    "the value of '--point' must be STEP HANDLER, one to three times, and '--at' and '--handler' can't be given with it";

// What is said of handlers that are none.
const BAD_HANDLERS: &str =
    "the value of '--handlers' must be the name of a handler, or several different ones joined by commas";

// The latest step before which a handler can be injected (profile).
pub(crate) const MOST_STEP: u32 = 1_000_000;

fn text<'a>(matches: &ArgMatches<'a>, id: &str) -> Option<&'a str>
    ensures { option_map (λ text. text.now) result ≡ first_of id.now (rows_of (found_of matches.now)) }
{
    matches.get_str(id)
}

// The number of this id, if there is one. At `Err` its text is none.
fn number(matches: &ArgMatches<'_>, id: &str) -> Result<Option<u32>, ParseIntError>
    ensures { MatchResult result
        (λ number. option_map number_of (one_of id.now (rows_of (found_of matches.now))) ≡ number)
        (λ _. IsNoNumber (one_of id.now (rows_of (found_of matches.now)))) }
{
    matches.try_get_one::<u32>(id)
}

// The step that the words of `run` name, if they name one. `None`: it is no number, or out of its range.
fn step_of(matches: &ArgMatches<'_>) -> Option<Option<u32>>
    ensures step { IfSome result (IsStepOf (rows_of (found_of matches.now))) }
    ensures none { IsNone result → NamesNoStep (rows_of (found_of matches.now)) }
{
    match number(matches, "at") {
        Ok(Some(step)) if step > MOST_STEP => None,
        Ok(at) => Some(at),
        Err(_) => None,
    }
}

// The point that this text spells. `None` if it spells none, or if a step or a handler is named too.
fn point_among<'a>(
    point: &'a str,
    step: Option<u32>,
    handler: Option<&str>,
) -> Option<NamedPoint<'a>>
    ensures { asking (Some point.entry.now) step (option_map (λ handler. handler.now) handler.entry)
        ≡ injecting (option_map (λ point. pairs_in point.injections) result) }
{
    match (step, handler) {
        (None, None) => point_spelled(point),
        (None, Some(_)) | (Some(_), _) => None,
    }
}

// The job of the command `run`, which this file and these words name.
fn run_with<'a>(
    file: &'a str,
    state: bool,
    point: Option<&'a str>,
    step: Option<u32>,
    handler: Option<&'a str>,
) -> Option<Job<'a>>
    ensures { IsRunWith file.entry.now state
        (asking (option_map (λ point. point.now) point.entry) step (option_map (λ handler. handler.now) handler.entry)) result }
{
    match (point, step, handler) {
        (None, None, None) => Some(Job::Run {
            file,
            point: None,
            state,
        }),
        (None, Some(step), Some(handler)) => Some(Job::Run {
            file,
            point: Some(NamedPoint::one(step, handler)),
            state,
        }),
        (None, Some(_), None) | (None, None, Some(_)) => Some(Job::RunUnpaired { file }),
        (Some(point), step, handler) => {
            let point = Some(point_among(point, step, handler)?);
            Some(Job::Run { file, point, state })
        }
    }
}

// The job of the command `run`.
fn run_job<'a>(matches: &ArgMatches<'a>) -> Option<Job<'a>>
    ensures job { IfSome result (IsRunOf (rows_of (found_of matches.now))) }
    ensures none { IsNone result → NamesNoRun (rows_of (found_of matches.now)) }
{
    let file = text(matches, "FILE")?;
    let step = step_of(matches)?;
    let state = is_given(matches, "state");
    run_with(
        file,
        state,
        text(matches, "point"),
        step,
        text(matches, "handler"),
    )
}

// Whether a flag is given.
fn is_given(matches: &ArgMatches<'_>, id: &str) -> bool
    ensures { result ≡ is_given (first_of id.now (rows_of (found_of matches.now))) }
{
    match text(matches, id) {
        None => false,
        Some(value) => value == "true",
    }
}

// The options of the command `campaign`.
fn options_of(matches: &ArgMatches<'_>) -> Option<Options>
    ensures options { IfSome result (AreOptionsOf (rows_of (found_of matches.now))) }
    ensures none { IsNone result → NamesNoOptions (rows_of (found_of matches.now)) }
{
    let Ok(Some(workers)) = number(matches, "workers") else {
        return None;
    };
    let Ok(Some(stride)) = number(matches, "stride") else {
        return None;
    };
    let Ok(Some(block)) = number(matches, "block") else {
        return None;
    };
    Options::new(workers, stride, block).ok()
}

// The ends of the rows that are written: those of the list, or every end if no list is named. `None`
// if a word of it is no end.
fn ends_in(list: Option<&str>) -> Option<Ends>
    ensures { result ≡ ends_in (option_map (λ list. list.now) list.entry) }
{
    match list {
        Some(list) => ends_of(list),
        None => Some(Ends::EVERY),
    }
}

// The view that the words of `campaign` name.
fn view_of(matches: &ArgMatches<'_>) -> Option<View>
    ensures { result ≡ view_in (rows_of (found_of matches.now)) }
{
    let ends = ends_in(text(matches, "only"))?;
    let heads = is_given(matches, "heads");
    Some(View { ends, heads })
}

// The shard that is named, or all rows if none is. `None` if there is no such shard.
fn shard_in(word: Option<&str>) -> Option<Shard>
    ensures { result ≡ shard_of_words (option_map (λ word. word.now) word.entry) }
{
    match word {
        Some(word) => shard_named(word),
        None => Some(Shard::whole()),
    }
}

// The shard that the words of `campaign` name.
fn shard_of(matches: &ArgMatches<'_>) -> Option<Shard>
    ensures { result ≡ shard_in_rows (rows_of (found_of matches.now)) }
{
    shard_in(text(matches, "shard"))
}

// The job of the command `campaign`.
fn campaign_job<'a>(matches: &ArgMatches<'a>) -> Option<Job<'a>>
    ensures job { IfSome result (IsCampaignOf (rows_of (found_of matches.now))) }
    ensures none { IsNone result → NamesNoCampaign (rows_of (found_of matches.now)) }
{
    let file = text(matches, "FILE")?;
    let view = view_of(matches)?;
    let shard = shard_of(matches)?;
    let options = options_of(matches)?;
    let quiet = is_given(matches, "quiet");
    Some(Job::Campaign {
        file,
        view,
        shard,
        options,
        quiet,
    })
}

// How many injections the words of `explore` name. `None`: it is no number, or out of its range.
fn injections_of(matches: &ArgMatches<'_>) -> Option<MostInjections>
    ensures injections { IfSome result (AreInjectionsOf (rows_of (found_of matches.now))) }
    ensures none { IsNone result → NamesNoInjections (rows_of (found_of matches.now)) }
{
    match number(matches, "injections") {
        Ok(Some(count)) => MostInjections::new(count),
        _ => None,
    }
}

// The list of handlers, if one is named. `None` if it isn't a list of names.
fn handlers_in<'a>(list: Option<&'a str>) -> Option<Option<&'a str>>
    ensures { option_map (λ list. option_map (λ list. list.now) list) result ≡ handlers_in (option_map (λ list. list.now) list.entry) }
{
    match list {
        Some(list) if !are_names(list) => None,
        list => Some(list),
    }
}

// The job of the command `explore`.
fn explore_job<'a>(matches: &ArgMatches<'a>) -> Option<Job<'a>>
    ensures job { IfSome result (IsExploreOf (rows_of (found_of matches.now))) }
    ensures none { IsNone result → NamesNoExplore (rows_of (found_of matches.now)) }
{
    let file = text(matches, "FILE")?;
    let handlers = handlers_in(text(matches, "handlers"))?;
    let injections = injections_of(matches)?;
    Some(Job::Explore {
        file,
        injections,
        handlers,
    })
}

fn job_of<'a>(matches: &ArgMatches<'a>) -> Option<Job<'a>>
    ensures job { IfSome result (IsJobOf (subcommand_rows_of matches.now)) }
    ensures none { IsNone result → NamesNoJob (subcommand_rows_of matches.now) }
{
    let (name, inner) = matches.subcommand()?;
    match name {
        "run" => run_job(inner),
        "campaign" => campaign_job(inner),
        "explore" => explore_job(inner),
        _ => None,
    }
}

// What is wrong with the point of words of `run`, if something is.
fn bad_run_value(matches: &ArgMatches<'_>) -> Option<&'static str>
    ensures { IsSome result → run_faults (rows_of (found_of matches.now)) ≡ ValueValidation ∷ [] }
{
    let point = text(matches, "point")?;
    let Ok(None) = number(matches, "at") else {
        return Some(BAD_POINT);
    };
    if text(matches, "handler").is_some() {
        return Some(BAD_POINT);
    }
    match point_spelled(point) {
        Some(_) => None,
        None => Some(BAD_POINT),
    }
}

// What is wrong with a value of words of `campaign`, if one is.
fn bad_campaign_value(matches: &ArgMatches<'_>) -> Option<&'static str>
    ensures { IsSome result → faults_without (view_in (rows_of (found_of matches.now))) (shard_in_rows (rows_of (found_of matches.now)))
        ≡ ValueValidation ∷ [] }
{
    if view_of(matches).is_none() {
        return Some(BAD_LIST);
    }
    if shard_of(matches).is_none() {
        return Some(BAD_SHARD);
    }
    None
}

// What is wrong with a value of words of `explore`, if one is.
fn bad_explore_value(matches: &ArgMatches<'_>) -> Option<&'static str>
    ensures { IsSome result → handlers_faults (handlers_in_rows (rows_of (found_of matches.now))) ≡ ValueValidation ∷ [] }
{
    if handlers_in(text(matches, "handlers")).is_none() {
        return Some(BAD_HANDLERS);
    }
    None
}

// What is wrong with a value of words that the command takes, if one is.
fn bad_value(matches: &ArgMatches<'_>) -> Option<&'static str>
    ensures { IsSome result → value_faults (subcommand_rows_of matches.now) ≡ ValueValidation ∷ [] }
{
    let (name, inner) = matches.subcommand()?;
    match name {
        "campaign" => bad_campaign_value(inner),
        "explore" => bad_explore_value(inner),
        "run" => bad_run_value(inner),
        _ => None,
    }
}

// The refusal of a value.
fn refused(alloc: Global, message: &str) -> Result<Error, AllocError>
    ensures { IfOk result (λ e. kind_of e ≡ ValueValidation) }
{
    let mut command = command(alloc)?;
    command.error(ErrorKind::ValueValidation, message)
}

// Why words that the command takes name no job: a value is refused, or no memory is left.
fn refusal(alloc: Global, matches: &ArgMatches<'_>) -> Error
    ensures { HasKind (value_faults (subcommand_rows_of matches.now)) result }
{
    let Some(message) = bad_value(matches) else {
        return Error::from(AllocError);
    };
    match refused(alloc, message) {
        Ok(error) => error,
        Err(error) => Error::from(error),
    }
}

/// The job that the words name; the first of them is the name of the program. At `Err` help or the version was asked
/// for, the words are refused, or no memory is left, as the kind of the error says. Words that the command takes, and whose list of ends,
/// shard, handlers and point are such, are refused only for want of memory.
pub fn job_named<'a, S: AsStr>(alloc: Global, words: &'a [S]) -> Result<Job<'a>, Error>
    ensures job { IfOk result (IsJobOf (subcommand_of rtosim_app (map S.text words.entry.now))) }
    ensures memory { IfErr result (λ e. takes rtosim_app (map S.text words.entry.now) ≡ true
        → value_faults (subcommand_of rtosim_app (map S.text words.entry.now)) ≡ [] → kind_of e ≡ OutOfMemory) }

    // `Ok` comes only if the words have no fault, and an error is of a kind that they have, or
    // memory.
    ensures kinds { FailsBy (faults_of (map S.text words.entry.now)) result }
{
    match command(alloc)?.try_get_matches_from(words) {
        Ok(matches) => match job_of(&matches) {
            Some(job) => Ok(job),
            None => Err(refusal(alloc, &matches)),
        },
        Err(error) => Err(error),
    }
}
