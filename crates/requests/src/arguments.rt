//! The words of the command line, as clap reads them.
ghost use Rattle.std.specs.Prelude.{◌≡◌, Some, codes, IfOk, IsSome, true, option_map};
ghost use Rattle.clap.specs.declared.builder.command.Command.TheViews.{out-Command as fields_of};
ghost use Rattle.clap.specs.Words.{new_app, with_subcommand};
ghost use Rattle.requests.specs.Words.{file_rule, at_rule, handler_rule, point_rule, state_rule, only_rule, heads_rule, shard_rule, quiet_rule, flag_rule, text_rule, option_rule, workers_rule, stride_rule, block_rule, run_app, campaign_app, explore_app, injections_rule, handlers_rule, rtosim_top, rtosim_app, IsCommandOf, IsArgOf};

use crate::most_injections::MostInjections;
use crate::words::MOST_STEP;
use clap::{Arg, ArgAction, Command, value_parser};
use std::alloc::{AllocError, Global};

const STATUSES: &str = "Exit status:
  0  the run passes, or every row or placement does; or help or the version
     was asked for
  1  the run, or some row or placement, ends in another way: its line says how
  2  the words of the command line are refused, or no handler has the name
  3  the file can't be read, is not TOML, describes no application, or has
     more than 1000000 points
  4  no memory is left
  5  the report can't be written
  141  the reader of the output has left, as in: rtosim run FILE | head";

fn file_argument<'a>(alloc: Global) -> Arg<'a>
    ensures { IsArgOf file_rule result }
{
    Arg::new(alloc, "FILE")
        .required(true)
        .action(ArgAction::Set)
        .help("The application, a TOML file")
}

// An argument of this name that takes a value.
fn valued_argument<'a>(alloc: Global, name: &'a str, value: &'a str) -> Arg<'a>
    ensures { IsArgOf (text_rule name.now) result }
{
    Arg::new(alloc, name)
        .long(name)
        .value_name(value)
        .action(ArgAction::Set)
}

// An argument of this name that takes a number from 1 to this one, and has this value if it isn't
// given.
fn number_argument<'a>(
    alloc: Global,
    name: &'a str,
    value: &'a str,
    most: u32,
    default: &'a str,
) -> Arg<'a>
    ensures { IsArgOf (option_rule name.now default.now 1 most) result }
{
    valued_argument(alloc, name, value)
        .value_parser(value_parser!(u32).range(1..=i64::from(most)))
        .default_value(default)
}

fn at_argument<'a>(alloc: Global) -> Arg<'a>
    ensures { IsArgOf at_rule result }
{
    valued_argument(alloc, "at", "STEP")
        .value_parser(value_parser!(u32).range(..=i64::from(MOST_STEP)))
        .help("Injects the handler before this step, 0 to 1000000")
}

fn only_argument<'a>(alloc: Global) -> Arg<'a>
    ensures { IsArgOf only_rule result }
{
    valued_argument(alloc, "only", "LIST").help(
        "Writes only rows with these ends: pass,check,misuse,ticks,steps,stuck,failing",
    )
}

fn heads_argument<'a>(alloc: Global) -> Arg<'a>
    ensures { IsArgOf heads_rule result }
{
    flag_argument(alloc, "heads").help("Writes only head lines")
}

fn shard_argument<'a>(alloc: Global) -> Arg<'a>
    ensures { IsArgOf shard_rule result }
{
    valued_argument(alloc, "shard", "I/N").help("Runs only part I of N")
}

fn handler_argument<'a>(alloc: Global) -> Arg<'a>
    ensures { IsArgOf handler_rule result }
{
    valued_argument(alloc, "handler", "HANDLER").help(
        "The handler to inject: its name in the file, or tick for a tick",
    )
}

fn point_argument<'a>(alloc: Global) -> Arg<'a>
    ensures { IsArgOf point_rule result }
{
    valued_argument(alloc, "point", "POINT").help(
        "Injects up to three handlers, instead of these two: 'STEP HANDLER STEP HANDLER ..'",
    )
}

// An argument of this name that is given or not.
fn flag_argument<'a>(alloc: Global, name: &'a str) -> Arg<'a>
    ensures { IsArgOf (flag_rule name.now) result }
{
    Arg::new(alloc, name).long(name).action(ArgAction::SetTrue)
}

fn state_argument<'a>(alloc: Global) -> Arg<'a>
    ensures { IsArgOf state_rule result }
{
    flag_argument(alloc, "state").help(
        "Also writes the state at the end: of tasks, mutexes and variables",
    )
}

fn quiet_argument<'a>(alloc: Global) -> Arg<'a>
    ensures { IsArgOf quiet_rule result }
{
    flag_argument(alloc, "quiet").help("Doesn't show progress")
}

fn workers_argument<'a>(alloc: Global) -> Arg<'a>
    ensures { IsArgOf workers_rule result }
{
    number_argument(alloc, "workers", "N", 64, "1").help(
        "Runs the points in this many threads, 1 to 64, or auto: one per processor",
    )
}

fn stride_argument<'a>(alloc: Global) -> Arg<'a>
    ensures { IsArgOf stride_rule result }
{
    number_argument(alloc, "stride", "S", 65_536, "64").help(
        "Keeps the state of the base run every S steps, 1 to 65536",
    )
}

fn block_argument<'a>(alloc: Global) -> Arg<'a>
    ensures { IsArgOf block_rule result }
{
    number_argument(alloc, "block", "B", 1_000_000, "512").help(
        "Gives a thread up to B points at once, 1 to 1000000",
    )
}

fn injections_argument<'a>(alloc: Global) -> Arg<'a>
    ensures { IsArgOf injections_rule result }
{
    valued_argument(alloc, "injections", "K")
        .value_parser(value_parser!(u32).range(..=i64::from(MostInjections::MOST)))
        .default_value("1")
        .help("Injects up to K handlers in a run, 0 to 3")
}

fn handlers_argument<'a>(alloc: Global) -> Arg<'a>
    ensures { IsArgOf handlers_rule result }
{
    valued_argument(alloc, "handlers", "NAMES").help(
        "Injects only these handlers, joined by commas, and ticks only if tick is among them",
    )
}

// A command of this name without arguments, whose help says what it is about and ends with the statuses.
fn described_command<'a>(alloc: Global, name: &'a str, about: &'a str) -> Command<'a>
    ensures reads { IsCommandOf (new_app name.now) result }
    ensures about { (fields_of result).about ≡ Some about.entry }
    ensures statuses { IsSome (fields_of result).after_help }
{
    Command::new(alloc, name).about(about).after_help(STATUSES)
}

fn run_command<'a>(alloc: Global) -> Result<Command<'a>, AllocError>
    ensures { IfOk result (λ command. IsCommandOf run_app command) }
{
    let arguments = vec![in alloc;
        file_argument(alloc),
        at_argument(alloc),
        handler_argument(alloc),
        point_argument(alloc),
        state_argument(alloc),
    ]?;
    described_command(
        alloc,
        "run",
        "Runs an application from reset to its end, and writes the trace",
    )
    .args(arguments)
}

fn campaign_command<'a>(alloc: Global) -> Result<Command<'a>, AllocError>
    ensures { IfOk result (λ command. IsCommandOf campaign_app command) }
{
    let arguments = vec![in alloc;
        file_argument(alloc),
        only_argument(alloc),
        heads_argument(alloc),
        shard_argument(alloc),
        workers_argument(alloc),
        stride_argument(alloc),
        block_argument(alloc),
        quiet_argument(alloc),
    ]?;
    described_command(
        alloc,
        "campaign",
        "Runs an application once for each of its points, and writes the report",
    )
    .args(arguments)
}

fn explore_command<'a>(alloc: Global) -> Result<Command<'a>, AllocError>
    ensures { IfOk result (λ command. IsCommandOf explore_app command) }
{
    let arguments = vec![in alloc;
        file_argument(alloc),
        injections_argument(alloc),
        handlers_argument(alloc),
    ]?;
    described_command(
        alloc,
        "explore",
        "Runs every placement of up to K injections, and counts how the runs end",
    )
    .args(arguments)
}

// The program without its commands.
fn program<'a>(alloc: Global) -> Command<'a>
    ensures reads { IsCommandOf rtosim_top result }
    ensures about { IsSome (fields_of result).about }
    ensures version { option_map (λ version. version.now) (fields_of result).version ≡ Some (codes "0.1.0") }
{
    described_command(
        alloc,
        "rtosim",
        "Simulates the scheduling of a FreeRTOS-style kernel, step by step",
    )
    .version("0.1.0")
    .subcommand_required(true)
}

// The program with the command `run`.
fn program_with_run<'a>(alloc: Global) -> Result<Command<'a>, AllocError>
    ensures { IfOk result (λ command. IsCommandOf (with_subcommand rtosim_top run_app.top) command) }
{
    let run = run_command(alloc)?;
    program(alloc).subcommand(run)
}

// The program with the commands `run` and `campaign`.
fn program_with_runs<'a>(alloc: Global) -> Result<Command<'a>, AllocError>
    ensures { IfOk result (λ command. IsCommandOf (with_subcommand (with_subcommand rtosim_top run_app.top) campaign_app.top) command) }
{
    let program = program_with_run(alloc)?;
    let campaign = campaign_command(alloc)?;
    program.subcommand(campaign)
}

pub(crate) fn command<'a>(alloc: Global) -> Result<Command<'a>, AllocError>
    ensures { IfOk result (λ command. IsCommandOf rtosim_app command) }
{
    let program = program_with_runs(alloc)?;
    let explore = explore_command(alloc)?;
    program.subcommand(explore)
}
