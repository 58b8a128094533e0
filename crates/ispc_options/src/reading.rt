//! The words of the command line.
ghost use Rattle.std.specs.Prelude.{◌≡◌, ◌≤◌, IfOk, IfSome, IsOkAnd, true, is_some, option_map};
ghost use Rattle.clap.specs.Values.{kind_of};
ghost use Rattle.clap.specs.declared.error.kind.ErrorKind.TheVariants.{UnknownArgument};
ghost use Rattle.clap.specs.Words.{app_of, first_value, found_of};
ghost use Rattle.clap.specs.Walk.{texts};
ghost use Rattle.ispc_options.specs.Asked.{AreWidths, AsksFor, FailsFor, HasOptions, HasPaths, command, number_of};
ghost use Rattle.ispc_options.specs.Passed.{ArePassed, HasNumber};
ghost use Rattle.ispc_options.specs.Ranges.{AreInRange};

use crate::arguments::{flag, option, option_or, up_to, valued, widths};
use crate::options::{Options, Paths, Width};
use clap::error::ErrorKind;
use clap::{ArgMatches, Command, Error};
use std::alloc::{AllocError, Global};

/// The most events of the history.
const MOST_HISTORY: u32 = 65_536;

/// The most moves of one command.
const MOST_STEPS: u32 = 10_000_000;

/// Reads the words after the program's name.
///
/// # Errors
///
/// The first word or value that is none of the options', as `clap` tells it, or the help that was asked for. Out of memory is a
/// kind of it.
pub fn read_options<'a>(
    alloc: Global,
    words: &'a [&'a str],
) -> Result<(Options<'a>, Paths<'a>), Error>
    ensures ranges { IfOk result (λ read. AreInRange read.0) }
    ensures asked { IfOk result (λ read. AsksFor (texts words.now) read) }
    ensures refused { FailsFor (texts words.now) result }
{
    let matches = command(alloc)?.try_get_matches_from(words)?;
    match options_of(&matches) {
        Ok(options) => Ok((options, paths_of(&matches))),
        Err(message) => Err(fault_of(alloc, ErrorKind::ValueValidation, message)?),
    }
}

/// A fault of the arguments that no option tells of.
///
/// # Errors
///
/// Out of memory.
pub fn wrong_arguments(alloc: Global, message: &str) -> Result<Error, AllocError>
    ensures { IfOk result (λ error. kind_of error ≡ UnknownArgument) }
{
    fault_of(alloc, ErrorKind::UnknownArgument, message)
}

fn fault_of(alloc: Global, kind: ErrorKind, message: &str) -> Result<Error, AllocError>
    ensures { IfOk result (λ error. kind_of error ≡ kind) }
{
    command(alloc)?.error(kind, message)
}

/// The options of the words, or which of their numbers is out of its range.
fn options_of<'a>(matches: &ArgMatches<'a>) -> Result<Options<'a>, &'static str>
    ensures ranges { IfOk result AreInRange }
    ensures read { ArePassed (found_of matches.now) → IsOkAnd result (HasOptions (first_value (found_of matches.now))) }
{
    let Some(history) = number_within(matches, "history", MOST_HISTORY) else {
        return Err("the history is 1 to 65536");
    };
    let Some(steps) = number_within(matches, "steps", MOST_STEPS) else {
        return Err("the steps are 1 to 10000000");
    };
    let width = match matches.get_str("width") {
        Some("16") => Width::Sixteen,
        Some("8") => Width::Eight,
        _ => Width::Four,
    };
    Ok(Options {
        width,
        history,
        steps,
        entry: matches.get_str("entry"),
        lane_pure: matches.get_flag("lane-pure"),
    })
}

fn paths_of<'a>(matches: &ArgMatches<'a>) -> Paths<'a>
    ensures { HasPaths (first_value (found_of matches.now)) result }
{
    Paths {
        source: matches.get_str("source"),
        input: matches.get_str("input"),
    }
}

fn number_within(matches: &ArgMatches<'_>, id: &str, most: u32) -> Option<u32>
    ensures within { IfSome result (λ n. (1 ≤ n) × (n ≤ most)) }
    ensures read { HasNumber most (found_of matches.now) id.now → (is_some result ≡ true)
        × (option_map number_of (first_value (found_of matches.now) id.now) ≡ result) }
{
    let n = matches.get_one::<u32>(id)?;
    if 1 <= n && n <= most { Some(n) } else { None }
}

/// The options that there are. Each is made where it is added, so that none is alive where memory runs out.
fn command<'a>(alloc: Global) -> Result<Command<'a>, AllocError>
    ensures { IfOk result (λ parser. (widths : _) × AreWidths widths × (app_of parser ≡ command widths)) }
{
    Command::new(alloc, "ispc_cli")
        .no_binary_name(true)
        .about("Compiles a program for gangs and debugs it")
        .arg(valued(alloc, "source", "SOURCE").help(
            "the program; without it, standard input has the program, a line %% and the commands",
        ))?
        .arg(option(alloc, "input", "FILE").help("the input of the entry function"))?
        .arg(option(alloc, "entry", "NAME").help("the entry function"))?
        .arg(option_or(alloc, "width", "W", widths(), "4").help("how many lanes a gang has"))?
        .arg(option_or(alloc, "history", "N", up_to(MOST_HISTORY), "64").help(
            "how many events can be taken back",
        ))?
        .arg(option_or(alloc, "steps", "N", up_to(MOST_STEPS), "1000000").help(
            "how many moves one command makes at most",
        ))?
        .arg(flag(alloc, "lane-pure").help(
            "reports which functions are lane-pure, and runs nothing",
        ))
}
