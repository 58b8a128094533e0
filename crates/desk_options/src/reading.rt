//! The words of the command line.
ghost use Rattle.std.specs.Prelude.{◌≡◌, IfOk, None};
ghost use Rattle.clap.specs.Values.{kind_of};
ghost use Rattle.clap.specs.Walk.{texts};
ghost use Rattle.desk_options.specs.Asked.{AsksFor, FailsFor, FailsNameless, Parses};
ghost use Rattle.desk_options.specs.Names.{named_words};
ghost use Rattle.desk_options.specs.Ranges.{IsInRange};

use crate::commands::{all_verbs, verb_command};
use crate::names::{VerbName, named_words};
use crate::values::verb_of;
use crate::verbs::Verb;
use clap::error::ErrorKind;
use clap::{ArgMatches, Error};
use std::alloc::{AllocError, Global};

/// Reads the words after the program's name.
///
/// # Errors
///
/// The first word or value that is none of the verb's options', as `clap` tells it, or the help or the version that was asked for.
/// Out of memory is a kind of it.
pub fn read_verb<'a>(alloc: Global, words: &'a [&'a str]) -> Result<Verb<'a>, Error>
    ensures ranges { IfOk result IsInRange }
    ensures asked { IfOk result (AsksFor (texts words.now)) }
    ensures refused { FailsFor (texts words.now) result }
{
    let Some((name, rest)) = named_words(words) else {
        return Err(nameless_fault(alloc, words)?);
    };
    let matches = parsed(alloc, name, rest)?;
    match verb_of(alloc, name, &matches)? {
        Some(verb) => Ok(verb),
        None => Err(verb_command(alloc, name)?.error(
            ErrorKind::ValueValidation,
            "a value is out of its range",
        )?),
    }
}

/// What the option parser finds of the words behind a verb.
fn parsed<'a>(alloc: Global, verb: VerbName, words: &'a [&'a str]) -> Result<ArgMatches<'a>, Error>
    ensures { Parses verb (texts words.now) result }
{
    verb_command(alloc, verb)?.try_get_matches_from(words)
}

/// What is wrong with words that begin with no verb.
fn nameless_fault<'a>(alloc: Global, words: &'a [&'a str]) -> Result<Error, AllocError>
    ensures { IfOk result (FailsNameless (texts words.now)) }
{
    match all_verbs(alloc)?.try_get_matches_from(words) {
        Err(fault) => Ok(fault),
        Ok(_) => all_verbs(alloc)?.error(ErrorKind::MissingSubcommand, "a verb is missing"),
    }
}
