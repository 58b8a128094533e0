//! What is read of the values that the option parser found.
ghost use Rattle.std.specs.Prelude.{◌≡◌, ◌≤◌, IfOk, IfSome, IsSomeAnd, codes, is_some, map, option_map, true};
ghost use Rattle.clap.specs.Words.{first_value, found_of};
ghost use Rattle.ispc_options.specs.Asked.{number_of};
ghost use Rattle.ispc_options.specs.Passed.{HasNumber};
ghost use Rattle.ispc_options.specs.Ranges.{AreInRange};
ghost use Rattle.desk_options.specs.Asked.{HasDebugged, HasPicture, HasPorted, HasProgram, IsAskedBy, raw_of};
ghost use Rattle.desk_options.specs.Passed.{ArePassed, ArePicturePassed, ArePortedPassed, HavePassed};
ghost use Rattle.desk_options.specs.Ranges.{IsInRange, IsPictureInRange};

use crate::commands::{MOST_HISTORY, MOST_STEPS};
use crate::names::VerbName;
use crate::page_values::page_of;
use crate::profile_values::profile_of;
use crate::verbs::{Debugged, Explained, Picture, Ported, Program, Verb};
use clap::ArgMatches;
use ispc_options::{Options, Width};
use std::alloc::{AllocError, Global};

/// What a verb's values ask for; none where one of them is missing or out of its range.
pub(crate) fn verb_of<'a>(
    alloc: Global,
    verb: VerbName,
    matches: &ArgMatches<'a>,
) -> Result<Option<Verb<'a>>, AllocError>
    ensures ranges { IfOk result (λ read. IfSome read IsInRange) }
    ensures read { IfOk result (λ read. HavePassed verb (found_of matches.now)
        → IsSomeAnd read (IsAskedBy verb (first_value (found_of matches.now)) (raw_of (found_of matches.now)))) }
{
    Ok(match verb {
        VerbName::Debug => debugged_of(matches).map(Verb::Debug),
        VerbName::Picture => picture_of(matches).map(Verb::Picture),
        VerbName::Page => page_of(matches).map(Verb::Page),
        VerbName::Profile => profile_of(matches).map(Verb::Profile),
        VerbName::Adapter => Some(Verb::Adapter),
        VerbName::Explain => Some(Verb::Explain(explained_of(alloc, matches)?)),
        VerbName::Port => ported_of(matches).map(Verb::Port),
    })
}

pub(crate) fn program_of<'a>(matches: &ArgMatches<'a>) -> Option<Program<'a>>
    ensures ranges { IfSome result (λ program. AreInRange program.options) }
    ensures read { ArePassed (found_of matches.now) → IsSomeAnd result (HasProgram (first_value (found_of matches.now))) }
{
    let history = number_within(matches, "history", MOST_HISTORY)?;
    let steps = number_within(matches, "steps", MOST_STEPS)?;
    let width = match matches.get_str("width") {
        Some("16") => Width::Sixteen,
        Some("8") => Width::Eight,
        _ => Width::Four,
    };
    Some(Program {
        source: matches.get_str("source")?,
        input: matches.get_str("input"),
        options: Options {
            width,
            history,
            steps,
            entry: matches.get_str("entry"),
            lane_pure: false,
        },
    })
}

fn debugged_of<'a>(matches: &ArgMatches<'a>) -> Option<Debugged<'a>>
    ensures ranges { IfSome result (λ debugged. AreInRange debugged.program.options) }
    ensures read { ArePassed (found_of matches.now) → IsSomeAnd result (HasDebugged (first_value (found_of matches.now))) }
{
    Some(Debugged {
        program: program_of(matches)?,
        color: matches.get_str("color"),
    })
}

fn picture_of<'a>(matches: &ArgMatches<'a>) -> Option<Picture<'a>>
    ensures ranges { IfSome result IsPictureInRange }
    ensures read { ArePicturePassed (found_of matches.now) → IsSomeAnd result (HasPicture (first_value (found_of matches.now))) }
{
    let program = program_of(matches)?;
    let from = number_within(matches, "from", MOST_STEPS)?;
    let most = number_within(matches, "most", MOST_STEPS)?;
    let row = number_within(matches, "row", MOST_STEPS)?;
    Some(Picture {
        program,
        commands: matches.get_str("commands"),
        watch: matches.get_str("watch"),
        from,
        most,
        row,
        to: matches.get_str("to"),
        force: matches.get_flag("force"),
    })
}

fn ported_of<'a>(matches: &ArgMatches<'a>) -> Option<Ported<'a>>
    ensures { ArePortedPassed (found_of matches.now) → IsSomeAnd result (HasPorted (first_value (found_of matches.now))) }
{
    let to = matches.get_str("to");
    let force = matches.get_flag("force");
    Some(Ported {
        source: matches.get_str("source")?,
        to,
        force,
    })
}

fn explained_of<'a>(alloc: Global, matches: &ArgMatches<'a>) -> Result<Explained<'a>, AllocError>
    ensures { IfOk result (λ explained. map (λ s. s.now) explained.words.items ≡ raw_of (found_of matches.now) (codes "name")) }
{
    let words = match matches.get_strs("name") {
        Some(words) => Vec::from_slice(alloc, words)?,
        None => Vec::new(alloc),
    };
    Ok(Explained { words })
}

pub(crate) fn number_within(matches: &ArgMatches<'_>, id: &str, most: u32) -> Option<u32>
    ensures within { IfSome result (λ n. (1 ≤ n) × (n ≤ most)) }
    ensures read { HasNumber most (found_of matches.now) id.now → (is_some result ≡ true)
        × (option_map number_of (first_value (found_of matches.now) id.now) ≡ result) }
{
    let n = matches.get_one::<u32>(id)?;
    if 1 <= n && n <= most { Some(n) } else { None }
}
