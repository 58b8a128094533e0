//! What is read of the values that only a profile has.
ghost use Rattle.std.specs.Prelude.{IfSome, IsSomeAnd};
ghost use Rattle.clap.specs.Words.{first_value, found_of};
ghost use Rattle.desk_options.specs.Asked.{HasProfile};
ghost use Rattle.desk_options.specs.Passed.{AreProfilePassed};
ghost use Rattle.desk_options.specs.Ranges.{IsProfileInRange};

use crate::commands::{MOST_ROWS, MOST_STEPS};
use crate::values::{number_within, program_of};
use crate::verbs::Profile;
use clap::ArgMatches;

/// What the values of a profile ask for; none where one of them is missing or out of its range.
pub(crate) fn profile_of<'a>(matches: &ArgMatches<'a>) -> Option<Profile<'a>>
    ensures ranges { IfSome result IsProfileInRange }
    ensures read { AreProfilePassed (found_of matches.now) → IsSomeAnd result (HasProfile (first_value (found_of matches.now))) }
{
    let program = program_of(matches)?;
    let from = number_within(matches, "from", MOST_STEPS)?;
    let most = number_within(matches, "most", MOST_STEPS)?;
    let top = number_within(matches, "top", MOST_ROWS)?;
    Some(Profile {
        program,
        from,
        most,
        top,
        by: matches.get_str("by"),
        color: matches.get_str("color"),
        annotate: matches.get_flag("annotate"),
        json: matches.get_flag("json"),
        compare: matches.get_flag("compare"),
        to: matches.get_str("to"),
        force: matches.get_flag("force"),
    })
}
