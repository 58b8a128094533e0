//! What is read of the values that only a page has.
ghost use Rattle.std.specs.Prelude.{IfSome, IsSomeAnd};
ghost use Rattle.clap.specs.Words.{first_value, found_of};
ghost use Rattle.desk_options.specs.Asked.{HasPage};
ghost use Rattle.desk_options.specs.Passed.{ArePagePassed};
ghost use Rattle.desk_options.specs.Ranges.{IsPageInRange};

use crate::commands::{MOST_ELEMENTS, MOST_RECORDED, MOST_STEPS};
use crate::values::{number_within, program_of};
use crate::verbs::RunPage;
use clap::ArgMatches;

/// What the values of a page ask for; none where one of them is missing or out of its range.
pub(crate) fn page_of<'a>(matches: &ArgMatches<'a>) -> Option<RunPage<'a>>
    ensures ranges { IfSome result IsPageInRange }
    ensures read { ArePagePassed (found_of matches.now) → IsSomeAnd result (HasPage (first_value (found_of matches.now))) }
{
    let program = program_of(matches)?;
    let from = number_within(matches, "from", MOST_STEPS)?;
    let most = number_within(matches, "most", MOST_RECORDED)?;
    let each = number_within(matches, "each", MOST_RECORDED)?;
    let elements = number_within(matches, "elements", MOST_ELEMENTS)?;
    Some(RunPage {
        program,
        commands: matches.get_str("commands"),
        from,
        most,
        each,
        around: matches.get_str("around"),
        elements,
        to: matches.get_str("to"),
        force: matches.get_flag("force"),
    })
}
