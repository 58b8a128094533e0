//! What operators, calls and indexings count for.
ghost use Rattle.ispc_parser_words.specs.Front.{Gives};
ghost use Rattle.ispc_parser_expressions.specs.Parse as spec;

use gang_model::RefusalNumber;
use gang_types::Place;
use ispc_parser_words::refused;
use source_answers::SourceFault;

/// How many operators, calls and indexings an expression may have that stands in no other one.
pub(crate) const MAX_OPERATORS: u32 = 256;

/// What the operators of an argument count for.
#[derive(Clone, Copy, Drop)]
pub(crate) enum Budget {
    /// The expression that the call stands in.
    Shared,
    /// The argument alone.
    Own,
}

/// How many operators are left after the one at this place.
pub(crate) fn spend(room: u32, place: Place) -> Result<u32, SourceFault>
    ensures { Gives (λ left. left) result (spec.spend room) }
{
    if room == 0 {
        Err(refused(RefusalNumber::S13, place))
    } else {
        Ok(room - 1)
    }
}
