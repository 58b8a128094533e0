//! Parts of which only the second counts, unless the first has a fault.
ghost use Rattle.std.specs.Prelude.{◌≡◌};
ghost use Rattle.source_answers.specs.Answers.{both_answers};
ghost use Rattle.type_check_parts.specs.Beside.{second_part};

use source_answers::{SourceFault, both};

/// What the second of two parts stands for.
///
/// # Errors
///
/// The lesser fault of the two parts. Out of memory.
pub(crate) fn second_of<A: Drop, B: Drop>(
    first: Result<A, SourceFault>,
    second: Result<B, SourceFault>,
) -> Result<B, SourceFault>
    ensures { result ≡ second_part (both_answers first second) }
{
    let (_, second) = both(first, second)?;
    Ok(second)
}
