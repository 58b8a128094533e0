//! Operations on operands that are judged each by itself.
ghost use Rattle.gang_model.specs.Types.Conversions as model;
ghost use Rattle.gang_model.specs.Source.Judged.{Judged};
ghost use Rattle.type_check_expressions.specs.Operands as operands;
ghost use Rattle.source_answers.specs.Answers.{Answers};
ghost use Rattle.type_check_values.specs.Views.{typed_view};

use gang_model::Infix;
use source_answers::{SourceFault, both};
use std::alloc::Global;
use type_check_values::{Typed, chosen_by, infixed};

/// Two operands with what stands between them.
///
/// # Errors
///
/// The lesser fault of the two. Out of memory.
pub(crate) fn infixed_both(
    alloc: Global,
    operator: Infix,
    left: Result<Typed, SourceFault>,
    right: Result<Typed, SourceFault>,
) -> Result<Typed, SourceFault>
    ensures { (of_left : Judged model.Typed) (of_right : Judged model.Typed) → Answers typed_view left of_left → Answers typed_view right of_right → Answers typed_view result (operands.infixed_both operator of_left of_right) }
{
    let (left, right) = both(left, right)?;
    Ok(infixed(alloc, operator, left, right)?)
}

/// `test ? first : second`.
///
/// # Errors
///
/// The least fault of the three. Out of memory.
pub(crate) fn chosen_of(
    alloc: Global,
    test: Result<Typed, SourceFault>,
    first: Result<Typed, SourceFault>,
    second: Result<Typed, SourceFault>,
) -> Result<Typed, SourceFault>
    ensures { (of_test : Judged model.Typed) (of_first : Judged model.Typed) (of_second : Judged model.Typed) → Answers typed_view test of_test → Answers typed_view first of_first → Answers typed_view second of_second → Answers typed_view result (operands.chosen_of of_test of_first of_second) }
{
    let (test, (first, second)) = both(test, both(first, second))?;
    Ok(chosen_by(alloc, test, first, second)?)
}
