//! Casts.
ghost use Rattle.std.specs.Prelude.{◌≡◌};
ghost use Rattle.gang_model.specs.Source.Judged.{least_fault};
ghost use Rattle.gang_model.specs.Types.Typing as typing;
ghost use Rattle.source_answers.specs.Answers.{Answers};
ghost use Rattle.type_check_values.specs.Views.{typed_view};

use gang_model::{RefusalNumber, SourceRefusal};
use gang_types::{IntType, Place, Rate};
use source_answers::{SourceFault, fault_if, least, refuse};
use std::alloc::Global;
use type_check_values::{Typed, as_type, declared_type, may_become};

/// The rate of a cast expression: the cast's, else the operand's.
fn cast_rate(asked: Option<Rate>, rate: Rate) -> Rate
    ensures { result ≡ typing.cast_rate asked rate }
{
    asked.unwrap_or(rate)
}

/// S8 at the `(` of a cast to `void`, S7 there at one of a varying operand to uniform.
fn cast_fault(
    place: Place,
    value_type: Option<IntType>,
    from: Rate,
    to: Rate,
) -> Option<SourceRefusal>
    ensures { result ≡ least_fault (typing.cast_faults place value_type from to) }
{
    let to_void = fault_if(value_type.is_none(), RefusalNumber::S8, place);
    let to_uniform = fault_if(!may_become(from, to), RefusalNumber::S7, place);
    least(to_void, to_uniform)
}

/// A cast of this value.
///
/// # Errors
///
/// S8 at the `(` of a cast to `void`, S7 there at one of a varying operand to uniform. Out of memory.
pub(crate) fn cast_to(
    alloc: Global,
    place: Place,
    asked: Option<Rate>,
    asked_type: Option<IntType>,
    value: Typed,
) -> Result<Typed, SourceFault>
    ensures { Answers typed_view result (typing.cast_to place asked asked_type (typed_view value)) }
{
    let rate = cast_rate(asked, value.rate);
    refuse(cast_fault(place, asked_type, value.rate, rate))?;
    let value_type = declared_type(asked_type);
    let expr = as_type(alloc, value_type, value)?;
    Ok(Typed {
        expr,
        value_type,
        rate,
    })
}
