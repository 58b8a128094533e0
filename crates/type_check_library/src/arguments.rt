//! The arguments of a library call.
ghost use Rattle.std.specs.Prelude.{◌≡◌, [], ◌∷◌, IfOk, map};
ghost use Rattle.gang_model.specs.Source.Judged.{least_fault};
ghost use Rattle.gang_model.specs.Types.Typing as typing;
ghost use Rattle.type_check_scopes.specs.Passings.{passing_view};
ghost use Rattle.type_check_library.specs.Arguments.{argument_view, option_argument_view, option_arguments_view};

use gang_model::{RefusalNumber, SourceRefusal};
use gang_types::{Place, Rate};
use source_answers::{fault_if, least};
use std::alloc::{AllocError, Global};
use type_check_scopes::Passing;
use type_check_values::{Typed, may_become};

/// A value that is given to a library call, with its first token.
#[derive(Drop)]
pub(crate) struct Argument {
    pub place: Place,
    pub value: Typed,
}

/// The value of an argument that is a value.
fn value_of(passing: Passing) -> Option<Argument>
    ensures { option_argument_view result ≡ typing.all_values (passing_view passing.entry ∷ []) }
{
    match passing {
        Passing::Scalar { place, value } => Some(Argument { place, value }),
        _ => None,
    }
}

/// The values of arguments that are all values.
///
/// # Errors
///
/// Out of memory.
pub(crate) fn all_values(
    alloc: Global,
    given: Vec<Passing>,
) -> Result<Option<Vec<Argument>>, AllocError>
    ensures values { IfOk result (λ values. option_arguments_view values ≡ typing.all_values (map passing_view given.entry.items)) }
{
    let mut values = Vec::new(alloc);
    for passing in given {
        match value_of(passing) {
            Some(argument) => values.push(argument)?,
            None => return Ok(None),
        }
    }
    Ok(Some(values))
}

/// The least fault of arguments that are varying where uniform ones are asked.
pub(crate) fn rate_fault(asked: &[Rate], values: &[Argument]) -> Option<SourceRefusal>
    ensures { result ≡ least_fault (typing.rate_faults asked.now (map argument_view values.now)) }
{
    let mut first = None;
    for (rate, argument) in asked.iter().zip(values) {
        let is_allowed = may_become(argument.value.rate, *rate);
        let fault = fault_if(!is_allowed, RefusalNumber::S7, argument.place);
        first = least(first, fault);
    }
    first
}
