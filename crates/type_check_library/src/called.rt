//! The value of a library call.
ghost use Rattle.std.specs.Prelude.{◌≡◌, Some, length, map, vec_len};
ghost use Rattle.gang_model.specs.Types.LibraryTable as table;
ghost use Rattle.gang_model.specs.Types.Typing as typing;
ghost use Rattle.type_check_values.specs.Views.{typed_view};
ghost use Rattle.source_answers.specs.Answers.{Answers};
ghost use Rattle.type_check_scopes.specs.Passings.{passing_view};
ghost use Rattle.type_check_library.specs.Arguments.{argument_view};
ghost use Rattle.type_check_library.specs.Calls.{call_view};

use crate::arguments::{Argument, all_values, rate_fault};
use crate::calls::{LibraryCall, asked_by, library_call};
use crate::values::library_value;
use gang_model::{RefusalNumber, SourceRefusal};
use gang_types::Place;
use source_answers::{SourceFault, refuse};
use std::alloc::Global;
use type_check_scopes::Passing;
use type_check_values::Typed;

/// The value of a call with as many arguments as it takes.
fn call_value(
    alloc: Global,
    place: Place,
    call: LibraryCall,
    values: Vec<Argument>,
) -> Result<Typed, SourceFault>
    requires count { vec_len values ≡ length (table.asked_by (call_view call)) }
    ensures { Answers typed_view result (typing.call_value place (Some (call_view call)) (map argument_view values.items)) }
{
    refuse(rate_fault(asked_by(call), &values))?;
    Ok(library_value(alloc, call, values)?)
}

/// The value of a library call with these arguments.
///
/// # Errors
///
/// S9 at the call's name if nothing of this name takes so many arguments, or one of them is no value; S7 at an argument that
/// is varying where a uniform one is asked. Out of memory.
pub fn called_value(
    alloc: Global,
    place: Place,
    name: &[u8],
    given: Vec<Passing>,
) -> Result<Typed, SourceFault>
    ensures { Answers typed_view result (typing.called_value place name.now (typing.all_values (map passing_view given.entry.items))) }
{
    let no_value = SourceFault::Refused(SourceRefusal {
        number: RefusalNumber::S9,
        place,
    });
    let Some(values) = all_values(alloc, given)? else {
        return Err(no_value);
    };
    let Some(call) = library_call(name, values.len()) else {
        return Err(no_value);
    };
    call_value(alloc, place, call, values)
}
