//! Calls of the functions of the source.
ghost use Rattle.std.specs.Prelude.{◌≡◌, IfOk, map};
ghost use Rattle.gang_model.specs.Types.Calls as calls;
ghost use Rattle.gang_model.specs.Types.Signatures as signatures;
ghost use Rattle.source_answers.specs.Answers.{Answers};
ghost use Rattle.type_check_scopes.specs.Passings.{passing_view};
ghost use Rattle.typed_tree.specs.Views.{result_view};
ghost use Rattle.type_check_calls.specs.Calls.{called_view, context_view};
ghost use Rattle.type_check_calls.specs.Meant.{called_function};
ghost use Rattle.type_check_overloads.specs.Candidates.{candidate_view};

use crate::calls::Called;
use crate::context::Context;
use gang_model::Spec;
use gang_types::{IntType, Place, Rate};
use source_answers::SourceFault;
use std::alloc::{AllocError, Global};
use type_check_overloads::{Candidate, candidates, overload, passed_args};
use type_check_scopes::Passing;
use type_check_values::declared_rate;
use typed_tree::{ResultFor, Stmt};

/// The result of a function with this spec, `None` being `void`.
fn result_of(spec: Spec) -> Option<(IntType, Rate)>
    ensures { result ≡ signatures.result_of spec }
{
    match spec.value_type {
        Some(value_type) => Some((value_type, declared_rate(spec.rate))),
        None => None,
    }
}

/// A call of the function that is meant.
fn meant_call(
    alloc: Global,
    meant: &Candidate,
    given: Vec<Passing>,
    result_for: ResultFor,
    step: usize,
) -> Result<Called, AllocError>
    ensures called { IfOk result (λ called. called_view called ≡ called_function (map passing_view given.entry.items) (result_view result_for) step (candidate_view meant.now)) }
{
    let args = passed_args(alloc, given, &meant.function.params)?;
    let stmt = Stmt::Call {
        step,
        function: meant.number,
        args,
        result_for,
    };
    Called::new(alloc, stmt, result_of(meant.function.spec))
}

/// A call of a function of the source.
///
/// # Errors
///
/// S9 at the name if no function takes the arguments, S10 there if none of those that do beats every other. Out of memory.
pub(crate) fn user_call(
    alloc: Global,
    context: &Context,
    place: Place,
    name: &[u8],
    given: Vec<Passing>,
    result_for: ResultFor,
    step: usize,
) -> Result<Called, SourceFault>
    ensures { Answers called_view result (calls.user_call (context_view context.now) place name.now (map passing_view given.entry.items) (result_view result_for) step) }
{
    let possible = candidates(alloc, context.functions, name, &given)?;
    let meant = overload(place, &possible)?;
    Ok(meant_call(alloc, meant, given, result_for, step)?)
}
