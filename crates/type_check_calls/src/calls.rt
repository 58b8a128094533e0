//! Calls with their results.
ghost use Rattle.std.specs.Prelude.{◌≡◌, IfOk, map};
ghost use Rattle.gang_model.specs.Types.Calls as calls;
ghost use Rattle.gang_model.specs.Source.Judged.{least_fault};
ghost use Rattle.ispc_names_scopes.specs.Names.{statement_call_view};
ghost use Rattle.typed_tree.specs.Boxes.{boxed_stmt_view};
ghost use Rattle.typed_tree.specs.Views.{result_view, stmt_view};
ghost use Rattle.source_answers.specs.Answers.{Answers};
ghost use Rattle.type_check_scopes.specs.Passings.{passing_view};
ghost use Rattle.type_check_calls.specs.Calls.{called_view, context_view, whole_call_view};

use crate::context::Context;
use crate::library::library_statement;
use crate::user_calls::user_call;
use crate::whole::WholeCall;
use gang_model::{RefusalNumber, SourceRefusal};
use gang_types::{IntType, Place, Rate};
use ispc_names_scopes::{StatementCall, statement_call};
use source_answers::{SourceFault, fault_if, refuse};
use std::alloc::{AllocError, Global};
use type_check_expressions::arguments;
use type_check_scopes::{Passing, TypeScope};
use type_check_values::{boxed_stmt, may_become};
use typed_tree::{ResultFor, Stmt};

/// A call as a statement, with the type and rate of its result.
#[derive(Drop)]
pub struct Called {
    pub stmt: Box<Stmt>,
    pub result: Option<(IntType, Rate)>,
}

impl Called {
    /// The statement in a box, with the type and rate of its result.
    pub(crate) fn new(
        alloc: Global,
        stmt: Stmt,
        given: Option<(IntType, Rate)>,
    ) -> Result<Called, AllocError>
        ensures called { IfOk result (λ it. called_view it ≡ calls.called (stmt_view stmt) given) }
    {
        let stmt = boxed_stmt(alloc, stmt)?;
        Ok(Called {
            stmt,
            result: given,
        })
    }
}

/// What a call's result is given to: its rate, and the right side's first token.
#[derive(Clone, Copy, Debug, PartialEq, Eq, Drop)]
pub struct Receiver {
    pub place: Place,
    pub rate: Rate,
    pub result_for: ResultFor,
}

/// A call of the library, else of a user's function.
fn call_of_kind(
    alloc: Global,
    kind: Option<StatementCall>,
    context: &Context,
    call: &WholeCall,
    given: Vec<Passing>,
    result_for: ResultFor,
    step: usize,
) -> Result<Called, SourceFault>
    ensures { Answers called_view result (calls.call_of_kind (statement_call_view kind) (context_view context.now) call.now.place call.now.name.now (map passing_view given.entry.items) (result_view result_for) step) }
{
    match kind {
        Some(kind) => library_statement(alloc, call.place, kind, given, result_for, step),
        None => user_call(
            alloc, context, call.place, call.name, given, result_for, step,
        ),
    }
}

/// A call that stands as a statement, or whole after `=` or `return`; with a fault in its arguments it has none of its own.
///
/// # Errors
///
/// The first fault of its arguments. Else S9 at its name if no function takes them, S10 there if none of those that do beats
/// every other, S8 at a constant that a packed call stores to. Out of memory.
pub fn call_of(
    alloc: Global,
    context: &Context,
    scope: &TypeScope,
    call: &WholeCall,
    result_for: ResultFor,
    step: usize,
) -> Result<Called, SourceFault>
    ensures { Answers called_view result (calls.call_of (context_view context.now) scope.now.entries (whole_call_view call.now).at (whole_call_view call.now).name (whole_call_view call.now).args (result_view result_for) step) }
{
    let given = arguments(alloc, call.args, scope)?;
    call_of_kind(
        alloc,
        statement_call(call.name),
        context,
        call,
        given,
        result_for,
        step,
    )
}

/// S8 at a call without a result, S7 at a varying result that is given to something uniform.
fn result_fault(
    place: Place,
    result_type: Option<(IntType, Rate)>,
    rate: Rate,
) -> Option<SourceRefusal>
    ensures { result ≡ least_fault (calls.result_faults place result_type rate) }
{
    match result_type {
        None => fault_if(true, RefusalNumber::S8, place),
        Some((_, given)) => fault_if(!may_become(given, rate), RefusalNumber::S7, place),
    }
}

/// A call on the right side of something.
///
/// # Errors
///
/// The first fault of the call; else, at the right side's first token, S8 if it has no result, or S7 if its result is varying
/// and what it is given to is uniform. Out of memory.
pub fn right_call(
    alloc: Global,
    context: &Context,
    scope: &TypeScope,
    call: &WholeCall,
    receiver: Receiver,
    step: usize,
) -> Result<Box<Stmt>, SourceFault>
    ensures { Answers boxed_stmt_view result (calls.right_call (context_view context.now) scope.now.entries receiver.place (whole_call_view call.now) receiver.rate (result_view receiver.result_for) step) }
{
    let called = call_of(alloc, context, scope, call, receiver.result_for, step)?;
    refuse(result_fault(receiver.place, called.result, receiver.rate))?;
    Ok(called.stmt)
}
