//! What a function gives back.
ghost use Rattle.std.specs.Prelude.{◌≡◌, Some, option_map};
ghost use Rattle.source_tree.specs.Expressions.{expr_view};
ghost use Rattle.gang_model.specs.Types.Statements as model;
ghost use Rattle.source_tree.specs.Tree as parsed;
ghost use Rattle.gang_model.specs.Source.Judged.{Sound};
ghost use Rattle.typed_tree.specs.Boxes.{boxed_stmt_view};
ghost use Rattle.typed_tree.specs.Views.{stmt_view};
ghost use Rattle.source_answers.specs.Answers.{Answers};
ghost use Rattle.type_check_calls.specs.Calls.{context_view};
ghost use Rattle.type_check_parts.specs.Results as answers;

use gang_model::{RefusalNumber, SourceRefusal};
use gang_types::{IntType, Place, Rate};
use source_answers::SourceFault;
use source_tree::Expr;
use std::alloc::Global;
use type_check_calls::{Context, Receiver, right_call, whole_call};
use type_check_expressions::{first_of, given_value};
use type_check_scopes::TypeScope;
use type_check_values::boxed_stmt;
use typed_tree::{ResultFor, Stmt};

/// What is returned with a value of this type and rate: a call's result, or a value.
fn returned(
    alloc: Global,
    context: &Context,
    scope: &TypeScope,
    value: &Expr,
    asked: (IntType, Rate),
    step: usize,
) -> Result<Box<Stmt>, SourceFault>
    ensures { Answers boxed_stmt_view result (model.returned (context_view context.now) scope.now.entries (expr_view value.now) asked step) }
{
    let (value_type, rate) = asked;
    match whole_call(context.functions, value) {
        Some(call) => {
            let receiver = Receiver {
                place: first_of(value),
                rate,
                result_for: ResultFor::Returns,
            };
            right_call(alloc, context, scope, &call, receiver, step)
        }
        None => {
            let value = given_value(alloc, value, scope, value_type, rate)?;
            let stmt = Stmt::Return {
                step,
                value: Some(value),
            };
            Ok(boxed_stmt(alloc, stmt)?)
        }
    }
}

/// A statement of which nothing is judged.
///
/// # Errors
///
/// Out of memory.
pub fn unjudged(alloc: Global, stmt: Stmt) -> Result<Box<Stmt>, SourceFault>
    ensures { Answers boxed_stmt_view result (Sound (stmt_view stmt)) }
{
    Ok(boxed_stmt(alloc, stmt)?)
}

/// `return` without a value.
fn empty_return(
    alloc: Global,
    context: &Context,
    place: Place,
    step: usize,
) -> Result<Box<Stmt>, SourceFault>
    ensures { Answers boxed_stmt_view result (model.empty_return place (context_view context.now).result step) }
{
    match context.result {
        Some(_) => Err(SourceFault::Refused(SourceRefusal {
            number: RefusalNumber::S8,
            place,
        })),
        None => unjudged(alloc, Stmt::Return { step, value: None }),
    }
}

/// The answer for a value at this place that is returned where there is no result.
fn in_void(place: Place, answer: Result<Box<Stmt>, SourceFault>) -> Result<Box<Stmt>, SourceFault>
    ensures { result ≡ answers.in_void place answer }
{
    answer?;
    Err(SourceFault::Refused(SourceRefusal {
        number: RefusalNumber::S8,
        place,
    }))
}

/// `return` with a value.
fn value_return(
    alloc: Global,
    context: &Context,
    scope: &TypeScope,
    value: &Expr,
    step: usize,
) -> Result<Box<Stmt>, SourceFault>
    ensures { Answers boxed_stmt_view result (model.value_return (context_view context.now) scope.now.entries (expr_view value.now) (context_view context.now).result step) }
{
    match context.result {
        Some(asked) => returned(alloc, context, scope, value, asked, step),
        None => {
            let any = (IntType::Int32, Rate::Varying);
            let answer = returned(alloc, context, scope, value, any, step);
            in_void(first_of(value), answer)
        }
    }
}

/// `return`, with or without a value.
///
/// # Errors
///
/// The first fault of the value; else S8 at the value's first token in a `void` function, at the keyword where a result is
/// asked. Out of memory.
pub fn returning(
    alloc: Global,
    context: &Context,
    scope: &TypeScope,
    place: Place,
    value: &Option<Expr>,
    step: usize,
) -> Result<Box<Stmt>, SourceFault>
    ensures { Answers boxed_stmt_view result (model.returning (context_view context.now) scope.now.entries place (option_map expr_view value.now) step) }
{
    match value {
        Some(value) => value_return(alloc, context, scope, value, step),
        None => empty_return(alloc, context, place, step),
    }
}
