//! Expressions.
ghost use Rattle.std.specs.Prelude.{map};
ghost use Rattle.source_tree.specs.Expressions.{arg_view, args_view, expr_view};
ghost use Rattle.type_check_expressions.specs.Arguments.{argument};
ghost use Rattle.gang_model.specs.Types.Typing as typing;
ghost use Rattle.typed_tree.specs.Views as typed;
ghost use Rattle.type_check_values.specs.Views.{typed_view};
ghost use Rattle.source_answers.specs.Answers.{Answers};
ghost use Rattle.type_check_scopes.specs.Passings.{passing_view};

use crate::casts::cast_to;
use crate::elements::element;
use crate::named::names_no_value;
use crate::operands::{chosen_of, infixed_both};
use crate::passed::{passed, referred, view_from, view_index, viewed, with_next};
use crate::places::first_of;
use crate::values::{name_value, number_value, refusal, truth_value};
use gang_model::RefusalNumber;
use gang_types::{IntType, Rate};
use source_answers::{SourceFault, fault_if, refuse};
use source_tree::{Arg, Expr};
use std::alloc::Global;
use type_check_library::called_value;
use type_check_scopes::{Passing, TypeScope};
use type_check_values::{Typed, as_type, may_become, prefixed};
use typed_tree::Expr as TypedExpr;

/// The typed form of an expression.
///
/// # Errors
///
/// The first of its faults S5 and S7 to S9; an expression with a fault inside has none of its own. Out of memory.
#[cycle(expression)]
pub fn expression(alloc: Global, expr: &Expr, scope: &TypeScope) -> Result<Typed, SourceFault>
    ensures { Answers typed_view result (typing.expression (expr_view expr.now) scope.now.entries) }
{
    match expr {
        Expr::Number { number, .. } => Ok(number_value(alloc, *number)?),
        Expr::Truth { value, .. } => Ok(truth_value(alloc, *value)?),
        Expr::Name { place, name } => name_value(alloc, *place, name, scope),
        Expr::Index { place, name, index } => {
            let value = expression(alloc, index, scope)?;
            element(alloc, *place, name, index, value, scope)
        }
        Expr::Call { place, name, args } => {
            let mut given = Ok(Vec::new(alloc));
            for arg in args {
                given = with_next(given, argument(alloc, arg, scope));
            }
            called_value(alloc, *place, name, given?)
        }
        Expr::Paren { place, inner } => {
            if names_no_value(inner, scope) {
                Err(refusal(RefusalNumber::S8, *place))
            } else {
                expression(alloc, inner, scope)
            }
        }
        Expr::Unary {
            operator,
            operand,
            ..
        } => {
            let value = expression(alloc, operand, scope)?;
            Ok(prefixed(alloc, *operator, value)?)
        }
        Expr::Cast {
            place,
            rate,
            value_type,
            operand,
        } => {
            let value = expression(alloc, operand, scope)?;
            cast_to(alloc, *place, *rate, *value_type, value)
        }
        Expr::Binary {
            operator,
            left,
            right,
        } => {
            let of_left = expression(alloc, left, scope);
            let of_right = expression(alloc, right, scope);
            infixed_both(alloc, *operator, of_left, of_right)
        }
        Expr::Choice {
            test,
            first,
            second,
        } => {
            let of_test = expression(alloc, test, scope);
            let of_first = expression(alloc, first, scope);
            let of_second = expression(alloc, second, scope);
            chosen_of(alloc, of_test, of_first, of_second)
        }
    }
}

#[cycle(expression)]
fn argument<'a>(alloc: Global, arg: &'a Arg, scope: &TypeScope) -> Result<Passing<'a>, SourceFault>
    ensures { Answers passing_view result (argument (arg_view arg.now) scope.now.entries) }
{
    match arg {
        Arg::Value(value) => passed(value, expression(alloc, value, scope), scope),
        Arg::Part { place, name } => referred(*place, name, scope),
        Arg::PartFrom { place, name, index } => {
            let array = viewed(*place, name, scope);
            let value = expression(alloc, index, scope);
            view_from(*place, array, view_index(index, value))
        }
    }
}

/// The arguments of a call.
///
/// # Errors
///
/// The first fault of the arguments, each judged by itself. Out of memory.
pub fn arguments<'a>(
    alloc: Global,
    args: &'a [Arg],
    scope: &TypeScope,
) -> Result<Vec<Passing<'a>>, SourceFault>
    ensures { Answers (λ given. map passing_view given.items) result (typing.arguments (args_view args.now) scope.now.entries) }
{
    let mut given = Ok(Vec::new(alloc));
    for arg in args {
        given = with_next(given, argument(alloc, arg, scope));
    }
    given
}

/// A value for something of this type and rate.
///
/// # Errors
///
/// The first fault of the expression, or S7 at the first token of a varying one that is given to something uniform. Out of memory.
pub fn given_value(
    alloc: Global,
    expr: &Expr,
    scope: &TypeScope,
    value_type: IntType,
    rate: Rate,
) -> Result<Box<TypedExpr>, SourceFault>
    ensures { Answers typed.boxed_view result (typing.given_value (expr_view expr.now) scope.now.entries value_type rate) }
{
    let value = expression(alloc, expr, scope)?;
    refuse(fault_if(
        !may_become(value.rate, rate),
        RefusalNumber::S7,
        first_of(expr),
    ))?;
    Ok(as_type(alloc, value_type, value)?)
}
