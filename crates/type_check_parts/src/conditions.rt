//! Tests.
ghost use Rattle.std.specs.Prelude.{Some, option_map};
ghost use Rattle.source_tree.specs.Expressions.{expr_view};
ghost use Rattle.gang_model.specs.Types.Statements as model;
ghost use Rattle.source_tree.specs.Tree as parsed;
ghost use Rattle.typed_tree.specs.Views as typed;
ghost use Rattle.source_answers.specs.Answers.{Answers};

use source_answers::SourceFault;
use source_tree::Expr;
use std::alloc::Global;
use type_check_expressions::expression;
use type_check_scopes::TypeScope;
use type_check_values::{as_bool, boxed_expr};
use typed_tree::Expr as TypedExpr;

/// A test, in bool.
///
/// # Errors
///
/// Its first fault. Out of memory.
pub fn test_of(alloc: Global, scope: &TypeScope, test: &Expr) -> Result<Box<TypedExpr>, SourceFault>
    ensures { Answers typed.boxed_view result (model.test_of scope.now.entries (Some (expr_view test.now))) }
{
    let value = expression(alloc, test, scope)?;
    Ok(as_bool(alloc, value)?)
}

/// The test of a `for`; an empty one is true.
///
/// # Errors
///
/// Its first fault. Out of memory.
pub fn some_test(
    alloc: Global,
    scope: &TypeScope,
    test: &Option<Expr>,
) -> Result<Box<TypedExpr>, SourceFault>
    ensures { Answers typed.boxed_view result (model.test_of scope.now.entries (option_map expr_view test.now)) }
{
    match test {
        Some(test) => test_of(alloc, scope, test),
        None => Ok(boxed_expr(alloc, TypedExpr::Number(1))?),
    }
}
