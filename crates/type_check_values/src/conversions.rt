//! Conversions that are written out.
ghost use Rattle.std.specs.Prelude.{◌≡◌, IfOk};
ghost use Rattle.gang_model.specs.Types.Conversions as model;
ghost use Rattle.typed_tree.specs.Views.{boxed_view};
ghost use Rattle.type_check_values.specs.Views.{typed_view};

use crate::boxes::boxed_expr;
use crate::typed::Typed;
use gang_types::{BinaryOp, IntType};
use std::alloc::{AllocError, Global};
use typed_tree::Expr;

/// The expression, converted to a type.
///
/// # Errors
///
/// Out of memory.
pub fn as_type(alloc: Global, to: IntType, value: Typed) -> Result<Box<Expr>, AllocError>
    ensures converted { IfOk result (λ e. boxed_view e ≡ model.as_type to (typed_view value)) }
{
    if value.value_type == to {
        return Ok(value.expr);
    }
    let converted = Expr::Convert {
        from: value.value_type,
        to,
        operand: value.expr,
    };
    boxed_expr(alloc, converted)
}

/// The expression, converted to bool.
///
/// # Errors
///
/// Out of memory.
pub fn as_bool(alloc: Global, value: Typed) -> Result<Box<Expr>, AllocError>
    ensures converted { IfOk result (λ e. boxed_view e ≡ model.as_bool (typed_view value)) }
{
    as_type(alloc, IntType::Bool, value)
}

/// The right operand in an operation's type; a shift's amount keeps its own.
///
/// # Errors
///
/// Out of memory.
pub fn right_operand(
    alloc: Global,
    operator: BinaryOp,
    made_in: IntType,
    value: Typed,
) -> Result<Box<Expr>, AllocError>
    ensures operand { IfOk result (λ e. boxed_view e ≡ model.right_operand operator made_in (typed_view value)) }
{
    match operator {
        BinaryOp::Shl | BinaryOp::Shr => Ok(value.expr),
        _ => as_type(alloc, made_in, value),
    }
}
