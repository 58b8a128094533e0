//! Operations on typed values.
ghost use Rattle.std.specs.Prelude.{◌≡◌, IfOk};
ghost use Rattle.gang_model.specs.Types.Conversions as model;
ghost use Rattle.type_check_values.specs.Views.{typed_view};

use crate::conversions::{as_type, right_operand};
use crate::rates::joined_rate;
use crate::typed::Typed;
use crate::types::{given_type, joined, operation_type, promoted};
use gang_model::Infix;
use gang_types::{BinaryOp, IntType, UnaryOp};
use std::alloc::{AllocError, Global};
use typed_tree::Expr;

fn operated(
    alloc: Global,
    operator: BinaryOp,
    left: Typed,
    right: Typed,
) -> Result<Typed, AllocError>
    ensures operated { IfOk result (λ e. typed_view e ≡ model.operated operator (typed_view left) (typed_view right)) }
{
    let made_in = operation_type(operator, left.value_type, right.value_type);
    let rate = joined_rate(left.rate, right.rate);
    let left = as_type(alloc, made_in, left)?;
    let right = right_operand(alloc, operator, made_in, right)?;
    Typed::new(
        alloc,
        Expr::Binary {
            operator,
            value_type: made_in,
            left,
            right,
        },
        given_type(operator, made_in),
        rate,
    )
}

/// Two operands with what stands between them; `&&` and `||` work in bool.
///
/// # Errors
///
/// Out of memory.
pub fn infixed(
    alloc: Global,
    operator: Infix,
    left: Typed,
    right: Typed,
) -> Result<Typed, AllocError>
    ensures infixed { IfOk result (λ e. typed_view e ≡ model.infixed operator (typed_view left) (typed_view right)) }
{
    if let Infix::Op(operator) = operator {
        return operated(alloc, operator, left, right);
    }
    let rate = joined_rate(left.rate, right.rate);
    let left = as_type(alloc, IntType::Bool, left)?;
    let right = as_type(alloc, IntType::Bool, right)?;
    let expr = match operator {
        Infix::OrElse => Expr::OrElse { left, right },
        _ => Expr::AndAlso { left, right },
    };
    Typed::new(alloc, expr, IntType::Bool, rate)
}

/// `!` is made on bool, the others on an integer type.
///
/// # Errors
///
/// Out of memory.
pub fn prefixed(alloc: Global, operator: UnaryOp, value: Typed) -> Result<Typed, AllocError>
    ensures prefixed { IfOk result (λ e. typed_view e ≡ model.prefixed operator (typed_view value)) }
{
    let value_type = match operator {
        UnaryOp::Not => IntType::Bool,
        _ => promoted(value.value_type),
    };
    let rate = value.rate;
    let operand = as_type(alloc, value_type, value)?;
    Typed::new(
        alloc,
        Expr::Unary {
            operator,
            value_type,
            operand,
        },
        value_type,
        rate,
    )
}

/// `test ? first : second`, in the joined type of its arms.
///
/// # Errors
///
/// Out of memory.
pub fn chosen_by(
    alloc: Global,
    test: Typed,
    first: Typed,
    second: Typed,
) -> Result<Typed, AllocError>
    ensures chosen { IfOk result (λ e. typed_view e ≡ model.chosen_by (typed_view test) (typed_view first) (typed_view second)) }
{
    let value_type = joined(first.value_type, second.value_type);
    let rate = joined_rate(test.rate, joined_rate(first.rate, second.rate));
    let test = as_type(alloc, IntType::Bool, test)?;
    let first = as_type(alloc, value_type, first)?;
    let second = as_type(alloc, value_type, second)?;
    Typed::new(
        alloc,
        Expr::Choice {
            test,
            first,
            second,
        },
        value_type,
        rate,
    )
}
