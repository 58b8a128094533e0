//! `x * 3 + a[i]`: the expression, and its value in one lane of a plain loop.
ghost use Rattle.std.specs.Prelude.{◌≡◌, pos, IfOk};
ghost use Rattle.std.specs.Int.{int_wrapping_add, int_wrapping_mul, w32};
ghost use Rattle.gang_types.specs.declared.types.IntType.TheVariants.{Int32};
ghost use Rattle.gang_model.specs.Types.Tree.{Binary};
ghost use Rattle.typed_tree.specs.Views.{expr_view};
ghost use Rattle.expression_bench.specs.Sum.{sum, variable};

use crate::store::{A, I, X};
use gang_types::{BinaryOp, IntType, Rate, VarId};
use std::alloc::{AllocError, Global};
use typed_tree::{Expr, Var};

fn read(id: VarId) -> Expr
    ensures { expr_view result ≡ variable id }
{
    Expr::Read(Var {
        id,
        value_type: IntType::Int32,
        rate: Rate::Varying,
    })
}

fn binary(alloc: Global, operator: BinaryOp, left: Expr, right: Expr) -> Result<Expr, AllocError>
    ensures { IfOk result (λ e. expr_view e ≡ Binary operator Int32 (expr_view left) (expr_view right)) }
{
    Ok(Expr::Binary {
        operator,
        value_type: IntType::Int32,
        left: Box::new(alloc, left)?,
        right: Box::new(alloc, right)?,
    })
}

/// The expression as the type check gives it.
///
/// # Errors
///
/// Out of memory.
pub(crate) fn expression(alloc: Global) -> Result<Expr, AllocError>
    ensures { IfOk result (λ e. expr_view e ≡ sum) }
{
    let product = binary(alloc, BinaryOp::Mul, read(X), Expr::Number(3))?;
    let element = Expr::Element {
        array: A,
        index: Box::new(alloc, read(I))?,
    };
    binary(alloc, BinaryOp::Add, product, element)
}

/// The value of the expression in one lane.
pub(crate) fn in_one_lane(x: i32, element: i32) -> i32
    ensures { result ≡ int_wrapping_add w32 (int_wrapping_mul w32 x (pos 3)) element }
{
    x.wrapping_mul(3).wrapping_add(element)
}
