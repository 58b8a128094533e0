//! Which expressions may have different values in different lanes.
ghost use Rattle.std.specs.Prelude.{◌≡◌};
ghost use Rattle.typed_tree.specs.Views.{expr_view};
ghost use Rattle.element_accesses.specs.Found.{varies};

use gang_types::Rate;
use typed_tree::Expr;

/// Whether an expression may have different values in different lanes.
#[cycle(varying)]
pub(crate) fn varies(expression: &Expr) -> bool
    ensures { result ≡ varies (expr_view expression.now) }
{
    match expression {
        Expr::Read(variable) => variable.rate == Rate::Varying,
        Expr::Element { array: _, index } => varies(index),
        Expr::Unary { operand, .. } => varies(operand),
        Expr::Convert { operand, .. } => varies(operand),
        Expr::OfOne { value, .. } => varies(value),
        Expr::Extract { value: _, index } => varies(index),
        Expr::Binary { left, right, .. } => varies(left) || varies(right),
        Expr::OfTwo { left, right, .. } => varies(left) || varies(right),
        Expr::AndAlso { left, right } => varies(left) || varies(right),
        Expr::OrElse { left, right } => varies(left) || varies(right),
        Expr::Choice {
            test,
            first,
            second,
        } => varies(test) || varies(first) || varies(second),
        Expr::Select {
            test,
            first,
            second,
        } => varies(test) || varies(first) || varies(second),
        Expr::Number(_) | Expr::ProgramCount | Expr::LaneMask | Expr::Reduce { .. } => false,
        _ => true,
    }
}
