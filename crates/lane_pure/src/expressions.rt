//! Expressions that name no uniform scalar, and of the library only functions of one lane's values.
ghost use Rattle.std.specs.Prelude.{◌≡◌};
ghost use Rattle.gang_model.specs.Running.LanePure as pure;
ghost use Rattle.gang_model.specs.Types.Conversions.{is_varying};
ghost use Rattle.typed_tree.specs.Views.{expr_view};

use gang_types::Rate;
use typed_tree::Expr;

/// Whether a rate is varying.
pub(crate) fn is_varying(rate: Rate) -> bool
    ensures { result ≡ is_varying rate }
{
    matches!(rate, Rate::Varying)
}

/// Whether an expression is lane-pure.
pub(crate) fn is_pure(expression: &Expr) -> bool
    ensures { result ≡ pure.is_pure (expr_view expression.now) }
{
    match expression {
        Expr::Number(_) | Expr::ProgramIndex => true,
        Expr::Read(variable) => is_varying(variable.rate),
        Expr::Element { index, .. } => is_pure(index),
        Expr::Unary { operand, .. } => is_pure(operand),
        Expr::Binary { left, right, .. } => is_pure(left) && is_pure(right),
        Expr::Convert { operand, .. } => is_pure(operand),
        Expr::AndAlso { left, right } => is_pure(left) && is_pure(right),
        Expr::OrElse { left, right } => is_pure(left) && is_pure(right),
        Expr::Choice {
            test,
            first,
            second,
        } => { is_pure(test) && is_pure(first) && is_pure(second) }
        Expr::OfOne { value, .. } => is_pure(value),
        Expr::OfTwo { left, right, .. } => is_pure(left) && is_pure(right),
        Expr::Select {
            test,
            first,
            second,
        } => { is_pure(test) && is_pure(first) && is_pure(second) }
        _ => false,
    }
}
