//! Where expressions stand.
ghost use Rattle.std.specs.Prelude.{◌≡◌};
ghost use Rattle.source_tree.specs.Expressions.{expr_view};
ghost use Rattle.gang_model.specs.Types.Typing as typing;

use gang_types::Place;
use source_tree::Expr;

/// An expression's first token.
pub fn first_of(expr: &Expr) -> Place
    ensures { result ≡ typing.first_of (expr_view expr.now) }
{
    match expr {
        Expr::Number { place, .. }
        | Expr::Truth { place, .. }
        | Expr::Name { place, .. }
        | Expr::Index { place, .. }
        | Expr::Call { place, .. }
        | Expr::Paren { place, .. }
        | Expr::Unary { place, .. }
        | Expr::Cast { place, .. } => *place,
        Expr::Binary { left, .. } => first_of(left),
        Expr::Choice { test, .. } => first_of(test),
    }
}

/// An expression's first token, parentheses left out.
pub(crate) fn name_of(expr: &Expr) -> Place
    ensures { result ≡ typing.name_of (expr_view expr.now) }
{
    match expr {
        Expr::Paren { inner, .. } => name_of(inner),
        _ => first_of(expr),
    }
}
