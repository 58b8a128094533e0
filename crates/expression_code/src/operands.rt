//! The operations of expressions, with the operands that they take whole.
ghost use Rattle.std.specs.Prelude.{◌≡◌, false, [], ◌∷◌, ◌++◌, MatchOption};
ghost use Rattle.expression_code.specs.Code.{code_of, takes_one, takes_three, takes_two};
ghost use Rattle.expression_instructions.specs.declared.code.Instruction.TheVariants.{One, Two, Three};

use expression_instructions::{Move, OneOperand, ThreeOperands, TwoOperands};
use typed_tree::Expr;

/// An operation on one operand.
pub(crate) fn one_operand(expression: &Expr) -> Option<(OneOperand, &Expr)>
    ensures { MatchOption result (takes_one expression.now ≡ false) (λ parts. code_of expression.now ≡ code_of parts.1.now ++ One parts.0 ∷ []) }
{
    match expression {
        Expr::Unary {
            operator,
            value_type,
            operand,
        } => Some((OneOperand::Unary(*operator, *value_type), operand)),
        Expr::Convert { from, to, operand } => Some((OneOperand::Convert(*from, *to), operand)),
        Expr::Reduce {
            function,
            value_type,
            value,
        } => Some((OneOperand::Reduce(*function, *value_type), value)),
        Expr::ScanLanes {
            function,
            value_type,
            value,
        } => Some((OneOperand::ScanLanes(*function, *value_type), value)),
        Expr::OfOne {
            function,
            value_type,
            value,
        } => Some((OneOperand::OfOne(*function, *value_type), value)),
        _ => None,
    }
}

/// An operation on two operands.
pub(crate) fn two_operands(expression: &Expr) -> Option<(TwoOperands, &Expr, &Expr)>
    ensures { MatchOption result (takes_two expression.now ≡ false) (λ parts. code_of expression.now ≡ code_of parts.1.now ++ (code_of parts.2.now ++ Two parts.0 ∷ [])) }
{
    match expression {
        Expr::Binary {
            operator,
            value_type,
            left,
            right,
        } => Some((TwoOperands::Binary(*operator, *value_type), left, right)),
        Expr::OfTwo {
            function,
            value_type,
            left,
            right,
        } => Some((TwoOperands::OfTwo(*function, *value_type), left, right)),
        Expr::Extract { value, index } => Some((TwoOperands::Pick, value, index)),
        Expr::Rotate { value, by } => Some((TwoOperands::Move(Move::Rotate), value, by)),
        Expr::Shift { value, by } => Some((TwoOperands::Move(Move::Shift), value, by)),
        Expr::Shuffle { value, places } => Some((TwoOperands::Pick, value, places)),
        _ => None,
    }
}

/// An operation on three operands.
pub(crate) fn three_operands(expression: &Expr) -> Option<(ThreeOperands, &Expr, &Expr, &Expr)>
    ensures { MatchOption result (takes_three expression.now ≡ false) (λ parts. code_of expression.now ≡ code_of parts.1.now ++ (code_of parts.2.now ++ (code_of parts.3.now ++ Three parts.0 ∷ []))) }
{
    match expression {
        Expr::Insert {
            value,
            index,
            new_value,
        } => Some((ThreeOperands::Insert, value, index, new_value)),
        Expr::ShuffleTwo {
            value,
            second,
            places,
        } => Some((ThreeOperands::PickOfTwo, value, second, places)),
        Expr::Select {
            test,
            first,
            second,
        } => Some((ThreeOperands::Select, test, first, second)),
        _ => None,
    }
}
