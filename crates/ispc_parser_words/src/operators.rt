//! Marks that are operators or truth values, and how loosely operators bind.
ghost use Rattle.std.specs.Prelude.{◌≡◌, ◌-◌, option_map};
ghost use Rattle.ispc_lexer.specs.Views.{sort_of, lexemes_of};
ghost use Rattle.gang_model.specs.Source.Spells.{level as level_of};
ghost use Rattle.ispc_parser_words.specs.Operators as spec;

use gang_model::{Infix, Mark};
use gang_types::{BinaryOp, Place, UnaryOp};
use ispc_lexer::{Kind, Token};

/// The unary operator that a mark is, if it is one.
pub fn unary_op(mark: Mark) -> Option<UnaryOp>
    ensures { result ≡ spec.unary_op mark }
{
    match mark {
        Mark::Minus => Some(UnaryOp::Negate),
        Mark::Plus => Some(UnaryOp::Plus),
        Mark::Exclamation => Some(UnaryOp::Not),
        Mark::Tilde => Some(UnaryOp::Complement),
        _ => None,
    }
}

/// The truth value that a mark is, if it is one.
pub fn truth_of(mark: Mark) -> Option<bool>
    ensures { result ≡ spec.truth_of mark }
{
    match mark {
        Mark::True => Some(true),
        Mark::False => Some(false),
        _ => None,
    }
}

fn infix_of(mark: Mark) -> Option<Infix>
    ensures { result ≡ spec.infix_of mark }
{
    match mark {
        Mark::Plus => Some(Infix::Op(BinaryOp::Add)),
        Mark::Minus => Some(Infix::Op(BinaryOp::Sub)),
        Mark::Star => Some(Infix::Op(BinaryOp::Mul)),
        Mark::Slash => Some(Infix::Op(BinaryOp::Div)),
        Mark::Percent => Some(Infix::Op(BinaryOp::Rem)),
        Mark::Ampersand => Some(Infix::Op(BinaryOp::And)),
        Mark::Bar => Some(Infix::Op(BinaryOp::Or)),
        Mark::Caret => Some(Infix::Op(BinaryOp::Xor)),
        Mark::ShiftLeft => Some(Infix::Op(BinaryOp::Shl)),
        Mark::ShiftRight => Some(Infix::Op(BinaryOp::Shr)),
        Mark::Less => Some(Infix::Op(BinaryOp::Less)),
        Mark::LessEqual => Some(Infix::Op(BinaryOp::LessEqual)),
        Mark::Greater => Some(Infix::Op(BinaryOp::Greater)),
        Mark::GreaterEqual => Some(Infix::Op(BinaryOp::GreaterEqual)),
        Mark::EqualEqual => Some(Infix::Op(BinaryOp::Equal)),
        Mark::NotEqual => Some(Infix::Op(BinaryOp::NotEqual)),
        Mark::AndAnd => Some(Infix::AndAlso),
        Mark::OrOr => Some(Infix::OrElse),
        _ => None,
    }
}

/// How loosely an operator binds: 0 is the tightest.
fn level(operator: Infix) -> u8
    ensures { result ≡ level_of operator }
{
    match operator {
        Infix::Op(BinaryOp::Mul | BinaryOp::Div | BinaryOp::Rem) => 0,
        Infix::Op(BinaryOp::Add | BinaryOp::Sub) => 1,
        Infix::Op(BinaryOp::Shl | BinaryOp::Shr) => 2,
        Infix::Op(BinaryOp::Less | BinaryOp::LessEqual) => 3,
        Infix::Op(BinaryOp::Greater | BinaryOp::GreaterEqual) => 3,
        Infix::Op(BinaryOp::Equal | BinaryOp::NotEqual) => 4,
        Infix::Op(BinaryOp::And) => 5,
        Infix::Op(BinaryOp::Xor) => 6,
        Infix::Op(BinaryOp::Or) => 7,
        Infix::AndAlso => 8,
        Infix::OrElse => 9,
    }
}

/// How many levels of operators a right operand may have, beside an operator of the loosest of so many: those of one
/// level group from the left.
pub fn right_levels(levels: u8) -> u8
    ensures { result ≡ levels - 1 }
{
    levels.saturating_sub(1)
}

/// An operator of this level that stands first, its place, and the tokens after it.
#[tactic(auto, unfolding(crate::specs::Operators::operator_at))]
pub fn operator_at(wanted: u8, tokens: &[Token]) -> Option<(Infix, Place, &[Token])>
    ensures { option_map (λ x. (x.0, lexemes_of x.2.now)) result ≡ spec.operator_at wanted (lexemes_of tokens.now) }
{
    match tokens {
        [] => None,
        [first, rest @ ..] => {
            let Kind::Mark(mark) = first.kind else {
                return None;
            };
            let operator = infix_of(mark)?;
            if level(operator) == wanted {
                Some((operator, first.place, rest))
            } else {
                None
            }
        }
    }
}
