//! From a text to the expression that it spells.
ghost use Rattle.std.specs.Prelude.{◌≡◌, [], IfErr, IfOk};
ghost use Rattle.gang_model.specs.Source.Spells.{WholeExpr};
ghost use Rattle.gang_model.specs.Source.SpellsSource.{max_nesting};
ghost use Rattle.ispc_lexer.specs.Views.{lexemes_of};
ghost use Rattle.ispc_parser_expressions.specs.Parse.{whole_expr};
ghost use Rattle.source_tree.specs.Expressions.{expr_view};
ghost use Rattle.placed_expressions.specs.Refusals.{HasNoExpression, IsUnread, IsUnspelled};
ghost use Rattle.placed_expressions.specs.Placed.{HasTokens};

use crate::answers::ExpressionRefusal;
use gang_model::{RefusalNumber, SourceRefusal};
use gang_types::Place;
use ispc_lexer::{Token, tokens};
use ispc_parser_expressions::expression;
use source_answers::SourceFault;
use source_tree::Expr;
use std::alloc::Global;

/// How many nestings an expression may have: as many as a source.
const MAX_NESTING: u32 = 64;

/// The tokens of a text.
///
/// # Errors
///
/// Out of memory, or the text has no tokens.
pub(crate) fn text_tokens(alloc: Global, text: &[u8]) -> Result<Vec<Token>, ExpressionRefusal>
    ensures found { IfOk result (λ v. HasTokens text.now (lexemes_of v.items)) }
    ensures refused { IfErr result (IsUnread text.now) }
{
    match tokens(alloc, text) {
        Ok(found) => Ok(found),
        Err(SourceFault::Memory) => Err(ExpressionRefusal::Memory),
        Err(SourceFault::Refused(refusal)) => Err(ExpressionRefusal::NoTokens(refusal)),
    }
}

/// The expression that the tokens spell, with nothing after it, where `end` is the place behind the last of them.
///
/// # Errors
///
/// Out of memory, or the tokens are no expression.
pub(crate) fn whole_expression(
    alloc: Global,
    tokens: &[Token],
    end: Place,
) -> Result<Expr, ExpressionRefusal>
    ensures spelled { IfOk result (λ written. WholeExpr max_nesting (expr_view written) (lexemes_of tokens.now) []) }
    ensures refused { IfErr result (IsUnspelled (lexemes_of tokens.now)) }
{
    match expression(alloc, MAX_NESTING, tokens, end) {
        Ok((written, [])) => Ok(written),
        Ok((_, [behind, ..])) => Err(ExpressionRefusal::NoExpression(SourceRefusal {
            number: RefusalNumber::S3,
            place: behind.place,
        })),
        Err(SourceFault::Memory) => Err(ExpressionRefusal::Memory),
        Err(SourceFault::Refused(refusal)) => Err(ExpressionRefusal::NoExpression(refusal)),
    }
}
