//! From a text to the code of an expression at a step.
ghost use Rattle.std.specs.Prelude.{◌≡◌, ◌≤◌, Err, IfErr, IfOk};
ghost use Rattle.gang_types.specs.declared.places.Spot.{Spot};
ghost use Rattle.gang_model.specs.Source.Judged.{answer_of};
ghost use Rattle.gang_model.specs.Source.Parsed.{ParsedExpr};
ghost use Rattle.gang_model.specs.Source.Spells.{max_weight, weight};
ghost use Rattle.gang_model.specs.Types.Typing as typing;
ghost use Rattle.ispc_lexer.specs.Views.{lexemes_of};
ghost use Rattle.source_tree.specs.Expressions.{expr_view};
ghost use Rattle.typed_tree.specs.Views.{program_view};
ghost use Rattle.frame_expressions.specs.Meanings.{entries_at};
ghost use Rattle.placed_expressions.specs.Placed.{IsMeaning, IsOnlyPlaced, IsPlaced};
ghost use Rattle.placed_expressions.specs.Refusals.{Fails, HasNoValue, IsRefused};

use crate::answers::{ExpressionRefusal, PlacedExpression};
use crate::called::is_function_at;
use crate::reading::{text_tokens, whole_expression};
use crate::scope::scope_at;
use crate::unknown::told;
use expression_code::compile;
use gang_model::{RefusalNumber, SourceRefusal};
use gang_types::Spot;
use ispc_lexer::{Token, source_end};
use source_answers::SourceFault;
use source_tree::Expr;
use std::alloc::Global;
use type_check_expressions::expression;
use type_check_scopes::TypeScope;
use typed_tree::Program;

/// The expression that a text spells, with the names that are in scope at a step of a function: those of the function's variables
/// there, of the file's variables, and `programIndex` and `programCount`.
///
/// # Errors
///
/// Out of memory, or the text has no value there: see [`ExpressionRefusal`].
pub fn place_expression(
    alloc: Global,
    text: &[u8],
    program: &Program,
    spot: Spot,
) -> Result<PlacedExpression, ExpressionRefusal>
    // The text spells an expression that has this type, this rate and this code in the scope of the step.
    ensures placed { IfOk result (IsPlaced text.now (program_view program.now) spot) }
    // It spells no other one.
    ensures one { IfOk result (IsOnlyPlaced text.now (program_view program.now) spot) }
    ensures refused { IfErr result (IsRefused text.now (program_view program.now) spot) }
{
    let tokens = text_tokens(alloc, text)?;
    let written = whole_expression(alloc, &tokens, source_end(text))?;
    place_written(alloc, &written, &tokens, program, spot)
}

/// A written expression in the scope of a step.
fn place_written(
    alloc: Global,
    written: &Expr,
    tokens: &[Token],
    program: &Program,
    spot: Spot,
) -> Result<PlacedExpression, ExpressionRefusal>
    requires { weight (expr_view written.now) ≤ max_weight }
    ensures means { IfOk result (IsMeaning (expr_view written.now) (entries_at (program_view program.now) spot)) }
    ensures refused { IfErr result (HasNoValue (expr_view written.now) (lexemes_of tokens.now) (program_view program.now) spot) }
{
    let scope = scope_at(alloc, program, spot)?;
    match place_in(alloc, written, &scope) {
        Ok(placed) => Ok(placed),
        Err(SourceFault::Memory) => Err(ExpressionRefusal::Memory),
        Err(SourceFault::Refused(refusal)) => Err(named_apart(refusal, program, tokens, &scope)),
    }
}

/// A written expression in a scope.
fn place_in(
    alloc: Global,
    written: &Expr,
    scope: &TypeScope,
) -> Result<PlacedExpression, SourceFault>
    requires { weight (expr_view written.now) ≤ max_weight }
    ensures means { IfOk result (IsMeaning (expr_view written.now) scope.now.entries) }
    ensures refused { IfErr result (Fails (typing.expression (expr_view written.now) scope.now.entries)) }
{
    let value = expression(alloc, written, scope)?;
    let code = compile(alloc, &value.expr)?;
    Ok(PlacedExpression {
        value_type: value.value_type,
        rate: value.rate,
        code,
    })
}

/// The refusal as it is told: a call of a function of the program is named apart from other calls that have no value, and a name
/// that nothing has is unknown where it is indexed too.
fn named_apart(
    refusal: SourceRefusal,
    program: &Program,
    tokens: &[Token],
    scope: &TypeScope,
) -> ExpressionRefusal
    ensures { (written : ParsedExpr) (spot : Spot) → scope.now.entries ≡ entries_at (program_view program.now) spot
        → answer_of (typing.expression written (entries_at (program_view program.now) spot)) ≡ Err refusal
        → HasNoValue written (lexemes_of tokens.now) (program_view program.now) spot result }
{
    let place = refusal.place;
    if refusal.number == RefusalNumber::S9 && is_function_at(&program.functions, tokens, place) {
        ExpressionRefusal::CallsFunction(place)
    } else {
        ExpressionRefusal::NoValue(told(scope, tokens, refusal))
    }
}
