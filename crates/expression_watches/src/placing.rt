//! The code of a text at a step, where its names stand for what they stood for.
ghost use Rattle.std.specs.Prelude.{◌≡◌, ℕ, List, Some, IfOk};
ghost use Rattle.gang_types.specs.declared.places.Spot.{Spot};
ghost use Rattle.gang_model.specs.Source.Tokens.{Lexeme};
ghost use Rattle.gang_model.specs.Types.Tree as model;
ghost use Rattle.placed_expressions.specs.Refusals.{IsRefused};
ghost use Rattle.typed_tree.specs.Views.{program_view};
ghost use Rattle.expression_watches.specs.Meanings as spec;
ghost use Rattle.expression_watches.specs.Meanings.{IsCode};

use crate::names::same_names;
use expression_instructions::Instruction;
use gang_types::Spot;
use ispc_lexer::tokens;
use placed_expressions::{ExpressionRefusal, place_expression};
use source_answers::SourceFault;
use std::alloc::{AllocError, Global};
use typed_tree::Program;

/// The code of a text at a step, if it has a value there, and its names stand for what they stood for at the step where it was set.
///
/// # Errors
///
/// Out of memory.
pub(crate) fn code_at(
    alloc: Global,
    text: &[u8],
    set_at: Spot,
    program: &Program,
    spot: Spot,
) -> Result<Option<Vec<Instruction>>, AllocError>
    ensures { IfOk result (IsCode (program_view program.now) spot (spec.meaning_at (program_view program.now) set_at spot text.now)) }
{
    match tokens(alloc, text) {
        Ok(found) => {
            if same_names(program, set_at, spot, &found) {
                placed_code(alloc, text, program, spot)
            } else {
                Ok(None)
            }
        }
        Err(SourceFault::Memory) => Err(AllocError),
        Err(SourceFault::Refused(_)) => Ok(None),
    }
}

/// The code of a text at a step, if it has a value there.
///
/// # Errors
///
/// Out of memory.
fn placed_code(
    alloc: Global,
    text: &[u8],
    program: &Program,
    spot: Spot,
) -> Result<Option<Vec<Instruction>>, AllocError>
    ensures { (tokens : List Lexeme) → spec.tokens_of text.now ≡ Some tokens
        → IfOk result (IsCode (program_view program.now) spot (spec.tree_at (program_view program.now) spot tokens)) }
{
    match place_expression(alloc, text, program, spot) {
        Ok(placed) => Ok(Some(placed.code)),
        Err(refusal) => no_code(refusal),
    }
}

/// What stands for the code of a text that has no value.
///
/// # Errors
///
/// Out of memory.
fn no_code(refusal: ExpressionRefusal) -> Result<Option<Vec<Instruction>>, AllocError>
    ensures { (p : model.Program) (spot : Spot) (text : List ℕ) (tokens : List Lexeme) → spec.tokens_of text ≡ Some tokens → IsRefused text p spot refusal
        → IfOk result (IsCode p spot (spec.tree_at p spot tokens)) }
{
    match refusal {
        ExpressionRefusal::Memory => Err(AllocError),
        ExpressionRefusal::NoTokens(_) => Ok(None),
        ExpressionRefusal::NoExpression(_) => Ok(None),
        ExpressionRefusal::NoValue(_) => Ok(None),
        ExpressionRefusal::CallsFunction(_) => Ok(None),
    }
}
