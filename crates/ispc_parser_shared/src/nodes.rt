//! Statements in boxes, with their parts.
ghost use Rattle.std.specs.Prelude.{◌≡◌, [], ◌∷◌, ◌++◌, IfOk, OnOk};
ghost use Rattle.gang_model.specs.Source.Parsed.{ParsedBlock, ParsedIf, ParsedIfElse, ParsedDo, ParsedSwitch};
ghost use Rattle.ispc_lexer.specs.Views.{lexemes_of};
ghost use Rattle.ispc_parser_words.specs.Front.{Gives};
ghost use Rattle.source_tree.specs.Expressions.{expr_view};
ghost use Rattle.ispc_parser_shared.specs.Front.{just, closed_by};
ghost use Rattle.source_tree.specs.Tree.{stmt_view, stmts_view, segments_view};

use crate::front::{Context, Read};
use gang_model::Mark;
use gang_types::Place;
use ispc_lexer::Token;
use ispc_parser_words::take;
use source_answers::boxed;
use source_tree::{Expr, Segment, Stmt};
use std::alloc::{AllocError, Global};

/// A statement in a box. Statements are large, so what reads them hands on boxes.
fn in_box(alloc: Global, stmt: Stmt) -> Result<Box<Stmt>, AllocError>
    ensures { IfOk result (λ place. place.value ≡ stmt) }
{
    boxed(alloc, stmt)
}

/// A statement in a box, and the tokens after it.
///
/// # Errors
///
/// Out of memory.
pub fn with_rest(alloc: Global, stmt: Stmt, rest: &[Token]) -> Read<'_, Box<Stmt>>
    ensures { Gives (λ x. (stmt_view x.0.value, lexemes_of x.1.now)) result
        (just (stmt_view stmt) (lexemes_of rest.now)) }
{
    Ok((in_box(alloc, stmt)?, rest))
}

/// A statement that this mark closes, in a box.
///
/// # Errors
///
/// S3 at what stands first in place of the mark, or at the end. Out of memory.
pub fn closed(context: Context, mark: Mark, stmt: Stmt, tokens: &[Token]) -> Read<'_, Box<Stmt>>
    ensures { Gives (λ x. (stmt_view x.0.value, lexemes_of x.1.now)) result
        (closed_by mark (stmt_view stmt) (lexemes_of tokens.now)) }
{
    let rest = take(mark, tokens, context.end)?;
    with_rest(context.alloc, stmt, rest)
}

/// A statement with the `;` behind it.
///
/// # Errors
///
/// S3 at what stands first in place of the `;`, or at the end.
pub fn ended(stmt: Box<Stmt>, tokens: &[Token], end: Place) -> Read<'_, Box<Stmt>>
    ensures { Gives (λ x. (stmt_view x.0.value, lexemes_of x.1.now)) result
        (closed_by Mark.Semicolon (stmt_view stmt.value) (lexemes_of tokens.now)) }
{
    let rest = take(Mark::Semicolon, tokens, end)?;
    Ok((stmt, rest))
}

/// Puts a statement behind the others.
///
/// # Errors
///
/// Out of memory.
pub fn push(stmts: &mut Vec<Stmt>, stmt: Box<Stmt>) -> Result<(), AllocError>
    ensures { OnOk result (stmts.new.items ≡ stmts.old.items ++ stmt.value ∷ []) }
{
    Ok(stmts.push(Box::into_inner(stmt))?)
}

/// `{ .. }` with these statements.
pub fn block_of(stmts: Vec<Stmt>) -> Stmt
    ensures { stmt_view result ≡ ParsedBlock (stmts_view stmts.items) }
{
    Stmt::Block(stmts)
}

/// `if` without an `else`, at this place, and the tokens after it.
///
/// # Errors
///
/// Out of memory.
pub fn if_then(
    alloc: Global,
    place: Place,
    test: Expr,
    first: Box<Stmt>,
    rest: &[Token],
) -> Read<'_, Box<Stmt>>
    ensures { Gives (λ x. (stmt_view x.0.value, lexemes_of x.1.now)) result
        (just (ParsedIf place (expr_view test) (stmt_view first.value)) (lexemes_of rest.now)) }
{
    let stmt = Stmt::If {
        place,
        test,
        first,
        other: None,
    };
    with_rest(alloc, stmt, rest)
}

/// `if` with an `else`, at this place, and the tokens after it.
///
/// # Errors
///
/// Out of memory.
pub fn if_else(
    alloc: Global,
    place: Place,
    test: Expr,
    first: Box<Stmt>,
    other: Box<Stmt>,
    rest: &[Token],
) -> Read<'_, Box<Stmt>>
    ensures { Gives (λ x. (stmt_view x.0.value, lexemes_of x.1.now)) result
        (just (ParsedIfElse place (expr_view test) (stmt_view first.value) (stmt_view other.value)) (lexemes_of rest.now)) }
{
    let stmt = Stmt::If {
        place,
        test,
        first,
        other: Some(other),
    };
    with_rest(alloc, stmt, rest)
}

/// `do` with this body, and the place of its `while` with its test, and the tokens after it.
///
/// # Errors
///
/// Out of memory.
pub fn do_while(
    alloc: Global,
    body: Box<Stmt>,
    tested: (Place, Expr),
    rest: &[Token],
) -> Read<'_, Box<Stmt>>
    ensures { Gives (λ x. (stmt_view x.0.value, lexemes_of x.1.now)) result
        (just (ParsedDo (stmt_view body.value) tested.0 (expr_view tested.1)) (lexemes_of rest.now)) }
{
    let (place, test) = tested;
    with_rest(alloc, Stmt::Do { body, place, test }, rest)
}

/// `switch` at this place, over these segments.
pub fn switch_of(place: Place, selector: Expr, segments: Vec<Segment>) -> Stmt
    ensures { stmt_view result ≡ ParsedSwitch place (expr_view selector) (segments_view segments.items) }
{
    Stmt::Switch {
        place,
        selector,
        segments,
    }
}
