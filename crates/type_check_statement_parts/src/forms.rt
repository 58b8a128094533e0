//! Statements of their parts.
ghost use Rattle.std.specs.Prelude.{◌≡◌, IfOk, Ok, if◌then◌else◌, map};
ghost use Rattle.gang_model.specs.Types.Tree as tree;
ghost use Rattle.typed_tree.specs.Boxes.{boxed_stmt_view};
ghost use Rattle.typed_tree.specs.Views.{boxed_view, dimension_view, rounds_view, stmts_view, var_view};
ghost use Rattle.type_check_values.specs.Views.{typed_view};
ghost use Rattle.source_answers.specs.Apart.{seen};
ghost use Rattle.type_check_statement_parts.specs.Sequences.{one_more, type_or_int32, value_rounds};

use gang_types::IntType;
use source_answers::{Answer, both_answers, in_order};
use std::alloc::{AllocError, Global};
use type_check_values::{Typed, boxed_stmt};
use typed_tree::{Dimension, Expr, Rounds, Stmt, Var};

/// The statements with one more after them.
///
/// # Errors
///
/// Out of memory.
pub fn more_statements(
    first: Answer<Vec<Stmt>>,
    next: Answer<Box<Stmt>>,
) -> Result<Answer<Vec<Stmt>>, AllocError>
    ensures more { IfOk result (λ answer. seen (λ stmts. stmts.items) answer ≡ one_more (seen (λ stmts. stmts.items) first) next) }
{
    match both_answers(first, next) {
        Ok((mut stmts, next)) => {
            stmts.push(Box::into_inner(next))?;
            Ok(Ok(stmts))
        }
        Err(fault) => Ok(Err(fault)),
    }
}

/// The statements as one.
///
/// # Errors
///
/// Out of memory.
pub fn block(alloc: Global, stmts: Answer<Vec<Stmt>>) -> Result<Answer<Box<Stmt>>, AllocError>
    ensures form { IfOk result (λ answer. seen boxed_stmt_view answer ≡ seen (λ stmts. stmts_view stmts.items) stmts) }
{
    match stmts {
        Ok(stmts) => {
            let block = boxed_stmt(alloc, Stmt::Block(stmts))?;
            Ok(Ok(block))
        }
        Err(fault) => Ok(Err(fault)),
    }
}

/// `if`, with both of its statements.
fn if_of(
    alloc: Global,
    step: usize,
    test: Box<Expr>,
    first: Box<Stmt>,
    other: Box<Stmt>,
) -> Result<Answer<Box<Stmt>>, AllocError>
    ensures form { IfOk result (λ answer. seen boxed_stmt_view answer ≡ Ok (tree.If step (boxed_view test) (boxed_stmt_view first) (boxed_stmt_view other))) }
{
    let stmt = Stmt::If {
        step,
        test,
        first,
        other,
    };
    Ok(Ok(boxed_stmt(alloc, stmt)?))
}

/// `if` without `else`.
///
/// # Errors
///
/// Out of memory.
pub fn conditional(
    alloc: Global,
    step: usize,
    parts: Answer<(Box<Expr>, Box<Stmt>)>,
) -> Result<Answer<Box<Stmt>>, AllocError>
    ensures form { IfOk result (λ answer. seen boxed_stmt_view answer ≡ seen (λ parts. tree.If step (boxed_view parts.0) (boxed_stmt_view parts.1) tree.Empty) parts) }
{
    match parts {
        Ok((test, first)) => {
            let other = boxed_stmt(alloc, Stmt::Empty)?;
            if_of(alloc, step, test, first, other)
        }
        Err(fault) => Ok(Err(fault)),
    }
}

/// `if` with `else`.
///
/// # Errors
///
/// Out of memory.
pub fn choice(
    alloc: Global,
    step: usize,
    parts: Answer<(Box<Expr>, (Box<Stmt>, Box<Stmt>))>,
) -> Result<Answer<Box<Stmt>>, AllocError>
    ensures form { IfOk result (λ answer. seen boxed_stmt_view answer ≡ seen (λ parts. tree.If step (boxed_view parts.0) (boxed_stmt_view parts.1.0) (boxed_stmt_view parts.1.1)) parts) }
{
    match parts {
        Ok((test, (first, other))) => if_of(alloc, step, test, first, other),
        Err(fault) => Ok(Err(fault)),
    }
}

/// A loop whose test comes first.
fn loop_of(
    alloc: Global,
    step: usize,
    test: Box<Expr>,
    update: Box<Stmt>,
    body: Box<Stmt>,
) -> Result<Box<Stmt>, AllocError>
    ensures form { IfOk result (λ stmt. boxed_stmt_view stmt ≡ tree.Loop step (boxed_view test) (boxed_stmt_view update) (boxed_stmt_view body)) }
{
    let stmt = Stmt::Loop {
        step,
        test,
        update,
        body,
    };
    boxed_stmt(alloc, stmt)
}

/// `while`.
///
/// # Errors
///
/// Out of memory.
pub(crate) fn repeated(
    alloc: Global,
    step: usize,
    parts: Answer<(Box<Expr>, Box<Stmt>)>,
) -> Result<Answer<Box<Stmt>>, AllocError>
    ensures form { IfOk result (λ answer. seen boxed_stmt_view answer ≡ seen (λ parts. tree.Loop step (boxed_view parts.0) tree.Empty (boxed_stmt_view parts.1)) parts) }
{
    match parts {
        Ok((test, body)) => {
            let update = boxed_stmt(alloc, Stmt::Empty)?;
            Ok(Ok(loop_of(alloc, step, test, update, body)?))
        }
        Err(fault) => Ok(Err(fault)),
    }
}

/// `do`.
///
/// # Errors
///
/// Out of memory.
pub fn body_first(
    alloc: Global,
    step: usize,
    parts: Answer<(Box<Stmt>, Box<Expr>)>,
) -> Result<Answer<Box<Stmt>>, AllocError>
    ensures form { IfOk result (λ answer. seen boxed_stmt_view answer ≡ seen (λ parts. tree.BodyFirst step (boxed_view parts.1) (boxed_stmt_view parts.0)) parts) }
{
    match parts {
        Ok((body, test)) => {
            let stmt = Stmt::BodyFirst { step, test, body };
            Ok(Ok(boxed_stmt(alloc, stmt)?))
        }
        Err(fault) => Ok(Err(fault)),
    }
}

/// A statement, and the rest of what it begins.
fn then_of(
    alloc: Global,
    first: Box<Stmt>,
    rest: Box<Stmt>,
) -> Result<Answer<Box<Stmt>>, AllocError>
    ensures form { IfOk result (λ answer. seen boxed_stmt_view answer ≡ Ok (tree.Then (boxed_stmt_view first) (boxed_stmt_view rest))) }
{
    Ok(Ok(boxed_stmt(alloc, Stmt::Then { first, rest })?))
}

/// `for`: its start and its test, its update and its body.
///
/// # Errors
///
/// Out of memory.
pub(crate) fn started(
    alloc: Global,
    step: usize,
    parts: Answer<((Box<Stmt>, Box<Expr>), (Box<Stmt>, Box<Stmt>))>,
) -> Result<Answer<Box<Stmt>>, AllocError>
    ensures form { IfOk result (λ answer. seen boxed_stmt_view answer ≡ seen (λ parts. tree.Then (boxed_stmt_view parts.0.0) (tree.Loop step (boxed_view parts.0.1) (boxed_stmt_view parts.1.0) (boxed_stmt_view parts.1.1))) parts) }
{
    match parts {
        Ok(((start, test), (update, body))) => {
            let rest = loop_of(alloc, step, test, update, body)?;
            then_of(alloc, start, rest)
        }
        Err(fault) => Ok(Err(fault)),
    }
}

/// The rounds of `foreach_tiled` or of `foreach`.
fn rows_or_tiles(is_tiled: bool, dimensions: Vec<Dimension>) -> Rounds
    ensures { rounds_view result ≡ (if is_tiled then tree.Tiles (map dimension_view dimensions.items) else tree.Rows (map dimension_view dimensions.items)) }
{
    if is_tiled {
        Rounds::Tiles(dimensions)
    } else {
        Rounds::Rows(dimensions)
    }
}

/// A body that is run in rounds.
fn rounds_of(
    alloc: Global,
    step: usize,
    rounds: Rounds,
    body: Box<Stmt>,
) -> Result<Answer<Box<Stmt>>, AllocError>
    ensures form { IfOk result (λ answer. seen boxed_stmt_view answer ≡ Ok (tree.ForEach step (rounds_view rounds) (boxed_stmt_view body))) }
{
    let stmt = Stmt::ForEach { step, rounds, body };
    Ok(Ok(boxed_stmt(alloc, stmt)?))
}

/// `foreach` and `foreach_tiled`.
///
/// # Errors
///
/// Out of memory.
pub(crate) fn over_rows(
    alloc: Global,
    step: usize,
    is_tiled: bool,
    parts: Answer<(Vec<Dimension>, Box<Stmt>)>,
) -> Result<Answer<Box<Stmt>>, AllocError>
    ensures form { IfOk result (λ answer. seen boxed_stmt_view answer ≡ seen (λ parts. tree.ForEach step (if is_tiled then tree.Tiles (map dimension_view parts.0.items) else tree.Rows (map dimension_view parts.0.items)) (boxed_stmt_view parts.1)) parts) }
{
    match parts {
        Ok((dimensions, body)) => {
            rounds_of(alloc, step, rows_or_tiles(is_tiled, dimensions), body)
        }
        Err(fault) => Ok(Err(fault)),
    }
}

/// `foreach_active`.
///
/// # Errors
///
/// Out of memory.
pub fn over_lanes(
    alloc: Global,
    step: usize,
    index: Var,
    body: Answer<Box<Stmt>>,
) -> Result<Answer<Box<Stmt>>, AllocError>
    ensures form { IfOk result (λ answer. seen boxed_stmt_view answer ≡ seen (λ body. tree.ForEach step (tree.EachLane (var_view index)) (boxed_stmt_view body)) body) }
{
    match body {
        Ok(body) => rounds_of(alloc, step, Rounds::EachLane(index), body),
        Err(fault) => Ok(Err(fault)),
    }
}

/// The type of a value, which is any where it has a fault.
pub fn type_of(value: &Answer<Typed>) -> IntType
    ensures { result ≡ type_or_int32 value.now }
{
    match value {
        Ok(value) => value.value_type,
        Err(_) => IntType::Int32,
    }
}

/// `foreach_unique`, where a fault of the value hides those of the body.
///
/// # Errors
///
/// Out of memory.
#[tactic(auto, using(crate::proofs::InOrder::rounds_in_order, crate::proofs::InOrder::fault_in_order))]
pub fn over_values(
    alloc: Global,
    step: usize,
    index: Var,
    value: Answer<Typed>,
    body: Answer<Box<Stmt>>,
) -> Result<Answer<Box<Stmt>>, AllocError>
    ensures form { IfOk result (λ answer. seen boxed_stmt_view answer ≡ value_rounds step (var_view index) (seen typed_view value) (seen boxed_stmt_view body)) }
{
    match in_order(value, body) {
        Ok((value, body)) => {
            let value = value.expr;
            rounds_of(alloc, step, Rounds::EachValue { index, value }, body)
        }
        Err(fault) => Ok(Err(fault)),
    }
}
