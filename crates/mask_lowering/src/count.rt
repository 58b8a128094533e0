//! How many steps statements have.
ghost use Rattle.std.specs.Prelude.{◌≡◌, ◌+◌, IfOk};
ghost use Rattle.gang_model.specs.Running.Step.{steps_of};
ghost use Rattle.typed_tree.specs.Views.{segments_view, stmt_view, stmts_view};

use std::alloc::AllocError;
use typed_tree::{Segment, Stmt};

/// One step more. More steps than a number counts have points for which no memory has room.
fn one_more(count: usize) -> Result<usize, AllocError>
    ensures { IfOk result (λ sum. sum ≡ count + 1) }
{
    count.checked_add(1).ok_or(AllocError)
}

/// The count with the steps of a statement.
#[cycle(counting)]
fn with_statement(statement: &Stmt, count: usize) -> Result<usize, AllocError>
    ensures { IfOk result (λ sum. sum ≡ count + steps_of (stmt_view statement.now)) }
{
    match statement {
        Stmt::Empty => Ok(count),
        Stmt::Block(statements) => with_statements(statements, count),
        Stmt::Then { first, rest } => {
            let count = with_statement(first, count)?;
            with_statement(rest, count)
        }
        Stmt::If { first, other, .. } => {
            let count = with_statement(first, one_more(count)?)?;
            with_statement(other, count)
        }
        Stmt::Loop { update, body, .. } => {
            let count = with_statement(body, count)?;
            one_more(with_statement(update, count)?)
        }
        Stmt::BodyFirst { body, .. } => one_more(with_statement(body, count)?),
        Stmt::Switch { segments, .. } => with_segments(segments, one_more(count)?),
        Stmt::ForEach { body, .. } => one_more(with_statement(body, one_more(count)?)?),
        _ => one_more(count),
    }
}

/// The count with the steps of a switch's segments.
#[cycle(counting)]
fn with_segments(segments: &[Segment], count: usize) -> Result<usize, AllocError>
    ensures { IfOk result (λ sum. sum ≡ count + steps_of (segments_view segments.now)) }
{
    let mut count = count;
    for segment in segments {
        count = with_statements(&segment.body, count)?;
    }
    Ok(count)
}

/// The count with the steps of statements in order.
///
/// # Errors
///
/// More steps than a number counts: no memory has room for their points.
#[cycle(counting)]
pub(crate) fn with_statements(statements: &[Stmt], count: usize) -> Result<usize, AllocError>
    ensures { IfOk result (λ sum. sum ≡ count + steps_of (stmts_view statements.now)) }
{
    let mut count = count;
    for statement in statements {
        count = with_statement(statement, count)?;
    }
    Ok(count)
}
