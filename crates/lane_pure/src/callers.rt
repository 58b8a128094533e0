//! Which functions call each function.
ghost use Rattle.std.specs.Prelude.{◌≡◌, IfOk, [], replicate};
ghost use Rattle.typed_tree.specs.Views.{program_view, segments_view, stmt_view, stmts_view};
ghost use Rattle.lane_pure.specs.Callers.{AreCallers, lists, with_caller, with_calls};

use std::alloc::{AllocError, Global};
use typed_tree::{Program, Segment, Stmt};

/// The functions that call each function of a program, by their numbers.
///
/// # Errors
///
/// Out of memory.
pub(crate) fn callers_of(alloc: Global, program: &Program) -> Result<Vec<Vec<usize>>, AllocError>
    ensures { IfOk result (λ callers. AreCallers (program_view program.now) (lists callers.items)) }
{
    let mut callers = no_callers(alloc, program.functions.len())?;
    for (number, function) in program.functions.iter().enumerate() {
        add_statements(&function.body, number, &mut callers)?;
    }
    Ok(callers)
}

/// No callers, for so many functions.
fn no_callers(alloc: Global, count: usize) -> Result<Vec<Vec<usize>>, AllocError>
    ensures { IfOk result (λ callers. lists callers.items ≡ replicate count []) }
{
    let mut callers = Vec::new(alloc);
    for _ in 0..count {
        callers.push(Vec::new(alloc))?;
    }
    Ok(callers)
}

/// Puts a caller to those of a function, if there is such a one.
fn add_caller(callers: &mut [Vec<usize>], function: usize, caller: usize) -> Result<(), AllocError>
    ensures { IfOk result (λ _. lists callers.new ≡ with_caller caller function (lists callers.old)) }
{
    if function < callers.len() {
        callers[function].push(caller)?;
    }
    Ok(())
}

/// Puts a caller to those of each function that a statement calls.
#[cycle(calling)]
fn add_statement(
    statement: &Stmt,
    caller: usize,
    callers: &mut [Vec<usize>],
) -> Result<(), AllocError>
    ensures { IfOk result (λ _. lists callers.new ≡ with_calls caller (stmt_view statement.now) (lists callers.old)) }
{
    match statement {
        Stmt::Block(statements) => add_statements(statements, caller, callers),
        Stmt::Then { first, rest } => {
            add_statement(first, caller, callers)?;
            add_statement(rest, caller, callers)
        }
        Stmt::If { first, other, .. } => {
            add_statement(first, caller, callers)?;
            add_statement(other, caller, callers)
        }
        Stmt::Loop { update, body, .. } => {
            add_statement(update, caller, callers)?;
            add_statement(body, caller, callers)
        }
        Stmt::BodyFirst { body, .. } => add_statement(body, caller, callers),
        Stmt::Switch { segments, .. } => add_segments(segments, caller, callers),
        Stmt::Call { function, .. } => add_caller(callers, *function, caller),
        _ => Ok(()),
    }
}

/// Puts a caller to those of each function that the segments of a switch call.
#[cycle(calling)]
fn add_segments(
    segments: &[Segment],
    caller: usize,
    callers: &mut [Vec<usize>],
) -> Result<(), AllocError>
    ensures { IfOk result (λ _. lists callers.new ≡ with_calls caller (segments_view segments.now) (lists callers.old)) }
{
    for segment in segments {
        add_statements(&segment.body, caller, callers)?;
    }
    Ok(())
}

/// Puts a caller to those of each function that statements in order call.
#[cycle(calling)]
fn add_statements(
    statements: &[Stmt],
    caller: usize,
    callers: &mut [Vec<usize>],
) -> Result<(), AllocError>
    ensures { IfOk result (λ _. lists callers.new ≡ with_calls caller (stmts_view statements.now) (lists callers.old)) }
{
    for statement in statements {
        add_statement(statement, caller, callers)?;
    }
    Ok(())
}
