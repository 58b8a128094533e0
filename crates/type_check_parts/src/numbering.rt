//! The numbers of steps.
ghost use Rattle.std.specs.Prelude.{◌≡◌, ◌+◌, IfOk, OnOk, min};
ghost use Rattle.gang_model.specs.Running.Numbering as model;
ghost use Rattle.source_tree.specs.Tree.{segments_view, stmt_view, stmts_view};
ghost use Rattle.source_answers.specs.Apart.{apart};
ghost use Rattle.type_check_parts.specs.Steps as steps;

use source_answers::{Answer, SourceFault, set_apart};
use source_tree::{Segment, Stmt};
use std::alloc::AllocError;

/// The number that comes so many steps later.
///
/// # Errors
///
/// Out of memory, as which a number that is too large counts.
pub fn advanced(step: usize, steps: usize) -> Result<usize, AllocError>
    ensures number { IfOk result (λ number. number ≡ step + steps) }
{
    step.checked_add(steps).ok_or(AllocError)
}

/// The answer for what has one step, after which the next one is numbered.
///
/// # Errors
///
/// Out of memory.
pub fn one_step<A: Drop>(
    made: Result<A, SourceFault>,
    step: &mut usize,
) -> Result<Answer<A>, AllocError>
    ensures answer { OnOk result (result ≡ apart made) }
    ensures steps { OnOk result (step.new ≡ step.old + 1) }
{
    *step = advanced(*step, 1)?;
    set_apart(made)
}

/// How many steps a statement has beside those of the statements in it.
fn own_steps(stmt: &Stmt) -> usize
    ensures { result ≡ steps.own_steps stmt.now }
{
    match stmt {
        Stmt::Empty | Stmt::Block(_) => 0,
        Stmt::ForEach { .. } | Stmt::ForEachActive { .. } | Stmt::ForEachUnique { .. } => 2,
        _ => 1,
    }
}

/// The number that comes after the steps of a statement whose first one has this number, or the greatest number.
#[cycle(after)]
fn after_steps(step: usize, stmt: &Stmt) -> usize
    ensures { result ≡ min (step + model.steps_in (stmt_view stmt.now)) steps.greatest }
{
    let mut after = step.saturating_add(own_steps(stmt));
    match stmt {
        Stmt::Block(stmts) => after_all(after, stmts),
        Stmt::Switch { segments, .. } => after_segments(after, segments),
        Stmt::If { first, other, .. } => {
            after = after_steps(after, first);
            match other {
                Some(other) => after_steps(after, other),
                None => after,
            }
        }
        Stmt::For {
            start,
            update,
            body,
            ..
        } => after_steps(after_steps(after_steps(after, start), body), update),
        Stmt::While { body, .. }
        | Stmt::Do { body, .. }
        | Stmt::ForEach { body, .. }
        | Stmt::ForEachActive { body, .. }
        | Stmt::ForEachUnique { body, .. } => after_steps(after, body),
        Stmt::Empty
        | Stmt::Declare { .. }
        | Stmt::Assign { .. }
        | Stmt::Change { .. }
        | Stmt::Increment { .. }
        | Stmt::Call { .. }
        | Stmt::Break { .. }
        | Stmt::Continue { .. }
        | Stmt::Return { .. } => after,
    }
}

/// The same after statements in order.
#[cycle(after)]
fn after_all(step: usize, stmts: &[Stmt]) -> usize
    ensures { result ≡ min (step + model.steps_in_all (stmts_view stmts.now)) steps.greatest }
{
    let mut after = step;
    for stmt in stmts {
        after = after_steps(after, stmt);
    }
    after
}

/// The same after the segments of a `switch`.
#[cycle(after)]
fn after_segments(step: usize, segments: &[Segment]) -> usize
    ensures { result ≡ min (step + model.steps_in_segments (segments_view segments.now)) steps.greatest }
{
    let mut after = step;
    for segment in segments {
        after = after_all(after, &segment.body);
    }
    after
}

/// How many steps a statement has.
///
/// # Errors
///
/// Out of memory, as which a number that is too large counts.
pub fn steps_in(stmt: &Stmt) -> Result<usize, AllocError>
    ensures steps { IfOk result (λ steps. steps ≡ model.steps_in (stmt_view stmt.now)) }
{
    let steps = after_steps(0, stmt);
    if steps < usize::MAX {
        Ok(steps)
    } else {
        Err(AllocError)
    }
}
