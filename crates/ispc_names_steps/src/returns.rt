//! The statements that hold a `return`.
ghost use Rattle.std.specs.Prelude.{◌≡◌, ◌≤◌, length, take};
ghost use Rattle.gang_model.specs.Names.Scope as scope;
ghost use Rattle.source_tree.specs.Tree.{segments_view, stmt_view, stmts_view};

use source_tree::{Segment, Stmt};

/// Whether a statement holds a `return`.
#[cycle(returning)]
fn has_return(stmt: &Stmt) -> bool
    ensures { result ≡ scope.has_return (stmt_view stmt.now) }
{
    match stmt {
        Stmt::Return { .. } => true,
        Stmt::Block(stmts) => one_returns(stmts),
        Stmt::If {
            first,
            other: Some(other),
            ..
        } => has_return(first) || has_return(other),
        Stmt::If {
            first,
            other: None,
            ..
        } => has_return(first),
        Stmt::While { body, .. }
        | Stmt::Do { body, .. }
        | Stmt::For { body, .. }
        | Stmt::ForEach { body, .. }
        | Stmt::ForEachActive { body, .. }
        | Stmt::ForEachUnique { body, .. } => has_return(body),
        Stmt::Switch { segments, .. } => one_segment_returns(segments),
        Stmt::Empty
        | Stmt::Declare { .. }
        | Stmt::Assign { .. }
        | Stmt::Change { .. }
        | Stmt::Increment { .. }
        | Stmt::Call { .. }
        | Stmt::Break { .. }
        | Stmt::Continue { .. } => false,
    }
}

/// Whether one of the statements holds a `return`.
#[cycle(returning)]
fn one_returns(stmts: &[Stmt]) -> bool
    ensures { result ≡ scope.one_returns (stmts_view stmts.now) }
{
    for stmt in stmts {
        if has_return(stmt) {
            return true;
        }
    }
    false
}

/// Whether one of the segments of a switch holds a `return`.
#[cycle(returning)]
fn one_segment_returns(segments: &[Segment]) -> bool
    ensures { result ≡ scope.some_segment_returns (segments_view segments.now) }
{
    for segment in segments {
        if one_returns(&segment.body) {
            return true;
        }
    }
    false
}

/// How many statements stand before the first one that holds a `return`.
pub(crate) fn len_before_return(stmts: &[Stmt]) -> usize
    ensures within { result ≤ length stmts.now }
    ensures before { stmts_view (take result stmts.now) ≡ scope.before_return (stmts_view stmts.now) }
{
    for (number, stmt) in stmts.iter().enumerate() {
        if has_return(stmt) {
            return number;
        }
    }
    stmts.len()
}
