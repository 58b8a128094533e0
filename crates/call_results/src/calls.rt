//! The call at a step, where a variable gets its result.
ghost use Rattle.std.specs.Prelude.{◌≡◌, option_map};
ghost use Rattle.typed_tree.specs.Views.{program_view, result_view, segments_view, stmt_view, stmts_view};
ghost use Rattle.call_results.specs.Calls as spec;

use gang_types::{Spot, VarId};
use typed_tree::{Program, ResultFor, Segment, Stmt};

/// A call whose result a variable gets: its step, the number of the function that it calls, and the variable.
#[derive(Clone, Copy, Debug, PartialEq, Eq)]
pub struct GivingCall {
    pub step: usize,
    pub function: usize,
    pub variable: VarId,
}

/// The call at a step of a program, where a variable gets its result.
pub fn giving_at(program: &Program, spot: Spot) -> Option<GivingCall>
    ensures { option_map spec.call_view result ≡ spec.giving_at (program_view program.now) spot }
{
    match program.functions.get(spot.function.0) {
        Some(function) => in_statements(spot.number, &function.body),
        None => None,
    }
}

/// The call at a step of a statement, where a variable gets its result.
#[cycle(finding)]
fn in_statement(step: usize, statement: &Stmt) -> Option<GivingCall>
    ensures { option_map spec.call_view result ≡ spec.giving_in step (stmt_view statement.now) }
{
    match statement {
        Stmt::Block(statements) => in_statements(step, statements),
        Stmt::Then { first, rest } => in_statement(step, first).or(in_statement(step, rest)),
        Stmt::If { first, other, .. } => in_statement(step, first).or(in_statement(step, other)),
        Stmt::Loop { update, body, .. } => in_statement(step, update).or(in_statement(step, body)),
        Stmt::BodyFirst { body, .. } | Stmt::ForEach { body, .. } => in_statement(step, body),
        Stmt::Switch { segments, .. } => in_segments(step, segments),
        Stmt::Call {
            step: own,
            function,
            result_for,
            ..
        } => at_step(step, *own, *function, *result_for),
        _ => None,
    }
}

/// The same in statements.
#[cycle(finding)]
fn in_statements(step: usize, statements: &[Stmt]) -> Option<GivingCall>
    ensures { option_map spec.call_view result ≡ spec.giving_in step (stmts_view statements.now) }
{
    for statement in statements {
        if let Some(call) = in_statement(step, statement) {
            return Some(call);
        }
    }
    None
}

/// The same in the segments of a switch.
#[cycle(finding)]
fn in_segments(step: usize, segments: &[Segment]) -> Option<GivingCall>
    ensures { option_map spec.call_view result ≡ spec.giving_in step (segments_view segments.now) }
{
    for segment in segments {
        if let Some(call) = in_statements(step, &segment.body) {
            return Some(call);
        }
    }
    None
}

/// A call with a step of its own, where that is the one that is meant, and a variable gets the result.
fn at_step(step: usize, own: usize, function: usize, result_for: ResultFor) -> Option<GivingCall>
    ensures { option_map spec.call_view result ≡ spec.at_step step (spec.giving own function (result_view result_for)) }
{
    match result_for {
        ResultFor::Declares(variable) | ResultFor::Assigns(variable) if own == step => {
            Some(GivingCall {
                step: own,
                function,
                variable: variable.id,
            })
        }
        _ => None,
    }
}
