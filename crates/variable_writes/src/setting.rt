//! The steps that set a variable themselves.
ghost use Rattle.std.specs.Prelude.{◌≡◌};
ghost use Rattle.typed_tree.specs.Views.{program_view, segments_view, stmt_view, stmts_view};
ghost use Rattle.variable_writes.specs.Writes as spec;

use crate::rounds::{is_round_number, sets_rounds};
use crate::variables::{given_to, is_same, is_target};
use gang_types::{Spot, VarId};
use typed_tree::{Program, Segment, Stmt};

/// Whether a step of a program sets a variable itself. A call sets none: what it returns comes when the callee is left.
pub fn sets(program: &Program, spot: Spot, id: VarId) -> bool
    ensures { result ≡ spec.sets_at (program_view program.now) spot id }
{
    match program.functions.get(spot.function.0) {
        Some(function) => statements_set(id, spot.number, &function.body),
        None => false,
    }
}

/// Whether a statement has the step of this number and sets the variable at it.
#[cycle(setting)]
fn statement_sets(id: VarId, number: usize, statement: &Stmt) -> bool
    ensures { result ≡ spec.sets id number (stmt_view statement.now) }
{
    match statement {
        Stmt::Block(statements) => statements_set(id, number, statements),
        Stmt::Then { first, rest } => {
            statement_sets(id, number, first) || statement_sets(id, number, rest)
        }
        Stmt::If { first, other, .. } => {
            statement_sets(id, number, first) || statement_sets(id, number, other)
        }
        Stmt::Loop { update, body, .. } => {
            statement_sets(id, number, update) || statement_sets(id, number, body)
        }
        Stmt::BodyFirst { body, .. } => statement_sets(id, number, body),
        Stmt::Switch { segments, .. } => segments_set(id, number, segments),
        Stmt::ForEach { step, rounds, body } => {
            sets_rounds(id, rounds) && is_round_number(number, *step, body)
                || statement_sets(id, number, body)
        }
        _ => step_sets(id, number, statement),
    }
}

/// The same of statements in order.
#[cycle(setting)]
fn statements_set(id: VarId, number: usize, statements: &[Stmt]) -> bool
    ensures { result ≡ spec.sets id number (stmts_view statements.now) }
{
    for statement in statements {
        if statement_sets(id, number, statement) {
            return true;
        }
    }
    false
}

/// The same of the segments of a switch.
#[cycle(setting)]
fn segments_set(id: VarId, number: usize, segments: &[Segment]) -> bool
    ensures { result ≡ spec.sets id number (segments_view segments.now) }
{
    for segment in segments {
        if statements_set(id, number, &segment.body) {
            return true;
        }
    }
    false
}

/// Whether a statement of one step has this number and sets the variable.
fn step_sets(id: VarId, number: usize, statement: &Stmt) -> bool
    ensures { result ≡ spec.step_sets id number (stmt_view statement.now) }
{
    match statement {
        Stmt::Declare { step, variable, .. } => *step == number && is_same(variable.id, id),
        Stmt::Assign { step, target, .. } | Stmt::Change { step, target, .. } => {
            *step == number && is_target(id, target)
        }
        Stmt::PackedStore {
            step,
            array,
            result_for,
            ..
        } => { *step == number && (is_same(*array, id) || given_to(id, *result_for)) }
        Stmt::PackedLoad {
            step,
            into,
            result_for,
            ..
        } => { *step == number && (is_same(into.id, id) || given_to(id, *result_for)) }
        _ => false,
    }
}
