//! Statements with varying variables alone, no store to an array, no foreach form and no call of the library.
ghost use Rattle.std.specs.Prelude.{◌≡◌, map, option_map, [], ◌∷◌};
ghost use Rattle.gang_model.specs.Running.LanePure as pure;
ghost use Rattle.typed_tree.specs.Views.{arg_view, boxed_view, result_view, segments_view, stmt_view, stmts_view, target_view};

use crate::expressions::{is_pure, is_varying};
use typed_tree::{Arg, Expr, ResultFor, Segment, Stmt, Target};

/// Whether what is assigned is a varying variable.
fn is_pure_target(target: &Target) -> bool
    ensures { result ≡ pure.is_pure_target (target_view target.now) }
{
    match target {
        Target::Scalar(variable) => is_varying(variable.rate),
        Target::Element { .. } => false,
    }
}

/// Whether an expression that may be left out is lane-pure.
fn is_pure_option(expression: &Option<Box<Expr>>) -> bool
    ensures { result ≡ pure.is_pure_option (option_map boxed_view expression.now) }
{
    match expression {
        Some(expression) => is_pure(expression),
        None => true,
    }
}

/// Whether a call's result goes to a varying variable, to a result or nowhere.
fn is_pure_result(result_for: ResultFor) -> bool
    ensures { result ≡ pure.is_pure_result (result_view result_for) }
{
    match result_for {
        ResultFor::Declares(variable) | ResultFor::Assigns(variable) => is_varying(variable.rate),
        ResultFor::Nothing | ResultFor::Returns => true,
    }
}

/// Whether an argument is lane-pure.
fn is_pure_argument(argument: &Arg) -> bool
    ensures { result ≡ pure.are_pure (map arg_view (argument.now ∷ [])) }
{
    match argument {
        Arg::Value { value, .. } => is_pure(value),
        Arg::Array { from, .. } => is_pure_option(from),
    }
}

/// Whether arguments are lane-pure.
fn are_pure_arguments(arguments: &[Arg]) -> bool
    ensures { result ≡ pure.are_pure (map arg_view arguments.now) }
{
    for argument in arguments {
        if !is_pure_argument(argument) {
            return false;
        }
    }
    true
}

/// Whether a statement is lane-pure.
#[cycle(purity)]
fn is_pure_statement(statement: &Stmt) -> bool
    ensures { result ≡ pure.is_pure_stmt (stmt_view statement.now) }
{
    match statement {
        Stmt::Empty | Stmt::Break { .. } | Stmt::Continue { .. } => true,
        Stmt::Block(statements) => are_pure_statements(statements),
        Stmt::Then { first, rest } => is_pure_statement(first) && is_pure_statement(rest),
        Stmt::Declare {
            variable,
            value,
            ..
        } => is_varying(variable.rate) && is_pure_option(value),
        Stmt::Assign { target, value, .. } => is_pure_target(target) && is_pure(value),
        Stmt::Change { target, value, .. } => is_pure_target(target) && is_pure(value),
        Stmt::If {
            test,
            first,
            other,
            ..
        } => { is_pure(test) && is_pure_statement(first) && is_pure_statement(other) }
        Stmt::Loop {
            test,
            update,
            body,
            ..
        } => { is_pure(test) && is_pure_statement(update) && is_pure_statement(body) }
        Stmt::BodyFirst { test, body, .. } => is_pure(test) && is_pure_statement(body),
        Stmt::Return { value, .. } => is_pure_option(value),
        Stmt::Switch {
            selector,
            segments,
            ..
        } => is_pure(selector) && are_pure_segments(segments),
        Stmt::Call {
            args,
            result_for,
            ..
        } => { are_pure_arguments(args) && is_pure_result(*result_for) }
        _ => false,
    }
}

/// Whether the segments of a switch are lane-pure.
#[cycle(purity)]
fn are_pure_segments(segments: &[Segment]) -> bool
    ensures { result ≡ pure.is_pure_stmt (segments_view segments.now) }
{
    for segment in segments {
        if !are_pure_statements(&segment.body) {
            return false;
        }
    }
    true
}

/// Whether statements in order are lane-pure.
#[cycle(purity)]
pub(crate) fn are_pure_statements(statements: &[Stmt]) -> bool
    ensures { result ≡ pure.is_pure_stmt (stmts_view statements.now) }
{
    for statement in statements {
        if !is_pure_statement(statement) {
            return false;
        }
    }
    true
}
