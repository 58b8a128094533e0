//! The code of points.
ghost use Rattle.std.specs.Prelude.{ℕ, IfOk, None, Some};
ghost use Rattle.gang_model.specs.Types.Tree.{Assign as ModelAssign, Change as ModelChange};
ghost use Rattle.mask_states.specs.Points.{Put};
ghost use Rattle.mask_lowering.specs.PointViews.{point_view};
ghost use Rattle.foreach_lowering.specs.FormViews.{form_view};
ghost use Rattle.typed_tree.specs.Views.{expr_view, rounds_view, stmt_view, target_view};
ghost use Rattle.codegen.specs.Codes.{Does, HasCode, IsCodeOf, MovesNoLane};
ghost use Rattle.codegen.specs.PackedCalls.{IsPackedCall};

use crate::code::{Change, StepCode};
use crate::forms::{head, indices, segments};
use crate::values::{arguments, optional, value};
use mask_lowering::Point;
use std::alloc::{AllocError, Global};
use typed_tree::{Expr, Rounds, Stmt, Target};

/// The code of a point, with the form whose rounds it is.
pub(crate) fn step(
    alloc: Global,
    point: &Point<'_>,
    form: Option<&Rounds>,
) -> Result<StepCode, AllocError>
    requires { HasCode (point_view point.now) (form_view form) }
    ensures { IfOk result (λ code. IsCodeOf code (point_view point.now) (form_view form.entry)) }
{
    match form {
        Some(form) => round(alloc, point, form),
        None => other_step(alloc, point),
    }
}

/// The code of the rounds of a form.
fn round(alloc: Global, point: &Point<'_>, form: &Rounds) -> Result<StepCode, AllocError>
    requires { HasCode (point_view point.now) (Some (rounds_view form.now)) }
    ensures { IfOk result (λ code. IsCodeOf code (point_view point.now) (Some (rounds_view form.now))) }
{
    match point {
        Point::Turn { body } => Ok(StepCode::Round {
            form: indices(alloc, form)?,
            body: *body,
        }),
        _ => unreachable!(),
    }
}

/// The code of a point that is no rounds.
fn other_step(alloc: Global, point: &Point<'_>) -> Result<StepCode, AllocError>
    requires { HasCode (point_view point.now) None }
    ensures { IfOk result (λ code. IsCodeOf code (point_view point.now) None) }
{
    match point {
        Point::Put { statement, next } => put(alloc, statement, *next),
        Point::Go { next } => Ok(StepCode::Go { next: *next }),
        Point::Branch { test, yes, no } => Ok(StepCode::Branch {
            test: value(alloc, test)?,
            yes: *yes,
            no: *no,
        }),
        Point::Enter {
            function,
            args,
            result_for,
            next,
        } => Ok(StepCode::Enter {
            function: *function,
            args: arguments(alloc, args)?,
            result_for: *result_for,
            next: *next,
        }),
        Point::Choose {
            selector,
            segments: labelled,
            entries,
            next,
        } => Ok(StepCode::Choose {
            selector: value(alloc, selector)?,
            segments: segments(alloc, labelled, entries)?,
            next: *next,
        }),
        Point::Begin { form, rounds, next } => Ok(StepCode::Begin {
            form: head(alloc, form)?,
            rounds: *rounds,
            next: *next,
        }),
        Point::Turn { .. } => unreachable!(),
    }
}

/// The code of a statement that moves no lane.
fn put(alloc: Global, statement: &Stmt, next: usize) -> Result<StepCode, AllocError>
    requires { MovesNoLane (stmt_view statement.now) }
    ensures { IfOk result (λ code. Does code (Put (stmt_view statement.now) next)) }
{
    match statement {
        Stmt::Declare {
            variable,
            value,
            ..
        } => Ok(StepCode::Declare {
            variable: *variable,
            value: optional(alloc, value)?,
            next,
        }),
        Stmt::Assign { target, value, .. } => assign(alloc, target, value, next),
        Stmt::Change {
            target,
            target_type,
            operator,
            value_type,
            value,
            ..
        } => {
            let change = Change {
                operator: *operator,
                value_type: *value_type,
                target_type: *target_type,
            };
            change_target(alloc, target, change, value, next)
        }
        Stmt::Return { value, .. } => Ok(StepCode::Return {
            value: optional(alloc, value)?,
            next,
        }),
        Stmt::Check { test, .. } => Ok(StepCode::Check {
            test: value(alloc, test)?,
            next,
        }),
        _ => packed(alloc, statement, next),
    }
}

/// The code of a packed call.
fn packed(alloc: Global, statement: &Stmt, next: usize) -> Result<StepCode, AllocError>
    requires { IsPackedCall (stmt_view statement.now) }
    ensures { IfOk result (λ code. Does code (Put (stmt_view statement.now) next)) }
{
    match statement {
        Stmt::PackedStore {
            array,
            from,
            value: stored,
            result_for,
            ..
        } => Ok(StepCode::PackedStore {
            array: *array,
            from: optional(alloc, from)?,
            value: value(alloc, stored)?,
            result_for: *result_for,
            next,
        }),
        Stmt::PackedLoad {
            array,
            from,
            into,
            result_for,
            ..
        } => Ok(StepCode::PackedLoad {
            array: *array,
            from: optional(alloc, from)?,
            into: *into,
            result_for: *result_for,
            next,
        }),
        _ => unreachable!(),
    }
}

/// The code of an assignment.
fn assign(
    alloc: Global,
    target: &Target,
    assigned: &Expr,
    next: usize,
) -> Result<StepCode, AllocError>
    ensures { IfOk result (λ code. (number : ℕ) → Does code (Put (ModelAssign number (target_view target.now) (expr_view assigned.now)) next)) }
{
    match target {
        Target::Scalar(variable) => Ok(StepCode::Assign {
            variable: *variable,
            value: value(alloc, assigned)?,
            next,
        }),
        Target::Element { array, index, .. } => Ok(StepCode::AssignElement {
            array: *array,
            index: value(alloc, index)?,
            value: value(alloc, assigned)?,
            next,
        }),
    }
}

/// The code of `target op= operand`.
fn change_target(
    alloc: Global,
    target: &Target,
    change: Change,
    operand: &Expr,
    next: usize,
) -> Result<StepCode, AllocError>
    ensures { IfOk result (λ code. (number : ℕ) → Does code (Put (ModelChange number (target_view target.now) change.target_type change.operator change.value_type (expr_view operand.now)) next)) }
{
    match target {
        Target::Scalar(variable) => Ok(StepCode::Change {
            variable: *variable,
            change,
            value: value(alloc, operand)?,
            next,
        }),
        Target::Element { array, index, .. } => Ok(StepCode::ChangeElement {
            array: *array,
            index: value(alloc, index)?,
            change,
            value: value(alloc, operand)?,
            next,
        }),
    }
}
