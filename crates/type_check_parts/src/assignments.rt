//! Assignments.
ghost use Rattle.std.specs.Prelude.{◌≡◌, Some};
ghost use Rattle.source_tree.specs.Expressions.{expr_view};
ghost use Rattle.gang_model.specs.Source.Judged as judged;
ghost use Rattle.gang_model.specs.Types.Statements as model;
ghost use Rattle.source_tree.specs.Tree as parsed;
ghost use Rattle.typed_tree.specs.Boxes.{boxed_stmt_view};
ghost use Rattle.type_check_values.specs.Views.{typed_view};
ghost use Rattle.source_answers.specs.Answers.{Answers};
ghost use Rattle.type_check_calls.specs.Calls.{context_view, whole_call_view};
ghost use Rattle.type_check_parts.specs.Changes.{wanted, wanted_variable, change_of, increment_of};
ghost use Rattle.type_check_parts.specs.Typed.{aimed_view};

use crate::beside::second_of;
use crate::targets::{Aimed, scalar_target, target_of};
use gang_model::RefusalNumber;
use gang_types::{BinaryOp, IntType, Place, Rate, VarId};
use source_answers::{SourceFault, both, fault_if, refuse};
use source_tree::{Expr, Target as ParsedTarget};
use std::alloc::Global;
use type_check_calls::{Context, Receiver, WholeCall, right_call, whole_call};
use type_check_expressions::{expression, first_of, given_value};
use type_check_scopes::TypeScope;
use type_check_values::{Typed, boxed_stmt, may_become, operation_type, right_operand};
use typed_tree::{Expr as TypedExpr, ResultFor, Stmt, Var};

/// The type that a value for a target gets and the rate that it may have, which is any where the target has a fault.
fn wanted(target: &Result<Aimed, SourceFault>) -> (IntType, Rate)
    ensures { result ≡ wanted target.now }
{
    match target {
        Ok(aimed) => (aimed.value_type, aimed.rate),
        Err(_) => (IntType::Int32, Rate::Varying),
    }
}

/// A value that is assigned: the target and the value are judged each by itself.
fn assigned_value(
    alloc: Global,
    scope: &TypeScope,
    target: &ParsedTarget,
    value: &Expr,
    step: usize,
) -> Result<Box<Stmt>, SourceFault>
    ensures { Answers boxed_stmt_view result (model.assigned_value scope.now.entries (model.target_of scope.now.entries (parsed.target_view target.now).at (parsed.target_view target.now).name (parsed.target_view target.now).index) (expr_view value.now) step) }
{
    let aimed = target_of(alloc, scope, target);
    let (value_type, rate) = wanted(&aimed);
    let value = given_value(alloc, value, scope, value_type, rate);
    let (aimed, value) = both(aimed, value)?;
    let stmt = Stmt::Assign {
        step,
        target: aimed.target,
        value,
    };
    Ok(boxed_stmt(alloc, stmt)?)
}

/// The variable that a call's result is given to, one of any rate where it has a fault.
fn wanted_variable(target: &Result<Var, SourceFault>) -> Var
    ensures { result ≡ wanted_variable target.now }
{
    match target {
        Ok(variable) => *variable,
        Err(_) => Var {
            id: VarId::Local(0),
            value_type: IntType::Int32,
            rate: Rate::Varying,
        },
    }
}

/// A call's result that is assigned to a variable; `place` is that of the right side.
fn assigned_call(
    alloc: Global,
    context: &Context,
    scope: &TypeScope,
    target: &ParsedTarget,
    place: Place,
    call: &WholeCall,
    step: usize,
) -> Result<Box<Stmt>, SourceFault>
    ensures { Answers boxed_stmt_view result (model.assigned_call (context_view context.now) scope.now.entries (model.scalar_target scope.now.entries (parsed.target_view target.now).at (parsed.target_view target.now).name) place (whole_call_view call.now) step) }
{
    let variable = scalar_target(scope, target.place, &target.name);
    let given_to = wanted_variable(&variable);
    let receiver = Receiver {
        place,
        rate: given_to.rate,
        result_for: ResultFor::Assigns(given_to),
    };
    let stmt = right_call(alloc, context, scope, call, receiver, step);
    second_of(variable, stmt)
}

/// `target = value`, where a call stands whole for a variable, and not for an element.
///
/// # Errors
///
/// The first fault of the target and the value. Out of memory.
pub fn assignment(
    alloc: Global,
    context: &Context,
    scope: &TypeScope,
    target: &ParsedTarget,
    value: &Expr,
    step: usize,
) -> Result<Box<Stmt>, SourceFault>
    ensures { Answers boxed_stmt_view result (model.assignment (context_view context.now) scope.now.entries (parsed.target_view target.now) (expr_view value.now) step) }
{
    if target.index.is_some() {
        return assigned_value(alloc, scope, target, value, step);
    }
    match whole_call(context.functions, value) {
        Some(call) => assigned_call(alloc, context, scope, target, first_of(value), &call, step),
        None => assigned_value(alloc, scope, target, value, step),
    }
}

/// The right operand of an assignment with an operator, which may be varying only for a varying target.
fn operand_for(
    alloc: Global,
    scope: &TypeScope,
    rate: Rate,
    value: &Expr,
) -> Result<Typed, SourceFault>
    ensures { Answers typed_view result (model.operand_for rate (expr_view value.now) scope.now.entries) }
{
    let operand = expression(alloc, value, scope)?;
    refuse(fault_if(
        !may_become(operand.rate, rate),
        RefusalNumber::S7,
        first_of(value),
    ))?;
    Ok(operand)
}

/// The target, changed by the operand in the operation's type.
fn changed(
    alloc: Global,
    operator: BinaryOp,
    step: usize,
    aimed: Aimed,
    operand: Typed,
) -> Result<Box<Stmt>, SourceFault>
    ensures { Answers boxed_stmt_view result (judged.Sound (model.changed operator step (aimed_view aimed) (typed_view operand))) }
{
    let value_type = operation_type(operator, aimed.value_type, operand.value_type);
    let stmt = Stmt::Change {
        step,
        target: aimed.target,
        target_type: aimed.value_type,
        operator,
        value_type,
        value: right_operand(alloc, operator, value_type, operand)?,
    };
    Ok(boxed_stmt(alloc, stmt)?)
}

/// An assignment with an operator: the target and the operand are judged each by itself.
///
/// # Errors
///
/// The first fault of the target and the operand. Out of memory.
pub fn change(
    alloc: Global,
    scope: &TypeScope,
    target: &ParsedTarget,
    operator: BinaryOp,
    value: &Expr,
    step: usize,
) -> Result<Box<Stmt>, SourceFault>
    ensures { Answers boxed_stmt_view result (change_of scope.now.entries (parsed.target_view target.now) operator (expr_view value.now) step) }
{
    let aimed = target_of(alloc, scope, target);
    let (_, rate) = wanted(&aimed);
    let (aimed, operand) = both(aimed, operand_for(alloc, scope, rate, value))?;
    changed(alloc, operator, step, aimed, operand)
}

/// `++` and `--`.
///
/// # Errors
///
/// The first fault of the target. Out of memory.
pub fn increment(
    alloc: Global,
    scope: &TypeScope,
    target: &ParsedTarget,
    operator: BinaryOp,
    step: usize,
) -> Result<Box<Stmt>, SourceFault>
    ensures { Answers boxed_stmt_view result (increment_of scope.now.entries (parsed.target_view target.now) operator step) }
{
    let aimed = target_of(alloc, scope, target)?;
    let one = Typed::new(alloc, TypedExpr::Number(1), IntType::Int32, Rate::Uniform)?;
    changed(alloc, operator, step, aimed, one)
}
