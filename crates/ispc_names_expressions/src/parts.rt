//! The faults of names in statements that hold no other one.
ghost use Rattle.std.specs.Prelude.{◌≡◌, ◌++◌, IfOk, OnOk, false, not, option_map};
ghost use Rattle.gang_model.specs.Source.Judged as judged;
ghost use Rattle.gang_model.specs.Source.Judged.{least_fault};
ghost use Rattle.gang_model.specs.declared.refusals.RefusalNumber.TheVariants as number;
ghost use Rattle.gang_model.specs.Names.NameFaults as names;
ghost use Rattle.gang_model.specs.Names.Scope as scope;
ghost use Rattle.source_tree.specs.Expressions.{expr_view};
ghost use Rattle.ispc_names_scopes.specs.Scopes.{site};
ghost use Rattle.source_tree.specs.Tree.{stmt_view, target_view};
ghost use Rattle.ispc_names_expressions.specs.MayStand.{allowed_view};
ghost use Rattle.ispc_names_expressions.specs.HeldStatements.{holds_others};

use crate::allowed::Allowed;
use crate::expressions::{expression_fault, unknown_name};
use crate::right_sides::{call_fault, right_fault, some_expression_fault, some_right_fault};
use gang_model::{RefusalNumber, SourceRefusal};
use gang_types::Place;
use ispc_names_declarations::declaration_fault;
use ispc_names_scopes::{FunctionNames, Scopes};
use source_answers::{fault_if, least};
use source_tree::{Expr, Stmt, Target};
use std::alloc::{AllocError, Global};

/// The fault of names in what is assigned.
fn target_fault(
    target: &Target,
    functions: &FunctionNames,
    scopes: &Scopes,
) -> Option<SourceRefusal>
    ensures { result ≡ least_fault (names.target_names (target_view target.now) functions.now scopes.now.environment) }
{
    let in_name = unknown_name(scopes, target.place, &target.name);
    least(
        in_name,
        some_expression_fault(&target.index, functions, scopes),
    )
}

/// The fault of names in what is given to a target: a call stands whole only for a variable.
fn assigned_fault(
    index: &Option<Expr>,
    value: &Expr,
    functions: &FunctionNames,
    scopes: &Scopes,
) -> Option<SourceRefusal>
    ensures { result ≡ least_fault (names.assigned_names (option_map expr_view index.now) (expr_view value.now) functions.now scopes.now.environment) }
{
    match index {
        Some(_) => expression_fault(value, functions, scopes),
        None => right_fault(value, functions, scopes),
    }
}

/// The fault of names in an assignment.
fn assignment_fault(
    target: &Target,
    value: &Expr,
    functions: &FunctionNames,
    scopes: &Scopes,
) -> Option<SourceRefusal>
    ensures { result ≡ least_fault (names.target_names (target_view target.now) functions.now scopes.now.environment
        ++ names.assigned_names (target_view target.now).index (expr_view value.now) functions.now scopes.now.environment) }
{
    let in_target = target_fault(target, functions, scopes);
    least(
        in_target,
        assigned_fault(&target.index, value, functions, scopes),
    )
}

/// The fault of names in an assignment with an operator.
fn change_fault(
    target: &Target,
    value: &Expr,
    functions: &FunctionNames,
    scopes: &Scopes,
) -> Option<SourceRefusal>
    ensures { result ≡ least_fault (names.target_names (target_view target.now) functions.now scopes.now.environment
        ++ names.names_in (expr_view value.now) functions.now scopes.now.environment) }
{
    let in_target = target_fault(target, functions, scopes);
    least(in_target, expression_fault(value, functions, scopes))
}

/// The fault of names in a `return`, which may stand there or not.
fn return_fault(
    place: Place,
    value: &Option<Expr>,
    is_allowed: bool,
    functions: &FunctionNames,
    scopes: &Scopes,
) -> Option<SourceRefusal>
    ensures { result ≡ least_fault (judged.fault_if (not is_allowed) number.S11 place
        ++ names.right_names_of (option_map expr_view value.now) functions.now scopes.now.environment) }
{
    let own = fault_if(!is_allowed, RefusalNumber::S11, place);
    least(own, some_right_fault(value, functions, scopes))
}

/// The first fault of names in a statement that holds no other one. The scopes are then those that the next statement finds.
///
/// # Errors
///
/// Out of memory.
pub fn simple_fault(
    alloc: Global,
    stmt: &Stmt,
    may: Allowed,
    functions: &FunctionNames,
    scopes: &mut Scopes,
) -> Result<Option<SourceRefusal>, AllocError>
    requires simple { holds_others (stmt_view stmt.now) ≡ false }
    ensures fault { IfOk result (λ fault. fault ≡ least_fault (names.stmt_names (stmt_view stmt.now) (allowed_view functions.now may) (site scopes.old))) }
    ensures after { OnOk result (site scopes.new ≡ scope.after (stmt_view stmt.now) (site scopes.old)) }
    ensures outside { OnOk result (scopes.new.outside ≡ scopes.old.outside) }
{
    match stmt {
        Stmt::Declare {
            name_place,
            name,
            value,
            ..
        } => {
            let in_value = some_right_fault(value, functions, scopes);
            let in_name = declaration_fault(alloc, *name_place, name, scopes)?;
            Ok(least(in_name, in_value))
        }
        Stmt::Assign { target, value, .. } => {
            Ok(assignment_fault(target, value, functions, scopes))
        }
        Stmt::Change { target, value, .. } => Ok(change_fault(target, value, functions, scopes)),
        Stmt::Increment { target, .. } => Ok(target_fault(target, functions, scopes)),
        Stmt::Call { place, name, args } => Ok(call_fault(*place, name, args, functions, scopes)),
        Stmt::Break { place } => Ok(fault_if(!may.breaks, RefusalNumber::S11, *place)),
        Stmt::Continue { place } => Ok(fault_if(!may.continues, RefusalNumber::S11, *place)),
        Stmt::Return { place, value } => {
            Ok(return_fault(*place, value, may.returns, functions, scopes))
        }
        _ => Ok(None),
    }
}
