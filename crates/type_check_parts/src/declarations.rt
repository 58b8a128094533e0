//! Declarations.
ghost use Rattle.std.specs.Prelude.{◌≡◌, ◌+◌, ◌++◌, ◌∷◌, [], IfOk, Ok, OnOk, false, length, option_map};
ghost use Rattle.gang_types.specs.declared.places.Place.{Place};
ghost use Rattle.gang_types.specs.declared.places.VarId.TheVariants.{Local};
ghost use Rattle.source_tree.specs.Expressions.{expr_view};
ghost use Rattle.gang_model.specs.Source.Parsed.{ParsedDeclare};
ghost use Rattle.gang_model.specs.Types.Typing as typing;
ghost use Rattle.gang_model.specs.Types.Calls as calls;
ghost use Rattle.gang_model.specs.Types.Statements as model;
ghost use Rattle.source_tree.specs.Tree as parsed;
ghost use Rattle.typed_tree.specs.Boxes.{boxed_stmt_view};
ghost use Rattle.typed_tree.specs.Views.{var_view};
ghost use Rattle.source_answers.specs.Answers.{Answers};
ghost use Rattle.source_answers.specs.Apart.{apart};
ghost use Rattle.type_check_scopes.specs.Entries.{declared_view};
ghost use Rattle.type_check_calls.specs.Calls.{context_view};
ghost use Rattle.type_check_parts.specs.Typed.{IsTyped};

use crate::beside::second_of;
use crate::numbering::one_step;
use crate::targets::variable_of;
use gang_model::{RefusalNumber, Spec};
use gang_types::{Place, VarId};
use source_answers::{Answer, SourceFault, fault_if, refuse};
use source_tree::Expr;
use std::alloc::{AllocError, Global};
use type_check_calls::{Context, Receiver, right_call, whole_call};
use type_check_expressions::{first_of, given_value};
use type_check_scopes::{Declared, TypeScope, declared_with};
use type_check_values::boxed_stmt;
use typed_tree::{ResultFor, Stmt, Var};

/// A declaration with a first value: a call's result, or a value.
fn first_value(
    alloc: Global,
    context: &Context,
    scope: &TypeScope,
    variable: Var,
    value: &Expr,
    step: usize,
) -> Result<Box<Stmt>, SourceFault>
    ensures { Answers boxed_stmt_view result (model.first_value (calls.whole_call (context_view context.now).functions (expr_view value.now)) (context_view context.now) scope.now.entries (var_view variable) (expr_view value.now) step) }
{
    match whole_call(context.functions, value) {
        Some(call) => {
            let receiver = Receiver {
                place: first_of(value),
                rate: variable.rate,
                result_for: ResultFor::Declares(variable),
            };
            right_call(alloc, context, scope, &call, receiver, step)
        }
        None => {
            let value = given_value(alloc, value, scope, variable.value_type, variable.rate)?;
            let stmt = Stmt::Declare {
                step,
                variable,
                value: Some(value),
            };
            Ok(boxed_stmt(alloc, stmt)?)
        }
    }
}

/// A declaration, whose value does not find the variable.
///
/// # Errors
///
/// The first fault of the value. Out of memory.
fn declaration(
    alloc: Global,
    context: &Context,
    scope: &TypeScope,
    variable: Var,
    value: &Option<Expr>,
    step: usize,
) -> Result<Box<Stmt>, SourceFault>
    ensures { Answers boxed_stmt_view result (model.declaration (context_view context.now) scope.now.entries (var_view variable) (option_map expr_view value.now) step) }
{
    match value {
        Some(value) => first_value(alloc, context, scope, variable, value, step),
        None => {
            let stmt = Stmt::Declare {
                step,
                variable,
                value: None,
            };
            Ok(boxed_stmt(alloc, stmt)?)
        }
    }
}

/// The answer for what has one step, after which the function's next variable is declared.
fn then_declare<A: Drop>(
    alloc: Global,
    name: &[u8],
    declared: Declared,
    scope: &mut TypeScope,
    made: Result<A, SourceFault>,
    step: &mut usize,
) -> Result<Answer<A>, AllocError>
    requires next { declared.id ≡ Local (length scope.old.locals) }
    ensures made { IfOk result (λ answer. (Ok answer ≡ apart made) × (scope.new.locals ≡ scope.old.locals ++ (declared_view name.now declared).variable ∷ [])) }
    ensures entries { OnOk result (scope.new.entries ≡ declared_view name.now declared ∷ scope.old.entries) }
    ensures steps { OnOk result (step.new ≡ step.old + 1) }
{
    let answer = one_step(made, step)?;
    scope.declare(alloc, name, declared)?;
    Ok(answer)
}

/// A declaration. Its value is typed before the name is in scope.
///
/// # Errors
///
/// Out of memory.
pub fn declare(
    alloc: Global,
    spec: Spec,
    place: Place,
    name: &[u8],
    value: &Option<Expr>,
    context: &Context,
    scope: &mut TypeScope,
    step: &mut usize,
) -> Result<Answer<Box<Stmt>>, AllocError>
    ensures typed { IfOk result (λ answer. (p : Place) → IsTyped boxed_stmt_view answer (model.statement (ParsedDeclare p spec place name.now (option_map expr_view value.now)) (context_view context.now) scope.old.entries (length scope.old.locals) step.old)
        scope.old.locals scope.new.locals 1) }
    ensures after { OnOk result (scope.new.entries ≡ typing.declared name.now (Local (length scope.old.locals)) spec false false ∷ scope.old.entries) }
    ensures steps { OnOk result (step.new ≡ step.old + 1) }
{
    let declared = declared_with(VarId::Local(scope.next()), spec, false, false);
    let in_name = refuse(fault_if(spec.value_type.is_none(), RefusalNumber::S8, place));
    let stmt = declaration(alloc, context, scope, variable_of(declared), value, *step);
    let typed = second_of(in_name, stmt);
    then_declare(alloc, name, declared, scope, typed, step)
}
