//! What is in scope at a step of a program.
ghost use Rattle.std.specs.Prelude.{◌≡◌, ◌∷◌, ◌++◌, map, slice_get, IfOk, OnOk};
ghost use Rattle.gang_types.specs.declared.places.VarId.TheVariants.{Local};
ghost use Rattle.gang_model.specs.Debugger.Positions.{scope_of};
ghost use Rattle.gang_model.specs.Types.Resolved.{local_at};
ghost use Rattle.typed_tree.specs.Views.{function_view, global_view, program_view, variable_view};
ghost use Rattle.frame_expressions.specs.Meanings.{entries_at, variable_entry};

use gang_types::{IntType, Rate, Spot, VarId};
use std::alloc::{AllocError, Global};
use type_check_scopes::{Declared, TypeScope};
use typed_tree::{Function, Global as FileVariable, Program, Variable};

/// A variable that no function has.
const NO_VARIABLE: Declared = Declared {
    id: VarId::Local(0),
    value_type: IntType::Int32,
    rate: Rate::Uniform,
    is_array: false,
    is_parameter: false,
    is_constant: true,
    is_void: false,
};

/// The variables in scope at a step, before those of the file.
///
/// # Errors
///
/// Out of memory.
pub(crate) fn scope_at(
    alloc: Global,
    program: &Program,
    spot: Spot,
) -> Result<TypeScope, AllocError>
    ensures { IfOk result (λ scope. scope.entries ≡ entries_at (program_view program.now) spot) }
{
    let mut scope = TypeScope::new(alloc);
    declare_globals(alloc, &mut scope, &program.globals)?;
    let Some(function) = program.functions.get(spot.function.0) else {
        return Ok(scope);
    };
    declare_locals(alloc, &mut scope, function, spot.number)?;
    Ok(scope)
}

/// Declares the variables of the file.
fn declare_globals(
    alloc: Global,
    scope: &mut TypeScope,
    globals: &[FileVariable],
) -> Result<(), AllocError>
    ensures { OnOk result (scope.new.entries ≡ map variable_entry (map (λ g. g.variable) (map global_view globals.now)) ++ scope.old.entries) }
{
    for number in (0..globals.len()).rev() {
        declare(alloc, scope, &globals[number].variable)?;
    }
    Ok(())
}

/// Declares the variables of a function that are in scope at a step.
fn declare_locals(
    alloc: Global,
    scope: &mut TypeScope,
    function: &Function,
    step: usize,
) -> Result<(), AllocError>
    ensures { OnOk result (scope.new.entries ≡ map variable_entry (scope_of (slice_get (function_view function.now).standings step)) ++ scope.old.entries) }
{
    let scopes = &function.scopes;
    for number in (0..scopes.declarations.len()).rev() {
        if scopes.find(step, &scopes.declarations[number].name) == Some(number) {
            declare_local(alloc, scope, &function.variables, number)?;
        }
    }
    Ok(())
}

/// Declares the variable of a function that has this number.
fn declare_local(
    alloc: Global,
    scope: &mut TypeScope,
    variables: &[Variable],
    number: usize,
) -> Result<(), AllocError>
    ensures { OnOk result (scope.new.entries ≡ variable_entry (local_at (map variable_view variables.now) (Local number)) ∷ scope.old.entries) }
{
    match variables.get(number) {
        Some(variable) => declare(alloc, scope, variable),
        None => scope.declare_in_file(alloc, &[], NO_VARIABLE),
    }
}

/// Declares a variable before those that stand already.
fn declare(alloc: Global, scope: &mut TypeScope, variable: &Variable) -> Result<(), AllocError>
    ensures { OnOk result (scope.new.entries ≡ variable_entry (variable_view variable.now) ∷ scope.old.entries) }
{
    let declared = Declared {
        id: variable.id,
        value_type: variable.value_type,
        rate: variable.rate,
        is_array: variable.is_array,
        is_parameter: variable.is_parameter,
        is_constant: variable.is_constant,
        is_void: false,
    };
    scope.declare_in_file(alloc, &variable.name, declared)
}
