//! The parameters of the entry.
ghost use Rattle.std.specs.Prelude.{◌≡◌, IfOk, Some, map, option_map, slice_get};
ghost use Rattle.gang_model.specs.Texts.InputText.{parameters_of};
ghost use Rattle.typed_tree.specs.Views.{function_view, program_view, variable_view};
ghost use Rattle.debug_inputs.specs.Parameters.{parameter_at};

use gang_types::FuncId;
use std::alloc::{AllocError, Global};
use typed_tree::{Function, Program, Variable};

/// The parameters of a program's entry, none where there is no such function.
pub(crate) fn entry_parameters(
    alloc: Global,
    program: &Program,
    entry: FuncId,
) -> Result<Vec<&Variable>, AllocError>
    ensures { IfOk result (λ parameters. map (λ v. variable_view v.now) parameters.items ≡ parameters_of (slice_get (program_view program.now).functions entry.0)) }
{
    match program.functions.get(entry.0) {
        Some(function) => parameters_of(alloc, function),
        None => Ok(Vec::new(alloc)),
    }
}

/// The parameters of a function, in order: those in scope at its closing brace.
fn parameters_of(alloc: Global, function: &Function) -> Result<Vec<&Variable>, AllocError>
    ensures { IfOk result (λ parameters. map (λ v. variable_view v.now) parameters.items ≡ parameters_of (Some (function_view function.now))) }
{
    let scopes = &function.scopes;
    let closing = scopes.standings.len().saturating_sub(1);
    let mut parameters = Vec::new(alloc);
    for (number, declaration) in scopes.declarations.iter().enumerate() {
        let is_listed = scopes.find(closing, &declaration.name) == Some(number);
        if !is_listed {
            continue;
        }
        if let Some(parameter) = parameter(&function.variables, number) {
            parameters.push(parameter)?;
        }
    }
    Ok(parameters)
}

/// The variable of a number, if it is a parameter.
fn parameter(variables: &[Variable], number: usize) -> Option<&Variable>
    ensures { option_map (λ v. variable_view v.now) result ≡ parameter_at (map variable_view variables.now) number }
{
    variables
        .get(number)
        .filter(|variable| variable.is_parameter)
}
