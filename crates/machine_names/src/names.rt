//! The variables that names stand for.
ghost use Rattle.std.specs.Prelude.{◌≡◌, map, slice_get};
ghost use Rattle.gang_model.specs.Source.Names.{named, same_text};
ghost use Rattle.gang_model.specs.Debugger.Positions.{scope_of};
ghost use Rattle.gang_model.specs.Types.Resolved.{local_at};
ghost use Rattle.gang_types.specs.declared.places.VarId.TheVariants.{Local};
ghost use Rattle.typed_tree.specs.Views.{function_view, variable_view};
ghost use Rattle.machine_names.specs.Found.{FindsNumber, IsNamed, IsSeen, SeesFound, file_variables};

use debug_traits::{NamedVariable, Shown};
use gang_memory::word_count;
use gang_types::{IntType, Rate, VarId};
use typed_tree::{Function, Global, Variable};

/// What is shown of the variable that a name stands for at a step, if it is one of the function's.
pub fn local_named<const W: usize>(function: &Function, step: usize, name: &[u8]) -> Option<Shown>
    ensures { SeesFound W (named name.now (scope_of (slice_get (function_view function.now).standings step))) result }
{
    let scopes = &function.scopes;
    for (number, declaration) in scopes.declarations.iter().enumerate() {
        if is_called(&function.variables, number, name)
            && scopes.find(step, &declaration.name) == Some(number)
        {
            return Some(shown_local::<W>(&function.variables, number));
        }
    }
    None
}

/// Whether a variable of a function has this name.
fn is_called(variables: &[Variable], number: usize, name: &[u8]) -> bool
    ensures { result ≡ same_text (local_at (map variable_view variables.now) (Local number)).name name.now }
{
    match variables.get(number) {
        Some(variable) => variable.name.as_slice() == name,
        None => name.is_empty(),
    }
}

/// What is shown of a variable of a function; of a number that none has, a constant that nothing declares.
fn shown_local<const W: usize>(variables: &[Variable], number: usize) -> Shown
    ensures { IsSeen W (local_at (map variable_view variables.now) (Local number)) result }
{
    match variables.get(number) {
        Some(variable) => shown::<W>(variable),
        None => NOTHING,
    }
}

/// What is shown of a variable that nothing declares.
pub(crate) const NOTHING: Shown = Shown {
    id: VarId::Local(0),
    value_type: IntType::Int32,
    rate: Rate::Uniform,
    is_array: false,
    is_constant: true,
    count: 1,
};

/// What is shown of a variable. The count of an array is for its machine to give.
fn shown<const W: usize>(variable: &Variable) -> Shown
    ensures { IsSeen W (variable_view variable.now) result }
{
    Shown {
        id: variable.id,
        value_type: variable.value_type,
        rate: variable.rate,
        is_array: variable.is_array,
        is_constant: variable.is_constant,
        count: word_count::<W>(variable.rate),
    }
}

/// A variable by its name.
pub fn named<const W: usize>(variable: &Variable) -> NamedVariable<'_>
    ensures { IsNamed W (variable_view variable.now) result }
{
    NamedVariable {
        name: variable.name.as_slice(),
        shown: shown::<W>(variable),
    }
}

/// The number of the variable of the file that a name stands for.
pub fn file_number(globals: &[Global], name: &[u8]) -> Option<usize>
    ensures { FindsNumber (file_variables globals.now) name.now result }
{
    for (number, global) in globals.iter().enumerate() {
        if global.variable.name.as_slice() == name {
            return Some(number);
        }
    }
    None
}

/// What is shown of the variable of the file that a name stands for.
pub fn file_named<const W: usize>(globals: &[Global], name: &[u8]) -> Option<Shown>
    ensures { SeesFound W (named name.now (file_variables globals.now)) result }
{
    let number = file_number(globals, name)?;
    Some(shown::<W>(&globals[number].variable))
}
