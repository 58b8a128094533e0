//! The variables of a function that are listed at a step.
ghost use Rattle.std.specs.Prelude.{◌≡◌, ◌<◌, map, IfSome};
ghost use Rattle.gang_model.specs.Types.Resolved.{local_at};
ghost use Rattle.gang_types.specs.declared.places.VarId.TheVariants.{Local};
ghost use Rattle.typed_tree.specs.Views.{variable_view};
ghost use Rattle.machine_names.specs.Found.{IsNamed};
ghost use Rattle.machine_names.specs.Listed.{SeesNext, is_of, listed_from};

use crate::names::{NOTHING, named};
use debug_traits::{NamedVariable, NextLocal};
use typed_tree::{Function, Variable};

/// Which of the variables in scope are listed.
#[derive(Clone, Copy, Debug, PartialEq, Eq)]
pub enum ListedKind {
    /// All but the parameters.
    Locals,
    /// The parameters alone.
    Parameters,
}

/// The first variable that is listed at a step, of those whose numbers are at least this one. Those after it are the ones
/// from the number behind its own.
pub fn next_listed<const W: usize>(
    kind: ListedKind,
    function: &Function,
    step: usize,
    from: usize,
) -> Option<NextLocal<'_>>
    ensures next { SeesNext W (listed_from kind function.now step) from result }
    ensures further { IfSome result (λ local. from < local.next) }
{
    let scopes = &function.scopes;
    for number in from..scopes.declarations.len() {
        let found = scopes.find(step, &scopes.declarations[number].name);
        if found == Some(number) && is_of(kind, &function.variables, number) {
            return Some(NextLocal {
                variable: named_local::<W>(&function.variables, number),
                next: number + 1,
            });
        }
    }
    None
}

/// Whether a variable of a function is one of those that are listed.
fn is_of(kind: ListedKind, variables: &[Variable], number: usize) -> bool
    ensures { result ≡ is_of kind (local_at (map variable_view variables.now) (Local number)) }
{
    match kind {
        ListedKind::Locals => !is_parameter(variables, number),
        ListedKind::Parameters => is_parameter(variables, number),
    }
}

/// Whether a variable of a function is a parameter.
fn is_parameter(variables: &[Variable], number: usize) -> bool
    ensures { result ≡ (local_at (map variable_view variables.now) (Local number)).is_parameter }
{
    match variables.get(number) {
        Some(variable) => variable.is_parameter,
        None => false,
    }
}

/// A variable of a function by its name; of a number that none has, one that nothing declares.
fn named_local<const W: usize>(variables: &[Variable], number: usize) -> NamedVariable<'_>
    ensures { IsNamed W (local_at (map variable_view variables.now) (Local number)) result }
{
    match variables.get(number) {
        Some(variable) => named::<W>(variable),
        None => NamedVariable {
            name: &[],
            shown: NOTHING,
        },
    }
}
