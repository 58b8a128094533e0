//! The variables that were seen, each with a number.
ghost use Rattle.std.specs.Prelude.{◌≡◌, IfOk, Some, map, slice_get};
ghost use Rattle.std.specs.Bool.{Decides};
ghost use Rattle.run_page.specs.Rows.{AreDistinct, Grows, named_sight, sight_view};

use debug_traits::{NamedVariable, Shown};
use gang_types::{IntType, Rate};
use std::alloc::{AllocError, Global};

/// A variable of the frame at a depth, or of the file at depth 0, and what can be shown of it there.
#[derive(Drop)]
pub(crate) struct Variable {
    pub(crate) depth: usize,
    pub(crate) name: Vec<u8>,
    pub(crate) shown: Shown,
}

/// The number of a variable of the frame at a depth, which is looked for at one place first.
///
/// # Errors
///
/// Out of memory, where the variable is new.
pub(crate) fn number_of(
    alloc: Global,
    depth: usize,
    named: NamedVariable<'_>,
    guess: usize,
    variables: &mut Vec<Variable>,
) -> Result<usize, AllocError>
    ensures number { IfOk result (λ number. slice_get (map sight_view variables.new.items) number ≡ Some (named_sight depth named.entry)) }
    ensures grows { Grows (map sight_view variables.old.items) (map sight_view variables.new.items) }
    ensures distinct { AreDistinct (map sight_view variables.old.items) → AreDistinct (map sight_view variables.new.items) }
{
    if is_at(variables.as_slice(), guess, depth, named) {
        return Ok(guess);
    }
    for number in 0..variables.len() {
        if is_at(variables.as_slice(), number, depth, named) {
            return Ok(number);
        }
    }
    let number = variables.len();
    variables.push(Variable {
        depth,
        name: Vec::from_slice(alloc, named.name)?,
        shown: named.shown,
    })?;
    Ok(number)
}

/// Whether a number is that of a variable of the frame at a depth. Two functions may have variables that differ by name alone.
fn is_at(variables: &[Variable], number: usize, depth: usize, named: NamedVariable<'_>) -> bool
    ensures { Decides result (slice_get (map sight_view variables.now) number ≡ Some (named_sight depth named.entry)) }
{
    match variables.get(number) {
        Some(it) => is_same(it, depth, named),
        None => false,
    }
}

/// Whether a variable is this one of the frame at a depth.
fn is_same(variable: &Variable, depth: usize, named: NamedVariable<'_>) -> bool
    ensures { Decides result (sight_view variable.now ≡ named_sight depth named.entry) }
{
    if variable.depth != depth || !is_same_shown(variable.shown, named.shown) {
        return false;
    }
    variable.name.as_slice() == named.name
}

/// Whether the same can be shown of two variables.
fn is_same_shown(left: Shown, right: Shown) -> bool
    ensures { Decides result (left ≡ right) }
{
    if left.is_array != right.is_array || left.is_constant != right.is_constant {
        return false;
    }
    if left.count != right.count || left.id != right.id {
        return false;
    }
    is_same_type(left.value_type, right.value_type) && is_same_rate(left.rate, right.rate)
}

fn is_same_type(left: IntType, right: IntType) -> bool
    ensures { Decides result (left ≡ right) }
{
    left == right
}

fn is_same_rate(left: Rate, right: Rate) -> bool
    ensures { Decides result (left ≡ right) }
{
    left == right
}
