//! The line and the array of an access, as a person reads them.
ghost use Rattle.std.specs.Prelude.{◌≡◌, slice_get};
ghost use Rattle.element_accesses.specs.Shown.{array_name, file_name, line_at, line_in, local_name};

use gang_types::{Spot, VarId};
use typed_tree::{Function, Program};

/// The name of an array that stands in a step, as it is declared.
pub fn array_name(program: &Program, spot: Spot, array: VarId) -> &[u8]
    ensures { result.now ≡ array_name program.now spot array }
{
    match array {
        VarId::File(number) => file_name(program, number),
        VarId::Local(number) => match program.functions.get(spot.function.0) {
            Some(function) => local_name(function, number),
            None => &[],
        },
    }
}

fn file_name(program: &Program, number: usize) -> &[u8]
    ensures { result.now ≡ file_name (slice_get program.now.globals.items number) }
{
    match program.globals.get(number) {
        Some(global) => global.variable.name.as_slice(),
        None => &[],
    }
}

fn local_name(function: &Function, number: usize) -> &[u8]
    ensures { result.now ≡ local_name (slice_get function.now.variables.items number) }
{
    match function.variables.get(number) {
        Some(variable) => variable.name.as_slice(),
        None => &[],
    }
}

/// The line of a step, 0 where there is no such step.
pub fn line_at(program: &Program, spot: Spot) -> u32
    ensures { result ≡ line_at (slice_get program.now.functions.items spot.function.0) spot.number }
{
    match program.functions.get(spot.function.0) {
        Some(function) => line_in(function, spot.number),
        None => 0,
    }
}

fn line_in(function: &Function, number: usize) -> u32
    ensures { result ≡ line_in (slice_get function.now.scopes.standings.items number) }
{
    match function.scopes.standings.get(number) {
        Some(standing) => standing.place.line,
        None => 0,
    }
}
