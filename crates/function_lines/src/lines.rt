//! The lines of a program's functions, by their names.
ghost use Rattle.std.specs.Prelude.{◌≡◌, map};
ghost use Rattle.gang_model.specs.Debugger.Debugger.{least_from, lesser};
ghost use Rattle.typed_tree.specs.Views.{function_view, program_view};
ghost use Rattle.function_lines.specs.Lines as spec;

use debug_words::is_same;
use ispc_names_table::Standing;
use typed_tree::{Function, Program};

/// The first line of the function of a name on which a step stands, or its closing brace; none where no function has the name. Where several
/// have it, the first of them is meant.
pub fn function_line(program: &Program, name: &[u8]) -> Option<u32>
    ensures { result ≡ spec.function_line (program_view program.now) name.now }
{
    line_in(&program.functions, name)
}

/// The first line of the first function of a name.
fn line_in(functions: &[Function], name: &[u8]) -> Option<u32>
    ensures { result ≡ spec.line_in (map function_view functions.now) name.now }
{
    for function in functions {
        if is_same(function.name.as_slice(), name) {
            return first_line(function);
        }
    }
    None
}

/// The first line of a function.
fn first_line(function: &Function) -> Option<u32>
    ensures { result ≡ spec.first_line (function_view function.now) }
{
    least_line(&function.scopes.standings)
}

/// The least line of some steps.
fn least_line(standings: &[Standing]) -> Option<u32>
    ensures { result ≡ least_from 0 (map (λ s. s.place.line) standings.now) }
{
    let mut least = None;
    for standing in standings {
        least = Some(lesser(standing.place.line, least));
    }
    least
}

/// The lesser of a line and another one, if there is another.
fn lesser(line: u32, other: Option<u32>) -> u32
    ensures { result ≡ lesser line other }
{
    match other {
        None => line,
        Some(other) => line.min(other),
    }
}
