//! The lines that a breakpoint can stand on.
ghost use Rattle.std.specs.Prelude.{◌≡◌, ◌++◌, map, IfOk, OnOk};
ghost use Rattle.gang_model.specs.Debugger.Debugger.{least_from, lesser};
ghost use Rattle.typed_tree.specs.Views.{function_view};
ghost use Rattle.machine_names.specs.Lines.{lines_in};

use ispc_names_table::Standing;
use std::alloc::{AllocError, Global};
use typed_tree::Function;

/// The lines of all steps and closing braces of functions.
///
/// # Errors
///
/// Out of memory.
pub fn step_lines(alloc: Global, functions: &[Function]) -> Result<Vec<u32>, AllocError>
    ensures { IfOk result (λ lines. lines.items ≡ lines_in (map function_view functions.now)) }
{
    let mut lines = Vec::new(alloc);
    for function in functions {
        add_lines(&mut lines, &function.scopes.standings)?;
    }
    Ok(lines)
}

/// Adds the lines of some steps.
fn add_lines(lines: &mut Vec<u32>, standings: &[Standing]) -> Result<(), AllocError>
    ensures { OnOk result (lines.new.items ≡ lines.old.items ++ map (λ s. s.place.line) standings.now) }
{
    for standing in standings {
        lines.push(standing.place.line)?;
    }
    Ok(())
}

/// The least of the lines from this one on.
pub fn least_from(lines: &[u32], from: u32) -> Option<u32>
    ensures { result ≡ least_from from lines.now }
{
    let mut least = None;
    for line in lines {
        if from <= *line {
            least = Some(lesser(*line, least));
        }
    }
    least
}

/// The lesser of a line and another one, if there is another.
fn lesser(line: u32, other: Option<u32>) -> u32
    ensures { result ≡ lesser line other }
{
    match other {
        None => line,
        Some(other) => line.min(other),
    }
}
