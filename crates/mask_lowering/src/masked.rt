//! The points of a program, function by function.
ghost use Rattle.std.specs.Prelude.{◌≡◌, Some, map, IfOk};
ghost use Rattle.gang_model.specs.Running.RunningOrder.{IsNumbered, IsNumberedProgram};
ghost use Rattle.typed_tree.specs.Views.{function_view, program_view, stmts_view};
ghost use Rattle.gang_model.specs.Source.Parsed.{ParsedSource};
ghost use Rattle.gang_model.specs.Types.Resolved.{program_of};
ghost use Rattle.gang_model.specs.Types.SourceRefusals.{IsAccepted};
ghost use Rattle.mask_states.specs.Law.{RunsAlike};
ghost use Rattle.mask_states.specs.Points.{points_in};
ghost use Rattle.mask_states.specs.Stands.{AreLowerable};
ghost use Rattle.mask_lowering.specs.Views.{IsFunctionLowered, first_step, table_view};

use crate::count::with_statements;
use crate::lowering::lower_statements;
use crate::point::Point;
use crate::ways::Ways;
use std::alloc::{AllocError, Global};
use typed_tree::{Function, Program};

/// A program as points: for each function those of its steps in running order, but for its closing brace, and the step that lanes wait
/// for that begin it. The points refer to the typed tree.
#[derive(Drop)]
pub struct Masked<'a> {
    pub functions: Vec<Vec<Point<'a>>>,
    pub entries: Vec<usize>,
}

/// The step that lanes wait for that begin a function, and its points.
fn lower_function<'a>(
    alloc: Global,
    function: &'a Function,
) -> Result<(usize, Vec<Point<'a>>), AllocError>
    ensures { let f = function_view function.now in IsNumbered 0 f.body → IfOk result (IsFunctionLowered f) }
{
    let closing = with_statements(&function.body, 0)?;
    let mut points = Vec::with_capacity(alloc, closing)?;
    let entry = lower_statements(
        &mut points,
        &function.body,
        closing,
        Ways::of_function(closing),
    )?;
    points.reverse();
    Ok((entry, points))
}

/// The points of a program whose steps are numbered in running order: for each function those of the definition, and its first step. A
/// run by these points, with a number for each lane, shows what the source meaning shows, after any steps and pokes, whatever the
/// program of an accepted source.
///
/// # Errors
///
/// Out of memory.
pub fn lower<'a>(alloc: Global, program: &'a Program) -> Result<Masked<'a>, AllocError>
    ensures points { let p = program_view program.now in IsNumberedProgram p → IfOk result (λ masked. table_view masked ≡ map points_in p.functions) }
    ensures entries { let p = program_view program.now in IsNumberedProgram p → IfOk result (λ masked. masked.entries.items ≡ map first_step p.functions) }
    ensures law { AreLowerable (program_view program.now) → RunsAlike (program_view program.now) }
    ensures accepted { (source : ParsedSource) → IsAccepted source → program_of source ≡ Some (program_view program.now) → RunsAlike (program_view program.now) }
{
    let mut functions = Vec::new(alloc);
    let mut entries = Vec::new(alloc);
    for function in &program.functions {
        let (entry, points) = lower_function(alloc, function)?;
        functions.push(points)?;
        entries.push(entry)?;
    }
    Ok(Masked { functions, entries })
}
