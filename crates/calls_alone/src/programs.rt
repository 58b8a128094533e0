//! The code of a program, its memory and its machine.
ghost use Rattle.std.specs.Prelude.{◌≡◌, ℕ, List, Option, Some};
ghost use Rattle.codegen.specs.Programs.{IsRunnable};
ghost use Rattle.gang_model.specs.Debugger.Events.{Row};
ghost use Rattle.gang_model.specs.Source.Parsed.{Name};
ghost use Rattle.gang_model.specs.Types.Tree.{Function};
ghost use Rattle.ispc_compiler.specs.Front.{Compiles};
ghost use Rattle.machine_steps.specs.Beginning.{MayBegin};

use crate::ends::{Ended, end_of};
use crate::samples::{FIRST, INPUT, compiled};
use codegen::compile;
use debug_inputs::read_inputs;
use foreach_lowering::lower_rounds;
use gang_machine::{Machine, PreparedProgram, open};
use gang_memory::Layout;
use gang_types::{BinaryOp, IntType, Spot};
use input_rows::InputRow;
use ispc_compiler::Compiled;
use machine_names::step_lines;
use machine_steps::entry_lengths;
use mask_lowering::lower;
use placed_expressions::place_expression;
use std::alloc::{AllocError, Global};
use typed_tree::{Expr, Program};
use undo_log::DeltaRing;
use whole_runs::{CopyPlan, WholeRun};

/// Makes the call of a name, if there is memory for what it is called on.
pub(crate) fn call(alloc: Global, name: &str) -> Option<Ended> {
    match name {
        "expression_code::compile" => Some(end_of(&expression_code::compile(alloc, &sum(alloc)?))),
        "mask_lowering::lower" => Some(end_of(&lower(alloc, &compiled(alloc)?.program))),
        "foreach_lowering::lower_rounds" => lower_forms(alloc, &compiled(alloc)?.program),
        "codegen::compile" => Some(compile_code(alloc, &compiled(alloc)?)),
        "machine_names::step_lines" => Some(end_of(&step_lines(
            alloc,
            &compiled(alloc)?.program.functions,
        ))),
        "gang_memory::Layout::plan" => Some(lay_out(alloc, &compiled(alloc)?.program)),
        "placed_expressions::place_expression" => Some(place(alloc, &compiled(alloc)?.program)),
        "debug_inputs::read_inputs" => Some(read_input(alloc, &compiled(alloc)?)),
        "machine_steps::entry_lengths" => measure(alloc, &compiled(alloc)?),
        "gang_machine::PreparedProgram::new" => prepare(alloc, compiled(alloc)?),
        "gang_machine::open" => open_machine(alloc, compiled(alloc)?, INPUT),
        "whole_runs::WholeRun::begin" => begin_whole(alloc, None),
        "whole_runs::WholeRun::begin_by" => begin_whole(alloc, Some(CopyPlan::new(3, 8))),
        _ => None,
    }
}

/// A sum of two numbers, if there is memory for it.
fn sum(alloc: Global) -> Option<Expr> {
    Some(Expr::Binary {
        operator: BinaryOp::Add,
        value_type: IntType::Int32,
        left: Box::new(alloc, Expr::Number(1)).ok()?,
        right: Box::new(alloc, Expr::Number(2)).ok()?,
    })
}

/// The `foreach` forms of a program.
fn lower_forms(alloc: Global, program: &Program) -> Option<Ended> {
    let masked = lower(alloc, program).ok()?;
    Some(end_of(&lower_rounds(alloc, &masked)))
}

/// The code of the program of a source.
fn compile_code(alloc: Global, made: &Compiled) -> Ended
    requires { (text : List ℕ) × (asked : Option Name) × Compiles text asked (Some made.now) }
{
    end_of(&compile(alloc, &made.program))
}

/// Where the words of a program lie, whose entry has an array of four elements.
fn lay_out(alloc: Global, program: &Program) -> Ended {
    end_of(&Layout::plan::<4>(alloc, program, &[4], &[1], &[1]))
}

/// An expression at the first step of the first function.
fn place(alloc: Global, program: &Program) -> Ended {
    let spot = Spot {
        function: FIRST,
        number: 0,
    };
    end_of(&place_expression(alloc, b"x + t[1]", program, spot))
}

/// The rows of an input.
fn read_input(alloc: Global, made: &Compiled) -> Ended {
    end_of(&read_inputs(alloc, INPUT, &made.program, made.entry))
}

/// How long the arrays of the entry are, with the rows of an input.
fn measure(alloc: Global, made: &Compiled) -> Option<Ended> {
    let rows = read_inputs(alloc, INPUT, &made.program, made.entry).ok()?;
    Some(end_of(&entry_lengths(alloc, &made.program, made.entry.0, &rows)))
}

/// Prepares the program of a source for a machine.
fn prepare(alloc: Global, made: Compiled) -> Option<Ended>
    requires { (text : List ℕ) × (asked : Option Name) × Compiles text asked (Some made) }
{
    let rows = read_inputs(alloc, INPUT, &made.program, made.entry).ok()?;
    Some(end_of(&PreparedProgram::new::<4>(alloc, made.program, made.entry, &rows)))
}

/// Opens a machine of the program of a source, with the rows of an input.
fn open_machine(alloc: Global, made: Compiled, input: &[u8]) -> Option<Ended>
    requires { (text : List ℕ) × (asked : Option Name) × Compiles text asked (Some made) }
{
    Some(end_of(&machine(alloc, made, input)?))
}

/// Begins a run that can be taken back to its start, with copies as a plan says.
fn begin_whole(alloc: Global, plan: Option<CopyPlan>) -> Option<Ended> {
    let machine = machine(alloc, compiled(alloc)?, INPUT)?.ok()?;
    Some(match plan {
        None => end_of(&WholeRun::begin(alloc, machine)),
        Some(plan) => end_of(&WholeRun::begin_by(alloc, machine, plan)),
    })
}

/// A machine of the program of a source, with the rows of an input, if there is memory for what it is made of.
fn machine(
    alloc: Global,
    made: Compiled,
    input: &[u8],
) -> Option<Result<Machine<4, DeltaRing>, AllocError>>
    requires { (text : List ℕ) × (asked : Option Name) × Compiles text asked (Some made) }
{
    match read_inputs(alloc, input, &made.program, made.entry) {
        Ok(rows) => machine_with_rows(alloc, made, &rows),
        Err(_) => None,
    }
}

/// A machine of a program that may begin with these rows, if there is memory for what it is made of.
fn machine_with_rows(
    alloc: Global,
    made: Compiled,
    rows: &[InputRow],
) -> Option<Result<Machine<4, DeltaRing>, AllocError>>
    requires runnable { IsRunnable made.program }
    requires begins { (f : Function) × (given : List Row) × MayBegin made.program made.entry.0 f given rows.now }
{
    let Ok(prepared) = PreparedProgram::new::<4>(alloc, made.program, made.entry, rows) else {
        return None;
    };
    let (words, cells) = (prepared.words(), prepared.cells::<4>());
    let Ok(record) = DeltaRing::new(alloc, words, 2, cells) else {
        return None;
    };
    Some(open::<4, DeltaRing>(alloc, prepared, made.entry, rows, record))
}
