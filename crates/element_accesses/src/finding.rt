//! The accesses of statements.
ghost use Rattle.std.specs.Prelude.{true, ◌≡◌, ◌++◌, IfOk, map, option_map};
ghost use Rattle.typed_tree.specs.Views.{arg_view, boxed_view, dimension_view, expr_view, program_view, rounds_view, segments_view, stmt_view, stmts_view, target_view};
ghost use Rattle.element_accesses.specs.Found.{accesses_in, accesses_of, arg_in, args_in, bounds_in, own_in, reads_in, rounds_in, some_in, target_in};
ghost use Rattle.gang_model.specs.Debugger.Positions.{spot_in};
ghost use Rattle.element_accesses.specs.Views.{founds_view};

use crate::reading::{Found, Way, add, add_reads};
use gang_types::{FuncId, Spot};
use std::alloc::{AllocError, Global};
use typed_tree::{Arg, Dimension, Expr, Program, Rounds, Segment, Stmt, Target};

/// The accesses of a program whose lanes may touch different elements, function by function. Those of a step stand in the order in which
/// it makes them.
///
/// # Errors
///
/// Out of memory.
pub(crate) fn accesses_of<'a>(
    alloc: Global,
    program: &'a Program,
) -> Result<Vec<Found<'a>>, AllocError>
    ensures { IfOk result (λ found. founds_view found.items ≡ accesses_of (program_view program.now)) }
{
    let mut found = Vec::new(alloc);
    for (number, function) in program.functions.iter().enumerate() {
        add_all(&function.body, number, &mut found)?;
    }
    Ok(found)
}

/// Adds the accesses of a statement.
#[cycle(finding)]
fn add_statement<'a>(
    statement: &'a Stmt,
    function: usize,
    found: &mut Vec<Found<'a>>,
) -> Result<(), AllocError>
    ensures { IfOk result (λ _. founds_view found.new.items ≡ founds_view found.old.items ++ accesses_in function (stmt_view statement.now)) }
{
    match statement {
        Stmt::Block(statements) => add_all(statements, function, found),
        Stmt::Then { first, rest } => {
            add_statement(first, function, found)?;
            add_statement(rest, function, found)
        }
        Stmt::If { first, other, .. } => {
            add_own(statement, function, found)?;
            add_statement(first, function, found)?;
            add_statement(other, function, found)
        }
        Stmt::Loop { update, body, .. } => {
            add_own(statement, function, found)?;
            add_statement(body, function, found)?;
            add_statement(update, function, found)
        }
        Stmt::BodyFirst { body, .. } => {
            add_own(statement, function, found)?;
            add_statement(body, function, found)
        }
        Stmt::Switch { segments, .. } => {
            add_own(statement, function, found)?;
            add_segments(segments, function, found)
        }
        Stmt::ForEach { body, .. } => {
            add_own(statement, function, found)?;
            add_statement(body, function, found)
        }
        _ => add_own(statement, function, found),
    }
}

/// Adds the accesses of a switch's segments.
#[cycle(finding)]
fn add_segments<'a>(
    segments: &'a [Segment],
    function: usize,
    found: &mut Vec<Found<'a>>,
) -> Result<(), AllocError>
    ensures { IfOk result (λ _. founds_view found.new.items ≡ founds_view found.old.items ++ accesses_in function (segments_view segments.now)) }
{
    for segment in segments {
        add_all(&segment.body, function, found)?;
    }
    Ok(())
}

/// Adds the accesses of statements in order.
#[cycle(finding)]
fn add_all<'a>(
    statements: &'a [Stmt],
    function: usize,
    found: &mut Vec<Found<'a>>,
) -> Result<(), AllocError>
    ensures { IfOk result (λ _. founds_view found.new.items ≡ founds_view found.old.items ++ accesses_in function (stmts_view statements.now)) }
{
    for statement in statements {
        add_statement(statement, function, found)?;
    }
    Ok(())
}

/// Adds the accesses of a statement's own step.
fn add_own<'a>(
    statement: &'a Stmt,
    function: usize,
    found: &mut Vec<Found<'a>>,
) -> Result<(), AllocError>
    ensures { IfOk result (λ _. founds_view found.new.items ≡ founds_view found.old.items ++ own_in function (stmt_view statement.now)) }
{
    match statement {
        Stmt::Declare { step, value, .. } => add_some(spot_of(function, *step), value, found),
        Stmt::Return { step, value } => add_some(spot_of(function, *step), value, found),
        Stmt::Assign {
            step,
            target,
            value,
        } => add_assigned(spot_of(function, *step), Way::Writes, target, value, found),
        Stmt::Change {
            step,
            target,
            value,
            ..
        } => add_assigned(spot_of(function, *step), Way::Changes, target, value, found),
        Stmt::If { step, test, .. } => add_reads(spot_of(function, *step), true, test, found),
        Stmt::Loop { step, test, .. } => add_reads(spot_of(function, *step), true, test, found),
        Stmt::BodyFirst { step, test, .. } => {
            add_reads(spot_of(function, *step), true, test, found)
        }
        Stmt::Check { step, test } => add_reads(spot_of(function, *step), true, test, found),
        Stmt::Switch { step, selector, .. } => {
            add_reads(spot_of(function, *step), true, selector, found)
        }
        Stmt::ForEach { step, rounds, .. } => add_rounds(spot_of(function, *step), rounds, found),
        Stmt::Call { step, args, .. } => add_args(spot_of(function, *step), args, found),
        Stmt::PackedStore {
            step,
            from,
            value,
            ..
        } => add_packed(spot_of(function, *step), from, value, found),
        Stmt::PackedLoad { step, from, .. } => add_some(spot_of(function, *step), from, found),
        Stmt::Block(_) => Ok(()),
        Stmt::Empty | Stmt::Then { .. } | Stmt::Break { .. } | Stmt::Continue { .. } => Ok(()),
    }
}

/// A step of a function.
fn spot_of(function: usize, step: usize) -> Spot
    ensures { result ≡ spot_in function step }
{
    Spot {
        function: FuncId(function),
        number: step,
    }
}

/// Adds what an assignment reads and writes.
fn add_assigned<'a>(
    spot: Spot,
    way: Way,
    target: &'a Target,
    value: &'a Expr,
    found: &mut Vec<Found<'a>>,
) -> Result<(), AllocError>
    ensures { IfOk result (λ _. founds_view found.new.items ≡ founds_view found.old.items ++ (target_in spot way (target_view target.now) ++ reads_in spot true (expr_view value.now))) }
{
    add_target(spot, way, target, found)?;
    add_reads(spot, true, value, found)
}

/// Adds what the storing of packed values reads.
fn add_packed<'a>(
    spot: Spot,
    from: &'a Option<Box<Expr>>,
    value: &'a Expr,
    found: &mut Vec<Found<'a>>,
) -> Result<(), AllocError>
    ensures { IfOk result (λ _. founds_view found.new.items ≡ founds_view found.old.items ++ (some_in spot (option_map boxed_view from.now) ++ reads_in spot true (expr_view value.now))) }
{
    add_some(spot, from, found)?;
    add_reads(spot, true, value, found)
}

/// Adds what an expression reads, if there is one.
fn add_some<'a>(
    spot: Spot,
    expression: &'a Option<Box<Expr>>,
    found: &mut Vec<Found<'a>>,
) -> Result<(), AllocError>
    ensures { IfOk result (λ _. founds_view found.new.items ≡ founds_view found.old.items ++ some_in spot (option_map boxed_view expression.now)) }
{
    match expression {
        Some(expression) => add_reads(spot, true, expression, found),
        None => Ok(()),
    }
}

/// Adds what is read for an assigned element, and the element.
fn add_target<'a>(
    spot: Spot,
    way: Way,
    target: &'a Target,
    found: &mut Vec<Found<'a>>,
) -> Result<(), AllocError>
    ensures { IfOk result (λ _. founds_view found.new.items ≡ founds_view found.old.items ++ target_in spot way (target_view target.now)) }
{
    match target {
        Target::Scalar(_) => Ok(()),
        Target::Element { array, index, .. } => {
            add_reads(spot, true, index, found)?;
            let access = Found {
                spot,
                array: *array,
                way,
                is_sure: true,
                index,
            };
            add(access, found)
        }
    }
}

/// Adds what the head of a foreach form reads.
fn add_rounds<'a>(
    spot: Spot,
    rounds: &'a Rounds,
    found: &mut Vec<Found<'a>>,
) -> Result<(), AllocError>
    ensures { IfOk result (λ _. founds_view found.new.items ≡ founds_view found.old.items ++ rounds_in spot (rounds_view rounds.now)) }
{
    match rounds {
        Rounds::Rows(dimensions) => add_bounds(spot, dimensions, found),
        Rounds::Tiles(dimensions) => add_bounds(spot, dimensions, found),
        Rounds::EachLane(_) => Ok(()),
        Rounds::EachValue { index: _, value } => add_reads(spot, true, value, found),
    }
}

/// Adds what the bounds of index variables read.
fn add_bounds<'a>(
    spot: Spot,
    dimensions: &'a [Dimension],
    found: &mut Vec<Found<'a>>,
) -> Result<(), AllocError>
    ensures { IfOk result (λ _. founds_view found.new.items ≡ founds_view found.old.items ++ bounds_in spot (map dimension_view dimensions.now)) }
{
    for dimension in dimensions {
        add_reads(spot, true, &dimension.low, found)?;
        add_reads(spot, true, &dimension.high, found)?;
    }
    Ok(())
}

/// Adds what the arguments of a call read.
fn add_args<'a>(spot: Spot, args: &'a [Arg], found: &mut Vec<Found<'a>>) -> Result<(), AllocError>
    ensures { IfOk result (λ _. founds_view found.new.items ≡ founds_view found.old.items ++ args_in spot (map arg_view args.now)) }
{
    for arg in args {
        add_arg(spot, arg, found)?;
    }
    Ok(())
}

/// Adds what an argument reads.
fn add_arg<'a>(spot: Spot, arg: &'a Arg, found: &mut Vec<Found<'a>>) -> Result<(), AllocError>
    ensures { IfOk result (λ _. founds_view found.new.items ≡ founds_view found.old.items ++ arg_in spot (arg_view arg.now)) }
{
    match arg {
        Arg::Value { value, .. } => add_reads(spot, true, value, found),
        Arg::Array { from, .. } => add_some(spot, from, found),
    }
}
