//! The elements that an expression reads.
ghost use Rattle.std.specs.Prelude.{◌≡◌, ◌++◌, IfOk};
ghost use Rattle.typed_tree.specs.Views.{expr_view};
ghost use Rattle.element_accesses.specs.Found.{one, reads_in};
ghost use Rattle.element_accesses.specs.Views.{founds_view};

use crate::varying::varies;
use gang_types::{Spot, VarId};
use std::alloc::AllocError;
use typed_tree::Expr;

/// What an access does with its elements.
#[derive(Clone, Copy, Debug, PartialEq, Eq, Drop)]
pub enum Way {
    Reads,
    Writes,
    /// It reads them, and writes them then.
    Changes,
}

/// An access that was found: its step, the array, what it does, whether all lanes of the step do it, and its index.
#[derive(Clone, Copy)]
pub(crate) struct Found<'a> {
    pub spot: Spot,
    pub array: VarId,
    pub way: Way,
    pub is_sure: bool,
    pub index: &'a Expr,
}

/// Adds an access, if its lanes may touch different elements.
pub(crate) fn add<'a>(access: Found<'a>, found: &mut Vec<Found<'a>>) -> Result<(), AllocError>
    ensures { IfOk result (λ _. founds_view found.new.items ≡ founds_view found.old.items ++ one access.entry.spot access.entry.array access.entry.way access.entry.is_sure (expr_view access.entry.index.now)) }
{
    if varies(access.index) {
        found.push(access)?;
    }
    Ok(())
}

/// Adds the elements that an expression of a step reads, in the order of evaluation. What stands behind `&&`, `||` and `?` some lanes may
/// not do.
#[cycle(reading)]
pub(crate) fn add_reads<'a>(
    spot: Spot,
    is_sure: bool,
    expression: &'a Expr,
    found: &mut Vec<Found<'a>>,
) -> Result<(), AllocError>
    ensures { IfOk result (λ _. founds_view found.new.items ≡ founds_view found.old.items ++ reads_in spot is_sure (expr_view expression.now)) }
{
    match expression {
        Expr::Element { array, index } => {
            add_reads(spot, is_sure, index, found)?;
            let access = Found {
                spot,
                array: *array,
                way: Way::Reads,
                is_sure,
                index,
            };
            add(access, found)
        }
        Expr::Unary { operand, .. } => add_reads(spot, is_sure, operand, found),
        Expr::Convert { operand, .. } => add_reads(spot, is_sure, operand, found),
        Expr::Reduce { value, .. } => add_reads(spot, is_sure, value, found),
        Expr::ScanLanes { value, .. } => add_reads(spot, is_sure, value, found),
        Expr::OfOne { value, .. } => add_reads(spot, is_sure, value, found),
        Expr::Binary { left, right, .. } => {
            add_reads(spot, is_sure, left, found)?;
            add_reads(spot, is_sure, right, found)
        }
        Expr::OfTwo { left, right, .. } => {
            add_reads(spot, is_sure, left, found)?;
            add_reads(spot, is_sure, right, found)
        }
        Expr::AndAlso { left, right } => {
            add_reads(spot, is_sure, left, found)?;
            add_reads(spot, false, right, found)
        }
        Expr::OrElse { left, right } => {
            add_reads(spot, is_sure, left, found)?;
            add_reads(spot, false, right, found)
        }
        Expr::Extract { value, index } => {
            add_reads(spot, is_sure, value, found)?;
            add_reads(spot, is_sure, index, found)
        }
        Expr::Rotate { value, by } => {
            add_reads(spot, is_sure, value, found)?;
            add_reads(spot, is_sure, by, found)
        }
        Expr::Shift { value, by } => {
            add_reads(spot, is_sure, value, found)?;
            add_reads(spot, is_sure, by, found)
        }
        Expr::Shuffle { value, places } => {
            add_reads(spot, is_sure, value, found)?;
            add_reads(spot, is_sure, places, found)
        }
        Expr::Choice {
            test,
            first,
            second,
        } => {
            add_reads(spot, is_sure, test, found)?;
            add_reads(spot, false, first, found)?;
            add_reads(spot, false, second, found)
        }
        Expr::Insert {
            value,
            index,
            new_value,
        } => {
            add_reads(spot, is_sure, value, found)?;
            add_reads(spot, is_sure, index, found)?;
            add_reads(spot, is_sure, new_value, found)
        }
        Expr::ShuffleTwo {
            value,
            second,
            places,
        } => {
            add_reads(spot, is_sure, value, found)?;
            add_reads(spot, is_sure, second, found)?;
            add_reads(spot, is_sure, places, found)
        }
        Expr::Select {
            test,
            first,
            second,
        } => {
            add_reads(spot, is_sure, test, found)?;
            add_reads(spot, is_sure, first, found)?;
            add_reads(spot, is_sure, second, found)
        }
        _ => Ok(()),
    }
}
