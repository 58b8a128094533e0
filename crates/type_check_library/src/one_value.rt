//! Library calls of one value.
ghost use Rattle.std.specs.Prelude.{◌≡◌, Some, [], ◌∷◌, IfOk};
ghost use Rattle.gang_model.specs.Types.LibraryTable as table;
ghost use Rattle.typed_tree.specs.Views.{reduction_view, scan_view};
ghost use Rattle.type_check_values.specs.Views.{typed_view};
ghost use Rattle.type_check_library.specs.Calls.{call_of_one_view};

use crate::calls::CallOfOne;
use crate::types::{reduced_type, truths_type};
use gang_types::{IntType, Rate, is_bool};
use std::alloc::{AllocError, Global};
use type_check_values::{Typed, as_type, promoted};
use typed_tree::{Expr, OneCall, Reduction, Scan};

fn truths_reduced(alloc: Global, function: Reduction, value: Typed) -> Result<Typed, AllocError>
    ensures reduced { IfOk result (λ e. typed_view e ≡ table.truths_reduced (reduction_view function) (typed_view value)) }
{
    let value = as_type(alloc, IntType::Bool, value)?;
    Typed::new(
        alloc,
        Expr::Reduce {
            function,
            value_type: IntType::Bool,
            value,
        },
        truths_type(function),
        Rate::Uniform,
    )
}

fn numbers_reduced(alloc: Global, function: Reduction, value: Typed) -> Result<Typed, AllocError>
    ensures reduced { IfOk result (λ e. typed_view e ≡ table.numbers_reduced (reduction_view function) (typed_view value)) }
{
    let value_type = promoted(value.value_type);
    let value = as_type(alloc, value_type, value)?;
    Typed::new(
        alloc,
        Expr::Reduce {
            function,
            value_type,
            value,
        },
        reduced_type(function, value_type),
        Rate::Uniform,
    )
}

fn lanes_compared(alloc: Global, value: Typed) -> Result<Typed, AllocError>
    ensures compared { IfOk result (λ e. Some (typed_view e) ≡ table.library_value table.ComparesLanes (typed_view value ∷ [])) }
{
    Typed::new(
        alloc,
        Expr::Reduce {
            function: Reduction::ReduceEqual,
            value_type: value.value_type,
            value: value.expr,
        },
        IntType::Bool,
        Rate::Uniform,
    )
}

fn lanes_scanned(alloc: Global, function: Scan, value: Typed) -> Result<Typed, AllocError>
    ensures scanned { IfOk result (λ e. Some (typed_view e) ≡ table.library_value (table.Scans (scan_view function)) (typed_view value ∷ [])) }
{
    let value_type = promoted(value.value_type);
    let value = as_type(alloc, value_type, value)?;
    Typed::new(
        alloc,
        Expr::ScanLanes {
            function,
            value_type,
            value,
        },
        value_type,
        Rate::Varying,
    )
}

fn ones_counted(alloc: Global, value: Typed) -> Result<Typed, AllocError>
    ensures counted { IfOk result (λ e. Some (typed_view e) ≡ table.library_value table.CountsOnes (typed_view value ∷ [])) }
{
    if is_bool(value.value_type) {
        return truths_reduced(alloc, Reduction::PopCountLanes, value);
    }
    Typed::new(
        alloc,
        Expr::OfOne {
            function: OneCall::PopCount,
            value_type: value.value_type,
            value: value.expr,
        },
        IntType::Int32,
        value.rate,
    )
}

fn magnitude(alloc: Global, value: Typed) -> Result<Typed, AllocError>
    ensures magnitude { IfOk result (λ e. Some (typed_view e) ≡ table.library_value table.TakesMagnitude (typed_view value ∷ [])) }
{
    let value_type = promoted(value.value_type);
    let rate = value.rate;
    let value = as_type(alloc, value_type, value)?;
    Typed::new(
        alloc,
        Expr::OfOne {
            function: OneCall::Absolute,
            value_type,
            value,
        },
        value_type,
        rate,
    )
}

/// The expression of a library call with this argument.
///
/// # Errors
///
/// Out of memory.
pub(crate) fn value_of_one(
    alloc: Global,
    call: CallOfOne,
    value: Typed,
) -> Result<Typed, AllocError>
    ensures value { IfOk result (λ e. Some (typed_view e) ≡ table.library_value (call_of_one_view call) (typed_view value ∷ [])) }
{
    match call {
        CallOfOne::ReduceTruths(function) => truths_reduced(alloc, function, value),
        CallOfOne::ReduceNumbers(function) => numbers_reduced(alloc, function, value),
        CallOfOne::CompareLanes => lanes_compared(alloc, value),
        CallOfOne::ScanLanes(function) => lanes_scanned(alloc, function, value),
        CallOfOne::CountOnes => ones_counted(alloc, value),
        CallOfOne::TakeMagnitude => magnitude(alloc, value),
    }
}
