//! Library calls of two values.
ghost use Rattle.std.specs.Prelude.{◌≡◌, Some, [], ◌∷◌, IfOk};
ghost use Rattle.gang_model.specs.Types.Conversions as model;
ghost use Rattle.gang_model.specs.Types.LibraryTable as table;
ghost use Rattle.gang_model.specs.Types.Tree as tree;
ghost use Rattle.gang_types.specs.declared.types.IntType.TheVariants.{Int32};
ghost use Rattle.typed_tree.specs.Views.{boxed_view, two_view};
ghost use Rattle.type_check_values.specs.Views.{typed_view};
ghost use Rattle.type_check_library.specs.Calls.{call_of_two_view};

use crate::calls::CallOfTwo;
use crate::types::number_type;
use gang_types::{IntType, Rate};
use std::alloc::{AllocError, Global};
use type_check_values::{Typed, as_type, joined_rate};
use typed_tree::{Expr, TwoCall};

/// Two values, converted to a type.
///
/// # Errors
///
/// Out of memory.
pub(crate) fn both_as_type(
    alloc: Global,
    to: IntType,
    first: Typed,
    second: Typed,
) -> Result<(Box<Expr>, Box<Expr>), AllocError>
    ensures first { IfOk result (λ both. boxed_view both.0 ≡ model.as_type to (typed_view first)) }
    ensures second { IfOk result (λ both. boxed_view both.1 ≡ model.as_type to (typed_view second)) }
{
    let first = as_type(alloc, to, first)?;
    let second = as_type(alloc, to, second)?;
    Ok((first, second))
}

/// The lesser or the larger of two numbers, in a type.
///
/// # Errors
///
/// Out of memory.
pub(crate) fn one_of_two(
    alloc: Global,
    function: TwoCall,
    value_type: IntType,
    rate: Rate,
    left: Typed,
    right: Typed,
) -> Result<Typed, AllocError>
    ensures one { IfOk result (λ e. typed_view e ≡ model.typed (tree.OfTwo (two_view function) value_type (model.as_type value_type (typed_view left)) (model.as_type value_type (typed_view right))) value_type rate) }
{
    let (left, right) = both_as_type(alloc, value_type, left, right)?;
    let expr = Expr::OfTwo {
        function,
        value_type,
        left,
        right,
    };
    Typed::new(alloc, expr, value_type, rate)
}

fn compared(
    alloc: Global,
    function: TwoCall,
    left: Typed,
    right: Typed,
) -> Result<Typed, AllocError>
    ensures compared { IfOk result (λ e. Some (typed_view e) ≡ table.library_value (table.ComparesTwo (two_view function)) (typed_view left ∷ typed_view right ∷ [])) }
{
    let value_type = number_type(&left, &right);
    let rate = joined_rate(left.rate, right.rate);
    one_of_two(alloc, function, value_type, rate, left, right)
}

/// A lane's number, converted to int32.
///
/// # Errors
///
/// Out of memory.
pub(crate) fn as_index(alloc: Global, index: Typed) -> Result<Box<Expr>, AllocError>
    ensures index { IfOk result (λ e. boxed_view e ≡ model.as_type Int32 (typed_view index)) }
{
    as_type(alloc, IntType::Int32, index)
}

fn extracted(alloc: Global, rate: Rate, value: Typed, index: Typed) -> Result<Typed, AllocError>
    ensures extracted { IfOk result (λ e. typed_view e ≡ model.typed (tree.Extract (boxed_view value.expr) (model.as_type Int32 (typed_view index))) value.value_type rate) }
{
    let value_type = value.value_type;
    let index = as_index(alloc, index)?;
    let value = value.expr;
    Typed::new(alloc, Expr::Extract { value, index }, value_type, rate)
}

fn rotated(alloc: Global, value: Typed, by: Typed) -> Result<Typed, AllocError>
    ensures rotated { IfOk result (λ e. Some (typed_view e) ≡ table.library_value table.Rotates (typed_view value ∷ typed_view by ∷ [])) }
{
    let value_type = value.value_type;
    let by = as_index(alloc, by)?;
    let value = value.expr;
    Typed::new(alloc, Expr::Rotate { value, by }, value_type, Rate::Varying)
}

fn shifted(alloc: Global, value: Typed, by: Typed) -> Result<Typed, AllocError>
    ensures shifted { IfOk result (λ e. Some (typed_view e) ≡ table.library_value table.Shifts (typed_view value ∷ typed_view by ∷ [])) }
{
    let value_type = value.value_type;
    let by = as_index(alloc, by)?;
    let value = value.expr;
    Typed::new(alloc, Expr::Shift { value, by }, value_type, Rate::Varying)
}

fn shuffled(alloc: Global, value: Typed, places: Typed) -> Result<Typed, AllocError>
    ensures shuffled { IfOk result (λ e. Some (typed_view e) ≡ table.library_value table.Shuffles (typed_view value ∷ typed_view places ∷ [])) }
{
    let value_type = value.value_type;
    let places = as_index(alloc, places)?;
    let value = value.expr;
    Typed::new(
        alloc,
        Expr::Shuffle { value, places },
        value_type,
        Rate::Varying,
    )
}

/// The expression of a library call with these arguments.
///
/// # Errors
///
/// Out of memory.
pub(crate) fn value_of_two(
    alloc: Global,
    call: CallOfTwo,
    first: Typed,
    second: Typed,
) -> Result<Typed, AllocError>
    ensures value { IfOk result (λ e. Some (typed_view e) ≡ table.library_value (call_of_two_view call) (typed_view first ∷ typed_view second ∷ [])) }
{
    match call {
        CallOfTwo::Compare(function) => compared(alloc, function, first, second),
        CallOfTwo::Broadcast => extracted(alloc, Rate::Varying, first, second),
        CallOfTwo::Extract => extracted(alloc, Rate::Uniform, first, second),
        CallOfTwo::Rotate => rotated(alloc, first, second),
        CallOfTwo::Shift => shifted(alloc, first, second),
        CallOfTwo::Shuffle => shuffled(alloc, first, second),
    }
}
