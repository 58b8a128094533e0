//! Library calls of three values.
ghost use Rattle.std.specs.Prelude.{◌≡◌, Some, [], ◌∷◌, IfOk};
ghost use Rattle.gang_model.specs.Types.LibraryTable as table;
ghost use Rattle.type_check_values.specs.Views.{typed_view};
ghost use Rattle.type_check_library.specs.Calls.{call_of_three_view};

use crate::calls::CallOfThree;
use crate::two_values::{as_index, both_as_type, one_of_two};
use crate::types::number_type;
use gang_types::{IntType, Rate};
use std::alloc::{AllocError, Global};
use type_check_values::{Typed, as_type, joined, joined_rate, promoted};
use typed_tree::{Expr, TwoCall};

fn inserted(
    alloc: Global,
    value: Typed,
    index: Typed,
    new_value: Typed,
) -> Result<Typed, AllocError>
    ensures inserted { IfOk result (λ e. Some (typed_view e) ≡ table.library_value table.Inserts (typed_view value ∷ typed_view index ∷ typed_view new_value ∷ [])) }
{
    let value_type = value.value_type;
    let index = as_index(alloc, index)?;
    let new_value = as_type(alloc, value_type, new_value)?;
    let expr = Expr::Insert {
        value: value.expr,
        index,
        new_value,
    };
    Typed::new(alloc, expr, value_type, Rate::Varying)
}

fn shuffled_two(
    alloc: Global,
    first: Typed,
    second: Typed,
    places: Typed,
) -> Result<Typed, AllocError>
    ensures shuffled { IfOk result (λ e. Some (typed_view e) ≡ table.library_value table.ShufflesTwo (typed_view first ∷ typed_view second ∷ typed_view places ∷ [])) }
{
    let value_type = promoted(joined(first.value_type, second.value_type));
    let (value, second) = both_as_type(alloc, value_type, first, second)?;
    let places = as_index(alloc, places)?;
    let expr = Expr::ShuffleTwo {
        value,
        second,
        places,
    };
    Typed::new(alloc, expr, value_type, Rate::Varying)
}

fn clamped(alloc: Global, value: Typed, low: Typed, high: Typed) -> Result<Typed, AllocError>
    ensures clamped { IfOk result (λ e. Some (typed_view e) ≡ table.library_value table.Clamps (typed_view value ∷ typed_view low ∷ typed_view high ∷ [])) }
{
    let value_type = joined(number_type(&value, &low), promoted(high.value_type));
    let rate = joined_rate(value.rate, joined_rate(low.rate, high.rate));
    let at_least_low = one_of_two(alloc, TwoCall::Larger, value_type, rate, value, low)?;
    one_of_two(alloc, TwoCall::Lesser, value_type, rate, at_least_low, high)
}

fn selected(alloc: Global, test: Typed, first: Typed, second: Typed) -> Result<Typed, AllocError>
    ensures selected { IfOk result (λ e. Some (typed_view e) ≡ table.library_value table.Selects (typed_view test ∷ typed_view first ∷ typed_view second ∷ [])) }
{
    let value_type = joined(first.value_type, second.value_type);
    let rate = joined_rate(test.rate, joined_rate(first.rate, second.rate));
    let (first, second) = both_as_type(alloc, value_type, first, second)?;
    let test = as_type(alloc, IntType::Bool, test)?;
    let expr = Expr::Select {
        test,
        first,
        second,
    };
    Typed::new(alloc, expr, value_type, rate)
}

/// The expression of a library call with these arguments.
///
/// # Errors
///
/// Out of memory.
pub(crate) fn value_of_three(
    alloc: Global,
    call: CallOfThree,
    first: Typed,
    second: Typed,
    third: Typed,
) -> Result<Typed, AllocError>
    ensures value { IfOk result (λ e. Some (typed_view e) ≡ table.library_value (call_of_three_view call) (typed_view first ∷ typed_view second ∷ typed_view third ∷ [])) }
{
    match call {
        CallOfThree::Insert => inserted(alloc, first, second, third),
        CallOfThree::ShuffleTwo => shuffled_two(alloc, first, second, third),
        CallOfThree::Clamp => clamped(alloc, first, second, third),
        CallOfThree::Select => selected(alloc, first, second, third),
    }
}
