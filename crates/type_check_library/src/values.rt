//! The expressions of library calls.
ghost use Rattle.std.specs.Prelude.{◌≡◌, Some, IfOk, length, map, vec_len};
ghost use Rattle.gang_model.specs.Types.LibraryTable as table;
ghost use Rattle.gang_model.specs.Types.Typing as typing;
ghost use Rattle.type_check_values.specs.Views.{typed_view};
ghost use Rattle.type_check_library.specs.Arguments.{argument_view};
ghost use Rattle.type_check_library.specs.Calls.{call_view};

use crate::arguments::Argument;
use crate::calls::LibraryCall;
use crate::one_value::value_of_one;
use crate::three_values::value_of_three;
use crate::two_values::value_of_two;
use gang_types::{IntType, Rate};
use std::alloc::{AllocError, Global};
use type_check_values::Typed;
use typed_tree::Expr;

/// The expression of a library call with as many arguments as it takes.
///
/// # Errors
///
/// Out of memory.
pub(crate) fn library_value(
    alloc: Global,
    call: LibraryCall,
    mut values: Vec<Argument>,
) -> Result<Typed, AllocError>
    requires count { vec_len values ≡ length (table.asked_by (call_view call)) }
    ensures value { IfOk result (λ e. Some (typed_view e) ≡ table.library_value (call_view call) (typing.second_parts (map argument_view values.items))) }
{
    match call {
        LibraryCall::LaneMask => {
            Typed::new(alloc, Expr::LaneMask, IntType::Uint64, Rate::Uniform)
        }
        LibraryCall::OfOne(call) => {
            let first = values.remove(0);
            value_of_one(alloc, call, first.value)
        }
        LibraryCall::OfTwo(call) => {
            let second = values.remove(1);
            let first = values.remove(0);
            value_of_two(alloc, call, first.value, second.value)
        }
        LibraryCall::OfThree(call) => {
            let third = values.remove(2);
            let second = values.remove(1);
            let first = values.remove(0);
            value_of_three(alloc, call, first.value, second.value, third.value)
        }
    }
}
