//! The types of library calls.
ghost use Rattle.std.specs.Prelude.{◌≡◌};
ghost use Rattle.gang_model.specs.Running.Library as library;
ghost use Rattle.gang_model.specs.Types.LibraryTable as table;
ghost use Rattle.typed_tree.specs.Views.{reduction_view};
ghost use Rattle.type_check_values.specs.Views.{typed_view};

use gang_types::IntType;
use type_check_values::{Typed, joined, promoted};
use typed_tree::Reduction;

/// The type of a sum, which is wider than its numbers.
fn sum_type(value_type: IntType) -> IntType
    ensures { result ≡ library.sum_type value_type }
{
    match value_type {
        IntType::Int8 => IntType::Int16,
        IntType::Int16 => IntType::Int32,
        IntType::Bool | IntType::Int32 | IntType::Int64 => IntType::Int64,
        IntType::Uint8 => IntType::Uint16,
        IntType::Uint16 => IntType::Uint32,
        IntType::Uint32 | IntType::Uint64 => IntType::Uint64,
    }
}

/// The type of a reduction over numbers.
pub(crate) fn reduced_type(function: Reduction, value_type: IntType) -> IntType
    ensures { result ≡ table.reduced_type (reduction_view function) value_type }
{
    match function {
        Reduction::ReduceAdd => sum_type(value_type),
        _ => value_type,
    }
}

/// The type of a reduction over truth values.
pub(crate) fn truths_type(function: Reduction) -> IntType
    ensures { result ≡ table.truths_type (reduction_view function) }
{
    match function {
        Reduction::PackMask => IntType::Uint64,
        Reduction::PopCountLanes => IntType::Int32,
        _ => IntType::Bool,
    }
}

/// The type of two numbers: their joined type, where bool counts as int32.
pub(crate) fn number_type(left: &Typed, right: &Typed) -> IntType
    ensures { result ≡ table.number_type (typed_view left.now) (typed_view right.now) }
{
    joined(promoted(left.value_type), promoted(right.value_type))
}
