//! Arguments of calls.
ghost use Rattle.std.specs.Prelude.{◌≡◌, IfOk};
ghost use Rattle.source_tree.specs.Expressions.{expr_view, arg_view, OfValue, OfPart, OfPartFrom};

use gang_types::Place;
use source_tree::{Arg, Expr};
use std::alloc::{AllocError, Global};

/// A value that is passed.
pub fn value_arg(value: Box<Expr>) -> Arg
    ensures { arg_view result ≡ OfValue (expr_view value.value) }
{
    Arg::Value(Box::into_inner(value))
}

/// `&a`, the part of an array from its first element on; the bytes of the name are copied.
///
/// # Errors
///
/// Out of memory.
pub fn part(alloc: Global, place: Place, name: &[u8]) -> Result<Arg, AllocError>
    ensures { IfOk result (λ a. arg_view a ≡ OfPart place name.now) }
{
    let name = name.to_vec(alloc)?;
    Ok(Arg::Part { place, name })
}

/// `&a[e]`, the part of an array from an index on; the bytes of the name are copied.
///
/// # Errors
///
/// Out of memory.
pub fn part_from(
    alloc: Global,
    place: Place,
    name: &[u8],
    index: Box<Expr>,
) -> Result<Arg, AllocError>
    ensures { IfOk result (λ a. arg_view a ≡ OfPartFrom place name.now (expr_view index.value)) }
{
    let name = name.to_vec(alloc)?;
    let index = Box::into_inner(index);
    Ok(Arg::PartFrom { place, name, index })
}
