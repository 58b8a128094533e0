//! The functions that were seen, each with a number.
ghost use Rattle.std.specs.Prelude.{◌≡◌, ◌++◌, IfOk, Some, map, slice_get};
ghost use Rattle.run_page.specs.Names.{GrowsNames, names_view};

use std::alloc::{AllocError, Global};

/// The names of functions. The number of each is its place here.
pub(crate) type Names = Vec<Vec<u8>>;

/// The number of a function.
///
/// # Errors
///
/// Out of memory, where the function is new.
pub(crate) fn function_number(
    alloc: Global,
    name: &[u8],
    functions: &mut Names,
) -> Result<usize, AllocError>
    ensures number { IfOk result (λ number. slice_get (names_view functions.new.items) number ≡ Some name.now) }
    ensures grows { GrowsNames (names_view functions.old.items) (names_view functions.new.items) }
{
    for (number, function) in functions.iter().enumerate() {
        if function.as_slice() == name {
            return Ok(number);
        }
    }
    let number = functions.len();
    functions.push(Vec::from_slice(alloc, name)?)?;
    Ok(number)
}
