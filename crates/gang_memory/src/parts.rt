//! Parts of arrays.
ghost use Rattle.std.specs.Prelude.{◌≡◌, ◌+◌, ◌^◌, ◌<◌, false};
ghost use Rattle.gang_types.specs.Lanes.{no_lane};
ghost use Rattle.gang_types.specs.Masks.{IsGangWidth, lanes_of};
ghost use Rattle.gang_memory.specs.Parts.{IsPartFrom};

use gang_types::{FaultName, Mask};

/// An array or a part of one, as its elements lie in a store: from word `first` on, `len` of them.
#[derive(Clone, Copy, Debug, PartialEq, Eq, Drop)]
pub struct Part {
    pub first: usize,
    pub len: usize,
}

/// The part of an array from an index on, which may be its end: `&a[e]`.
///
/// # Errors
///
/// `Index` with the lowest lane of the mask, where the index is above the length: as a word a negative index is above.
pub fn part_from<const W: usize>(
    whole: Part,
    mask: Mask,
    index: u64,
) -> Result<Part, (usize, FaultName)>
    requires width { IsGangWidth W }
    requires lane { no_lane (lanes_of W mask) ≡ false }
    requires small { whole.first + whole.len < 2 ^ 64 }
    ensures { IsPartFrom whole (lanes_of W mask) index result }
{
    if index > whole.len as u64 {
        return Err((mask.lowest::<W>(), FaultName::Index));
    }
    Ok(Part {
        first: whole.first + index as usize,
        len: whole.len - index as usize,
    })
}
