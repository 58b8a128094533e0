//! Where the elements that lanes name lie.
ghost use Rattle.std.specs.Prelude.{◌+◌, ◌^◌, ◌<◌, IfOk, IfErr};
ghost use Rattle.gang_types.specs.Masks.{IsGangWidth, lanes_of};
ghost use Rattle.gang_memory.specs.Parts.{AreSlots, IsFirstMissing};

use crate::parts::Part;
use gang_types::{FaultName, Mask};

// Where the elements at the indices of the lanes of the mask lie, and 0 in the other lanes; the fault of the lowest lane
// whose index is not below the length. As a word a negative index is above.
pub(crate) fn slots<const W: usize>(
    part: Part,
    mask: Mask,
    indices: [u64; W],
) -> Result<[usize; W], (usize, FaultName)>
    requires width { IsGangWidth W }
    requires small { part.first + part.len < 2 ^ 64 }
    ensures ok { IfOk result (AreSlots part (lanes_of W mask) indices.entry) }
    ensures err { IfErr result (IsFirstMissing part (lanes_of W mask) indices.entry) }
{
    let mut slots = [0; W];
    for lane in 0..W {
        if mask.has::<W>(lane) {
            if indices[lane] >= part.len as u64 {
                return Err((lane, FaultName::Index));
            }
            slots[lane] = part.first + indices[lane] as usize;
        }
    }
    Ok(slots)
}
