//! Setting the words that lanes name.
ghost use Rattle.std.specs.Prelude.{◌≡◌, ◌+◌, ◌≤◌, length};
ghost use Rattle.gang_types.specs.Masks.{IsGangWidth, lanes_of};
ghost use Rattle.gang_model.specs.Running.Step.{scattered_from};
ghost use Rattle.gang_memory.specs.Parts.{AreWithin};

use crate::store::WordStore;
use gang_types::Mask;

// Sets the words at the slots of the lanes of the mask, from the lowest lane on.
#[inline(always)]
pub(crate) fn set_words<const W: usize, S: WordStore>(
    store: &mut S,
    mask: Mask,
    slots: [usize; W],
    values: [u64; W],
)
    requires width { IsGangWidth W }
    requires within { AreWithin (lanes_of W mask) slots (length (S.words store.old)) }
    requires left { W ≤ S.left store.old }
    ensures words { S.words store.new
        ≡ scattered_from 0 (lanes_of W mask) slots.entry values.entry (S.words store.old) }
    ensures left { S.left store.old ≤ S.left store.new + W }
    ensures rest { S.rest store.new ≡ S.rest store.old }
{
    for lane in 0..W {
        if mask.has::<W>(lane) {
            store.set(slots[lane], values[lane]);
        }
    }
}
