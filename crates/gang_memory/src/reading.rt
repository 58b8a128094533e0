//! Reading the words that lanes name.
ghost use Rattle.std.specs.Prelude.{◌≡◌, length};
ghost use Rattle.gang_types.specs.Masks.{IsGangWidth, lanes_of};
ghost use Rattle.gang_model.specs.Running.Lanes.{at, each};
ghost use Rattle.gang_memory.specs.Parts.{AreWithin};

use crate::store::WordStore;
use gang_types::Mask;

// The words at the slots of the lanes of the mask, and 0 in the other lanes.
#[inline(always)]
pub(crate) fn words_at<const W: usize, S: WordStore>(
    store: &S,
    mask: Mask,
    slots: [usize; W],
) -> [u64; W]
    requires width { IsGangWidth W }
    requires within { AreWithin (lanes_of W mask) slots (length (S.words store.now)) }
    ensures { result ≡ each (lanes_of W mask) (λ k. at (S.words store.now) (at slots.entry k)) }
{
    let mut words = [0; W];
    for lane in 0..W {
        if mask.has::<W>(lane) {
            words[lane] = store.word(slots[lane]);
        }
    }
    words
}
