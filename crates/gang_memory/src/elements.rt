//! Elements of arrays, read and stored to by the lanes of a mask.
ghost use Rattle.std.specs.Prelude.{◌≡◌, ◌+◌, ◌^◌, ◌<◌, ◌≤◌, length, OnOk, OnErr};
ghost use Rattle.gang_types.specs.Masks.{IsGangWidth, lanes_of};
ghost use Rattle.gang_model.specs.Running.Lanes.{at};
ghost use Rattle.cross_lane.specs.Calls.{answer_of};
ghost use Rattle.gang_memory.specs.Elements.{IsLoad, IsStore, StoresInArrays};
ghost use Rattle.gang_memory.specs.Writes.{WritesOnly};

use crate::parts::Part;
use crate::reading::words_at;
use crate::slots::slots;
use crate::store::WordStore;
use crate::writing::set_words;
use gang_types::{FaultName, Mask};

/// In each lane of the mask the element at its index, and 0 in the others.
///
/// # Errors
///
/// `Index` with the lowest lane of the mask whose index is not below the length: as a word a negative index is above.
pub fn gather<const W: usize, S: WordStore>(
    store: &S,
    part: Part,
    mask: Mask,
    indices: [u64; W],
) -> Result<[u64; W], (usize, FaultName)>
    requires width { IsGangWidth W }
    requires small { part.first + part.len < 2 ^ 64 }
    requires inside { part.first + part.len ≤ length (S.words store.now) }
    ensures { IsLoad (S.words store.now) part (lanes_of W mask) (at indices.entry)
        (answer_of result) }
{
    let slots = slots(part, mask, indices)?;
    Ok(words_at(store, mask, slots))
}

/// Stores the values of the lanes of the mask to the elements at their indices; of lanes with one index the highest stays.
///
/// # Errors
///
/// `Index` with the lowest lane of the mask whose index is not below the length: as a word a negative index is above.
/// The store is then as it was.
pub fn scatter<const W: usize, S: WordStore>(
    store: &mut S,
    part: Part,
    mask: Mask,
    indices: [u64; W],
    values: [u64; W],
) -> Result<(), (usize, FaultName)>
    requires width { IsGangWidth W }
    requires small { part.first + part.len < 2 ^ 64 }
    requires inside { part.first + part.len ≤ length (S.words store.old) }
    requires left { W ≤ S.left store.old }
    ensures answer { IsStore part (lanes_of W mask) (at indices.entry) indices.entry values.entry
        (S.words store.old) result (S.words store.new) }
    ensures array { OnOk result (StoresInArrays part (lanes_of W mask) indices.entry values.entry
        (S.words store.old) (S.words store.new)) }
    ensures only { WritesOnly S.words S.left S.rest part.first part.len W store.old store.new }
    ensures unchanged { OnErr result (store.new ≡ store.old) }
{
    let targets = slots(part, mask, indices)?;
    set_words(store, mask, targets, values);
    Ok(())
}
