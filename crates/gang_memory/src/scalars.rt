//! The words of scalars, read and written by the lanes of a mask.
ghost use Rattle.std.specs.Prelude.{◌≡◌, ℕ, ◌+◌, ◌^◌, ◌<◌, ◌≤◌, length, slice_index};
ghost use Rattle.gang_types.specs.declared.types.Rate.TheVariants.{Varying};
ghost use Rattle.gang_types.specs.Masks.{IsGangWidth, lanes_of};
ghost use Rattle.gang_model.specs.Running.State.{words_for};
ghost use Rattle.gang_memory.specs.ScalarWords.{IsAssigned, IsDeclared, IsSeenAt, IsWritable};
ghost use Rattle.gang_memory.specs.Writes.{WritesOnly};

use crate::reading::words_at;
use crate::store::WordStore;
use crate::writing::set_words;
use gang_types::{Mask, Rate};
use masked_operations::only;

/// How many words a scalar has: a uniform one has one, a varying one has one for each lane.
#[inline(always)]
pub fn word_count<const W: usize>(rate: Rate) -> usize
    ensures { result ≡ words_for W rate }
{
    match rate {
        Rate::Uniform => 1,
        Rate::Varying => W,
    }
}

/// In each lane of the mask the value of the scalar whose words begin at `first`, and 0 in the others.
#[inline(always)]
pub fn read_scalar<const W: usize, S: WordStore>(
    store: &S,
    first: usize,
    rate: Rate,
    mask: Mask,
) -> [u64; W]
    requires width { IsGangWidth W }
    requires small { first + W < 2 ^ 64 }
    requires inside { first + words_for W rate ≤ length (S.words store.now) }
    ensures { IsSeenAt W rate first (lanes_of W mask) (S.words store.now) result }
{
    match rate {
        Rate::Uniform => words_at(store, mask, [first; W]),
        Rate::Varying => words_at(store, mask, consecutive(first)),
    }
}

/// Assigns to the scalar whose words begin at `first`, in the lanes of the mask; a uniform one gets the value once.
#[inline(always)]
pub fn assign_scalar<const W: usize, S: WordStore>(
    store: &mut S,
    first: usize,
    rate: Rate,
    mask: Mask,
    values: [u64; W],
)
    requires width { IsGangWidth W }
    requires writable { IsWritable W rate first (lanes_of W mask)
        (S.words store.old) (S.left store.old) }
    ensures scalar { IsAssigned W rate first (lanes_of W mask) values.entry
        (S.words store.old) (S.words store.new) }
    ensures only { WritesOnly S.words S.left S.rest first (words_for W rate) W
        store.old store.new }
{
    match rate {
        Rate::Uniform => store.set(first, values[mask.lowest::<W>()]),
        Rate::Varying => {
            if mask.word::<W>() == Mask::all::<W>().word::<W>() {
                return store.set_run(first, &values);
            }
            set_words(store, mask, consecutive(first), values)
        }
    }
}

/// Declares the scalar whose words begin at `first`: it has the values in the lanes of the mask and 0 in the others; a
/// uniform one gets the value once.
pub fn declare_scalar<const W: usize, S: WordStore>(
    store: &mut S,
    first: usize,
    rate: Rate,
    mask: Mask,
    values: [u64; W],
)
    requires width { IsGangWidth W }
    requires writable { IsWritable W rate first (lanes_of W mask)
        (S.words store.old) (S.left store.old) }
    ensures scalar { IsDeclared W rate first (lanes_of W mask) values.entry (S.words store.new) }
    ensures only { WritesOnly S.words S.left S.rest first (words_for W rate) W
        store.old store.new }
{
    match rate {
        Rate::Uniform => store.set(first, values[mask.lowest::<W>()]),
        Rate::Varying => store.set_run(first, &only(mask, values)),
    }
}

// The slots from `first` on, one for each lane.
#[inline(always)]
fn consecutive<const W: usize>(first: usize) -> [usize; W]
    requires width { IsGangWidth W }
    requires small { first + W < 2 ^ 64 }
    ensures { (k : ℕ) → k < W → slice_index result k ≡ first + k }
{
    let mut slots = [first; W];
    for lane in 0..W {
        slots[lane] = first + lane;
    }
    slots
}
