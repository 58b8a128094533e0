//! Packed calls, for every mask of four and of eight lanes and every length, against plain loops.
ghost use Rattle.std.specs.Prelude.{◌≤◌};
ghost use Rattle.gang_types.specs.Masks.{IsGangWidth};

use crate::plain;
use crate::told::holds_by_mask;
use gang_memory::{Part, packed_load, packed_store};
use gang_types::Mask;
use std::alloc::{AllocError, Global};
use std::process::Abort;

// The first elements of a part, loaded and stored to.
fn same_at<const W: usize>(
    rt: &impl Abort,
    alloc: Global,
    word: u64,
    len: usize,
) -> Result<(), AllocError>
    requires width { IsGangWidth W }
    requires len { len ≤ 8 }
{
    let part = Part { first: 2, len };
    let mask = Mask::from_word::<W>(word);
    let lanes: [bool; W] = plain::lanes_in(word);
    let below = plain::lanes_below(lanes);
    let mut store = Vec::from_array(alloc, plain::words_before())?;
    let loaded = packed_load::<W, _>(&store, part, mask).map(|loaded| loaded.words);
    let many = packed_load::<W, _>(&store, part, mask).map(|loaded| loaded.count);
    let stored = packed_store(&mut store, part, mask, plain::values::<W>());
    if let Some(fault) = plain::missing(lanes, below, len) {
        holds_by_mask(rt, loaded == Err(fault), "the load's fault", word, len);
        holds_by_mask(rt, many == Err(fault), "the count's fault", word, len);
        holds_by_mask(rt, stored == Err(fault), "the store's fault", word, len);
        let is_kept = store.as_slice() == plain::words_before().as_slice();
        holds_by_mask(rt, is_kept, "words kept", word, len);
    } else {
        let wanted = plain::loaded(lanes, below, len);
        holds_by_mask(rt, loaded == Ok(wanted), "words loaded", word, len);
        let count = plain::count(lanes);
        holds_by_mask(rt, many == Ok(count), "how many are loaded", word, len);
        holds_by_mask(rt, stored == Ok(count), "how many are stored", word, len);
        let words = plain::stored(lanes, below, len);
        let is_stored = store.as_slice() == words.as_slice();
        holds_by_mask(rt, is_stored, "words stored", word, len);
    }
    Ok(())
}

#[test]
fn every_mask_of_four_lanes(rt: HostRuntime) -> Result<(), AllocError> {
    for len in 0..9 {
        for word in 0..16 {
            same_at::<4>(&rt, rt.alloc(), word, len)?;
        }
    }
    Ok(())
}

#[test]
fn every_mask_of_eight_lanes(rt: HostRuntime) -> Result<(), AllocError> {
    for len in 0..9 {
        for word in 0..256 {
            same_at::<8>(&rt, rt.alloc(), word, len)?;
        }
    }
    Ok(())
}
