//! Elements at indices, for every mask of four and of eight lanes, against plain loops.
ghost use Rattle.std.specs.Prelude.{◌≤◌};
ghost use Rattle.gang_types.specs.Masks.{IsGangWidth};

use crate::plain;
use crate::told::holds_by_mask;
use gang_memory::{Part, gather, scatter};
use gang_types::Mask;
use std::alloc::{AllocError, Global};
use std::process::Abort;

// An index for each lane, by the row's digits to base 5: the first two elements, the last, the first that is missing, and
// the largest word.
fn indices<const W: usize>(row: u64, len: usize) -> [u64; W] {
    let named = [0, 1, (len as u64).wrapping_sub(1), len as u64, u64::MAX];
    let mut indices = [0; W];
    let mut left = row;
    for lane in 0..W {
        indices[lane] = named[(left % 5) as usize];
        left /= 5;
    }
    indices
}

// The elements of a part at indices, loaded and stored to.
fn same_at<const W: usize>(
    rt: &impl Abort,
    alloc: Global,
    word: u64,
    len: usize,
    indices: [u64; W],
) -> Result<(), AllocError>
    requires width { IsGangWidth W }
    requires len { len ≤ 8 }
{
    let part = Part { first: 2, len };
    let mask = Mask::from_word::<W>(word);
    let lanes = plain::lanes_in(word);
    let mut store = Vec::from_array(alloc, plain::words_before())?;
    let loaded = gather(&store, part, mask, indices);
    let stored = scatter(&mut store, part, mask, indices, plain::values());
    if let Some(fault) = plain::missing(lanes, indices, len) {
        holds_by_mask(rt, loaded == Err(fault), "the load's fault", word, len);
        holds_by_mask(rt, stored == Err(fault), "the store's fault", word, len);
        let is_kept = store.as_slice() == plain::words_before().as_slice();
        holds_by_mask(rt, is_kept, "words kept", word, len);
    } else {
        let wanted = plain::loaded(lanes, indices, len);
        holds_by_mask(rt, loaded == Ok(wanted), "words loaded", word, len);
        holds_by_mask(rt, stored == Ok(()), "the store", word, len);
        let words = plain::stored(lanes, indices, len);
        let is_stored = store.as_slice() == words.as_slice();
        holds_by_mask(rt, is_stored, "words stored", word, len);
    }
    Ok(())
}

#[test]
fn every_mask_and_row_of_four_lanes(rt: HostRuntime) -> Result<(), AllocError> {
    for len in 0..5 {
        for word in 0..16 {
            for row in 0..625 {
                same_at::<4>(&rt, rt.alloc(), word, len, indices(row, len))?;
            }
        }
    }
    Ok(())
}

#[test]
fn every_mask_of_eight_lanes(rt: HostRuntime) -> Result<(), AllocError> {
    for len in 0..9 {
        for word in 0..256 {
            for row in 0..16 {
                same_at::<8>(&rt, rt.alloc(), word, len, indices(row * 25_999, len))?;
            }
        }
    }
    Ok(())
}

#[test]
fn every_mask_of_lanes_in_their_order_and_turned_round(rt: HostRuntime) -> Result<(), AllocError> {
    for len in 0..9 {
        for word in 0..256 {
            same_at::<8>(&rt, rt.alloc(), word, len, [0, 1, 2, 3, 4, 5, 6, 7])?;
            same_at::<8>(&rt, rt.alloc(), word, len, [7, 6, 5, 4, 3, 2, 1, 0])?;
        }
    }
    Ok(())
}
