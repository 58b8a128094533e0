//! The lanes where words hold, which are those that are not 0, and what is chosen by them.
ghost use Rattle.std.specs.Prelude.{◌≡◌, ℕ, ◌<◌, not, ◌&&◌, ◌||◌, slice_index, if◌then◌else◌};
ghost use Rattle.gang_types.specs.Lanes.{lanes_where};
ghost use Rattle.gang_types.specs.Masks.{IsGangWidth, lanes_of};
ghost use Rattle.gang_model.specs.Running.Lanes.{at, each, holds, truth_word};

use crate::words::{only, splat};
use gang_types::Mask;
use lane_kernels::select;

/// The lanes of the mask whose words hold.
pub fn where_true<const W: usize>(mask: Mask, words: [u64; W]) -> Mask
    requires { IsGangWidth W }
    ensures { lanes_of W result ≡ lanes_where (lanes_of W mask) (holds words.entry) }
{
    mask.where_true(words)
}

/// The lanes of the mask whose words are 0.
pub fn where_false<const W: usize>(mask: Mask, words: [u64; W]) -> Mask
    requires { IsGangWidth W }
    ensures { lanes_of W result ≡ lanes_where (lanes_of W mask) (λ k. not (holds words.entry k)) }
{
    mask.without(mask.where_true(words))
}

/// 1 in the lanes of the mask where both words hold.
pub fn both_hold<const W: usize>(mask: Mask, left: [u64; W], right: [u64; W]) -> [u64; W]
    requires { IsGangWidth W }
    ensures { result ≡ each (lanes_of W mask) (λ k. truth_word (holds left.entry k && holds right.entry k)) }
{
    let both = mask.where_true(left).where_true(right);
    splat(both, 1)
}

/// 1 in the lanes of the mask where one of the words holds, or both do.
pub fn either_holds<const W: usize>(mask: Mask, left: [u64; W], right: [u64; W]) -> [u64; W]
    requires { IsGangWidth W }
    ensures { result ≡ each (lanes_of W mask) (λ k. truth_word (holds left.entry k || holds right.entry k)) }
{
    let neither = where_false(where_false(mask, left), right);
    splat(mask.without(neither), 1)
}

/// The first word in the lanes of the mask where the test holds, and the second in its others.
pub fn chosen<const W: usize>(
    mask: Mask,
    test: [u64; W],
    first: [u64; W],
    second: [u64; W],
) -> [u64; W]
    requires { IsGangWidth W }
    ensures { result ≡ each (lanes_of W mask) (λ k. if holds test.entry k then at first.entry k else at second.entry k) }
{
    only(mask, select(test, first, second))
}
