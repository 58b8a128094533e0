//! The library's functions of the values of one lane.
ghost use Rattle.std.specs.Prelude.{◌≡◌, ℕ};
ghost use Rattle.gang_types.specs.Masks.{IsGangWidth, lanes_of};
ghost use Rattle.gang_model.specs.Running.Lanes.{at, each};
ghost use Rattle.gang_model.specs.Running.Library.{of_one, of_two};
ghost use Rattle.gang_model.specs.Types.Tree.{Absolute, PopCount, Lesser, Larger};

use crate::words::only;
use gang_types::{IntType, Mask};
use lane_kernels as kernels;

/// The values without their sign.
pub fn absolute<const W: usize>(mask: Mask, value_type: IntType, words: [u64; W]) -> [u64; W]
    requires { IsGangWidth W }
    ensures { result ≡ each (lanes_of W mask) (λ k. of_one Absolute value_type (at words.entry k)) }
{
    only(mask, kernels::abs(value_type, words))
}

/// How many bits of the type's width are 1.
pub fn popcnt<const W: usize>(mask: Mask, value_type: IntType, words: [u64; W]) -> [u64; W]
    requires { IsGangWidth W }
    ensures { result ≡ each (lanes_of W mask) (λ k. of_one PopCount value_type (at words.entry k)) }
{
    only(mask, kernels::popcnt(value_type, words))
}

/// The lesser values.
pub fn min<const W: usize>(
    mask: Mask,
    value_type: IntType,
    left: [u64; W],
    right: [u64; W],
) -> [u64; W]
    requires { IsGangWidth W }
    ensures { result ≡ each (lanes_of W mask) (λ k. of_two Lesser value_type (at left.entry k) (at right.entry k)) }
{
    only(mask, kernels::min(value_type, left, right))
}

/// The larger values.
pub fn max<const W: usize>(
    mask: Mask,
    value_type: IntType,
    left: [u64; W],
    right: [u64; W],
) -> [u64; W]
    requires { IsGangWidth W }
    ensures { result ≡ each (lanes_of W mask) (λ k. of_two Larger value_type (at left.entry k) (at right.entry k)) }
{
    only(mask, kernels::max(value_type, left, right))
}
