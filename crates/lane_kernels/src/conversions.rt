//! Conversions from one type to another.
ghost use Rattle.std.specs.Prelude.{◌≡◌, ℕ, ◌<◌, length, slice_index};
ghost use Rattle.gang_types.specs.Values.{converted};
ghost use Rattle.gang_types.specs.Masks.{IsGangWidth};
ghost use Rattle.lane_kernels.specs.Lanes.{OfEachLane};

use crate::vectors::narrow_lanes;
use gang_types::IntType;
use std::simd::prelude::*;

/// The values of words of one type, wrapped into another.
///
/// A word is its value modulo 2 to the 64th, so it does not matter which type the value has.
pub fn convert<const W: usize>(from: IntType, to: IntType, a: [u64; W]) -> [u64; W]
    requires { IsGangWidth W }
    ensures { OfEachLane W (converted from to) a.entry result }
{
    narrow_lanes(to, Simd::from_array(a)).to_array()
}
