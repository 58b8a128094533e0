//! Sums, differences, products and signs.
ghost use Rattle.std.specs.Prelude.{◌≡◌, ℕ, ◌+◌, ◌-◌, ◌*◌, ◌%◌, ◌^◌, ◌<◌, length, slice_index};
ghost use Rattle.gang_types.specs.Values.{binary_of, unary_of};
ghost use Rattle.gang_types.specs.declared.operators.BinaryOp.TheVariants.{Add, Sub, Mul};
ghost use Rattle.gang_types.specs.declared.operators.UnaryOp.TheVariants.{Negate};
ghost use Rattle.gang_types.specs.Library.{absolute};
ghost use Rattle.gang_types.specs.Masks.{IsGangWidth};
ghost use Rattle.lane_kernels.specs.Lanes.{InEachLane, OfEachLane};

use crate::choices::select;
use crate::comparisons::less;
use crate::conversions::convert;
use crate::vectors::narrow_lanes;
use gang_types::{IntType, is_bool};
use std::simd::prelude::*;

/// The sums, wrapped.
pub fn add<const W: usize>(ty: IntType, a: [u64; W], b: [u64; W]) -> [u64; W]
    requires { IsGangWidth W }
    ensures { InEachLane W (binary_of Add ty) a.entry b.entry result }
{
    let x = Simd::from_array(a);
    let y = Simd::from_array(b);
    let sums = if is_bool(ty) { x | y } else { x + y };
    narrow_lanes(ty, sums).to_array()
}

/// The differences, wrapped.
pub fn sub<const W: usize>(ty: IntType, a: [u64; W], b: [u64; W]) -> [u64; W]
    requires { IsGangWidth W }
    ensures { InEachLane W (binary_of Sub ty) a.entry b.entry result }
{
    narrow_lanes(ty, Simd::from_array(a) - Simd::from_array(b)).to_array()
}

/// The products, wrapped.
pub fn mul<const W: usize>(ty: IntType, a: [u64; W], b: [u64; W]) -> [u64; W]
    requires { IsGangWidth W }
    ensures { InEachLane W (binary_of Mul ty) a.entry b.entry result }
{
    let x = Simd::from_array(a);
    let y = Simd::from_array(b);
    let products = if is_bool(ty) { x.simd_min(y) } else { x * y };
    narrow_lanes(ty, products).to_array()
}

/// The values with the other sign, wrapped.
pub fn negate<const W: usize>(ty: IntType, a: [u64; W]) -> [u64; W]
    requires { IsGangWidth W }
    ensures { OfEachLane W (unary_of Negate ty) a.entry result }
{
    sub(ty, [0; W], a)
}

/// The values without their sign; the least value of a signed type is itself.
pub fn abs<const W: usize>(ty: IntType, a: [u64; W]) -> [u64; W]
    requires { IsGangWidth W }
    ensures { OfEachLane W (absolute ty) a.entry result }
{
    select(less(ty, a, [0; W]), negate(ty, a), convert(ty, ty, a))
}
