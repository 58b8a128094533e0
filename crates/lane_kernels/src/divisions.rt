//! Divisions in the lanes of a mask.
ghost use Rattle.std.specs.Prelude.{◌≡◌, ℕ, ◌<◌, true, false, length, slice_index, MatchResult, if◌then◌else◌};
ghost use Rattle.gang_types.specs.Values.{binary_of};
ghost use Rattle.gang_types.specs.declared.operators.BinaryOp.TheVariants.{Div, Rem};
ghost use Rattle.gang_types.specs.Lanes.{has, no_lane};
ghost use Rattle.gang_types.specs.Masks.{IsGangWidth, lanes_of};
ghost use Rattle.lane_kernels.specs.Lanes.{zero_divisors, DividedIn, Divided, Faulted};

use crate::vectors::where_equal;
use gang_types::{FaultName, IntType, Mask, div, rem};
use std::simd::prelude::Simd;

// The lanes of the mask whose divisor is 0.
fn zero_divisors<const W: usize>(active: Mask, b: [u64; W]) -> Mask
    requires { IsGangWidth W }
    ensures { lanes_of W result ≡ zero_divisors (lanes_of W active) b.entry }
{
    active.where_true(where_equal(Simd::from_array(b), Simd::splat(0), 1, 0))
}

fn refuse_zero_divisors<const W: usize>(active: Mask, b: [u64; W]) -> Result<(), (usize, FaultName)>
    requires { IsGangWidth W }
    ensures { MatchResult result (λ _. no_lane (zero_divisors (lanes_of W active) b.entry) ≡ true) (Faulted (lanes_of W active) b.entry) }
{
    let zeros = zero_divisors(active, b);
    if zeros.is_empty::<W>() {
        Ok(())
    } else {
        Err((zeros.lowest::<W>(), FaultName::DivideByZero))
    }
}

/// The quotients of the lanes of the mask, truncated toward 0, and 0 in the others.
///
/// # Errors
///
/// `DivideByZero` with the lowest lane of the mask whose divisor is 0, where there is one.
pub fn divide<const W: usize>(
    ty: IntType,
    active: Mask,
    a: [u64; W],
    b: [u64; W],
) -> Result<[u64; W], (usize, FaultName)>
    requires { IsGangWidth W }
    ensures { MatchResult result (Divided W (lanes_of W active) (binary_of Div ty) a.entry b.entry) (Faulted (lanes_of W active) b.entry) }
{
    refuse_zero_divisors(active, b)?;
    Ok(quotients(ty, active, a, b))
}

fn quotients<const W: usize>(ty: IntType, active: Mask, a: [u64; W], b: [u64; W]) -> [u64; W]
    requires width { IsGangWidth W }
    requires nonzero { no_lane (zero_divisors (lanes_of W active) b) ≡ true }
    ensures { DividedIn W (lanes_of W active) (binary_of Div ty) a.entry b.entry result }
{
    let mut quotients = [0; W];
    for i in 0..W {
        if active.has::<W>(i) {
            quotients[i] = div(ty, a[i], b[i]);
        }
    }
    quotients
}

/// The remainders of the lanes of the mask, with the sign of the dividend, and 0 in the others.
///
/// # Errors
///
/// `DivideByZero` with the lowest lane of the mask whose divisor is 0, where there is one.
pub fn remainder<const W: usize>(
    ty: IntType,
    active: Mask,
    a: [u64; W],
    b: [u64; W],
) -> Result<[u64; W], (usize, FaultName)>
    requires { IsGangWidth W }
    ensures { MatchResult result (Divided W (lanes_of W active) (binary_of Rem ty) a.entry b.entry) (Faulted (lanes_of W active) b.entry) }
{
    refuse_zero_divisors(active, b)?;
    Ok(remainders(ty, active, a, b))
}

fn remainders<const W: usize>(ty: IntType, active: Mask, a: [u64; W], b: [u64; W]) -> [u64; W]
    requires width { IsGangWidth W }
    requires nonzero { no_lane (zero_divisors (lanes_of W active) b) ≡ true }
    ensures { DividedIn W (lanes_of W active) (binary_of Rem ty) a.entry b.entry result }
{
    let mut remainders = [0; W];
    for i in 0..W {
        if active.has::<W>(i) {
            remainders[i] = rem(ty, a[i], b[i]);
        }
    }
    remainders
}
