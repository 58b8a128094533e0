//! What the lanes of a level wait for.
ghost use Rattle.std.specs.Prelude.{◌≡◌};
ghost use Rattle.gang_types.specs.Masks.{IsGangWidth, lanes_of};
ghost use Rattle.mask_states.specs.Masked.{least, waiting_for};

use gang_types::Mask;
use std::simd::prelude::{Simd, SimdPartialEq};

/// The least of the numbers, at most this one.
#[inline(always)]
pub fn least<const W: usize>(end: u64, numbers: &[u64; W]) -> u64
    ensures { result ≡ least end numbers.now }
{
    let mut found = end;
    for &number in numbers {
        found = found.min(number);
    }
    found
}

/// The lanes that wait for a step.
#[inline(always)]
pub fn waiting_for<const W: usize>(number: u64, numbers: &[u64; W]) -> Mask
    requires { IsGangWidth W }
    ensures { lanes_of W result ≡ waiting_for number numbers.now }
{
    let waiting = Simd::from_array(*numbers)
        .simd_eq(Simd::splat(number))
        .to_bitmask();
    Mask::from_word::<W>(waiting)
}

/// The least of the numbers, at most this one, and the lanes that wait for it. Mostly all lanes wait for the same.
#[inline(always)]
pub(crate) fn least_waiting<const W: usize>(end: u64, numbers: &[u64; W]) -> (u64, Mask)
    requires { IsGangWidth W }
    ensures number { result.0 ≡ least end numbers.now }
    ensures lanes { lanes_of W result.1 ≡ waiting_for result.0 numbers.now }
{
    let first = numbers[0];
    let lanes = waiting_for(first, numbers);
    if first <= end && lanes.word::<W>() == Mask::all::<W>().word::<W>() {
        return (first, lanes);
    }
    let number = least(end, numbers);
    (number, waiting_for(number, numbers))
}
