//! Results worked out by hand, with lanes 1 and 3 of four in the mask.
ghost use Rattle.std.specs.Prelude.{◌≡◌, false};
ghost use Rattle.gang_types.specs.Lanes.{no_lane};
ghost use Rattle.gang_types.specs.Masks.{lanes_of};

use cross_lane::{
    all, any, broadcast, exclusive_scan_add, exclusive_scan_and, exclusive_scan_or, extract,
    insert, lanemask, none, packed_places, packmask, popcnt_lanes, reduce_add, reduce_equal,
    reduce_max, reduce_min, rotate, shift, shuffle, shuffle_two,
};
use gang_types::{FaultName, IntType, Mask, less, shl, wrap};
use std::process::Abort;

// An int32 in each lane.
fn int32(a: i128, b: i128, c: i128, d: i128) -> [u64; 4] {
    let ty = IntType::Int32;
    [wrap(ty, a), wrap(ty, b), wrap(ty, c), wrap(ty, d)]
}

// Whether each value is above a bound, or below it.
fn compared(words: [u64; 4], bound: i128, is_above: bool) -> [u64; 4] {
    let ty = IntType::Int32;
    let bound = wrap(ty, bound);
    let mut truths = [0; 4];
    for k in 0..4 {
        truths[k] = if is_above {
            less(ty, bound, words[k])
        } else {
            less(ty, words[k], bound)
        };
    }
    truths
}

fn odd_lanes(rt: &impl Abort) -> Mask
    ensures { no_lane (lanes_of 4 result) ≡ false }
{
    let odd = Mask::from_word::<4>(0b1010);
    assert!(rt; !odd.is_empty::<4>());
    odd
}

#[test]
fn reductions(rt: HostRuntime) {
    let odd = odd_lanes(&rt);
    let ty = IntType::Int32;
    let v = int32(5, -2, 7, 3);
    assert_eq!(&rt; reduce_add(ty, odd, v), 1);
    assert_eq!(&rt; reduce_min(ty, odd, v), wrap(ty, -2));
    assert_eq!(&rt; reduce_max(ty, odd, v), 3);
    assert_eq!(&rt; reduce_equal(odd, v), 0);
    assert_eq!(&rt; reduce_equal(odd, int32(5, 3, 7, 3)), 1);
    assert_eq!(&rt; any(odd, compared(v, 3, true)), 0);
    assert_eq!(&rt; none(odd, compared(v, 3, true)), 1);
    assert_eq!(&rt; all(odd, compared(v, 5, false)), 1);
    assert_eq!(&rt; lanemask::<4>(odd), 10);
    assert_eq!(&rt; packmask(odd, compared(v, 0, true)), 8);
    assert_eq!(&rt; popcnt_lanes(odd, compared(v, 0, true)), 1);
    let sum = reduce_add(IntType::Int16, odd, [32767; 4]);
    assert_eq!(&rt; shl(ty, sum, 16), wrap(ty, -131072));
}

#[test]
fn scans(rt: HostRuntime) {
    let odd = odd_lanes(&rt);
    let ty = IntType::Int32;
    let v = int32(5, -2, 7, 3);
    assert_eq!(&rt; exclusive_scan_add(ty, odd, v), int32(0, 0, 0, -2));
    assert_eq!(&rt; exclusive_scan_and(ty, odd, v), int32(0, -1, 0, -2));
    assert_eq!(&rt; exclusive_scan_or(odd, v), int32(0, 0, 0, -2));
}

#[test]
fn moves(rt: HostRuntime) {
    let odd = odd_lanes(&rt);
    let v = int32(5, -2, 7, 3);
    let w = int32(1, 2, 3, 4);
    let back = wrap(IntType::Int32, -2);
    assert!(&rt; broadcast(odd, v, 0) == Ok([0; 4]));
    assert!(&rt; extract(odd, v, 2) == Ok(0));
    assert!(&rt; insert(odd, v, 3, 9) == Ok(int32(0, -2, 0, 9)));
    assert_eq!(&rt; rotate(odd, v, 2), int32(0, 3, 0, -2));
    assert_eq!(&rt; shift(odd, v, back), int32(0, 0, 0, -2));
    assert!(&rt; shuffle(odd, v, [9, 3, 9, 0]) == Ok(int32(0, 3, 0, 0)));
    assert!(&rt; shuffle_two(odd, v, w, [9, 7, 9, 1]) == Ok(int32(0, 4, 0, -2)));
    assert!(&rt; packed_places::<4>(odd) == ([1, 3, 0, 0], 2));
}

#[test]
fn missing_lanes(rt: HostRuntime) {
    let odd = odd_lanes(&rt);
    let v = int32(5, -2, 7, 3);
    let first = (1, FaultName::LaneIndex);
    let last = (3, FaultName::LaneIndex);
    assert!(&rt; extract(odd, v, 4) == Err(first));
    assert!(&rt; broadcast(odd, v, wrap(IntType::Int32, -1)) == Err(first));
    assert!(&rt; insert(odd, v, 4, 9) == Err(first));
    assert!(&rt; shuffle(odd, v, [0, 4, 0, 4]) == Err(first));
    assert!(&rt; shuffle(odd, v, [4, 3, 4, 4]) == Err(last));
    assert!(&rt; shuffle_two(odd, v, v, [0, 7, 0, 8]) == Err(last));
}
