//! Each call against its plain loop, on the ends of each type.
ghost use Rattle.std.specs.Prelude.{◌≡◌, false};
ghost use Rattle.gang_types.specs.Lanes.{no_lane};
ghost use Rattle.gang_types.specs.Masks.{IsGangWidth, lanes_of};

use crate::plain;
use gang_types::{IntType, Mask, wrap};
use std::process::Abort;
use tests_kernels::ends::{TYPES, ends, lanes};

// int32 words from `from` on, each `step` above the one before.
fn numbers<const W: usize>(from: i128, step: i128) -> [u64; W] {
    let mut words = [0; W];
    let mut number = from;
    for k in 0..W {
        words[k] = wrap(IntType::Int32, number);
        number = number.wrapping_add(step);
    }
    words
}

fn same_reductions<const W: usize>(rt: &impl Abort, ty: IntType, mask: Mask, words: [u64; W])
    requires width { IsGangWidth W }
    requires lane { no_lane (lanes_of W mask) ≡ false }
{
    assert!(rt; cross_lane::any(mask, words) == plain::any(mask, words));
    assert!(rt; cross_lane::all(mask, words) == plain::all(mask, words));
    assert!(rt; cross_lane::none(mask, words) == plain::none(mask, words));
    assert!(rt; cross_lane::popcnt_lanes(mask, words) == plain::popcnt_lanes(mask, words));
    assert!(rt; cross_lane::packmask(mask, words) == plain::packmask(mask, words));
    assert!(rt; cross_lane::lanemask::<W>(mask) == plain::packmask(mask, [1; W]));
    assert!(rt; cross_lane::reduce_equal(mask, words) == plain::reduce_equal(mask, words));
    assert!(rt; cross_lane::reduce_add(ty, mask, words) == plain::reduce_add(ty, mask, words));
    assert!(rt; cross_lane::reduce_min(ty, mask, words) == plain::reduce_min(ty, mask, words));
    assert!(rt; cross_lane::reduce_max(ty, mask, words) == plain::reduce_max(ty, mask, words));
}

fn same_scans<const W: usize>(rt: &impl Abort, ty: IntType, mask: Mask, words: [u64; W])
    requires width { IsGangWidth W }
    requires lane { no_lane (lanes_of W mask) ≡ false }
{
    let sums = cross_lane::exclusive_scan_add(ty, mask, words);
    assert!(rt; sums == plain::exclusive_scan_add(ty, mask, words));
    let common = cross_lane::exclusive_scan_and(ty, mask, words);
    assert!(rt; common == plain::exclusive_scan_and(ty, mask, words));
    let joined = cross_lane::exclusive_scan_or(mask, words);
    assert!(rt; joined == plain::exclusive_scan_or(mask, words));
}

fn same_at_index<const W: usize>(rt: &impl Abort, mask: Mask, words: [u64; W], index: u64)
    requires width { IsGangWidth W }
    requires lane { no_lane (lanes_of W mask) ≡ false }
{
    assert!(rt; cross_lane::extract(mask, words, index) == plain::extract(mask, words, index));
    assert!(rt; cross_lane::broadcast(mask, words, index) == plain::broadcast(mask, words, index));
    let inserted = cross_lane::insert(mask, words, index, 77);
    assert!(rt; inserted == plain::insert(mask, words, index, 77));
    assert!(rt; cross_lane::rotate(mask, words, index) == plain::rotate(mask, words, index));
    assert!(rt; cross_lane::shift(mask, words, index) == plain::shift(mask, words, index));
}

fn same_at_places<const W: usize>(rt: &impl Abort, mask: Mask, words: [u64; W], places: [u64; W])
    requires width { IsGangWidth W }
    requires lane { no_lane (lanes_of W mask) ≡ false }
{
    assert!(rt; cross_lane::shuffle(mask, words, places) == plain::shuffle(mask, words, places));
    let other = numbers(100, 1);
    let both = cross_lane::shuffle_two(mask, words, other, places);
    assert!(rt; both == plain::shuffle_two(mask, words, other, places));
}

// Every call, with each index and each amount near the gang's width, and the ends of an int32.
fn same_moves<const W: usize>(rt: &impl Abort, mask: Mask, words: [u64; W])
    requires width { IsGangWidth W }
    requires lane { no_lane (lanes_of W mask) ≡ false }
{
    for step in 0..37u8 {
        let index = step as i128 - 18;
        same_at_index(rt, mask, words, wrap(IntType::Int32, index));
        same_at_places(rt, mask, words, numbers(index, 0));
        same_at_places(rt, mask, words, numbers(index, 1));
        same_at_places(rt, mask, words, numbers(index, -1));
    }
    for index in ends(IntType::Int32) {
        same_at_index(rt, mask, words, index);
        same_at_places(rt, mask, words, [index; W]);
    }
}

fn same_at_mask<const W: usize>(rt: &impl Abort, mask: Mask)
    requires { IsGangWidth W }
{
    assert!(rt; cross_lane::packed_places::<W>(mask) == plain::packed_places::<W>(mask));
    if mask.is_empty::<W>() {
        return;
    }
    for ty in TYPES {
        for from in 0..5 {
            let words: [u64; W] = lanes(ends(ty), from);
            same_reductions(rt, ty, mask, words);
            same_scans(rt, ty, mask, words);
        }
        for word in ends(ty) {
            same_reductions(rt, ty, mask, [word; W]);
            same_scans(rt, ty, mask, [word; W]);
        }
    }
    same_moves::<W>(rt, mask, numbers(1, 1));
    same_moves::<W>(rt, mask, lanes(ends(IntType::Int64), 1));
}

fn same_at_each_mask<const W: usize>(rt: &impl Abort)
    requires { IsGangWidth W }
{
    for word in 0..1u64 << W {
        same_at_mask::<W>(rt, Mask::from_word::<W>(word));
    }
}

#[test]
fn four_lanes(rt: HostRuntime) {
    same_at_each_mask::<4>(&rt);
}

#[test]
fn eight_lanes(rt: HostRuntime) {
    same_at_each_mask::<8>(&rt);
}

#[test]
fn sixteen_lanes(rt: HostRuntime) {
    same_at_mask::<16>(&rt, Mask::none());
    same_at_mask::<16>(&rt, Mask::all::<16>());
    for lane in 0..16 {
        same_at_mask::<16>(&rt, Mask::only::<16>(lane));
    }
}
