//! Each operation against its plain loop, on the ends of each type.
ghost use Rattle.gang_types.specs.Masks.{IsGangWidth};

use crate::ends::{TYPES, ends, lanes};
use crate::plain;
use gang_types::{BinaryOp, IntType, Mask, UnaryOp};
use std::process::Abort;

fn same_arithmetic<const W: usize>(rt: &impl Abort, ty: IntType, a: [u64; W], b: [u64; W])
    requires { IsGangWidth W }
{
    assert!(rt; lane_kernels::add(ty, a, b) == plain::binary(BinaryOp::Add, ty, a, b));
    assert!(rt; lane_kernels::sub(ty, a, b) == plain::binary(BinaryOp::Sub, ty, a, b));
    assert!(rt; lane_kernels::mul(ty, a, b) == plain::binary(BinaryOp::Mul, ty, a, b));
    assert!(rt; lane_kernels::and(ty, a, b) == plain::binary(BinaryOp::And, ty, a, b));
    assert!(rt; lane_kernels::or(ty, a, b) == plain::binary(BinaryOp::Or, ty, a, b));
    assert!(rt; lane_kernels::xor(ty, a, b) == plain::binary(BinaryOp::Xor, ty, a, b));
    assert!(rt; lane_kernels::shl(ty, a, b) == plain::binary(BinaryOp::Shl, ty, a, b));
    assert!(rt; lane_kernels::shr(ty, a, b) == plain::binary(BinaryOp::Shr, ty, a, b));
}

fn same_comparisons<const W: usize>(rt: &impl Abort, ty: IntType, a: [u64; W], b: [u64; W])
    requires { IsGangWidth W }
{
    assert!(rt; lane_kernels::less(ty, a, b) == plain::binary(BinaryOp::Less, ty, a, b));
    assert!(rt; lane_kernels::less_equal(ty, a, b) == plain::binary(BinaryOp::LessEqual, ty, a, b));
    assert!(rt; lane_kernels::greater(ty, a, b) == plain::binary(BinaryOp::Greater, ty, a, b));
    assert!(rt;
        lane_kernels::greater_equal(ty, a, b) == plain::binary(BinaryOp::GreaterEqual, ty, a, b)
    );
    assert!(rt; lane_kernels::equal(ty, a, b) == plain::binary(BinaryOp::Equal, ty, a, b));
    assert!(rt; lane_kernels::not_equal(ty, a, b) == plain::binary(BinaryOp::NotEqual, ty, a, b));
}

fn same_choices<const W: usize>(rt: &impl Abort, ty: IntType, a: [u64; W], b: [u64; W])
    requires { IsGangWidth W }
{
    let c = plain::unary(UnaryOp::Complement, ty, b);
    assert!(rt; lane_kernels::select(a, b, c) == plain::select(a, b, c));
    assert!(rt; lane_kernels::min(ty, a, b) == plain::min(ty, a, b));
    assert!(rt; lane_kernels::max(ty, a, b) == plain::max(ty, a, b));
    assert!(rt; lane_kernels::clamp(ty, a, b, c) == plain::clamp(ty, a, b, c));
    assert!(rt; lane_kernels::clamp(ty, a, c, b) == plain::clamp(ty, a, c, b));
}

fn same_of_one<const W: usize>(rt: &impl Abort, ty: IntType, a: [u64; W])
    requires { IsGangWidth W }
{
    assert!(rt; lane_kernels::negate(ty, a) == plain::unary(UnaryOp::Negate, ty, a));
    assert!(rt; lane_kernels::complement(ty, a) == plain::unary(UnaryOp::Complement, ty, a));
    assert!(rt; lane_kernels::not(ty, a) == plain::unary(UnaryOp::Not, ty, a));
    assert!(rt; lane_kernels::abs(ty, a) == plain::abs(ty, a));
    assert!(rt; lane_kernels::popcnt(ty, a) == plain::popcnt(ty, a));
    for to in TYPES {
        assert!(rt; lane_kernels::convert(ty, to, a) == plain::convert(ty, to, a));
    }
}

fn same_divisions<const W: usize>(
    rt: &impl Abort,
    ty: IntType,
    active: Mask,
    a: [u64; W],
    b: [u64; W],
)
    requires { IsGangWidth W }
{
    let quotients = lane_kernels::divide(ty, active, a, b);
    assert!(rt; quotients == plain::divide(BinaryOp::Div, ty, active, a, b));
    let remainders = lane_kernels::remainder(ty, active, a, b);
    assert!(rt; remainders == plain::divide(BinaryOp::Rem, ty, active, a, b));
}

fn same_at_ends<const W: usize>(rt: &impl Abort)
    requires { IsGangWidth W }
{
    for ty in TYPES {
        for p in 0..5 {
            same_of_one::<W>(rt, ty, lanes(ends(ty), p));
            for q in 0..5 {
                let a: [u64; W] = lanes(ends(ty), p);
                let b: [u64; W] = lanes(ends(ty), q);
                same_arithmetic(rt, ty, a, b);
                same_comparisons(rt, ty, a, b);
                same_choices(rt, ty, a, b);
            }
        }
    }
}

fn same_at_mask<const W: usize>(rt: &impl Abort, active: Mask)
    requires { IsGangWidth W }
{
    for ty in TYPES {
        for p in 0..5 {
            for q in 0..5 {
                let a: [u64; W] = lanes(ends(ty), p);
                let b: [u64; W] = lanes(ends(ty), q);
                same_divisions(rt, ty, active, a, b);
            }
        }
    }
}

fn same_at_each_mask<const W: usize>(rt: &impl Abort)
    requires { IsGangWidth W }
{
    for word in 0..1u64 << W {
        same_at_mask::<W>(rt, Mask::from_word::<W>(word));
    }
}

#[test]
fn four_lanes(rt: HostRuntime) {
    same_at_ends::<4>(&rt);
    same_at_each_mask::<4>(&rt);
}

#[test]
fn eight_lanes(rt: HostRuntime) {
    same_at_ends::<8>(&rt);
    same_at_each_mask::<8>(&rt);
}

#[test]
fn sixteen_lanes(rt: HostRuntime) {
    same_at_ends::<16>(&rt);
    same_at_mask::<16>(&rt, Mask::none());
    same_at_mask::<16>(&rt, Mask::all::<16>());
    for lane in 0..16 {
        same_at_mask::<16>(&rt, Mask::only::<16>(lane));
    }
}

#[test]
fn worked_by_hand(rt: HostRuntime) {
    let minus_128 = u64::MAX - 127;
    let a = [127, 1, u64::MAX, 5];
    let b = [1, 2, minus_128, 250];
    assert_eq!(&rt;
        lane_kernels::add(IntType::Int8, a, b),
        [minus_128, 3, 127, u64::MAX]
    );
    assert_eq!(&rt; lane_kernels::add(IntType::Uint8, a, b), [128, 3, 127, 255]);
    assert_eq!(&rt;
        lane_kernels::shr(IntType::Int8, [minus_128; 4], [1, 3, 7, 8]),
        [u64::MAX - 63, u64::MAX - 15, u64::MAX, minus_128]
    );
    assert_eq!(&rt;
        lane_kernels::abs(IntType::Int8, [minus_128, u64::MAX, 0, 5]),
        [minus_128, 1, 0, 5]
    );
    assert_eq!(&rt;
        lane_kernels::popcnt(IntType::Int8, [minus_128, u64::MAX, 0, 5]),
        [1, 8, 0, 2]
    );
    let odd = Mask::from_word::<4>(0b1010);
    assert_eq!(&rt;
        lane_kernels::divide(IntType::Int32, odd, [9; 4], [0, 2, 0, 3]) == Ok([0, 4, 0, 3]),
        true
    );
    assert_eq!(&rt;
        lane_kernels::remainder(IntType::Int32, odd, [9; 4], [1, 0, 1, 0]).is_err(),
        true
    );
}
