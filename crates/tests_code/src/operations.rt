//! Values worked out by hand, on gangs of 4 lanes.
use gang_types::{BinaryOp, FaultName, IntType, Mask, UnaryOp, wrap};
use masked_operations::{
    absolute, binary, both_hold, chosen, convert, either_holds, lane_numbers, max, min, only,
    popcnt, splat, unary, where_false, where_true,
};

// Lanes 0, 1 and 3.
fn some_lanes() -> Mask {
    Mask::from_word::<4>(0b1011)
}

#[test]
fn lanes_outside_the_mask_are_0(rt: HostRuntime) {
    assert_eq!(&rt; splat::<4>(some_lanes(), 7), [7, 7, 0, 7]);
    assert_eq!(&rt; lane_numbers::<4>(some_lanes()), [0, 1, 0, 3]);
    assert_eq!(&rt; only(some_lanes(), [5, 6, 7, 8]), [5, 6, 0, 8]);
}

#[test]
fn operators_wrap_in_their_type(rt: HostRuntime) {
    let ty = IntType::Int8;
    let least = wrap(ty, -128);
    assert_eq!(&rt;
        unary(some_lanes(), UnaryOp::Negate, ty, [least, 1, 1, 0]),
        [least, wrap(ty, -1), 0, 0]
    );
    assert_eq!(&rt;
        binary(
            some_lanes(),
            BinaryOp::Add,
            IntType::Uint8,
            [200, 1, 9, 255],
            [100, 2, 9, 1]
        ),
        Ok([44, 3, 0, 0])
    );
    assert_eq!(&rt;
        convert(
            some_lanes(),
            IntType::Int32,
            IntType::Uint8,
            [300, 1, 2, 256]
        ),
        [44, 1, 0, 0]
    );
}

#[test]
fn the_lowest_active_lane_faults(rt: HostRuntime) {
    let ty = IntType::Int32;
    assert_eq!(&rt;
        binary(some_lanes(), BinaryOp::Div, ty, [9, 8, 7, 6], [3, 2, 0, 1]),
        Ok([3, 4, 0, 6])
    );
    assert_eq!(&rt;
        binary(some_lanes(), BinaryOp::Rem, ty, [9, 8, 7, 6], [3, 0, 0, 0]),
        Err((1, FaultName::DivideByZero))
    );
}

#[test]
fn truth_values_are_0_and_1(rt: HostRuntime) {
    let left = [2, 2, 2, 0];
    let right = [1, 0, 1, 0];
    assert_eq!(&rt; both_hold(some_lanes(), left, right), [1, 0, 0, 0]);
    assert_eq!(&rt; either_holds(some_lanes(), left, right), [1, 1, 0, 0]);
    assert_eq!(&rt; where_true(some_lanes(), left).word::<4>(), 0b0011);
    assert_eq!(&rt; where_false(some_lanes(), left).word::<4>(), 0b1000);
    assert_eq!(&rt; chosen(some_lanes(), left, [5; 4], [6; 4]), [5, 5, 0, 6]);
}

#[test]
fn calls_read_the_values_of_their_type(rt: HostRuntime) {
    let ty = IntType::Int16;
    let minus_two = wrap(ty, -2);
    assert_eq!(&rt;
        absolute(some_lanes(), ty, [minus_two, 2, 2, 0]),
        [2, 2, 0, 0]
    );
    assert_eq!(&rt;
        popcnt(some_lanes(), ty, [minus_two, 3, 1, 0]),
        [15, 2, 0, 0]
    );
    assert_eq!(&rt;
        min(some_lanes(), ty, [minus_two, 1, 1, 4], [3; 4]),
        [minus_two, 1, 0, 3]
    );
    assert_eq!(&rt;
        max(some_lanes(), ty, [minus_two, 1, 1, 4], [3; 4]),
        [3, 3, 0, 4]
    );
}
