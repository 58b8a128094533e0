//! The library's calls with lanes 1 and 3 active, with values worked out by hand.
use crate::trees::{Memory, binary, read, reduce, scan, value_of};
use expression_runs::Stop;
use gang_types::{BinaryOp, FaultName, IntType, wrap};
use std::alloc::{AllocError, Global};
use typed_tree::{Expr, OneCall, Reduction, Scan, TwoCall};

// The lanes 1 and 3.
const LANES: u64 = 0b1010;

// The word of -2 in every signed type.
const MINUS_TWO: u64 = 0xffff_ffff_ffff_fffe;

const MINUS_ONE: u64 = 0xffff_ffff_ffff_ffff;

// The numbers of the variables: v = 5 -2 7 3, w = 1 2 3 4, and places in one value and in two.
const V: usize = 0;

const W: usize = 1;

const PLACES: usize = 2;

const PLACES_OF_TWO: usize = 3;

const MEMORY: Memory<'static, 4> = Memory {
    variables: &[
        [5, MINUS_TWO, 7, 3],
        [1, 2, 3, 4],
        [9, 3, 9, 0],
        [9, 7, 9, 1],
    ],
    arrays: &[],
};

// The words of lanes 1 and 3; the other lanes have 0.
fn in_lanes(first: u64, second: u64) -> Result<[u64; 4], Stop> {
    Ok([0, first, 0, second])
}

fn compared(alloc: Global, operator: BinaryOp, number: u64) -> Result<Expr, AllocError> {
    binary(alloc, operator, read(V), Expr::Number(number))
}

fn one(alloc: Global, function: OneCall) -> Result<Expr, AllocError> {
    Ok(Expr::OfOne {
        function,
        value_type: IntType::Int32,
        value: Box::new(alloc, read(V))?,
    })
}

fn two(alloc: Global, function: TwoCall, left: Expr, right: u64) -> Result<Expr, AllocError> {
    Ok(Expr::OfTwo {
        function,
        value_type: IntType::Int32,
        left: Box::new(alloc, left)?,
        right: Box::new(alloc, Expr::Number(right))?,
    })
}

fn extract(alloc: Global, index: u64) -> Result<Expr, AllocError> {
    Ok(Expr::Extract {
        value: Box::new(alloc, read(V))?,
        index: Box::new(alloc, Expr::Number(index))?,
    })
}

#[test]
fn reductions(rt: HostRuntime) -> Result<(), AllocError> {
    let ty = IntType::Int32;
    let cases = [
        (Reduction::ReduceAdd, 1),
        (Reduction::ReduceMin, MINUS_TWO),
        (Reduction::ReduceMax, 3),
        (Reduction::ReduceEqual, 0),
    ];
    for (function, word) in cases {
        let expression = reduce(rt.alloc(), function, ty, read(V))?;
        let answer = value_of(rt.alloc(), expression, &MEMORY, LANES)?;
        assert!(&rt; answer == in_lanes(word, word));
    }
    Ok(())
}

#[test]
fn reductions_of_truth_values(rt: HostRuntime) -> Result<(), AllocError> {
    let cases = [
        (Reduction::AnyLane, BinaryOp::Greater, 3, 0),
        (Reduction::NoLane, BinaryOp::Greater, 3, 1),
        (Reduction::AllLanes, BinaryOp::Less, 5, 1),
        (Reduction::PackMask, BinaryOp::Greater, 0, 8),
        (Reduction::PopCountLanes, BinaryOp::Greater, 0, 1),
    ];
    for (function, operator, number, word) in cases {
        let test = compared(rt.alloc(), operator, number)?;
        let expression = reduce(rt.alloc(), function, IntType::Bool, test)?;
        let answer = value_of(rt.alloc(), expression, &MEMORY, LANES)?;
        assert!(&rt; answer == in_lanes(word, word));
    }
    let answer = value_of(rt.alloc(), Expr::LaneMask, &MEMORY, LANES)?;
    assert!(&rt; answer == in_lanes(10, 10));
    Ok(())
}

#[test]
fn a_sum_of_int16_is_an_int32(rt: HostRuntime) -> Result<(), AllocError> {
    let sum = reduce(
        rt.alloc(),
        Reduction::ReduceAdd,
        IntType::Int16,
        Expr::Number(32767),
    )?;
    let shifted = binary(rt.alloc(), BinaryOp::Shl, sum, Expr::Number(16))?;
    let answer = value_of(rt.alloc(), shifted, &MEMORY, LANES)?;
    let word = wrap(IntType::Int32, -131_072);
    assert!(&rt; answer == in_lanes(word, word));
    Ok(())
}

#[test]
fn scans(rt: HostRuntime) -> Result<(), AllocError> {
    for (function, first) in [(Scan::Add, 0), (Scan::And, MINUS_ONE), (Scan::Or, 0)] {
        let expression = scan(rt.alloc(), function, read(V))?;
        let answer = value_of(rt.alloc(), expression, &MEMORY, LANES)?;
        assert!(&rt; answer == in_lanes(first, MINUS_TWO));
    }
    Ok(())
}

#[test]
fn functions_of_one_lane(rt: HostRuntime) -> Result<(), AllocError> {
    let ones = one(rt.alloc(), OneCall::PopCount)?;
    assert!(&rt; value_of(rt.alloc(), ones, &MEMORY, LANES)? == in_lanes(31, 2));
    let absolute = one(rt.alloc(), OneCall::Absolute)?;
    assert!(&rt; value_of(rt.alloc(), absolute, &MEMORY, LANES)? == in_lanes(2, 3));
    let least = two(rt.alloc(), TwoCall::Lesser, read(V), 0)?;
    assert!(&rt; value_of(rt.alloc(), least, &MEMORY, LANES)? == in_lanes(MINUS_TWO, 0));
    let raised = two(rt.alloc(), TwoCall::Larger, read(V), 0)?;
    let clamped = two(rt.alloc(), TwoCall::Lesser, raised, 2)?;
    assert!(&rt; value_of(rt.alloc(), clamped, &MEMORY, LANES)? == in_lanes(0, 2));
    Ok(())
}

#[test]
fn the_value_of_a_lane(rt: HostRuntime) -> Result<(), AllocError> {
    for (index, word) in [(0, 0), (1, MINUS_TWO), (2, 0), (3, 3)] {
        let expression = extract(rt.alloc(), index)?;
        let answer = value_of(rt.alloc(), expression, &MEMORY, LANES)?;
        assert!(&rt; answer == in_lanes(word, word));
    }
    for index in [4, MINUS_ONE] {
        let expression = extract(rt.alloc(), index)?;
        let answer = value_of(rt.alloc(), expression, &MEMORY, LANES)?;
        assert!(&rt; answer == Err(Stop::Fault((1, FaultName::LaneIndex))));
    }
    Ok(())
}

#[test]
fn an_inserted_value(rt: HostRuntime) -> Result<(), AllocError> {
    let expression = Expr::Insert {
        value: Box::new(rt.alloc(), read(V))?,
        index: Box::new(rt.alloc(), Expr::Number(3))?,
        new_value: Box::new(rt.alloc(), Expr::Number(9))?,
    };
    let answer = value_of(rt.alloc(), expression, &MEMORY, LANES)?;
    assert!(&rt; answer == in_lanes(MINUS_TWO, 9));
    Ok(())
}

#[test]
fn moved_values(rt: HostRuntime) -> Result<(), AllocError> {
    let turned = Expr::Rotate {
        value: Box::new(rt.alloc(), read(V))?,
        by: Box::new(rt.alloc(), Expr::Number(2))?,
    };
    assert!(&rt; value_of(rt.alloc(), turned, &MEMORY, LANES)? == in_lanes(3, MINUS_TWO));
    let shifted = Expr::Shift {
        value: Box::new(rt.alloc(), read(V))?,
        by: Box::new(rt.alloc(), Expr::Number(MINUS_TWO))?,
    };
    assert!(&rt; value_of(rt.alloc(), shifted, &MEMORY, LANES)? == in_lanes(0, MINUS_TWO));
    Ok(())
}

#[test]
fn amounts_that_differ(rt: HostRuntime) -> Result<(), AllocError> {
    // Lane 1 has amount 2, and lane 3 amount 4.
    let turned = Expr::Rotate {
        value: Box::new(rt.alloc(), read(V))?,
        by: Box::new(rt.alloc(), read(W))?,
    };
    assert!(&rt; value_of(rt.alloc(), turned, &MEMORY, LANES)? == in_lanes(3, 3));
    let shifted = Expr::Shift {
        value: Box::new(rt.alloc(), read(V))?,
        by: Box::new(rt.alloc(), read(W))?,
    };
    assert!(&rt; value_of(rt.alloc(), shifted, &MEMORY, LANES)? == in_lanes(3, 0));
    Ok(())
}

#[test]
fn shuffled_values(rt: HostRuntime) -> Result<(), AllocError> {
    let picked = Expr::Shuffle {
        value: Box::new(rt.alloc(), read(V))?,
        places: Box::new(rt.alloc(), read(PLACES))?,
    };
    assert!(&rt; value_of(rt.alloc(), picked, &MEMORY, LANES)? == in_lanes(3, 0));
    let of_two = Expr::ShuffleTwo {
        value: Box::new(rt.alloc(), read(V))?,
        second: Box::new(rt.alloc(), read(W))?,
        places: Box::new(rt.alloc(), read(PLACES_OF_TWO))?,
    };
    assert!(&rt; value_of(rt.alloc(), of_two, &MEMORY, LANES)? == in_lanes(4, MINUS_TWO));
    let missing = Expr::Shuffle {
        value: Box::new(rt.alloc(), read(V))?,
        places: Box::new(rt.alloc(), read(PLACES_OF_TWO))?,
    };
    let answer = value_of(rt.alloc(), missing, &MEMORY, LANES)?;
    assert!(&rt; answer == Err(Stop::Fault((1, FaultName::LaneIndex))));
    Ok(())
}
