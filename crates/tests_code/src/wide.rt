//! Calls across lanes on a gang of 8 lanes, with values worked out by hand.
use crate::trees::{Memory, binary, scan, value_of};
use gang_types::{BinaryOp, IntType, wrap};
use std::alloc::{AllocError, Global};
use typed_tree::{Expr, Scan};

const NOTHING: Memory<'static, 8> = Memory {
    variables: &[],
    arrays: &[],
};

const ALL: u64 = 0b1111_1111;

// The lanes 1 and 3.
const TWO: u64 = 0b1010;

// programIndex + 1: 1 2 3 4 5 6 7 8.
fn counted(alloc: Global) -> Result<Expr, AllocError> {
    binary(alloc, BinaryOp::Add, Expr::ProgramIndex, Expr::Number(1))
}

fn rotated(alloc: Global, by: i128) -> Result<Expr, AllocError> {
    Ok(Expr::Rotate {
        value: Box::new(alloc, counted(alloc)?)?,
        by: Box::new(alloc, Expr::Number(wrap(IntType::Int32, by)))?,
    })
}

#[test]
fn all_lanes_are_turned(rt: HostRuntime) -> Result<(), AllocError> {
    let answer = value_of(rt.alloc(), rotated(rt.alloc(), -1)?, &NOTHING, ALL)?;
    assert!(&rt; answer == Ok([8, 1, 2, 3, 4, 5, 6, 7]));
    Ok(())
}

#[test]
fn two_lanes_are_turned_among_lanes_that_count_as_0(rt: HostRuntime) -> Result<(), AllocError> {
    let answer = value_of(rt.alloc(), rotated(rt.alloc(), 2)?, &NOTHING, TWO)?;
    assert!(&rt; answer == Ok([0, 4, 0, 0, 0, 0, 0, 0]));
    Ok(())
}

#[test]
fn a_scan_adds_the_two_lanes_alone(rt: HostRuntime) -> Result<(), AllocError> {
    let sums = scan(rt.alloc(), Scan::Add, counted(rt.alloc())?)?;
    let answer = value_of(rt.alloc(), sums, &NOTHING, TWO)?;
    assert!(&rt; answer == Ok([0, 0, 0, 2, 0, 0, 0, 0]));
    Ok(())
}
