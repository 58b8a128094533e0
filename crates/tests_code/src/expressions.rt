//! Scalar expressions, with values worked out by hand.
use crate::trees::{Memory, binary, choice, read, value_of};
use expression_runs::Stop;
use gang_types::{BinaryOp, FaultName};
use std::alloc::{AllocError, Global};
use typed_tree::Expr;

const DIVISORS: Memory<'static, 4> = Memory {
    variables: &[[3, 0, 2, 0]],
    arrays: &[],
};

fn quotient(alloc: Global) -> Result<Expr, AllocError> {
    binary(alloc, BinaryOp::Div, Expr::Number(12), read(0))
}

#[test]
fn the_lowest_lane_faults(rt: HostRuntime) -> Result<(), AllocError> {
    let expression = quotient(rt.alloc())?;
    let answer = value_of(rt.alloc(), expression, &DIVISORS, 0b1111)?;
    assert!(&rt; answer == Err(Stop::Fault((1, FaultName::DivideByZero))));
    Ok(())
}

#[test]
fn a_lane_that_is_left_out_does_not_fault(rt: HostRuntime) -> Result<(), AllocError> {
    let expression = choice(rt.alloc(), read(0), quotient(rt.alloc())?, Expr::Number(7))?;
    let answer = value_of(rt.alloc(), expression, &DIVISORS, 0b1111)?;
    assert!(&rt; answer == Ok([4, 7, 6, 7]));
    Ok(())
}

#[test]
fn no_lane_has_no_fault(rt: HostRuntime) -> Result<(), AllocError> {
    let expression = quotient(rt.alloc())?;
    let answer = value_of(rt.alloc(), expression, &DIVISORS, 0)?;
    assert!(&rt; answer == Ok([0; 4]));
    Ok(())
}
