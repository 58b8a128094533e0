//! Elements of arrays, with values worked out by hand.
use crate::trees::{Memory, binary, choice, element, read, value_of};
use expression_runs::Stop;
use gang_types::{BinaryOp, FaultName, IntType, VarId, wrap};
use std::alloc::{AllocError, Global};
use typed_tree::Expr;

// Two arrays; variable 0 has indices of which some are not there.
const MEMORY: Memory<'static, 4> = Memory {
    variables: &[[0, 9, 3, 100], [3, 2, 1, 0]],
    arrays: &[&[4, 10, 20, 30], &[5]],
};

const ARRAY: VarId = VarId::File(0);

const PARAMETER: VarId = VarId::Local(1);

// Whether the index of variable 0 is within the array.
fn within(alloc: Global) -> Result<Expr, AllocError> {
    binary(alloc, BinaryOp::Less, read(0), Expr::Number(4))
}

#[test]
fn each_lane_has_the_element_that_it_names(rt: HostRuntime) -> Result<(), AllocError> {
    let elements = element(rt.alloc(), ARRAY, read(1))?;
    let answer = value_of(rt.alloc(), elements, &MEMORY, 0b1011)?;
    assert!(&rt; answer == Ok([30, 20, 0, 4]));
    Ok(())
}

#[test]
fn a_parameter_has_its_own_elements(rt: HostRuntime) -> Result<(), AllocError> {
    let own = element(rt.alloc(), PARAMETER, Expr::Number(0))?;
    assert!(&rt; value_of(rt.alloc(), own, &MEMORY, 0b1111)? == Ok([5; 4]));
    let past = element(rt.alloc(), PARAMETER, Expr::Number(1))?;
    let answer = value_of(rt.alloc(), past, &MEMORY, 0b1100)?;
    assert!(&rt; answer == Err(Stop::Fault((2, FaultName::Index))));
    Ok(())
}

#[test]
fn an_arm_reads_for_its_own_lanes(rt: HostRuntime) -> Result<(), AllocError> {
    let elements = element(rt.alloc(), ARRAY, read(0))?;
    let expression = choice(rt.alloc(), within(rt.alloc())?, elements, Expr::Number(7))?;
    let answer = value_of(rt.alloc(), expression, &MEMORY, 0b1111)?;
    assert!(&rt; answer == Ok([4, 7, 30, 7]));
    Ok(())
}

#[test]
fn the_other_arm_reads_for_the_other_lanes(rt: HostRuntime) -> Result<(), AllocError> {
    let elements = element(rt.alloc(), ARRAY, read(0))?;
    let expression = choice(rt.alloc(), within(rt.alloc())?, Expr::Number(7), elements)?;
    let answer = value_of(rt.alloc(), expression, &MEMORY, 0b1111)?;
    assert!(&rt; answer == Err(Stop::Fault((1, FaultName::Index))));
    Ok(())
}

#[test]
fn the_right_side_reads_where_the_left_holds(rt: HostRuntime) -> Result<(), AllocError> {
    let elements = element(rt.alloc(), ARRAY, read(0))?;
    let large = binary(rt.alloc(), BinaryOp::Greater, elements, Expr::Number(5))?;
    let expression = Expr::AndAlso {
        left: Box::new(rt.alloc(), within(rt.alloc())?)?,
        right: Box::new(rt.alloc(), large)?,
    };
    let answer = value_of(rt.alloc(), expression, &MEMORY, 0b1111)?;
    assert!(&rt; answer == Ok([0, 0, 1, 0]));
    Ok(())
}

#[test]
fn the_right_side_reads_where_the_left_does_not_hold(rt: HostRuntime) -> Result<(), AllocError> {
    let elements = element(rt.alloc(), ARRAY, read(0))?;
    let large = binary(rt.alloc(), BinaryOp::Greater, elements, Expr::Number(5))?;
    let outside = binary(rt.alloc(), BinaryOp::GreaterEqual, read(0), Expr::Number(4))?;
    let expression = Expr::OrElse {
        left: Box::new(rt.alloc(), outside)?,
        right: Box::new(rt.alloc(), large)?,
    };
    let answer = value_of(rt.alloc(), expression, &MEMORY, 0b1111)?;
    assert!(&rt; answer == Ok([0, 1, 1, 1]));
    Ok(())
}

// The least and the greatest index of each type of an index.
const ENDS: [(IntType, i128, i128); 8] = [
    (IntType::Int8, -128, 127),
    (IntType::Int16, -32_768, 32_767),
    (IntType::Int32, -2_147_483_648, 2_147_483_647),
    (
        IntType::Int64,
        -9_223_372_036_854_775_808,
        9_223_372_036_854_775_807,
    ),
    (IntType::Uint8, 0, 255),
    (IntType::Uint16, 0, 65_535),
    (IntType::Uint32, 0, 4_294_967_295),
    (IntType::Uint64, 0, 18_446_744_073_709_551_615),
];

#[test]
fn the_ends_of_the_index_types_name_no_element_but_the_first(
    rt: HostRuntime,
) -> Result<(), AllocError> {
    for (ty, least, greatest) in ENDS {
        for end in [least, greatest] {
            let elements = element(rt.alloc(), ARRAY, Expr::Number(wrap(ty, end)))?;
            let answer = value_of(rt.alloc(), elements, &MEMORY, 0b1010)?;
            if end == 0 {
                assert!(&rt; answer == Ok([0, 4, 0, 4]));
            } else {
                assert!(&rt; answer == Err(Stop::Fault((1, FaultName::Index))));
            }
        }
    }
    Ok(())
}

#[test]
fn the_first_operation_that_faults_is_named(rt: HostRuntime) -> Result<(), AllocError> {
    // The division faults in lane 3, the index in lane 1.
    let quotient = binary(rt.alloc(), BinaryOp::Div, Expr::Number(1), read(1))?;
    let sum = binary(
        rt.alloc(),
        BinaryOp::Add,
        quotient,
        element(rt.alloc(), ARRAY, read(0))?,
    )?;
    let answer = value_of(rt.alloc(), sum, &MEMORY, 0b1111)?;
    assert!(&rt; answer == Err(Stop::Fault((3, FaultName::DivideByZero))));
    let quotient = binary(rt.alloc(), BinaryOp::Div, Expr::Number(1), read(1))?;
    let sum = binary(
        rt.alloc(),
        BinaryOp::Add,
        element(rt.alloc(), ARRAY, read(0))?,
        quotient,
    )?;
    let answer = value_of(rt.alloc(), sum, &MEMORY, 0b1111)?;
    assert!(&rt; answer == Err(Stop::Fault((1, FaultName::Index))));
    Ok(())
}
