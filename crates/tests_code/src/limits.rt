//! Expressions of as many operators, calls and indexings as one may have, of each kind, with values worked out by hand.
use crate::trees::{Memory, binary, choice, element, read, reduce, scan, value_of};
use expression_runs::Stop;
use gang_types::{BinaryOp, IntType, UnaryOp, VarId};
use std::alloc::{AllocError, Global};
use typed_tree::{Expr, OneCall, Reduction, Scan, TwoCall};

/// The most operators, calls and indexings of one expression.
const MOST: usize = 256;

const ALL: u64 = 0b1111;

const MINUS_ONE: u64 = 0xffff_ffff_ffff_ffff;

// The numbers of the variables: values, truth values, and a place for each lane.
const X: usize = 0;

const TRUTH: usize = 1;

const PLACES: usize = 2;

// An array that names the next of its five elements, and the first one at its end.
const NEXT: VarId = VarId::File(0);

const MEMORY: Memory<'static, 4> = Memory {
    variables: &[[0, 1, 2, 3], [0, 1, 1, 0], [1, 2, 3, 0]],
    arrays: &[&[1, 2, 3, 4, 0]],
};

/// What stands round an expression, for each kind of operation and each of its sides.
#[derive(Clone, Copy, Drop)]
enum Kind {
    SumOfLeft,
    SumOfRight,
    Negated,
    Converted,
    AndOfLeft,
    AndOfRight,
    OrOfLeft,
    OrOfRight,
    ChosenBy,
    ChosenFirst,
    ChosenSecond,
    Indexed,
    Counted,
    Lesser,
    Largest,
    Scanned,
    Extracted,
    InsertedInto,
    Inserted,
    Turned,
    Shifted,
    Shuffled,
    ShuffledOfTwo,
    Selected,
}

/// The innermost expression, and in lanes 0 to 3 the value of the whole.
fn inner_and_value(kind: Kind) -> (Expr, [u64; 4]) {
    match kind {
        Kind::SumOfLeft | Kind::SumOfRight => (read(X), [256, 257, 258, 259]),
        // An even number of times.
        Kind::Negated => (read(X), [0, 1, 2, 3]),
        Kind::Converted => (read(X), [0, 1, 2, 3]),
        Kind::AndOfLeft | Kind::AndOfRight | Kind::OrOfLeft | Kind::OrOfRight => {
            (read(TRUTH), [0, 1, 1, 0])
        }
        // Turned round an even number of times.
        Kind::ChosenBy => (read(TRUTH), [0, 1, 1, 0]),
        Kind::ChosenFirst => (read(X), [7, 1, 2, 7]),
        Kind::ChosenSecond | Kind::Selected => (read(X), [0, 7, 7, 3]),
        // 256 is 51 times 5 and 1.
        Kind::Indexed => (read(X), [1, 2, 3, 4]),
        Kind::Counted => (read(X), [0, 1, 1, 1]),
        Kind::Lesser => (read(X), [0, 1, 2, 2]),
        Kind::Largest => (read(X), [3, 3, 3, 3]),
        // All ones go one lane further each time.
        Kind::Scanned => (read(X), [MINUS_ONE; 4]),
        Kind::Extracted => (read(X), [2, 2, 2, 2]),
        Kind::InsertedInto => (read(X), [0, 1, 2, 9]),
        Kind::Inserted => (Expr::Number(9), [0, 1, 2, 9]),
        // 256 is a multiple of the 4 lanes.
        Kind::Turned => (read(X), [0, 1, 2, 3]),
        Kind::Shifted => (read(X), [0, 0, 0, 0]),
        // Each lane names the next one, 256 times, and then itself.
        Kind::Shuffled | Kind::ShuffledOfTwo => (read(X), [0, 1, 2, 3]),
    }
}

/// An operator round an expression.
fn operated(alloc: Global, kind: Kind, inner: Expr) -> Result<Expr, AllocError> {
    match kind {
        Kind::SumOfLeft => binary(alloc, BinaryOp::Add, inner, Expr::Number(1)),
        Kind::SumOfRight => binary(alloc, BinaryOp::Add, Expr::Number(1), inner),
        Kind::Negated => Ok(Expr::Unary {
            operator: UnaryOp::Negate,
            value_type: IntType::Int32,
            operand: Box::new(alloc, inner)?,
        }),
        Kind::Converted => Ok(Expr::Convert {
            from: IntType::Int32,
            to: IntType::Int8,
            operand: Box::new(alloc, inner)?,
        }),
        Kind::AndOfLeft => Ok(Expr::AndAlso {
            left: Box::new(alloc, inner)?,
            right: Box::new(alloc, Expr::Number(1))?,
        }),
        Kind::AndOfRight => Ok(Expr::AndAlso {
            left: Box::new(alloc, read(TRUTH))?,
            right: Box::new(alloc, inner)?,
        }),
        Kind::OrOfLeft => Ok(Expr::OrElse {
            left: Box::new(alloc, inner)?,
            right: Box::new(alloc, Expr::Number(0))?,
        }),
        Kind::OrOfRight => Ok(Expr::OrElse {
            left: Box::new(alloc, read(TRUTH))?,
            right: Box::new(alloc, inner)?,
        }),
        Kind::ChosenBy => choice(alloc, inner, Expr::Number(0), Expr::Number(1)),
        Kind::ChosenFirst => choice(alloc, read(TRUTH), inner, Expr::Number(7)),
        Kind::ChosenSecond => choice(alloc, read(TRUTH), Expr::Number(7), inner),
        _ => called(alloc, kind, inner),
    }
}

/// An indexing or a call of one lane round an expression, or a call across lanes.
fn called(alloc: Global, kind: Kind, inner: Expr) -> Result<Expr, AllocError> {
    match kind {
        Kind::Indexed => element(alloc, NEXT, inner),
        Kind::Counted => Ok(Expr::OfOne {
            function: OneCall::PopCount,
            value_type: IntType::Int32,
            value: Box::new(alloc, inner)?,
        }),
        Kind::Lesser => Ok(Expr::OfTwo {
            function: TwoCall::Lesser,
            value_type: IntType::Int32,
            left: Box::new(alloc, Expr::Number(2))?,
            right: Box::new(alloc, inner)?,
        }),
        Kind::Selected => Ok(Expr::Select {
            test: Box::new(alloc, read(TRUTH))?,
            first: Box::new(alloc, Expr::Number(7))?,
            second: Box::new(alloc, inner)?,
        }),
        Kind::Largest => reduce(alloc, Reduction::ReduceMax, IntType::Int32, inner),
        Kind::Scanned => scan(alloc, Scan::And, inner),
        _ => moved(alloc, kind, inner),
    }
}

/// A call that moves values from lane to lane, round an expression.
fn moved(alloc: Global, kind: Kind, inner: Expr) -> Result<Expr, AllocError> {
    match kind {
        Kind::Extracted => Ok(Expr::Extract {
            value: Box::new(alloc, inner)?,
            index: Box::new(alloc, Expr::Number(2))?,
        }),
        Kind::InsertedInto => Ok(Expr::Insert {
            value: Box::new(alloc, inner)?,
            index: Box::new(alloc, Expr::Number(3))?,
            new_value: Box::new(alloc, Expr::Number(9))?,
        }),
        Kind::Inserted => Ok(Expr::Insert {
            value: Box::new(alloc, read(X))?,
            index: Box::new(alloc, Expr::Number(3))?,
            new_value: Box::new(alloc, inner)?,
        }),
        Kind::Turned => Ok(Expr::Rotate {
            value: Box::new(alloc, inner)?,
            by: Box::new(alloc, Expr::Number(1))?,
        }),
        Kind::Shifted => Ok(Expr::Shift {
            value: Box::new(alloc, inner)?,
            by: Box::new(alloc, Expr::Number(1))?,
        }),
        Kind::Shuffled => Ok(Expr::Shuffle {
            value: Box::new(alloc, read(PLACES))?,
            places: Box::new(alloc, inner)?,
        }),
        _ => Ok(Expr::ShuffleTwo {
            value: Box::new(alloc, read(PLACES))?,
            second: Box::new(alloc, read(X))?,
            places: Box::new(alloc, inner)?,
        }),
    }
}

fn nested(alloc: Global, kind: Kind, levels: usize) -> Result<Expr, AllocError> {
    let (inner, _) = inner_and_value(kind);
    let mut expression = inner;
    for _ in 0..levels {
        expression = operated(alloc, kind, expression)?;
    }
    Ok(expression)
}

fn value_of_most(alloc: Global, kind: Kind) -> Result<Result<[u64; 4], Stop>, AllocError> {
    value_of(alloc, nested(alloc, kind, MOST)?, &MEMORY, ALL)
}

const OPERATORS: [Kind; 11] = [
    Kind::SumOfLeft,
    Kind::SumOfRight,
    Kind::Negated,
    Kind::Converted,
    Kind::AndOfLeft,
    Kind::AndOfRight,
    Kind::OrOfLeft,
    Kind::OrOfRight,
    Kind::ChosenBy,
    Kind::ChosenFirst,
    Kind::ChosenSecond,
];

const CALLS: [Kind; 13] = [
    Kind::Indexed,
    Kind::Counted,
    Kind::Lesser,
    Kind::Largest,
    Kind::Scanned,
    Kind::Extracted,
    Kind::InsertedInto,
    Kind::Inserted,
    Kind::Turned,
    Kind::Shifted,
    Kind::Shuffled,
    Kind::ShuffledOfTwo,
    Kind::Selected,
];

#[test]
fn most_operators_find_room(rt: HostRuntime) -> Result<(), AllocError> {
    for kind in OPERATORS {
        let (_, value) = inner_and_value(kind);
        assert!(&rt; value_of_most(rt.alloc(), kind)? == Ok(value));
    }
    Ok(())
}

#[test]
fn most_calls_find_room(rt: HostRuntime) -> Result<(), AllocError> {
    for kind in CALLS {
        let (_, value) = inner_and_value(kind);
        assert!(&rt; value_of_most(rt.alloc(), kind)? == Ok(value));
    }
    Ok(())
}

#[test]
fn one_more_level_that_keeps_the_most_finds_no_room(rt: HostRuntime) -> Result<(), AllocError> {
    // Each level keeps two vectors, or one more mask.
    for kind in [
        Kind::Inserted,
        Kind::ShuffledOfTwo,
        Kind::Selected,
        Kind::AndOfRight,
    ] {
        let expression = nested(rt.alloc(), kind, MOST + 1)?;
        let answer = value_of(rt.alloc(), expression, &MEMORY, ALL)?;
        assert!(&rt; answer == Err(Stop::NoRoom));
    }
    Ok(())
}
