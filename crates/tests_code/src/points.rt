//! The points of a function with each form of control flow, worked out by hand.
use gang_types::{IntType, Rate, VarId};
use ispc_names_table::StepScopes;
use mask_lowering::{Point, lower};
use std::alloc::{AllocError, Global};
use std::test::*;
use typed_tree::{Expr, Function, Program, ResultFor, Rounds, Stmt, Target, Var};

const VARIABLE: Var = Var {
    id: VarId::Local(0),
    value_type: IntType::Int32,
    rate: Rate::Varying,
};

/// A point by its numbers.
#[derive(Clone, Copy, Debug, PartialEq, Eq)]
pub(crate) enum Numbers {
    Put(usize),
    Go(usize),
    Branch(usize, usize),
    Choose(usize),
    Begin(usize, usize),
    Turn(usize),
    Enter(usize, usize),
}

pub(crate) fn numbers_of(point: &Point<'_>) -> Numbers {
    match point {
        Point::Put { next, .. } => Numbers::Put(*next),
        Point::Go { next } => Numbers::Go(*next),
        Point::Branch { yes, no, .. } => Numbers::Branch(*yes, *no),
        Point::Choose { next, .. } => Numbers::Choose(*next),
        Point::Begin { rounds, next, .. } => Numbers::Begin(*rounds, *next),
        Point::Turn { body } => Numbers::Turn(*body),
        Point::Enter { function, next, .. } => Numbers::Enter(*function, *next),
    }
}

/// `x`
pub(crate) fn read(alloc: Global) -> Result<Box<Expr>, AllocError> {
    Ok(Box::new(alloc, Expr::Read(VARIABLE))?)
}

/// `x = 1;`
pub(crate) fn assign(alloc: Global, step: usize) -> Result<Stmt, AllocError> {
    Ok(Stmt::Assign {
        step,
        target: Target::Scalar(VARIABLE),
        value: Box::new(alloc, Expr::Number(1))?,
    })
}

/// `if (x) first else other`
fn choice(alloc: Global, step: usize, first: Stmt, other: Stmt) -> Result<Stmt, AllocError> {
    Ok(Stmt::If {
        step,
        test: read(alloc)?,
        first: Box::new(alloc, first)?,
        other: Box::new(alloc, other)?,
    })
}

/// `for (; x; x = 1) { if (x) continue; x = 1; }` from step 1 on.
fn test_first(alloc: Global) -> Result<Stmt, AllocError> {
    let leaving = choice(alloc, 1, Stmt::Continue { step: 2 }, Stmt::Empty)?;
    let body = Stmt::Block(vec![in alloc; leaving, assign(alloc, 3)?]?);
    Ok(Stmt::Loop {
        step: 5,
        test: read(alloc)?,
        update: Box::new(alloc, assign(alloc, 4)?)?,
        body: Box::new(alloc, body)?,
    })
}

/// `do if (x) break; else x = 1; while (x);` from step 6 on.
fn body_first(alloc: Global) -> Result<Stmt, AllocError> {
    let body = choice(alloc, 6, Stmt::Break { step: 7 }, assign(alloc, 8)?)?;
    Ok(Stmt::BodyFirst {
        step: 9,
        test: read(alloc)?,
        body: Box::new(alloc, body)?,
    })
}

/// `foreach_active (x) { x = 1; continue; }` from step 10 on.
fn for_each(alloc: Global) -> Result<Stmt, AllocError> {
    let body = Stmt::Block(vec![in alloc; assign(alloc, 11)?, Stmt::Continue { step: 12 }]?);
    Ok(Stmt::ForEach {
        step: 10,
        rounds: Rounds::EachLane(VARIABLE),
        body: Box::new(alloc, body)?,
    })
}

/// The forms one after another, then `return f();` and `assert(x);`.
fn body(alloc: Global) -> Result<Vec<Stmt>, AllocError> {
    let test_first = test_first(alloc)?;
    let body_first = body_first(alloc)?;
    let for_each = for_each(alloc)?;
    let call = Stmt::Call {
        step: 14,
        function: 3,
        args: Vec::new(alloc),
        result_for: ResultFor::Returns,
    };
    let check = Stmt::Check {
        step: 15,
        test: read(alloc)?,
    };
    Ok(vec![in alloc;
        assign(alloc, 0)?,
        test_first,
        body_first,
        for_each,
        call,
        check,
    ]?)
}

/// A program of one function with this body.
pub(crate) fn program(alloc: Global, body: Vec<Stmt>) -> Result<Program, AllocError> {
    let function = Function {
        name: Vec::new(alloc),
        result: Rate::Uniform,
        result_type: IntType::Int32,
        body,
        variables: Vec::new(alloc),
        scopes: StepScopes {
            declarations: Vec::new(alloc),
            standings: Vec::new(alloc),
        },
    };
    Ok(Program {
        functions: vec![in alloc; function]?,
        globals: Vec::new(alloc),
    })
}

#[test]
fn lanes_go_on_where_the_language_says(rt: HostRuntime) -> Result<(), AllocError> {
    let program = program(rt.alloc(), body(rt.alloc())?)?;
    let masked = lower(rt.alloc(), &program)?;
    let expected = [
        Numbers::Put(5),
        Numbers::Branch(2, 3),
        Numbers::Go(4),
        Numbers::Put(4),
        Numbers::Put(5),
        Numbers::Branch(1, 6),
        Numbers::Branch(7, 8),
        Numbers::Go(10),
        Numbers::Put(9),
        Numbers::Branch(6, 10),
        Numbers::Begin(13, 14),
        Numbers::Put(12),
        Numbers::Go(13),
        Numbers::Turn(11),
        Numbers::Enter(3, 16),
        Numbers::Put(16),
    ];
    assert!(&rt; masked.functions.len() == 1);
    for points in &masked.functions {
        assert!(&rt; points.len() == expected.len());
        for (point, expected) in points.iter().zip(&expected) {
            assert!(&rt; numbers_of(point) == *expected);
        }
    }
    Ok(())
}
