//! Expressions and a store in memory.
ghost use Rattle.gang_types.specs.Masks.{IsGangWidth};

use expression_code::compile;
use expression_instructions::Words;
use expression_runs::{Stacks, Stop, evaluate};
use gang_types::{BinaryOp, FaultName, IntType, Mask, Rate, VarId};
use std::alloc::{AllocError, Global};
use typed_tree::{Expr, Reduction, Scan, Var};

/// Variables by their numbers, and arrays by theirs, of no state.
pub(crate) struct Memory<'a, const W: usize> {
    pub(crate) variables: &'a [[u64; W]],
    pub(crate) arrays: &'a [&'a [u64]],
}

impl<const W: usize> Memory<'_, W> {
    // The element for one lane, 0 where the lane is not active.
    fn element(
        &self,
        array: VarId,
        mask: Mask,
        lane: usize,
        index: u64,
    ) -> Result<u64, (usize, FaultName)>
        requires { IsGangWidth W }
    {
        if !mask.has::<W>(lane) {
            return Ok(0);
        }
        let number = match array {
            VarId::File(number) => number,
            VarId::Local(number) => number,
        };
        match self.arrays.get(number) {
            Some(elements) => match elements.get(index as usize) {
                Some(element) => Ok(*element),
                None => Err((lane, FaultName::Index)),
            },
            None => Err((lane, FaultName::Index)),
        }
    }
}

impl<const W: usize> Words<W> for Memory<'_, W> {
    ghost shows = { λ store state. ⊥ };

    fn words(&self, variable: Var) -> [u64; W] {
        let number = match variable.id {
            VarId::File(number) => number,
            VarId::Local(number) => number,
        };
        match self.variables.get(number) {
            Some(words) => *words,
            None => [0; W],
        }
    }

    fn elements(
        &self,
        array: VarId,
        mask: Mask,
        indices: &[u64; W],
    ) -> Result<[u64; W], (usize, FaultName)> {
        let mut found = [0; W];
        for lane in 0..W {
            found[lane] = self.element(array, mask, lane, indices[lane])?;
        }
        Ok(found)
    }
}

/// The value of an expression in the lanes of a mask, by its code.
pub(crate) fn value_of<const W: usize>(
    alloc: Global,
    expression: Expr,
    memory: &Memory<'_, W>,
    lanes: u64,
) -> Result<Result<[u64; W], Stop>, AllocError>
    requires { IsGangWidth W }
{
    let code = compile(alloc, &expression)?;
    let mask = Mask::from_word::<W>(lanes);
    Ok(evaluate(&code, memory, mask, &mut Stacks::new()))
}

/// A varying int32 variable.
pub(crate) fn read(number: usize) -> Expr {
    Expr::Read(Var {
        id: VarId::Local(number),
        value_type: IntType::Int32,
        rate: Rate::Varying,
    })
}

pub(crate) fn element(alloc: Global, array: VarId, index: Expr) -> Result<Expr, AllocError> {
    Ok(Expr::Element {
        array,
        index: Box::new(alloc, index)?,
    })
}

/// An operation on int32 values.
pub(crate) fn binary(
    alloc: Global,
    operator: BinaryOp,
    left: Expr,
    right: Expr,
) -> Result<Expr, AllocError> {
    Ok(Expr::Binary {
        operator,
        value_type: IntType::Int32,
        left: Box::new(alloc, left)?,
        right: Box::new(alloc, right)?,
    })
}

pub(crate) fn choice(
    alloc: Global,
    test: Expr,
    first: Expr,
    second: Expr,
) -> Result<Expr, AllocError> {
    Ok(Expr::Choice {
        test: Box::new(alloc, test)?,
        first: Box::new(alloc, first)?,
        second: Box::new(alloc, second)?,
    })
}

pub(crate) fn reduce(
    alloc: Global,
    function: Reduction,
    value_type: IntType,
    value: Expr,
) -> Result<Expr, AllocError> {
    Ok(Expr::Reduce {
        function,
        value_type,
        value: Box::new(alloc, value)?,
    })
}

pub(crate) fn scan(alloc: Global, function: Scan, value: Expr) -> Result<Expr, AllocError> {
    Ok(Expr::ScanLanes {
        function,
        value_type: IntType::Int32,
        value: Box::new(alloc, value)?,
    })
}
