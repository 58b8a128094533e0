//! Expressions at a step of the first function of a source.
ghost use Rattle.gang_types.specs.Masks.{IsGangWidth};

use crate::store::Memory;
use expression_runs::{Stacks, Stop, evaluate};
use gang_types::{FuncId, IntType, Mask, Rate, Spot};
use ispc_compiler::compile_source;
use placed_expressions::{ExpressionRefusal, PlacedExpression, place_expression};
use std::alloc::Global;

/// The expression of a text at a step of the first function of a source that has a program; out of memory for any other source.
pub(crate) fn placed(
    alloc: Global,
    source: &str,
    step: usize,
    text: &str,
) -> Result<PlacedExpression, ExpressionRefusal> {
    let spot = Spot {
        function: FuncId(0),
        number: step,
    };
    match compile_source(alloc, source.as_bytes(), None) {
        Ok(Some(compiled)) => place_expression(alloc, text.as_bytes(), &compiled.program, spot),
        Ok(None) | Err(_) => Err(ExpressionRefusal::Memory),
    }
}

/// The type and the rate of the expression of a text.
pub(crate) fn type_of(
    alloc: Global,
    source: &str,
    step: usize,
    text: &str,
) -> Result<(IntType, Rate), ExpressionRefusal> {
    let placed = placed(alloc, source, step, text)?;
    Ok((placed.value_type, placed.rate))
}

/// The words of the expression of a text in the lanes of a mask, with those of variables as they stand in memory.
pub(crate) fn words_of<const W: usize>(
    alloc: Global,
    source: &str,
    step: usize,
    text: &str,
    memory: &Memory<'_, W>,
    lanes: u64,
) -> Result<Result<[u64; W], Stop>, ExpressionRefusal>
    requires { IsGangWidth W }
{
    let placed = placed(alloc, source, step, text)?;
    let mask = Mask::from_word::<W>(lanes);
    Ok(evaluate(&placed.code, memory, mask, &mut Stacks::new()))
}
