//! The code of values.
ghost use Rattle.std.specs.Prelude.{map, IfOk, option_map};
ghost use Rattle.typed_tree.specs.Views.{arg_view, boxed_view, expr_view};
ghost use Rattle.codegen.specs.Codes.{Fit, IsArg, IsOptionValue, IsValue};

use crate::code::ArgCode;
use expression_code::compile;
use expression_instructions::Instruction;
use std::alloc::{AllocError, Global};
use typed_tree::{Arg, Expr};

/// The code of a value, if there is one.
pub(crate) fn optional(
    alloc: Global,
    expression: &Option<Box<Expr>>,
) -> Result<Option<Vec<Instruction>>, AllocError>
    ensures { IfOk result (IsOptionValue (option_map boxed_view expression.now)) }
{
    match expression {
        Some(expression) => Ok(Some(value(alloc, expression)?)),
        None => Ok(None),
    }
}

/// The code of a value.
pub(crate) fn value(alloc: Global, expression: &Expr) -> Result<Vec<Instruction>, AllocError>
    ensures { IfOk result (λ code. IsValue (expr_view expression.now) code.items) }
{
    compile(alloc, expression)
}

/// The code of a call's arguments.
pub(crate) fn arguments(alloc: Global, args: &[Arg]) -> Result<Vec<ArgCode>, AllocError>
    ensures { IfOk result (λ made. Fit IsArg made.items (map arg_view args.now)) }
{
    let mut made = Vec::with_capacity(alloc, args.len())?;
    for arg in args {
        made.push(argument(alloc, arg)?)?;
    }
    Ok(made)
}

/// The code of an argument.
fn argument(alloc: Global, arg: &Arg) -> Result<ArgCode, AllocError>
    ensures { IfOk result (λ made. IsArg made (arg_view arg.now)) }
{
    match arg {
        Arg::Value {
            parameter,
            value: expression,
        } => Ok(ArgCode::Value {
            parameter: *parameter,
            value: value(alloc, expression)?,
        }),
        Arg::Array { array, from, .. } => Ok(ArgCode::Array {
            array: *array,
            from: optional(alloc, from)?,
        }),
    }
}
