//! What calls pass.
ghost use Rattle.std.specs.Prelude.{◌≡◌, ◌++◌, [], IfOk, OnOk, map, option_map};
ghost use Rattle.gang_model.specs.Types.Overloads as overloads;
ghost use Rattle.source_tree.specs.Tree.{param_view};
ghost use Rattle.type_check_scopes.specs.Passings.{passing_view};
ghost use Rattle.typed_tree.specs.Views.{arg_view};
ghost use Rattle.type_check_overloads.specs.Parts as parts;

use gang_types::VarId;
use source_tree::Param;
use std::alloc::{AllocError, Global};
use type_check_scopes::Passing;
use type_check_values::{as_type, declared_rate, declared_type};
use typed_tree::{Arg, Var};

/// What is passed to the parameter of this number, if anything is.
fn passed_arg(
    alloc: Global,
    number: usize,
    argument: Passing,
    param: &Param,
) -> Result<Option<Arg>, AllocError>
    ensures passed { IfOk result (λ arg. option_map arg_view arg ≡ parts.passed_arg number (passing_view argument.entry) (param_view param.now)) }
{
    match argument {
        Passing::Scalar { value, .. } => {
            let value_type = declared_type(param.spec.value_type);
            Ok(Some(Arg::Value {
                parameter: Var {
                    id: VarId::Local(number),
                    value_type,
                    rate: declared_rate(param.spec.rate),
                },
                value: as_type(alloc, value_type, value)?,
            }))
        }
        Passing::View { entry, from, .. } => Ok(Some(Arg::Array {
            parameter: VarId::Local(number),
            array: entry.declared.id,
            from,
        })),
        Passing::Reference { .. } => Ok(None),
    }
}

/// Adds what is passed, if anything is.
fn add_arg(args: &mut Vec<Arg>, arg: Option<Arg>) -> Result<(), AllocError>
    ensures added { OnOk result (map arg_view args.new.items ≡ map arg_view args.old.items ++ parts.with_arg (option_map arg_view arg) []) }
{
    match arg {
        Some(arg) => {
            args.push(arg)?;
            Ok(())
        }
        None => Ok(()),
    }
}

/// What a call passes to the parameters.
///
/// # Errors
///
/// Out of memory.
pub fn passed_args(
    alloc: Global,
    given: Vec<Passing>,
    params: &[Param],
) -> Result<Vec<Arg>, AllocError>
    ensures passed { IfOk result (λ args. map arg_view args.items ≡ overloads.passed_args 0 (map passing_view given.entry.items) (map param_view params.now)) }
{
    let mut args = Vec::new(alloc);
    for (number, (argument, param)) in given.into_iter().zip(params).enumerate() {
        let arg = passed_arg(alloc, number, argument, param)?;
        add_arg(&mut args, arg)?;
    }
    Ok(args)
}
