//! Functions of one name with the same parameters.
ghost use Rattle.std.specs.Prelude.{◌≡◌, ◌++◌, ◌∷◌, [], IfOk, OnOk, is_none, map};
ghost use Rattle.gang_types.specs.Values.{width};
ghost use Rattle.gang_model.specs.Types.Conversions.{is_varying};
ghost use Rattle.gang_model.specs.Source.Judged as judged;
ghost use Rattle.gang_model.specs.Source.Judged.{least_fault};
ghost use Rattle.gang_model.specs.declared.refusals.RefusalNumber.TheVariants as number;
ghost use Rattle.gang_model.specs.Types.LibraryTable.{is_among};
ghost use Rattle.gang_model.specs.Names.NameFaults as names;
ghost use Rattle.gang_model.specs.Types.Signatures.{declared_rate, declared_type};
ghost use Rattle.source_tree.specs.Tree.{function_view, param_view};
ghost use Rattle.ispc_names_declarations.specs.NamesBefore.{later_functions};
ghost use Rattle.ispc_names_declarations.specs.SignatureKeys as keys;
ghost use Rattle.ispc_names_declarations.specs.SignatureKeys.{digit, param_key};

use gang_model::{RefusalNumber, SourceRefusal, Spec};
use gang_types::{IntType, Rate, is_signed, width};
use ispc_names_scopes::FunctionNames;
use source_answers::{fault_if, least};
use source_tree::{Function, Param};
use std::alloc::{AllocError, Global};

/// The type of a declaration; `void` counts as `int32`.
fn declared_type(spec: Spec) -> IntType
    ensures { result ≡ declared_type spec.value_type }
{
    match spec.value_type {
        Some(value_type) => value_type,
        None => IntType::Int32,
    }
}

/// Whether a declaration is varying, as one without a rate is.
fn is_varying(spec: Spec) -> bool
    ensures { result ≡ is_varying (declared_rate spec.rate) }
{
    match spec.rate {
        Some(Rate::Uniform) => false,
        Some(Rate::Varying) => true,
        None => true,
    }
}

/// A type's width, which is 64 at most.
fn width_byte(value_type: IntType) -> u8
    ensures { result ≡ width value_type }
{
    width(value_type) as u8
}

/// Writes the type and the rate of a parameter after a key. What is written does not begin with 0.
fn push_param(key: &mut Vec<u8>, param: &Param) -> Result<(), AllocError>
    ensures written { OnOk result (key.new.items ≡ key.old.items ++ param_key (param_view param.now)) }
{
    let value_type = declared_type(param.spec);
    let written = [
        1 + u8::from(param.spec.value_type.is_none()),
        width_byte(value_type),
        u8::from(is_signed(value_type)),
        u8::from(is_varying(param.spec)),
        u8::from(param.is_array),
    ];
    key.extend_from_slice(&written)?;
    Ok(())
}

/// The text under which a signature is looked up: that of two functions is the same where they have one name and the same
/// parameter types and rates, and only there.
fn signature_key(alloc: Global, function: &Function) -> Result<Vec<u8>, AllocError>
    ensures key { IfOk result (λ key. key.items ≡ keys.signature_key (function_view function.now)) }
{
    let mut key = Vec::new(alloc);
    for param in &function.params {
        push_param(&mut key, param)?;
    }
    key.push(0)?;
    key.extend_from_slice(&function.name)?;
    Ok(key)
}

/// The fault of a function with a signature that stands before, where its own stands then too.
fn signature_fault(
    alloc: Global,
    function: &Function,
    before: &mut FunctionNames,
) -> Result<Option<SourceRefusal>, AllocError>
    ensures fault { IfOk result (λ fault. fault ≡ least_fault (judged.fault_if (is_among (keys.signature_key (function_view function.now)) before.old) number.S6 function.now.place)) }
    ensures last { OnOk result (before.new ≡ before.old ++ keys.signature_key (function_view function.now) ∷ []) }
{
    let key = signature_key(alloc, function)?;
    let is_twice = before.contains(&key);
    before.add(alloc, &key)?;
    Ok(fault_if(is_twice, RefusalNumber::S6, function.place))
}

/// The first fault of a function with a signature that stands before, where those before it count.
fn later_functions_fault(
    alloc: Global,
    functions: &[&Function],
    before: &mut FunctionNames,
) -> Result<Option<SourceRefusal>, AllocError>
    ensures fault { IfOk result (λ fault. fault ≡ least_fault (later_functions (map (λ f. function_view f.now) functions.now) before.old)) }
{
    let mut first = None;
    for function in functions {
        first = least(first, signature_fault(alloc, function, before)?);
    }
    Ok(first)
}

/// The first fault of a function with the signature of one before it.
///
/// # Errors
///
/// Out of memory.
pub fn functions_twice_fault(
    alloc: Global,
    functions: &[&Function],
) -> Result<Option<SourceRefusal>, AllocError>
    ensures fault { IfOk result (λ fault. fault ≡ least_fault (names.functions_twice (map (λ f. function_view f.now) functions.now) [])) }
{
    let mut before = FunctionNames::new(alloc);
    later_functions_fault(alloc, functions, &mut before)
}
