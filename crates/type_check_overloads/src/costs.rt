//! What it costs to pass arguments.
ghost use Rattle.std.specs.Prelude.{◌≡◌, ◌&&◌, ◌||◌, IfOk, None, Some, if◌then◌else◌, map, not, option_map};
ghost use Rattle.gang_model.specs.Types.Overloads as overloads;
ghost use Rattle.source_tree.specs.Tree.{param_view};
ghost use Rattle.type_check_scopes.specs.Entries.{entry_view};
ghost use Rattle.type_check_scopes.specs.Passings.{passing_view};
ghost use Rattle.type_check_values.specs.Views.{typed_view};

use gang_types::{IntType, is_bool, is_signed, width};
use source_tree::Param;
use std::alloc::{AllocError, Global};
use type_check_scopes::{Entry, Passing};
use type_check_values::{Typed, declared_rate, declared_type, may_become};

/// Whether a type is wider than another of the same sign; bool has no sign.
fn is_wider(from: IntType, to: IntType) -> bool
    ensures { result ≡ overloads.is_wider from to }
{
    !is_bool(from) && width(from) < width(to) && is_signed(from) == is_signed(to)
}

/// 0 same type and rate; 1 widening; 2 uniform to varying; 3 any other conversion of type at the same rate; 4 widening and
/// uniform to varying; 5 any other conversion of type and uniform to varying.
fn cost_by(same: bool, widens: bool, rate_changes: bool) -> u8
    ensures { result ≡ overloads.cost_by same widens rate_changes }
{
    match (same, widens, rate_changes) {
        (true, _, false) => 0,
        (false, true, false) => 1,
        (true, _, true) => 2,
        (false, false, false) => 3,
        (false, true, true) => 4,
        (false, false, true) => 5,
    }
}

/// The cost of a value, which varying to uniform and a parameter that is an array do not have.
fn value_cost(value: &Typed, param: &Param, value_type: IntType) -> Option<u8>
    ensures { result ≡ overloads.value_cost (typed_view value.now) (param_view param.now) (Some value_type) }
{
    let rate = declared_rate(param.spec.rate);
    if param.is_array || !may_become(value.rate, rate) {
        return None;
    }
    Some(cost_by(
        value.value_type == value_type,
        is_wider(value.value_type, value_type),
        value.rate != rate,
    ))
}

/// Whether an array has the element type that a parameter asks for.
fn same_elements(entry: Entry, param: &Param) -> bool
    ensures { result ≡ overloads.same_elements (entry_view entry.entry) (param_view param.now) }
{
    entry.declared.is_void == param.spec.value_type.is_none()
        && entry.declared.value_type == declared_type(param.spec.value_type)
}

/// The cost of an array, which goes to an array of the same element type, a constant one only to a constant parameter.
fn array_cost(entry: Entry, param: &Param) -> Option<u8>
    ensures { result ≡ if (param.now.is_array && overloads.same_elements (entry_view entry.entry) (param_view param.now))
        && (param.now.spec.is_constant || not entry.entry.declared.is_constant) then Some 0 else None }
{
    let fits = param.is_array && same_elements(entry, param);
    if fits && (param.spec.is_constant || !entry.declared.is_constant) {
        Some(0)
    } else {
        None
    }
}

/// The cost of an argument, if it can be passed.
fn cost(argument: &Passing, param: &Param) -> Option<u8>
    ensures { result ≡ overloads.cost (passing_view argument.now) (param_view param.now) }
{
    match argument {
        Passing::Scalar { value, .. } => match param.spec.value_type {
            Some(value_type) => value_cost(value, param, value_type),
            None => None,
        },
        Passing::View { entry, .. } => array_cost(*entry, param),
        Passing::Reference { .. } => None,
    }
}

/// The costs of arguments, if their number fits and each has one.
pub(crate) fn costs(
    alloc: Global,
    given: &[Passing],
    params: &[Param],
) -> Result<Option<Vec<u8>>, AllocError>
    ensures costs { IfOk result (λ prices. option_map (λ p. p.items) prices ≡ overloads.costs (map passing_view given.now) (map param_view params.now)) }
{
    if given.len() != params.len() {
        return Ok(None);
    }
    let mut prices = Vec::new(alloc);
    for (number, argument) in given.iter().enumerate() {
        match cost(argument, &params[number]) {
            Some(price) => prices.push(price)?,
            None => return Ok(None),
        }
    }
    Ok(Some(prices))
}
