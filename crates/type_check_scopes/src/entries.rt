//! What names declare.
ghost use Rattle.std.specs.Prelude.{◌≡◌, [], None, Some};
ghost use Rattle.gang_types.specs.declared.places.Place.{Place};
ghost use Rattle.gang_model.specs.Types.Typing as typing;
ghost use Rattle.gang_model.specs.Types.Conversions as model;
ghost use Rattle.type_check_scopes.specs.BuiltIns.{built_in_value_view};
ghost use Rattle.type_check_scopes.specs.Entries.{built_in_view, declared_view};

use gang_model::Spec;
use gang_types::{IntType, Rate, VarId};
use ispc_names_scopes::is_same;
use type_check_values::{declared_rate, declared_type};
use typed_tree::Expr;

/// What a name declares: its variable, of a type that nothing reads if it is declared `void`.
#[derive(Clone, Copy, Debug, PartialEq, Eq, Drop)]
pub struct Declared {
    pub id: VarId,
    pub value_type: IntType,
    pub rate: Rate,
    pub is_array: bool,
    pub is_parameter: bool,
    pub is_constant: bool,
    pub is_void: bool,
}

/// A name with what it declares.
#[derive(Clone, Copy, Debug, PartialEq, Eq, Drop)]
pub struct Entry<'a> {
    pub name: &'a [u8],
    pub declared: Declared,
}

/// What is declared with a spec.
pub fn declared_with(id: VarId, spec: Spec, is_array: bool, is_parameter: bool) -> Declared
    ensures { declared_view [] result ≡ typing.declared [] id spec is_array is_parameter }
{
    Declared {
        id,
        value_type: declared_type(spec.value_type),
        rate: declared_rate(spec.rate),
        is_array,
        is_parameter,
        is_constant: spec.is_constant,
        is_void: spec.value_type.is_none(),
    }
}

/// An index variable, which is constant.
pub fn index_variable(id: VarId, value_type: IntType, rate: Rate) -> Declared
    ensures { declared_view [] result ≡ typing.index_entry [] id value_type rate }
{
    Declared {
        id,
        value_type,
        rate,
        is_array: false,
        is_parameter: false,
        is_constant: true,
        is_void: false,
    }
}

/// What a built-in name stands for, an int32: its expression and rate.
#[derive(Drop)]
pub struct BuiltIn {
    pub expr: Expr,
    pub rate: Rate,
}

/// `programIndex` and `programCount`, which nothing assigns.
pub fn built_in(name: &[u8]) -> Option<BuiltIn>
    ensures named { built_in_view result ≡ typing.built_in name.now }
    ensures value { (place : Place) → built_in_value_view place result ≡ typing.built_in_value place (typing.built_in name.now) }
{
    let (expr, rate) = if is_same(name, b"programIndex") {
        (Expr::ProgramIndex, Rate::Varying)
    } else if is_same(name, b"programCount") {
        (Expr::ProgramCount, Rate::Uniform)
    } else {
        return None;
    };
    Some(BuiltIn { expr, rate })
}
