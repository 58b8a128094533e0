//! The values of literals and names.
ghost use Rattle.std.specs.Prelude.{◌≡◌, IfOk, Some};
ghost use Rattle.gang_model.specs.Types.Conversions as model;
ghost use Rattle.gang_model.specs.Types.Tree as tree;
ghost use Rattle.gang_model.specs.Types.Typing as typing;
ghost use Rattle.gang_types.specs.declared.types.IntType.TheVariants.{Bool};
ghost use Rattle.gang_types.specs.declared.types.Rate.TheVariants.{Uniform};
ghost use Rattle.source_answers.specs.declared.fault.SourceFault.TheVariants.{Refused};
ghost use Rattle.source_answers.specs.Answers.{Answers};
ghost use Rattle.type_check_scopes.specs.Entries.{declared_view};
ghost use Rattle.type_check_values.specs.Views.{typed_view};

use crate::named::has_no_value;
use gang_model::{RefusalNumber, SourceRefusal};
use gang_types::{IntType, Place, Rate};
use ispc_lexer::Number;
use source_answers::{SourceFault, fault_if, refuse};
use std::alloc::{AllocError, Global};
use type_check_scopes::{Declared, TypeScope, built_in};
use type_check_values::{Typed, literal_type};
use typed_tree::{Expr, Var};

/// The value of a number.
///
/// # Errors
///
/// Out of memory.
pub(crate) fn number_value(alloc: Global, number: Number) -> Result<Typed, AllocError>
    ensures value { IfOk result (λ e. typed_view e ≡ model.typed (tree.Number number.value) (model.literal_type number.value number.is_unsigned number.is_long) Uniform) }
{
    let value_type = literal_type(number.value, number.is_unsigned, number.is_long);
    Typed::new(alloc, Expr::Number(number.value), value_type, Rate::Uniform)
}

/// The value of a truth value.
///
/// # Errors
///
/// Out of memory.
pub(crate) fn truth_value(alloc: Global, truth: bool) -> Result<Typed, AllocError>
    ensures value { IfOk result (λ e. typed_view e ≡ model.typed (tree.Number (typing.truth_value truth)) Bool Uniform) }
{
    let expr = Expr::Number(u64::from(truth));
    Typed::new(alloc, expr, IntType::Bool, Rate::Uniform)
}

/// A fault with its place.
pub(crate) fn refusal(number: RefusalNumber, place: Place) -> SourceFault
    ensures { result ≡ Refused (record { number = number; place = place }) }
{
    SourceFault::Refused(SourceRefusal { number, place })
}

/// The value of a built-in name.
///
/// # Errors
///
/// S5 at the name if nothing has this name. Out of memory.
fn built_in_value(alloc: Global, place: Place, name: &[u8]) -> Result<Typed, SourceFault>
    ensures { Answers typed_view result (typing.built_in_value place (typing.built_in name.now)) }
{
    match built_in(name) {
        None => Err(refusal(RefusalNumber::S5, place)),
        Some(value) => Ok(Typed::new(alloc, value.expr, IntType::Int32, value.rate)?),
    }
}

/// The value of a variable.
///
/// # Errors
///
/// S8 at the name of an array or of a `void` variable. Out of memory.
fn declared_value(
    alloc: Global,
    place: Place,
    name: &[u8],
    declared: Declared,
) -> Result<Typed, SourceFault>
    ensures { Answers typed_view result (typing.name_value place name.now (Some (declared_view name.now declared))) }
{
    refuse(fault_if(has_no_value(declared), RefusalNumber::S8, place))?;
    let expr = Expr::Read(Var {
        id: declared.id,
        value_type: declared.value_type,
        rate: declared.rate,
    });
    Ok(Typed::new(alloc, expr, declared.value_type, declared.rate)?)
}

/// The value of a name.
///
/// # Errors
///
/// S5 at a name that nothing has; S8 at that of an array or of a `void` variable. Out of memory.
pub(crate) fn name_value(
    alloc: Global,
    place: Place,
    name: &[u8],
    scope: &TypeScope,
) -> Result<Typed, SourceFault>
    ensures { Answers typed_view result (typing.name_value place name.now (typing.entry_of scope.now.entries name.now)) }
{
    match scope.find(name) {
        None => built_in_value(alloc, place, name),
        Some(declared) => declared_value(alloc, place, name, declared),
    }
}
