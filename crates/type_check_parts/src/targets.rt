//! What is assigned.
ghost use Rattle.std.specs.Prelude.{◌≡◌, ◌||◌, [], not, Some, if◌then◌else◌};
ghost use Rattle.source_tree.specs.Expressions.{expr_view};
ghost use Rattle.gang_model.specs.Types.Statements as model;
ghost use Rattle.gang_model.specs.Types.Typing as typing;
ghost use Rattle.source_tree.specs.Tree as parsed;
ghost use Rattle.typed_tree.specs.Views.{var_view};
ghost use Rattle.type_check_values.specs.Views.{typed_view};
ghost use Rattle.source_answers.specs.Answers.{Answers};
ghost use Rattle.type_check_scopes.specs.Entries.{declared_view};
ghost use Rattle.type_check_parts.specs.Typed.{aimed_view};

use gang_model::{RefusalNumber, SourceRefusal};
use gang_types::{IntType, Place, Rate, is_bool};
use source_answers::{SourceFault, both, fault_if, refuse};
use source_tree::{Expr, Target as ParsedTarget};
use std::alloc::Global;
use type_check_expressions::{expression, first_of};
use type_check_scopes::{Declared, TypeScope};
use type_check_values::Typed;
use typed_tree::{Target, Var};

/// A target with its type and rate.
#[derive(Drop)]
pub(crate) struct Aimed {
    pub(crate) target: Target,
    pub(crate) value_type: IntType,
    pub(crate) rate: Rate,
}

/// A scalar variable as it stands in the typed tree.
pub fn variable_of(declared: Declared) -> Var
    ensures { var_view result ≡ typing.var_of (declared_view [] declared).variable }
{
    Var {
        id: declared.id,
        value_type: declared.value_type,
        rate: declared.rate,
    }
}

/// Whether something declared can not be assigned: a constant, an array without an index, or a scalar with one.
fn is_fixed(declared: Declared, has_index: bool) -> bool
    ensures { result ≡ (declared.is_constant || (if has_index then not declared.is_array || declared.is_void else declared.is_array || declared.is_void)) }
{
    let has_form = declared.is_array == has_index;
    declared.is_constant || !has_form || declared.is_void
}

/// What a name declares that is assigned, with an index or without one.
fn assigned(
    scope: &TypeScope,
    place: Place,
    name: &[u8],
    has_index: bool,
) -> Result<Declared, SourceFault>
    ensures { Answers (declared_view name.now) result (model.assigned place has_index (typing.entry_of scope.now.entries name.now)) }
{
    match scope.find(name) {
        None => Err(SourceFault::Refused(SourceRefusal {
            number: RefusalNumber::S8,
            place,
        })),
        Some(declared) => {
            refuse(fault_if(is_fixed(declared, has_index), RefusalNumber::S8, place))?;
            Ok(declared)
        }
    }
}

/// A variable that is assigned.
///
/// # Errors
///
/// S8 at its name, if it is constant or no scalar.
pub(crate) fn scalar_target(
    scope: &TypeScope,
    place: Place,
    name: &[u8],
) -> Result<Var, SourceFault>
    ensures { Answers var_view result (model.scalar_target scope.now.entries place name.now) }
{
    let declared = assigned(scope, place, name, false)?;
    Ok(variable_of(declared))
}

/// The index of an element that is assigned: no bool.
fn target_index(alloc: Global, scope: &TypeScope, index: &Expr) -> Result<Typed, SourceFault>
    ensures { Answers typed_view result (model.target_index scope.now.entries (expr_view index.now)) }
{
    let value = expression(alloc, index, scope)?;
    refuse(fault_if(
        is_bool(value.value_type),
        RefusalNumber::S8,
        first_of(index),
    ))?;
    Ok(value)
}

/// An element of an array, whose name and index are judged each by itself.
fn element_target(
    alloc: Global,
    scope: &TypeScope,
    place: Place,
    name: &[u8],
    index: &Expr,
) -> Result<Aimed, SourceFault>
    ensures { Answers aimed_view result (model.target_of scope.now.entries place name.now (Some (expr_view index.now))) }
{
    let declared = assigned(scope, place, name, true);
    let (declared, index) = both(declared, target_index(alloc, scope, index))?;
    Ok(Aimed {
        target: Target::Element {
            array: declared.id,
            rate: index.rate,
            index: index.expr,
        },
        value_type: declared.value_type,
        rate: index.rate,
    })
}

/// What is assigned, with its type and rate.
///
/// # Errors
///
/// The first fault of its name and its index. Out of memory.
pub(crate) fn target_of(
    alloc: Global,
    scope: &TypeScope,
    target: &ParsedTarget,
) -> Result<Aimed, SourceFault>
    ensures { Answers aimed_view result (model.target_of scope.now.entries (parsed.target_view target.now).at (parsed.target_view target.now).name (parsed.target_view target.now).index) }
{
    match &target.index {
        Some(index) => element_target(alloc, scope, target.place, &target.name, index),
        None => {
            let variable = scalar_target(scope, target.place, &target.name)?;
            Ok(Aimed {
                target: Target::Scalar(variable),
                value_type: variable.value_type,
                rate: variable.rate,
            })
        }
    }
}
