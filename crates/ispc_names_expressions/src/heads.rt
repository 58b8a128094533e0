//! The heads of the foreach forms: names that are declared in a scope of the form's own, and bounds outside that scope.
ghost use Rattle.std.specs.Prelude.{◌≡◌, ◌++◌, IfOk, OnOk, map, not};
ghost use Rattle.gang_model.specs.Source.Judged as judged;
ghost use Rattle.gang_model.specs.Source.Judged.{least_fault};
ghost use Rattle.gang_model.specs.declared.refusals.RefusalNumber.TheVariants as number;
ghost use Rattle.gang_model.specs.Names.NameFaults as names;
ghost use Rattle.gang_model.specs.Names.Scope as scope;
ghost use Rattle.ispc_names_scopes.specs.Scopes.{site};
ghost use Rattle.source_tree.specs.Tree.{dim_view};
ghost use Rattle.ispc_names_expressions.specs.Bounds.{bounds_names};

use crate::allowed::Allowed;
use crate::expressions::expression_fault;
use gang_model::{RefusalNumber, SourceRefusal};
use gang_types::Place;
use ispc_names_declarations::{declaration_fault, dims_fault};
use ispc_names_scopes::{FunctionNames, Scopes};
use source_answers::{fault_if, least};
use source_tree::Dim;
use std::alloc::{AllocError, Global};

/// The fault of names in the bounds of a `foreach`.
fn bounds_fault(dims: &[Dim], functions: &FunctionNames, scopes: &Scopes) -> Option<SourceRefusal>
    ensures { result ≡ least_fault (bounds_names (map dim_view dims.now) functions.now scopes.now.environment) }
{
    let mut first = None;
    for dim in dims {
        let in_low = expression_fault(&dim.low, functions, scopes);
        let in_high = expression_fault(&dim.high, functions, scopes);
        first = least(first, least(in_low, in_high));
    }
    first
}

/// The first fault of names in the head of a `foreach`, which may stand there or not: its index variables, which are declared
/// in a scope inside the present one, and its bounds, which are outside that scope. The scope inside is then the present one.
///
/// # Errors
///
/// Out of memory.
pub fn domain_head_fault(
    alloc: Global,
    place: Place,
    dims: &[Dim],
    may: Allowed,
    functions: &FunctionNames,
    scopes: &mut Scopes,
) -> Result<Option<SourceRefusal>, AllocError>
    ensures fault { IfOk result (λ fault. fault ≡ least_fault (judged.fault_if (not may.domains) number.S11 place
        ++ names.dims_names (map dim_view dims.now) functions.now scopes.old.environment (scope.enclosed (site scopes.old)))) }
    ensures declared { OnOk result (site scopes.new ≡ scope.with_dims (map dim_view dims.now) (scope.enclosed (site scopes.old))) }
{
    let own = fault_if(!may.domains, RefusalNumber::S11, place);
    let in_bounds = bounds_fault(dims, functions, scopes);
    scopes.enter();
    let in_names = dims_fault(alloc, dims, scopes)?;
    Ok(least(own, least(in_names, in_bounds)))
}

/// The fault of the index variable of a `foreach_active` or `foreach_unique`, which is declared in a scope inside the present
/// one. The scope inside is then the present one.
///
/// # Errors
///
/// Out of memory.
pub fn round_head_fault(
    alloc: Global,
    place: Place,
    name: &[u8],
    scopes: &mut Scopes,
) -> Result<Option<SourceRefusal>, AllocError>
    ensures fault { IfOk result (λ fault. fault ≡ least_fault (names.twice (scope.enclosed (site scopes.old)) place name.now)) }
    ensures declared { OnOk result (site scopes.new ≡ scope.with_name name.now (scope.enclosed (site scopes.old))) }
{
    scopes.enter();
    declaration_fault(alloc, place, name, scopes)
}
