//! Names that their scope has already, and their declarations.
ghost use Rattle.std.specs.Prelude.{◌≡◌, IfOk, OnOk, map};
ghost use Rattle.gang_model.specs.Source.Judged.{least_fault};
ghost use Rattle.gang_model.specs.Names.NameFaults as names;
ghost use Rattle.gang_model.specs.Names.Scope as scope;
ghost use Rattle.ispc_names_scopes.specs.Scopes.{site};
ghost use Rattle.source_tree.specs.Tree.{dim_view, param_view};
ghost use Rattle.ispc_names_declarations.specs.IndexVariables.{dims_twice};

use gang_model::{RefusalNumber, SourceRefusal};
use gang_types::Place;
use ispc_names_scopes::{Scopes, is_same};
use source_answers::{fault_if, least};
use source_tree::{Dim, Param};
use std::alloc::{AllocError, Global};

/// Whether a name is built in: it is known everywhere, though nothing declares it.
pub fn is_built_in(name: &[u8]) -> bool
    ensures { result ≡ scope.is_built_in name.now }
{
    is_same(name, b"programIndex") || is_same(name, b"programCount")
}

/// The fault of a name that its scope has already or that nothing may declare, and its declaration in that scope.
///
/// # Errors
///
/// Out of memory.
pub fn declaration_fault(
    alloc: Global,
    place: Place,
    name: &[u8],
    scopes: &mut Scopes,
) -> Result<Option<SourceRefusal>, AllocError>
    ensures fault { IfOk result (λ fault. fault ≡ least_fault (names.twice (site scopes.old) place name.now)) }
    ensures declared { OnOk result (site scopes.new ≡ scope.with_name name.now (site scopes.old)) }
    ensures outside { OnOk result (scopes.new.outside ≡ scopes.old.outside) }
{
    let is_twice = scopes.is_here(name) || is_built_in(name);
    scopes.declare(alloc, name)?;
    Ok(fault_if(is_twice, RefusalNumber::S6, place))
}

/// The fault of the index variables of a `foreach`, and their declarations in the present scope.
///
/// # Errors
///
/// Out of memory.
pub fn dims_fault(
    alloc: Global,
    dims: &[Dim],
    scopes: &mut Scopes,
) -> Result<Option<SourceRefusal>, AllocError>
    ensures fault { IfOk result (λ fault. fault ≡ least_fault (dims_twice (map dim_view dims.now) (site scopes.old))) }
    ensures declared { OnOk result (site scopes.new ≡ scope.with_dims (map dim_view dims.now) (site scopes.old)) }
    ensures outside { OnOk result (scopes.new.outside ≡ scopes.old.outside) }
{
    let mut first = None;
    for dim in dims {
        first = least(
            first,
            declaration_fault(alloc, dim.place, &dim.name, scopes)?,
        );
    }
    Ok(first)
}

/// The fault of parameters, and their declarations in the present scope.
///
/// # Errors
///
/// Out of memory.
pub fn params_fault(
    alloc: Global,
    params: &[Param],
    scopes: &mut Scopes,
) -> Result<Option<SourceRefusal>, AllocError>
    ensures fault { IfOk result (λ fault. fault ≡ least_fault (names.params_twice (map param_view params.now) (site scopes.old))) }
    ensures declared { OnOk result (site scopes.new ≡ scope.with_params (map param_view params.now) (site scopes.old)) }
    ensures outside { OnOk result (scopes.new.outside ≡ scopes.old.outside) }
{
    let mut first = None;
    for param in params {
        first = least(
            first,
            declaration_fault(alloc, param.place, &param.name, scopes)?,
        );
    }
    Ok(first)
}
