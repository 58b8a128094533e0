//! The variables declared so far, and the steps passed so far.
ghost use Rattle.std.specs.Prelude.{◌≡◌, [], ◌∷◌, ◌++◌, List, OnOk, length, map};
ghost use Rattle.gang_types.specs.declared.places.VarId.TheVariants.{Local};
ghost use Rattle.gang_model.specs.Names.Bindings.{dim_bindings, param_bindings};
ghost use Rattle.gang_model.specs.Names.Scope.{NameStanding, Site, bound, standing, with_dims, with_name, with_params};
ghost use Rattle.source_tree.specs.Tree.{dim_view, param_view};
ghost use Rattle.ispc_names_steps.specs.Sites.{Declares, Lists, Stands};

use gang_types::Place;
use ispc_names_table::{Declaration, Standing};
use source_tree::{Dim, Param};
use std::alloc::{AllocError, Global};

/// The variables declared so far, and the number of the innermost one in scope.
#[derive(Debug, Drop)]
pub(crate) struct Declared {
    pub(crate) declarations: Vec<Declaration>,
    pub(crate) innermost: Option<usize>,
}

/// One more variable in the present scope.
pub(crate) fn declare(alloc: Global, name: &[u8], declared: &mut Declared) -> Result<(), AllocError>
    ensures declares { OnOk result (Declares declared.old.declarations.items declared.new.declarations.items (bound name.now (Local (length declared.old.declarations.items)) ∷ [])) }
    ensures stands { OnOk result ((site : Site) (standings : List Standing) (steps : List NameStanding) → Stands declared.old standings site steps
        → Stands declared.new standings (with_name name.now site) steps) }
{
    let number = declared.declarations.len();
    let name = Vec::from_slice(alloc, name)?;
    let outside = declared.innermost;
    declared.declarations.push(Declaration { name, outside })?;
    declared.innermost = Some(number);
    Ok(())
}

/// The index variables of a `foreach`, in the present scope.
pub(crate) fn declare_dims(
    alloc: Global,
    dims: &[Dim],
    declared: &mut Declared,
) -> Result<(), AllocError>
    ensures declares { OnOk result (Declares declared.old.declarations.items declared.new.declarations.items (dim_bindings (length declared.old.declarations.items) (map dim_view dims.now))) }
    ensures stands { OnOk result ((site : Site) (standings : List Standing) (steps : List NameStanding) → Stands declared.old standings site steps
        → Stands declared.new standings (with_dims (map dim_view dims.now) site) steps) }
{
    for dim in dims {
        declare(alloc, &dim.name, declared)?;
    }
    Ok(())
}

/// The parameters of a function, in the present scope.
pub(crate) fn declare_params(
    alloc: Global,
    params: &[Param],
    declared: &mut Declared,
) -> Result<(), AllocError>
    ensures declares { OnOk result (Declares declared.old.declarations.items declared.new.declarations.items (param_bindings (length declared.old.declarations.items) (map param_view params.now))) }
    ensures stands { OnOk result ((site : Site) (standings : List Standing) (steps : List NameStanding) → Stands declared.old standings site steps
        → Stands declared.new standings (with_params (map param_view params.now) site) steps) }
{
    for param in params {
        declare(alloc, &param.name, declared)?;
    }
    Ok(())
}

/// One more step, where the present scope is in scope.
pub(crate) fn step(
    place: Place,
    declared: &Declared,
    standings: &mut Vec<Standing>,
) -> Result<(), AllocError>
    ensures stands { OnOk result ((site : Site) (steps : List NameStanding) → Stands declared.now standings.old.items site steps
        → Stands declared.now standings.new.items site (steps ++ standing place site ∷ [])) }
{
    let innermost = declared.innermost;
    standings.push(Standing { place, innermost })?;
    Ok(())
}

/// The steps of a `for` behind those of its body: those of its update, then its own.
pub(crate) fn steps_after_body(
    place: Place,
    updates: &[Standing],
    declared: &Declared,
    standings: &mut Vec<Standing>,
) -> Result<(), AllocError>
    ensures stands { OnOk result ((site : Site) (steps last : List NameStanding) → Stands declared.now standings.old.items site steps → Lists declared.now.declarations.items updates.now last
        → Stands declared.now standings.new.items site ((steps ++ last) ++ standing place site ∷ [])) }
{
    standings.extend_from_slice(updates)?;
    step(place, declared, standings)
}
