//! Trees and their faults of names.
ghost use Rattle.std.specs.Prelude.{◌≡◌, ◌⊎◌, None, Some, IfErr, IfOk, map};
ghost use Rattle.gang_model.specs.declared.refusals.SourceRefusal.{SourceRefusal};
ghost use Rattle.gang_model.specs.Source.Parsed.{ParsedSource, functions_in};
ghost use Rattle.gang_model.specs.Names.Scope.{file_scope, standings_of};
ghost use Rattle.gang_model.specs.Types.SourceRefusals.{names_refusal};
ghost use Rattle.source_answers.specs.declared.fault.SourceFault.TheVariants.{Memory, Refused};
ghost use Rattle.source_tree.specs.Tree.{tree_view};
ghost use Rattle.ispc_names_table.specs.Scopes.{standings_view};

use crate::named::Named;
use ispc_names_faults::names_fault;
use ispc_names_steps::steps_of;
use ispc_names_table::StepScopes;
use source_answers::SourceFault;
use source_tree::{Item, Tree};
use std::alloc::{AllocError, Global};

/// The steps of the functions of a tree, in order, with what is in scope at each.
fn tables_of(alloc: Global, tree: &Tree) -> Result<Vec<StepScopes>, AllocError>
    ensures tables { IfOk result (λ tables. (source : ParsedSource) → map standings_view tables.items ≡ map (standings_of (file_scope source)) (functions_in (tree_view tree.now))) }
{
    let mut tables = Vec::new(alloc);
    for item in &tree.items {
        if let Item::Function(function) = item {
            tables.push(steps_of(alloc, function)?)?;
        }
    }
    Ok(tables)
}

/// The tree with what is in scope at each step of its functions, where it has no fault of names.
///
/// # Errors
/// The first fault of names: S5, S6, S11 or S12 with its place. Out of memory.
pub fn resolve(alloc: Global, tree: Tree) -> Result<Named, SourceFault>
    ensures named { IfOk result (λ named. (named ≡ tree) × (names_refusal (tree_view tree) ≡ None)) }
    ensures refused { IfErr result (λ fault. (fault ≡ Memory)
        ⊎ ((refusal : SourceRefusal) × (fault ≡ Refused refusal) × (names_refusal (tree_view tree) ≡ Some refusal))) }
{
    if let Some(refusal) = names_fault(alloc, &tree)? {
        return Err(SourceFault::Refused(refusal));
    }
    let tables = tables_of(alloc, &tree)?;
    Ok(Named { tree, tables })
}
