//! Trees without faults of names.
ghost use Rattle.std.specs.Prelude.{◌≡◌, None, map, option_map, slice_get};
ghost use Rattle.gang_types.specs.declared.places.VarId.TheVariants.{Local};
ghost use Rattle.gang_model.specs.Source.Parsed.{ParsedSource};
ghost use Rattle.gang_model.specs.Names.Scope as scope;
ghost use Rattle.gang_model.specs.Types.SourceRefusals.{names_refusal};
ghost use Rattle.source_tree.specs.Tree.{tree_view};
ghost use Rattle.ispc_names.specs.Tables.{AreTablesOf};

use crate::file_variables::file_variable;
use gang_types::{Spot, VarId};
use ispc_names_table::StepScopes;
use source_tree::Tree;
use std::marker::Model;

/// A tree without faults of names, with the steps of its functions and what is in scope at each. Its value is
/// the tree.
#[derive(Drop)]
pub struct Named {
    pub(crate) tree: Tree,
    pub(crate) tables: Vec<StepScopes>,
}

impl Model for Named {
    ghost use Rattle.std.specs.Prelude.{◌≡◌, None};
    ghost use Rattle.std.specs.Coded.{codes};
    ghost use Rattle.gang_model.specs.Types.SourceRefusals.{names_refusal};
    ghost use Rattle.source_tree.specs.contracts.tree.Item as item;
    ghost use Rattle.source_tree.specs.declared.tree.Tree as declared;
    ghost use Rattle.source_tree.specs.Tree.{tree_view};
    ghost use Rattle.ispc_names.specs.Tables.{AreTablesOf};

    ghost Value = { declared.Tree };

    ghost coded = { Prim.hlevel (codes, item.the_row.coded) };

    ghost view = { λ n. n.tree };

    ghost invariant = { λ n. (names_refusal (tree_view n.tree) ≡ None) × AreTablesOf (tree_view n.tree) n.tables.items };
}

impl Named {
    /// The tree.
    pub fn tree(&self) -> &Tree
        ensures value { result.now ≡ self.now }
        ensures named { names_refusal (tree_view self.now) ≡ None }
    {
        &self.tree
    }

    /// The steps of the functions with what is in scope at each, by the numbers of the functions.
    pub fn tables(&self) -> &[StepScopes]
        ensures { AreTablesOf (tree_view self.now) result.now }
    {
        &self.tables
    }

    /// The tree and the steps of its functions.
    pub fn into_parts(self) -> (Tree, Vec<StepScopes>)
        ensures tree { result.0 ≡ self }
        ensures tables { AreTablesOf (tree_view self) result.1.items }
        ensures named { names_refusal (tree_view self) ≡ None }
    {
        (self.tree, self.tables)
    }

    /// The k-th variable that the debugger lists at a step, in the order of declaration.
    pub fn scope_at(&self, spot: Spot, k: usize) -> Option<VarId>
        ensures { result ≡ option_map (λ b. b.id) (slice_get (scope.scope_at (tree_view self.now) spot) k) }
    {
        let table = self.tables.get(spot.function.0)?;
        let number = table.listed(spot.number, k)?;
        Some(VarId::Local(number))
    }

    /// The variable that a name stands for at a step, else at file scope; with no step, at file scope alone.
    pub fn find(&self, spot: Option<Spot>, name: &[u8]) -> Option<VarId>
        ensures { result ≡ scope.found_at (tree_view self.now) spot name.now }
    {
        if let Some(spot) = spot {
            if let Some(number) = local_variable(&self.tables, spot, name) {
                return Some(VarId::Local(number));
            }
        }
        let number = file_variable(&self.tree, name)?;
        Some(VarId::File(number))
    }
}

/// The number of the variable of a function that a name stands for at a step.
fn local_variable(tables: &[StepScopes], spot: Spot, name: &[u8]) -> Option<usize>
    ensures { (source : ParsedSource) → AreTablesOf source tables.now → option_map Local result ≡ scope.declaration (scope.scope_at source spot) name.now }
{
    tables.get(spot.function.0)?.find(spot.number, name)
}
