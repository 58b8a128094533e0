//! Trees without faults of names and types.
ghost use Rattle.std.specs.Prelude.{◌≡◌, ◌⊎◌, None, Some, IfErr, IfOk};
ghost use Rattle.gang_model.specs.declared.refusals.SourceRefusal.{SourceRefusal};
ghost use Rattle.gang_model.specs.Types.Resolved.{program_of};
ghost use Rattle.gang_model.specs.Types.SourceRefusals.{names_refusal, types_refusal};
ghost use Rattle.source_answers.specs.declared.fault.SourceFault.TheVariants.{Memory, Refused};
ghost use Rattle.source_tree.specs.Tree.{tree_view};
ghost use Rattle.typed_tree.specs.Views.{program_view};
ghost use Rattle.type_check_functions.specs.Bodies.{AreVariablesOf};

use crate::typed::typed_program;
use ispc_names::Named;
use source_answers::SourceFault;
use source_tree::Tree;
use std::alloc::Global;
use std::marker::Model;
use typed_tree::Program;

/// A tree without faults of names and types, with its typed program. Its value is the tree.
#[derive(Drop)]
pub struct Checked {
    tree: Tree,
    program: Program,
}

impl Model for Checked {
    ghost use Rattle.std.specs.Prelude.{◌≡◌, None, Some};
    ghost use Rattle.std.specs.Coded.{codes};
    ghost use Rattle.gang_model.specs.Types.Resolved.{program_of};
    ghost use Rattle.gang_model.specs.Types.SourceRefusals.{names_refusal};
    ghost use Rattle.source_tree.specs.contracts.tree.Item as item;
    ghost use Rattle.source_tree.specs.declared.tree.Tree as declared;
    ghost use Rattle.source_tree.specs.Tree.{tree_view};
    ghost use Rattle.typed_tree.specs.Views.{program_view};
    ghost use Rattle.type_check_functions.specs.Bodies.{AreVariablesOf};

    ghost Value = { declared.Tree };

    ghost coded = { Prim.hlevel (codes, item.the_row.coded) };

    ghost view = { λ c. c.tree };

    ghost invariant = { λ c. (names_refusal (tree_view c.tree) ≡ None) × (program_of (tree_view c.tree) ≡ Some (program_view c.program))
        × AreVariablesOf (tree_view c.tree) c.program.functions.items };
}

impl Checked {
    /// The tree.
    pub fn tree(&self) -> &Tree
        ensures value { result.now ≡ self.now }
        ensures named { names_refusal (tree_view self.now) ≡ None }
        ensures typed { types_refusal (tree_view self.now) ≡ None }
    {
        &self.tree
    }

    /// The typed program.
    pub fn program(&self) -> &Program
        ensures program { program_of (tree_view self.now) ≡ Some (program_view result.now) }
        ensures variables { AreVariablesOf (tree_view self.now) result.now.functions.items }
    {
        &self.program
    }

    /// The typed program, without the tree.
    pub fn into_program(self) -> Program
        ensures program { program_of (tree_view self) ≡ Some (program_view result) }
        ensures variables { AreVariablesOf (tree_view self) result.functions.items }
    {
        self.program
    }
}

/// The tree with its typed program, where it has no fault of types.
///
/// # Errors
///
/// The first fault of types: S7, S8, S9 or S10 with its place. Out of memory.
pub fn check(alloc: Global, named: Named) -> Result<Checked, SourceFault>
    ensures checked { IfOk result (λ checked. (checked ≡ named) × (types_refusal (tree_view named) ≡ None)) }
    ensures refused { IfErr result (λ fault. (fault ≡ Memory)
        ⊎ ((refusal : SourceRefusal) × (fault ≡ Refused refusal) × (types_refusal (tree_view named) ≡ Some refusal))) }
{
    let (tree, tables) = named.into_parts();
    let program = typed_program(alloc, &tree, tables)?;
    Ok(Checked { tree, program })
}
