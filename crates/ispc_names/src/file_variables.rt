//! The variables of a file, by their names.
ghost use Rattle.std.specs.Prelude.{◌≡◌, option_map};
ghost use Rattle.gang_types.specs.declared.places.VarId.TheVariants.{File};
ghost use Rattle.gang_model.specs.Names.Scope.{declaration, file_scope};
ghost use Rattle.source_tree.specs.Tree.{tree_view};

use source_tree::{Item, Tree};

/// The number of the first file-scope variable of a name: the time is that of a walk over the items of the tree.
pub(crate) fn file_variable(tree: &Tree, name: &[u8]) -> Option<usize>
    ensures { option_map File result ≡ declaration (file_scope (tree_view tree.now)) name.now }
{
    let mut number = 0;
    for item in &tree.items {
        if let Item::Global(variable) = item {
            if variable.name.as_slice() == name {
                return Some(number);
            }
            number += 1;
        }
    }
    None
}
