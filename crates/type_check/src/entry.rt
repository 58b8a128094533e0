//! The function that a run begins with.
ghost use Rattle.std.specs.Prelude.{◌≡◌, option_map};
ghost use Rattle.gang_model.specs.Running.Entry as entry;
ghost use Rattle.source_tree.specs.Tree.{function_view, tree_view};

use crate::checked::Checked;
use gang_types::FuncId;
use ispc_names_scopes::is_same;
use source_tree::{Function, Item};

/// Whether a function has the name that is asked for, if one is.
fn is_asked(function: &Function, name: Option<&[u8]>) -> bool
    ensures { result ≡ entry.is_asked (option_map (λ n. n.now) name.entry) (function_view function.now) }
{
    match name {
        Some(name) => is_same(&function.name, name),
        None => true,
    }
}

/// The first exported function, of the given name if there is one, by its number among the functions of the source.
pub fn entry_of(checked: &Checked, name: Option<&[u8]>) -> Option<FuncId>
    ensures { option_map (λ f. f.0) result ≡ entry.entry_of (tree_view checked.now) (option_map (λ n. n.now) name.entry) }
{
    let mut number = 0;
    for item in &checked.tree().items {
        if let Item::Function(function) = item {
            if function.spec.is_exported && is_asked(function, name) {
                return Some(FuncId(number));
            }
            number += 1;
        }
    }
    None
}
