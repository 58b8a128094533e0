//! Calls that stand whole.
ghost use Rattle.std.specs.Prelude.{◌≡◌, map, option_map};
ghost use Rattle.source_tree.specs.Expressions.{expr_view};
ghost use Rattle.std.specs.List.{list_any};
ghost use Rattle.gang_model.specs.Types.Calls as calls;
ghost use Rattle.gang_model.specs.Source.Names.{same_text};
ghost use Rattle.source_tree.specs.Tree.{function_view};
ghost use Rattle.type_check_calls.specs.Calls.{whole_call_view};

use gang_types::Place;
use ispc_names_scopes::{is_same, statement_call};
use source_tree::{Arg, Expr, Function};

/// A call with its name's place.
#[derive(Clone, Copy, Drop)]
pub struct WholeCall<'a> {
    pub place: Place,
    pub name: &'a [u8],
    pub args: &'a [Arg],
}

fn is_function_name(functions: &[&Function], name: &[u8]) -> bool
    ensures { result ≡ list_any (λ f. same_text (function_view f.now).name name.now) functions.now }
{
    functions
        .iter()
        .any(|function| is_same(&function.name, name))
}

/// Whether a name is that of a user's function or of a statement call of the library.
fn gives_value(functions: &[&Function], name: &[u8]) -> bool
    ensures { result ≡ calls.gives_value (map (λ f. function_view f.now) functions.now) name.now }
{
    is_function_name(functions, name) || statement_call(name).is_some()
}

/// The call that an expression is, parentheses left out, if it may not stand inside an expression.
pub fn whole_call<'a>(functions: &[&Function], expr: &'a Expr) -> Option<WholeCall<'a>>
    ensures { option_map whole_call_view result ≡ calls.whole_call (map (λ f. function_view f.now) functions.now) (expr_view expr.now) }
{
    match expr {
        Expr::Paren { inner, .. } => whole_call(functions, inner),
        Expr::Call { place, name, args } if gives_value(functions, name) => Some(WholeCall {
            place: *place,
            name,
            args,
        }),
        _ => None,
    }
}
