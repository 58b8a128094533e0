//! Calls of a program's functions.
ghost use Rattle.std.specs.Prelude.{◌≡◌, map};
ghost use Rattle.ispc_lexer.specs.Views.{lexeme_of, lexemes_of, sort_of};
ghost use Rattle.typed_tree.specs.Views.{function_view};
ghost use Rattle.placed_expressions.specs.Refusals as spec;

use gang_types::Place;
use ispc_lexer::{Kind, Token};
use typed_tree::Function;

/// Whether the token at a place is the name of one of these functions.
pub(crate) fn is_function_at(functions: &[Function], tokens: &[Token], place: Place) -> bool
    ensures { result ≡ spec.is_function_at (map function_view functions.now) (lexemes_of tokens.now) place }
{
    for token in tokens {
        if is_named_at(functions, token, place) {
            return true;
        }
    }
    false
}

/// Whether a token stands at a place and is the name of one of these functions.
fn is_named_at(functions: &[Function], token: &Token, place: Place) -> bool
    ensures { result ≡ spec.is_named_at (map function_view functions.now) place (lexeme_of token.now) }
{
    token.place == place && names_function(functions, &token.kind)
}

/// Whether a token is the name of one of these functions.
fn names_function(functions: &[Function], kind: &Kind) -> bool
    ensures { result ≡ spec.names_function (map function_view functions.now) (sort_of kind.now) }
{
    match kind {
        Kind::Name(name) => is_function(functions, name),
        Kind::Number(_) | Kind::Mark(_) => false,
    }
}

/// Whether one of these functions has this name.
fn is_function(functions: &[Function], name: &[u8]) -> bool
    ensures { result ≡ spec.is_function (map function_view functions.now) name.now }
{
    for function in functions {
        if function.name.as_slice() == name {
            return true;
        }
    }
    false
}
