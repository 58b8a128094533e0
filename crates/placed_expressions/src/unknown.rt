//! Indices of names that nothing has.
ghost use Rattle.std.specs.Prelude.{◌≡◌};
ghost use Rattle.ispc_lexer.specs.Views.{lexemes_of, sort_of};
ghost use Rattle.placed_expressions.specs.Refusals as spec;

use gang_model::{Mark, RefusalNumber, SourceRefusal};
use gang_types::Place;
use ispc_lexer::{Kind, Token};
use ispc_parser_words::begins;
use type_check_scopes::{TypeScope, built_in};

/// A fault as it is told: S5 in place of S8 where a name is indexed that nothing in scope has.
pub(crate) fn told(scope: &TypeScope, tokens: &[Token], fault: SourceRefusal) -> SourceRefusal
    ensures { result ≡ spec.told scope.now.entries (lexemes_of tokens.now) fault }
{
    let place = fault.place;
    let is_unknown = indexes_unknown(scope, tokens, place);
    SourceRefusal {
        number: told_number(fault.number, is_unknown),
        place,
    }
}

/// The number that is told of a fault, by whether a name is indexed there that nothing has.
fn told_number(number: RefusalNumber, is_unknown: bool) -> RefusalNumber
    ensures { result ≡ spec.told_number number is_unknown }
{
    match (number, is_unknown) {
        (RefusalNumber::S8, true) => RefusalNumber::S5,
        _ => number,
    }
}

/// Whether a name that nothing has is indexed at a place.
fn indexes_unknown(scope: &TypeScope, tokens: &[Token], place: Place) -> bool
    ensures { result ≡ spec.indexes_unknown scope.now.entries (lexemes_of tokens.now) place }
{
    for number in 0..tokens.len() {
        if begins_unknown(scope, &tokens[number..], place) {
            return true;
        }
    }
    false
}

/// Whether a name that nothing has stands first, at a place, and a `[` behind it.
fn begins_unknown(scope: &TypeScope, tokens: &[Token], place: Place) -> bool
    ensures { result ≡ spec.begins_unknown scope.now.entries place (lexemes_of tokens.now) }
{
    match tokens {
        [] => false,
        [first, behind @ ..] => first.place == place
            && is_unknown(scope, &first.kind)
            && begins(Mark::LeftBracket, behind),
    }
}

/// Whether a token is a name that nothing in scope has, and that is not built in.
fn is_unknown(scope: &TypeScope, kind: &Kind) -> bool
    ensures { result ≡ spec.is_unknown scope.now.entries (sort_of kind.now) }
{
    match kind {
        Kind::Name(name) => scope.find(name).is_none() && built_in(name).is_none(),
        Kind::Number(_) | Kind::Mark(_) => false,
    }
}
