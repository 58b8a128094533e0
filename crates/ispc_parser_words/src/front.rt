//! What stands at the front of the tokens, and refusals there.
ghost use Rattle.std.specs.Prelude.{◌≡◌, option_map};
ghost use Rattle.ispc_lexer.specs.Views.{sort_of, lexemes_of};
ghost use Rattle.ispc_parser_words.specs.Front as spec;
ghost use Rattle.ispc_parser_words.specs.Front.{Gives};

use gang_model::{Mark, RefusalNumber, SourceRefusal};
use gang_types::Place;
use ispc_lexer::{Kind, Token};
use source_answers::SourceFault;

fn is_mark(mark: Mark, kind: &Kind) -> bool
    ensures { result ≡ spec.is_mark mark (sort_of kind.now) }
{
    match kind {
        Kind::Mark(found) => *found == mark,
        _ => false,
    }
}

/// Whether this mark stands first.
pub fn begins(mark: Mark, tokens: &[Token]) -> bool
    ensures { result ≡ spec.begins mark (lexemes_of tokens.now) }
{
    match tokens {
        [] => false,
        [first, ..] => is_mark(mark, &first.kind),
    }
}

/// The tokens after this mark, where it stands first.
#[tactic(auto, unfolding(crate::specs::Front::take))]
pub fn after(mark: Mark, tokens: &[Token]) -> Option<&[Token]>
    ensures { option_map (λ rest. lexemes_of rest.now) result ≡ spec.take mark (lexemes_of tokens.now) }
{
    match tokens {
        [] => None,
        [first, rest @ ..] => {
            if is_mark(mark, &first.kind) {
                Some(rest)
            } else {
                None
            }
        }
    }
}

/// The tokens after this mark.
///
/// # Errors
///
/// S3 at what stands first in its place, or at the end.
pub fn take(mark: Mark, tokens: &[Token], end: Place) -> Result<&[Token], SourceFault>
    ensures { Gives (λ rest. lexemes_of rest.now) result (spec.take mark (lexemes_of tokens.now)) }
{
    match after(mark, tokens) {
        Some(rest) => Ok(rest),
        None => Err(unexpected(tokens, end)),
    }
}

/// S3 at the first of the tokens, or at the end of the source where there is none.
pub fn unexpected(tokens: &[Token], end: Place) -> SourceFault
    ensures { result ≡ spec.unexpected_at (lexemes_of tokens.now) end }
{
    refused(RefusalNumber::S3, place_of(tokens, end))
}

/// A refusal of this number at this place.
pub fn refused(number: RefusalNumber, place: Place) -> SourceFault
    ensures { result ≡ SourceFault.Refused (record { number = number; place = place }) }
{
    SourceFault::Refused(SourceRefusal { number, place })
}

/// Where the first of the tokens stands, or the end of the source where there is none.
pub fn place_of(tokens: &[Token], end: Place) -> Place
    ensures { result ≡ spec.first_place (lexemes_of tokens.now) end }
{
    match tokens {
        [] => end,
        [first, ..] => first.place,
    }
}
