//! The words before a name, where they fit nothing that may be declared there.
ghost use Rattle.std.specs.Prelude.{◌≡◌};
ghost use Rattle.ispc_lexer.specs.Views.{lexemes_of};
ghost use Rattle.ispc_parser_words.specs.Front.{Gives};
ghost use Rattle.ispc_parser_shared.specs.SpecWords as spec;
ghost use Rattle.ispc_parser_shared.specs.Refusals.{IsSooner};

use crate::front::{Context, Read};
use gang_model::{Mark, RefusalNumber, SourceRefusal, Spec};
use gang_types::Place;
use ispc_lexer::{Kind, Token};
use ispc_parser_words::{spec_words, take_spec};
use source_answers::SourceFault;

/// The first word that stands on no variable of a function.
fn local_misfit(tokens: &[Token]) -> Option<Place> {
    tokens
        .iter()
        .take(spec_words(tokens))
        .find(|token| matches!(
            token.kind,
            Kind::Mark(Mark::Export | Mark::Static | Mark::Inline)
        ))
        .map(|token| token.place)
}

/// The first word that leaves neither a function nor a file-scope variable: the later one of `const` and of `export`
/// or `inline`.
fn outer_misfit(tokens: &[Token]) -> Option<Place> {
    let mut is_constant = false;
    let mut is_function = false;
    for token in tokens.iter().take(spec_words(tokens)) {
        match token.kind {
            Kind::Mark(Mark::Const) => is_constant = true,
            Kind::Mark(Mark::Export | Mark::Inline) => is_function = true,
            _ => {}
        }
        if is_constant && is_function {
            return Some(token.place);
        }
    }
    None
}

fn unexpected_at(place: Place) -> SourceFault
    ensures { result ≡ SourceFault.Refused (record { number = RefusalNumber.S3; place = place }) }
{
    SourceFault::Refused(SourceRefusal {
        number: RefusalNumber::S3,
        place,
    })
}

/// The fault, or S3 at the misfit where that stands before it.
fn sooner(fault: SourceFault, misfit: Option<Place>) -> SourceFault
    ensures { IsSooner fault result }
{
    match fault {
        SourceFault::Memory => fault,
        SourceFault::Refused(refusal) => match misfit {
            Some(place) if (place.line, place.col) < (refusal.place.line, refusal.place.col) =>
                unexpected_at(place),
            _ => fault,
        },
    }
}

fn is_local(words: Spec) -> bool
    ensures { result ≡ spec.is_local words }
{
    !(words.is_exported || words.is_static || words.is_inline)
}

/// The words before the name of a variable of a function.
///
/// # Errors
///
/// S3 at the first word or token that fits nothing there, or at the end.
#[tactic(auto, unfolding(crate::specs::SpecWords::local_spec_of))]
pub fn local_spec(context: Context, tokens: &[Token]) -> Read<'_, Spec>
    ensures { Gives (λ x. (x.0, lexemes_of x.1.now)) result
        (spec.local_spec_of (lexemes_of tokens.now)) }
{
    let misfit = local_misfit(tokens);
    match take_spec(tokens, context.end) {
        Ok((spec, rest)) => {
            if is_local(spec) {
                Ok((spec, rest))
            } else {
                Err(unexpected_at(misfit.unwrap_or(context.end)))
            }
        }
        Err(fault) => Err(sooner(fault, misfit)),
    }
}

fn is_outer(words: Spec) -> bool
    ensures { result ≡ spec.is_outer words }
{
    !(words.is_constant && (words.is_exported || words.is_inline))
}

/// The words before the name of a function or a file-scope variable.
///
/// # Errors
///
/// S3 at the first word or token that fits nothing there, or at the end.
#[tactic(auto, unfolding(crate::specs::SpecWords::outer_spec_of))]
pub fn outer_spec(context: Context, tokens: &[Token]) -> Read<'_, Spec>
    ensures { Gives (λ x. (x.0, lexemes_of x.1.now)) result
        (spec.outer_spec_of (lexemes_of tokens.now)) }
{
    let misfit = outer_misfit(tokens);
    match take_spec(tokens, context.end) {
        Ok((spec, rest)) => {
            if is_outer(spec) {
                Ok((spec, rest))
            } else {
                Err(unexpected_at(misfit.unwrap_or(context.end)))
            }
        }
        Err(fault) => Err(sooner(fault, misfit)),
    }
}
