//! What stands at the front of the tokens, and refusals there.
ghost use Rattle.std.specs.Prelude.{◌≡◌, IfOk};
ghost use Rattle.ispc_lexer.specs.Views.{lexemes_of};
ghost use Rattle.ispc_parser_words.specs.Front.{Gives, first_place};
ghost use Rattle.ispc_parser_shared.specs.Front as spec;
ghost use Rattle.ispc_parser_shared.specs.Front.{name_view, digits_view};

use gang_model::{Mark, RefusalNumber, SourceRefusal};
use gang_types::Place;
use ispc_lexer::{Kind, Number, Token};
use ispc_parser_words::{begins, take, unexpected};
use source_answers::SourceFault;
use std::alloc::{AllocError, Global};

/// What was read, and the tokens after it.
pub type Read<'a, T> = Result<(T, &'a [Token]), SourceFault>;

/// What does not change while a source is read: where memory comes from, and where the source ends.
#[derive(Clone, Copy, Drop)]
pub struct Context {
    pub alloc: Global,
    pub end: Place,
}

/// A name and where it stands.
#[derive(Drop)]
pub struct Identifier {
    pub place: Place,
    pub text: Vec<u8>,
}

/// A refusal at the first of the tokens, or at the end of the source where there is none.
pub fn refused_at(number: RefusalNumber, tokens: &[Token], end: Place) -> SourceFault
    ensures { result ≡ SourceFault.Refused (record { number = number; place = first_place (lexemes_of tokens.now) end }) }
{
    let place = match tokens {
        [] => end,
        [first, ..] => first.place,
    };
    SourceFault::Refused(SourceRefusal { number, place })
}

/// How many nestings are left inside the one that opens at the first of the tokens.
fn deeper(depth: u32, tokens: &[Token], end: Place) -> Result<u32, SourceFault>
    ensures { Gives (λ inner. inner) result (spec.deeper depth) }
{
    if depth == 0 {
        Err(refused_at(RefusalNumber::S4, tokens, end))
    } else {
        Ok(depth - 1)
    }
}

/// Behind a mark that opens a nesting, with how many are left inside it.
///
/// # Errors
///
/// S3 at what stands first in its place, or at the end; S4 at the mark where no nesting is left.
#[tactic(auto, unfolding(crate::specs::Front::enter))]
pub fn enter(mark: Mark, depth: u32, tokens: &[Token], end: Place) -> Read<'_, u32>
    ensures { Gives (λ x. (x.0, lexemes_of x.1.now)) result
        (spec.enter mark depth (lexemes_of tokens.now)) }
{
    let rest = take(mark, tokens, end)?;
    let inner = deeper(depth, tokens, end)?;
    Ok((inner, rest))
}

/// A mark's place, and the tokens after it.
///
/// # Errors
///
/// S3 at what stands first in its place, or at the end.
#[tactic(auto, unfolding(crate::specs::Front::take_at))]
pub fn take_at(mark: Mark, tokens: &[Token], end: Place) -> Read<'_, Place>
    ensures { Gives (λ x. (x.0, lexemes_of x.1.now)) result
        (spec.take_at mark (lexemes_of tokens.now)) }
{
    match tokens {
        [] => Err(unexpected(tokens, end)),
        [first, rest @ ..] => {
            if begins(mark, tokens) {
                Ok((first.place, rest))
            } else {
                Err(unexpected(tokens, end))
            }
        }
    }
}

/// A name with a copy of its bytes.
///
/// # Errors
///
/// Out of memory.
pub fn copied_name(alloc: Global, place: Place, text: &[u8]) -> Result<Identifier, AllocError>
    ensures { IfOk result (λ n. name_view n ≡ (place, text.now)) }
{
    let text = text.to_vec(alloc)?;
    Ok(Identifier { place, text })
}

/// A name, whose bytes are copied.
///
/// # Errors
///
/// S3 at what stands first in its place, or at the end. Out of memory.
#[tactic(auto, unfolding(crate::specs::Front::name_of))]
pub fn name(context: Context, tokens: &[Token]) -> Read<'_, Identifier>
    ensures { Gives (λ x. (name_view x.0, lexemes_of x.1.now)) result
        (spec.name_of (lexemes_of tokens.now)) }
{
    match tokens {
        [] => Err(unexpected(tokens, context.end)),
        [first, rest @ ..] => match &first.kind {
            Kind::Name(text) => Ok((copied_name(context.alloc, first.place, text)?, rest)),
            _ => Err(unexpected(tokens, context.end)),
        },
    }
}

/// A number with its suffix.
///
/// # Errors
///
/// S3 at what stands first in its place, or at the end.
#[tactic(auto, unfolding(crate::specs::Front::number_of))]
pub fn number(tokens: &[Token], end: Place) -> Read<'_, Number>
    ensures { Gives (λ x. (digits_view x.0, lexemes_of x.1.now)) result
        (spec.number_of (lexemes_of tokens.now)) }
{
    match tokens {
        [] => Err(unexpected(tokens, end)),
        [first, rest @ ..] => match first.kind {
            Kind::Number(number) => Ok((number, rest)),
            _ => Err(unexpected(tokens, end)),
        },
    }
}
