//! The labels of a `switch`.
ghost use Rattle.std.specs.Prelude.{◌≡◌};
ghost use Rattle.ispc_lexer.specs.Views.{lexemes_of};
ghost use Rattle.ispc_parser_words.specs.Front.{Gives};
ghost use Rattle.ispc_parser_heads.specs.Labels as spec;

use gang_model::{Label, Mark};
use gang_types::Place;
use ispc_lexer::Token;
use ispc_parser_shared::{Read, number, take_at};
use ispc_parser_words::{after, begins, take};

/// A number behind a minus.
#[tactic(auto, unfolding(crate::specs::Labels::signed_of))]
fn signed(is_negative: bool, tokens: &[Token], end: Place) -> Read<'_, Label>
    ensures { Gives (λ x. (x.0, lexemes_of x.1.now)) result
        (spec.signed_of is_negative (lexemes_of tokens.now)) }
{
    let (number, rest) = number(tokens, end)?;
    let label = Label {
        is_negative,
        value: number.value,
    };
    Ok((label, rest))
}

/// The whole number behind `case`.
#[tactic(auto, unfolding(crate::specs::Labels::whole_of))]
fn whole(tokens: &[Token], end: Place) -> Read<'_, Label>
    ensures { Gives (λ x. (x.0, lexemes_of x.1.now)) result
        (spec.whole_of (lexemes_of tokens.now)) }
{
    match after(Mark::Minus, tokens) {
        Some(rest) => signed(true, rest, end),
        None => signed(false, tokens, end),
    }
}

#[tactic(auto, unfolding(crate::specs::Labels::case_of))]
fn case(tokens: &[Token], end: Place) -> Read<'_, (Place, Option<Label>)>
    ensures { Gives (λ x. (x.0, lexemes_of x.1.now)) result
        (spec.case_of (lexemes_of tokens.now)) }
{
    let (place, rest) = take_at(Mark::Case, tokens, end)?;
    let (number, rest) = whole(rest, end)?;
    let rest = take(Mark::Colon, rest, end)?;
    Ok(((place, Some(number)), rest))
}

#[tactic(auto, unfolding(crate::specs::Labels::default_of))]
fn default(tokens: &[Token], end: Place) -> Read<'_, (Place, Option<Label>)>
    ensures { Gives (λ x. (x.0, lexemes_of x.1.now)) result
        (spec.default_of (lexemes_of tokens.now)) }
{
    let (place, rest) = take_at(Mark::Default, tokens, end)?;
    let rest = take(Mark::Colon, rest, end)?;
    Ok(((place, None), rest))
}

/// `case` with its number, or `default`, and the colon: the place of its word, and the number.
///
/// # Errors
///
/// S3 at the first token that nothing goes on with there, or at the end.
#[tactic(auto, unfolding(crate::specs::Labels::label_of))]
pub fn label(tokens: &[Token], end: Place) -> Read<'_, (Place, Option<Label>)>
    ensures { Gives (λ x. (x.0, lexemes_of x.1.now)) result
        (spec.label_of (lexemes_of tokens.now)) }
{
    if begins(Mark::Default, tokens) {
        default(tokens, end)
    } else {
        case(tokens, end)
    }
}

/// Whether a label begins so.
pub fn begins_label(tokens: &[Token]) -> bool
    ensures { result ≡ spec.begins_label (lexemes_of tokens.now) }
{
    begins(Mark::Case, tokens) || begins(Mark::Default, tokens)
}
