//! The words of a spec.
ghost use Rattle.std.specs.Prelude.{◌≡◌, Bool, true, false, Some, length, option_map};
ghost use Rattle.ispc_lexer.specs.Views.{sort_of, lexemes_of};
ghost use Rattle.gang_model.specs.Source.Specs as model;
ghost use Rattle.ispc_parser_words.specs.Front.{Gives};
ghost use Rattle.ispc_parser_words.specs.Words as spec;
ghost use Rattle.ispc_parser_words.specs.Said as said_words;
ghost use Rattle.ispc_parser_words.specs.Said.{said_at};

use crate::front::unexpected;
use gang_model::{Mark, Spec};
use gang_types::{IntType, Place, Rate};
use ispc_lexer::{Kind, Token};
use source_answers::SourceFault;

/// What the words read so far say.
#[derive(Clone, Copy, Drop)]
struct Words {
    is_cast: bool,
    is_exported: bool,
    is_static: bool,
    is_inline: bool,
    is_constant: bool,
    rate: Option<Rate>,
    is_unsigned: bool,
    type_word: Option<Mark>,
}

fn is_type_word(mark: Mark) -> bool
    ensures { result ≡ model.is_type_word mark }
{
    matches!(
        mark,
        Mark::Unsigned
            | Mark::Void
            | Mark::Bool
            | Mark::Int
            | Mark::Int8
            | Mark::Int16
            | Mark::Int32
            | Mark::Int64
            | Mark::Uint
            | Mark::Uint8
            | Mark::Uint16
            | Mark::Uint32
            | Mark::Uint64
    )
}

fn is_spec_word(mark: Mark) -> bool
    ensures { result ≡ model.is_spec_word mark }
{
    match mark {
        Mark::Export | Mark::Static | Mark::Inline => true,
        Mark::Const | Mark::Uniform | Mark::Varying => true,
        _ => is_type_word(mark),
    }
}

fn spec_word(kind: &Kind) -> Option<Mark>
    ensures { result ≡ spec.spec_word (sort_of kind.now) }
{
    match kind {
        Kind::Mark(mark) if is_spec_word(*mark) => Some(*mark),
        _ => None,
    }
}

/// Whether a word of a spec stands first.
pub fn begins_word(tokens: &[Token]) -> bool
    ensures { result ≡ spec.begins_word (lexemes_of tokens.now) }
{
    match tokens {
        [] => false,
        [first, ..] => spec_word(&first.kind).is_some(),
    }
}

/// The first token, where it is a word of a spec, and the tokens after it.
fn next_word(tokens: &[Token]) -> Option<(Mark, &[Token])>
    ensures { option_map (λ x. (x.0, lexemes_of x.1.now)) result ≡ spec.next_word (lexemes_of tokens.now) }
{
    match tokens {
        [] => None,
        [first, rest @ ..] => {
            let word = spec_word(&first.kind)?;
            Some((word, rest))
        }
    }
}

/// How many words of a spec stand first, one after another.
#[tactic(auto)]
pub fn spec_words(tokens: &[Token]) -> usize
    ensures { result ≡ length (spec.words_of (lexemes_of tokens.now)) }
{
    let mut count = 0;
    let mut rest = tokens;
    while let Some((_, after)) = next_word(rest) {
        count += 1;
        rest = after;
    }
    count
}

/// The spec that stands first, its words in any order, and the tokens after it.
///
/// # Errors
///
/// S3 at the first word that cannot stand where it does, or after the words where they name no type.
pub fn take_spec(tokens: &[Token], end: Place) -> Result<(Spec, &[Token]), SourceFault>
    ensures { Gives (λ x. (x.0, lexemes_of x.1.now)) result (spec.spec_at (lexemes_of tokens.now)) }
{
    words_from(false, tokens, end)
}

/// The rate and the type of a cast, which stand first, and the tokens after them.
///
/// # Errors
///
/// S3 as [`take_spec`] has it, and at a word that a cast cannot have.
pub fn take_cast_spec(
    tokens: &[Token],
    end: Place,
) -> Result<(Option<Rate>, Option<IntType>, &[Token]), SourceFault>
    ensures { Gives (λ x. ((x.0, x.1), lexemes_of x.2.now)) result (spec.cast_spec_at (lexemes_of tokens.now)) }
{
    let (spec, rest) = words_from(true, tokens, end)?;
    Ok((spec.rate, spec.value_type, rest))
}

/// What the words say that stand first.
fn words_from(is_cast: bool, tokens: &[Token], end: Place) -> Result<(Spec, &[Token]), SourceFault>
    ensures { Gives (λ x. (x.0, lexemes_of x.1.now)) result (said_at is_cast (lexemes_of tokens.now)) }
{
    let mut words = no_words(is_cast);
    let mut rest = tokens;
    while let Some((word, after)) = next_word(rest) {
        let Some(more) = with_word(words, word) else {
            return Err(unexpected(rest, end));
        };
        words = more;
        rest = after;
    }
    match said(words) {
        Some(spec) => Ok((spec, rest)),
        None => Err(unexpected(rest, end)),
    }
}

fn no_words(is_cast: bool) -> Words
    ensures { result ≡ said_words.no_words is_cast }
{
    Words {
        is_cast,
        is_exported: false,
        is_static: false,
        is_inline: false,
        is_constant: false,
        rate: None,
        is_unsigned: false,
        type_word: None,
    }
}

/// The type that a word names, `None` being `void`.
fn type_named(word: Mark) -> Option<Option<IntType>>
    ensures { result ≡ model.type_named word }
{
    match word {
        Mark::Void => Some(None),
        Mark::Bool => Some(Some(IntType::Bool)),
        Mark::Int8 => Some(Some(IntType::Int8)),
        Mark::Int16 => Some(Some(IntType::Int16)),
        Mark::Int | Mark::Int32 => Some(Some(IntType::Int32)),
        Mark::Int64 => Some(Some(IntType::Int64)),
        Mark::Uint8 => Some(Some(IntType::Uint8)),
        Mark::Uint16 => Some(Some(IntType::Uint16)),
        Mark::Uint | Mark::Uint32 => Some(Some(IntType::Uint32)),
        Mark::Uint64 => Some(Some(IntType::Uint64)),
        _ => None,
    }
}

/// The type that a word names beside `unsigned`.
fn unsigned_named(word: Mark) -> Option<Option<IntType>>
    ensures { result ≡ model.unsigned_named word }
{
    match word {
        Mark::Int8 => Some(Some(IntType::Uint8)),
        Mark::Int16 => Some(Some(IntType::Uint16)),
        Mark::Int | Mark::Int32 => Some(Some(IntType::Uint32)),
        Mark::Int64 => Some(Some(IntType::Uint64)),
        _ => None,
    }
}

fn with_rate(words: Words, rate: Rate) -> Option<Words>
    ensures { result ≡ said_words.with_rate rate words }
{
    if words.rate.is_some() {
        return None;
    }
    let rate = Some(rate);
    Some(Words { rate, ..words })
}

fn with_unsigned(words: Words) -> Option<Words>
    ensures { result ≡ said_words.with_unsigned words }
{
    let fits = match words.type_word {
        Some(word) => unsigned_named(word).is_some(),
        None => true,
    };
    if words.is_unsigned || !fits {
        return None;
    }
    let is_unsigned = true;
    Some(Words {
        is_unsigned,
        ..words
    })
}

fn with_type(words: Words, word: Mark) -> Option<Words>
    ensures { result ≡ said_words.with_type word words }
{
    let named = if words.is_unsigned {
        unsigned_named(word)
    } else {
        type_named(word)
    };
    if words.type_word.is_some() || named.is_none() {
        return None;
    }
    let type_word = Some(word);
    Some(Words { type_word, ..words })
}

/// One word more, where it may stand.
fn with_word(words: Words, word: Mark) -> Option<Words>
    ensures { result ≡ said_words.with_word word words }
{
    let mut more = words;
    match word {
        Mark::Export if !words.is_cast && !words.is_exported => more.is_exported = true,
        Mark::Static if !words.is_cast && !words.is_static => more.is_static = true,
        Mark::Inline if !words.is_cast && !words.is_inline => more.is_inline = true,
        Mark::Const if !words.is_cast && !words.is_constant => more.is_constant = true,
        Mark::Export | Mark::Static | Mark::Inline | Mark::Const => return None,
        Mark::Uniform => return with_rate(words, Rate::Uniform),
        Mark::Varying => return with_rate(words, Rate::Varying),
        Mark::Unsigned => return with_unsigned(words),
        _ => return with_type(words, word),
    }
    Some(more)
}

/// What the words say, where they name a type.
fn said(words: Words) -> Option<Spec>
    ensures { result ≡ said_words.said words }
{
    let value_type = match (words.is_unsigned, words.type_word) {
        (false, Some(word)) => type_named(word)?,
        (true, Some(word)) => unsigned_named(word)?,
        (true, None) => Some(IntType::Uint32),
        (false, None) => return None,
    };
    Some(Spec {
        is_exported: words.is_exported,
        is_static: words.is_static,
        is_inline: words.is_inline,
        is_constant: words.is_constant,
        rate: words.rate,
        value_type,
    })
}
