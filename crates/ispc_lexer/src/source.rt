//! A whole source, piece by piece.
ghost use Rattle.std.specs.Prelude.{◌≡◌, ◌+◌, ◌≤◌, ◌<◌, ◌^◌, ◌++◌, [], ◌∷◌, List, length, IfOk, IfErr};
ghost use Rattle.gang_model.specs.Source.Tokens.{Lexeme};
ghost use Rattle.gang_model.specs.Source.Lexes.{Lexes, first_place, max_source, fault_at as number_of_fault};
ghost use Rattle.ispc_lexer.specs.Refusal.{IsRefusal};
ghost use Rattle.ispc_lexer.specs.Source as spec;
ghost use Rattle.ispc_lexer.specs.Steps.{step_view};
ghost use Rattle.ispc_lexer.specs.Views.{lexeme_of, lexemes_of};

use crate::letters::is_digit;
use crate::pieces::{Step, first_step};
use crate::places::{FIRST, place_after};
use crate::token::Token;
use gang_model::{RefusalNumber, SourceRefusal};
use gang_types::Place;
use source_answers::SourceFault;
use std::alloc::{AllocError, Global};

const MAX_SOURCE: usize = 65536;

fn push(tokens: &mut Vec<Token>, token: Token) -> Result<(), AllocError>
    ensures value { IfOk result (λ _. lexemes_of tokens.new.items ≡ lexemes_of tokens.old.items ++ lexeme_of token ∷ []) }
{
    tokens.push(token)?;
    Ok(())
}

/// Puts the step's token at the end, if it has one.
fn add(tokens: &mut Vec<Token>, step: Step, start: usize, place: Place) -> Result<(), AllocError>
    requires { start + step.len < 2 ^ 64 }
    ensures value { IfOk result (λ _. lexemes_of tokens.new.items ≡ lexemes_of tokens.old.items ++ spec.lexeme_at (step_view step) start place) }
{
    let end = start + step.len;
    match step.kind {
        Some(kind) => push(
            tokens,
            Token {
                kind,
                start,
                end,
                place,
            },
        ),
        None => Ok(()),
    }
}

/// Which refusal it is that no piece can be taken here.
fn fault_at(bytes: &[u8]) -> RefusalNumber
    ensures { result ≡ number_of_fault bytes.now }
{
    match bytes {
        [first, ..] if is_digit(*first) => RefusalNumber::S2,
        _ => RefusalNumber::S1,
    }
}

fn read(alloc: Global, source: &[u8]) -> Result<Vec<Token>, SourceFault>
    requires { length source.now ≤ max_source }
    ensures { spec.Gives (λ v. lexemes_of v.items) result (spec.lexed (length source.now) 0 first_place source.now) }
{
    let mut tokens = Vec::new(alloc);
    let mut place = FIRST;
    let mut start = 0;
    let mut rest = source;
    while !rest.is_empty() {
        let Some(step) = first_step(alloc, rest)? else {
            let number = fault_at(rest);
            return Err(SourceFault::Refused(SourceRefusal { number, place }));
        };
        let len = step.len;
        add(&mut tokens, step, start, place)?;
        let (front, after) = rest.split_at(len);
        place = place_after(place, front);
        start += len;
        rest = after;
    }
    Ok(tokens)
}

/// The tokens of the source, from its first byte to its last: blanks and comments are none.
///
/// # Errors
///
/// S13 at 1:1 for a source of more than 65,536 bytes, and else the first place where no token, blank or comment can be read: S2
/// at a number that is none, S1 at any other byte. Out of memory.
pub fn tokens(alloc: Global, source: &[u8]) -> Result<Vec<Token>, SourceFault>
    // The source is spelled by these tokens.
    ensures found { IfOk result (λ v. (length source.now ≤ max_source) × Lexes source.now (lexemes_of v.items)) }
    // No others spell it.
    ensures one { IfOk result (λ v. (others : List Lexeme) → Lexes source.now others → others ≡ lexemes_of v.items) }
    // Of a source of this size a refusal is the one first fault, and no tokens spell it.
    ensures refused { IfErr result (IsRefusal source.now) }
{
    if source.len() > MAX_SOURCE {
        return Err(SourceFault::Refused(SourceRefusal {
            number: RefusalNumber::S13,
            place: FIRST,
        }));
    }
    read(alloc, source)
}
