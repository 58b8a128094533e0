//! The piece of a source that begins here: a blank, a comment, a word or a mark.
ghost use Rattle.std.specs.Prelude.{◌≡◌, ◌≤◌, length, IfOk, IfSome, IsTrue, option_map};
ghost use Rattle.ispc_lexer.specs.Pieces as spec;
ghost use Rattle.ispc_lexer.specs.Steps.{step_view};
ghost use Rattle.ispc_lexer.specs.Views.{sort_of};

use crate::letters::{is_blank, is_digit, is_word, line_len, word_len};
use crate::marks::{longest_mark, reserved, text_of};
use crate::numbers::number_of;
use crate::token::Kind;
use std::alloc::{AllocError, Global};

/// A piece: its token, if it is no blank and no comment, and how many bytes it has.
#[derive(Drop)]
pub struct Step {
    pub kind: Option<Kind>,
    pub len: usize,
}

#[tactic(auto, unfolding(crate::specs::Pieces::begins_close))]
fn begins_close(bytes: &[u8]) -> bool
    ensures value { result ≡ spec.begins_close bytes.now }
    ensures within { IsTrue result → 2 ≤ length bytes.now }
{
    bytes.starts_with(b"*/")
}

/// How many bytes a comment has behind its `/*`.
fn comment_len(bytes: &[u8]) -> Option<usize>
    ensures value { result ≡ spec.closed_at bytes.now }
    ensures within { IfSome result (λ n. (2 ≤ n) × (n ≤ length bytes.now)) }
{
    for i in 0..bytes.len() {
        if begins_close(&bytes[i..]) {
            return Some(i + 2);
        }
    }
    None
}

#[tactic(auto, unfolding(crate::specs::Pieces::word_of))]
fn word(alloc: Global, text: &[u8]) -> Result<Option<Kind>, AllocError>
    ensures value { IfOk result (λ o. option_map sort_of o ≡ spec.word_of text.now) }
{
    match text {
        [] => Ok(None),
        [first, ..] if is_digit(*first) => Ok(number_of(text).map(Kind::Number)),
        _ => match reserved(text) {
            Some(mark) => Ok(Some(Kind::Mark(mark))),
            None => Ok(Some(Kind::Name(Vec::from_slice(alloc, text)?))),
        },
    }
}

#[tactic(auto, unfolding(crate::specs::Pieces::mark_piece))]
fn mark_step(bytes: &[u8]) -> Option<Step>
    ensures { option_map step_view result ≡ option_map spec.shape (spec.mark_piece bytes.now) }
{
    let mark = longest_mark(bytes)?;
    Some(Step {
        kind: Some(Kind::Mark(mark)),
        len: text_of(mark).len(),
    })
}

#[tactic(auto, unfolding(crate::specs::Pieces::comment_or_mark))]
fn comment_or_mark(bytes: &[u8]) -> Option<Step>
    ensures { option_map step_view result ≡ option_map spec.shape (spec.comment_or_mark bytes.now) }
{
    if bytes.starts_with(b"//") {
        let len = line_len(&bytes[2..]);
        return Some(Step {
            kind: None,
            len: 2 + len,
        });
    }
    if bytes.starts_with(b"/*") {
        let len = comment_len(&bytes[2..])?;
        return Some(Step {
            kind: None,
            len: 2 + len,
        });
    }
    mark_step(bytes)
}

/// The piece at the front, if one can be taken there.
///
/// # Errors
///
/// Out of memory.
#[tactic(auto, unfolding(crate::specs::Pieces::piece_of))]
pub fn first_step(alloc: Global, bytes: &[u8]) -> Result<Option<Step>, AllocError>
    ensures value { IfOk result (λ o. option_map step_view o ≡ option_map spec.shape (spec.piece_of bytes.now)) }
{
    match bytes {
        [] => Ok(None),
        [first, ..] => {
            if is_blank(*first) {
                return Ok(Some(Step { kind: None, len: 1 }));
            }
            if !is_word(*first) {
                return Ok(comment_or_mark(bytes));
            }
            let len = word_len(bytes);
            Ok(word(alloc, &bytes[..len])?.map(|kind| Step {
                kind: Some(kind),
                len,
            }))
        }
    }
}
