//! From a text to its tokens.
use crate::lists::Tokens;
use crate::marks::mark_end;
use crate::refusals::{PortRefusal, Reason, refusal_at};
use crate::tokens::{Kind, NONE, Span, Token};

/// Puts the tokens of a part of a source behind those that are there, and then one of no text with what stands behind the last.
///
/// # Errors
///
/// A piece that is no token, or out of memory.
pub fn read_tokens(source: &[u8], part: Span, tokens: &mut Tokens) -> Result<(), PortRefusal> {
    let mut from = part.start;
    for _ in part.start..part.end.saturating_add(1) {
        let token = read_token(source, from, part.end)?;
        tokens.push(token)?;
        if token.kind == Kind::Nothing {
            return Ok(());
        }
        from = token.text.end;
    }
    Ok(())
}

/// The token that is next there, or one of no text.
fn read_token(source: &[u8], from: usize, to: usize) -> Result<Token, PortRefusal> {
    let at = blanks_end(source, from, to)?;
    let before = Span {
        start: from,
        end: at,
    };
    if at >= to {
        return Ok(Token {
            before,
            text: NONE,
            at,
            kind: Kind::Nothing,
        });
    }
    let kind = kind_of(byte(source, at));
    let end = piece_end(source, kind, at, to)?;
    Ok(Token {
        before,
        text: Span { start: at, end },
        at,
        kind,
    })
}

/// The byte there, or 0 behind the end.
pub fn byte(source: &[u8], at: usize) -> u8 {
    match source.get(at) {
        Some(byte) => *byte,
        None => 0,
    }
}

/// Where the blanks and comments from there on end.
///
/// # Errors
///
/// A comment that does not end.
pub fn blanks_end(source: &[u8], from: usize, to: usize) -> Result<usize, PortRefusal> {
    let mut at = from;
    for _ in from..to {
        if at >= to {
            break;
        }
        let end = blank_end(source, at, to)?;
        if end == at {
            break;
        }
        at = end;
    }
    Ok(at)
}

/// Where the blank or the comment ends that begins there; there, if none does.
fn blank_end(source: &[u8], at: usize, to: usize) -> Result<usize, PortRefusal> {
    let first = byte(source, at);
    let next = at.saturating_add(1);
    if first == b' ' || first == b'\t' || first == b'\n' || first == b'\r' {
        return Ok(next);
    }
    if first != b'/' {
        return Ok(at);
    }
    match byte(source, next) {
        b'/' => Ok(line_end(source, at, to)),
        b'*' => comment_end(source, at, to),
        _ => Ok(at),
    }
}

/// Where the line ends that a place is in.
fn line_end(source: &[u8], from: usize, to: usize) -> usize {
    for at in from..to {
        if byte(source, at) == b'\n' {
            return at;
        }
    }
    to
}

fn comment_end(source: &[u8], from: usize, to: usize) -> Result<usize, PortRefusal> {
    for at in from.saturating_add(2)..to {
        let next = at.saturating_add(1);
        if byte(source, at) == b'*' && byte(source, next) == b'/' && next < to {
            return Ok(next.saturating_add(1));
        }
    }
    Err(refusal_at(from, Reason::OpenComment))
}

fn is_word(byte: u8) -> bool {
    byte == b'_' || byte.is_ascii_alphanumeric()
}

/// Where the word ends that begins there.
pub fn word_end(source: &[u8], from: usize, to: usize) -> usize {
    for at in from..to {
        if !is_word(byte(source, at)) {
            return at;
        }
    }
    to
}

/// The kind of the token that begins with this byte.
fn kind_of(first: u8) -> Kind {
    if first.is_ascii_digit() {
        return Kind::Number;
    }
    if is_word(first) {
        return Kind::Word;
    }
    match first {
        b'#' => Kind::Directive,
        b'\'' => Kind::Character,
        _ => Kind::Mark,
    }
}

/// Where the token of this kind ends that begins there.
fn piece_end(source: &[u8], kind: Kind, at: usize, to: usize) -> Result<usize, PortRefusal> {
    match kind {
        Kind::Number => number_end(source, at, word_end(source, at, to)),
        Kind::Word => Ok(word_end(source, at, to)),
        Kind::Directive => Ok(line_end(source, at, to)),
        Kind::Character => character_end(source, at, to),
        Kind::Mark | Kind::Nothing => mark_end(source, at, to),
    }
}

/// Where a number ends, if no fraction follows. Behind three dots the next bound of a range begins.
fn number_end(source: &[u8], at: usize, end: usize) -> Result<usize, PortRefusal> {
    let next = byte(source, end.saturating_add(1));
    if byte(source, end) == b'.' && next != b'.' {
        return Err(refusal_at(at, Reason::Floating));
    }
    Ok(end)
}

fn character_end(source: &[u8], at: usize, to: usize) -> Result<usize, PortRefusal> {
    let second = byte(source, at.saturating_add(1));
    let length = if second == b'\\' { 4 } else { 3 };
    let end = at.saturating_add(length);
    let is_closed = byte(source, end.saturating_sub(1)) == b'\'' && end <= to;
    if is_closed && second != b'\'' {
        Ok(end)
    } else {
        Err(refusal_at(at, Reason::Character))
    }
}
