//! The heads of frames: lines `NAME: VALUE`, each ended by CR LF, and an empty line.
ghost use Rattle.std.specs.Prelude.{◌≡◌, ◌-◌, ◌<◌, ◌==◌, MatchOption, MatchResult, bytes_eq, codes, false, fold, length, map, option_map, position};
ghost use Rattle.std.specs.Char.{is_ascii_digit, to_ascii_lowercase};
ghost use Rattle.std.specs.List.{list_all};
ghost use Rattle.adapter_frames.specs.Heads.{Headed, IsAtFault, has_line_end, line_says, number_of, value_of};
ghost use Rattle.adapter_frames.specs.Places.{EndsAt, HaveNoHead, HeadAt, IsPending, LineAt, SaysLength, clipped, clipped_says, found_with};

use thiserror::Error;

/// The most bytes of a head, without its empty line.
pub(crate) const MOST_HEAD: usize = 4_096;

/// The most bytes of a message.
pub(crate) const MOST_BODY: usize = 1_048_576;

/// Why the head of a frame is refused.
#[derive(Clone, Copy, Debug, PartialEq, Eq, Error)]
pub enum HeadFault {
    #[error("HeadTooLong: the headers have more than 4096 bytes")]
    HeadTooLong,
    #[error("BadHeader: a header is no NAME: VALUE")]
    BadHeader,
    #[error("NoLength: no header Content-Length")]
    NoLength,
    #[error("TwoLengths: two headers Content-Length")]
    TwoLengths,
    #[error("BadLength: Content-Length is no decimal number")]
    BadLength,
    #[error("TooLong: the message has more than 1048576 bytes")]
    TooLong,
}

/// Where the message of a frame begins, and how many bytes it has.
#[derive(Clone, Copy, Debug, PartialEq, Eq)]
pub(crate) struct Head {
    pub(crate) start: usize,
    pub(crate) length: usize,
}

/// The head of the frame that some bytes begin with, if it is whole.
pub(crate) fn read_head(bytes: &[u8]) -> Result<Option<Head>, HeadFault>
    ensures { MatchResult result
        (λ found. MatchOption found (IsPending bytes.now) (λ head. HeadAt bytes.now head.start head.length))
        (λ fault. IsAtFault fault bytes.now) }
{
    let Some(end) = end_of_head(bytes) else {
        return if bytes.len() >= MOST_HEAD + 2 {
            Err(HeadFault::HeadTooLong)
        } else {
            Ok(None)
        };
    };
    if end > MOST_HEAD {
        return Err(HeadFault::HeadTooLong);
    }
    let length = length_in(&bytes[..end])?;
    if length > MOST_BODY {
        return Err(HeadFault::TooLong);
    }
    Ok(Some(Head {
        start: end + 2,
        length,
    }))
}

/// Where the empty line begins that ends a head, if it is there.
fn end_of_head(bytes: &[u8]) -> Option<usize>
    ensures { MatchOption result (HaveNoHead bytes.now) (EndsAt bytes.now) }
{
    let mut rest = bytes;
    let mut at = 0;
    while let Some(line) = first_line(rest) {
        if line == 0 {
            return Some(at);
        }
        rest = &rest[line + 2..];
        at += line + 2;
    }
    None
}

/// How many bytes the first line has, its CR LF not counted, if it is whole.
fn first_line(bytes: &[u8]) -> Option<usize>
    ensures { MatchOption result (has_line_end bytes.now ≡ false) (LineAt bytes.now) }
{
    for at in 0..bytes.len() {
        if bytes[at..].starts_with(b"\r\n") {
            return Some(at);
        }
    }
    None
}

/// The length that the lines of a head say.
fn length_in(head: &[u8]) -> Result<usize, HeadFault>
    ensures { SaysLength head.now result }
{
    let mut found = None;
    let mut rest = head;
    while let Some(line) = first_line(rest) {
        found = found_with(found, &rest[..line])?;
        rest = &rest[line + 2..];
    }
    found.ok_or(HeadFault::NoLength)
}

/// The length that was found so far, with that of a further line.
fn found_with(found: Option<usize>, line: &[u8]) -> Result<Option<usize>, HeadFault>
    ensures { result ≡ found_with found (clipped_says (line_says line.now)) }
{
    match (length_of(line)?, found) {
        (Some(_), Some(_)) => Err(HeadFault::TwoLengths),
        (Some(length), None) => Ok(Some(length)),
        (None, found) => Ok(found),
    }
}

/// The length that a header says, if it is the one that does.
fn length_of(line: &[u8]) -> Result<Option<usize>, HeadFault>
    ensures { result ≡ clipped_says (line_says line.now) }
{
    let Some(colon) = colon_in(line) else {
        return Err(HeadFault::BadHeader);
    };
    if !is_length(&line[..colon]) {
        return Ok(None);
    }
    match number(line[colon + 1..].trim_ascii()) {
        Some(length) => Ok(Some(length)),
        None => Err(HeadFault::BadLength),
    }
}

/// Where the first colon stands.
fn colon_in(line: &[u8]) -> Option<usize>
    ensures { result ≡ position (λ byte. byte == 58) line.now }
{
    line.iter().position(|byte| *byte == b':')
}

/// Whether a header of this name says the length.
fn is_length(name: &[u8]) -> bool
    ensures { result ≡ bytes_eq (map to_ascii_lowercase name.now) (codes "content-length") }
{
    name.eq_ignore_ascii_case(b"content-length")
}

/// The decimal number that bytes spell; one that is far too large counts as the greatest.
fn number(digits: &[u8]) -> Option<usize>
    ensures { result ≡ option_map clipped (number_of digits.now) }
{
    if digits.is_empty() || !are_digits(digits) {
        None
    } else {
        Some(value(digits))
    }
}

fn are_digits(bytes: &[u8]) -> bool
    ensures { result ≡ list_all is_ascii_digit bytes.now }
{
    bytes.iter().all(|byte| byte.is_ascii_digit())
}

fn value(digits: &[u8]) -> usize
    ensures { result ≡ clipped (value_of 0 digits.now) }
{
    let mut value = 0usize;
    for digit in digits {
        value = value
            .saturating_mul(10)
            .saturating_add(usize::from(digit.saturating_sub(b'0')));
    }
    value
}
