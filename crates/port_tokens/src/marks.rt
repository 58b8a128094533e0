//! The marks of a text, the longest first.
use crate::reading::byte;
use crate::refusals::{PortRefusal, Reason, refusal_at};

const THREE: &[&[u8]] = &[b"...", b"<<=", b">>="];

const TWO: &[&[u8]] = &[
    b"<<", b">>", b"<=", b">=", b"==", b"!=", b"&&", b"||", b"+=", b"-=", b"*=", b"/=", b"%=",
    b"&=", b"|=", b"^=", b"++", b"--",
];

const ONE: &[u8] = b"(){}[],;?:+-*/%&|^~!<>=";

/// Where the mark ends that begins there.
pub(crate) fn mark_end(source: &[u8], at: usize, to: usize) -> Result<usize, PortRefusal> {
    if begins(source, at, to, THREE) {
        return Ok(at.saturating_add(3));
    }
    if begins(source, at, to, &[b"->", b"."]) {
        return Err(refusal_at(at, Reason::Member));
    }
    if begins(source, at, to, TWO) {
        return Ok(at.saturating_add(2));
    }
    let first = byte(source, at);
    if ONE.contains(&first) {
        return Ok(at.saturating_add(1));
    }
    Err(refusal_at(at, not_read(first)))
}

/// Whether one of these begins there.
fn begins(source: &[u8], at: usize, to: usize, marks: &[&[u8]]) -> bool {
    let Some(rest) = source.get(at..to) else {
        return false;
    };
    for mark in marks {
        if rest.starts_with(mark) {
            return true;
        }
    }
    false
}

/// Why no token begins with this byte.
fn not_read(first: u8) -> Reason {
    if first == b'"' {
        Reason::Text
    } else {
        Reason::Byte
    }
}
