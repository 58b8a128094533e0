//! The words at the front of a declaration.
use port_draft::Draft;
use port_tokens::{PortRefusal, Reason, Span};

/// The words of a declaration: which tokens they are, the part of `bodies` that is the type, and what else they say.
#[derive(Clone, Copy)]
pub struct Spec {
    pub words: Span,
    pub body: Span,
    pub is_constant: bool,
    pub is_static: bool,
}

/// The words of the declaration that begins there.
///
/// # Errors
///
/// No name follows them; or out of memory.
pub fn spec_of(draft: &mut Draft, at: usize) -> Result<Spec, PortRefusal> {
    let name = draft.spec_end(at);
    if !draft.is_word(name) {
        return Err(draft.refuse(name, not_a_name(draft, name)));
    }
    if draft.is_foreign_type(name) {
        return Err(draft.refuse(name, Reason::Type));
    }
    let words = Span {
        start: at,
        end: name,
    };
    Ok(Spec {
        words,
        body: draft.keep_type(words)?,
        is_constant: draft.has_word(words, b"const"),
        is_static: draft.has_word(words, b"static"),
    })
}

/// Why no name stands there.
fn not_a_name(draft: &Draft, at: usize) -> Reason {
    if draft.is(at, b"*") || draft.is(at, b"&") {
        return Reason::Pointer;
    }
    if draft.is(at, b"<") {
        return Reason::Vector;
    }
    Reason::Declaration
}
