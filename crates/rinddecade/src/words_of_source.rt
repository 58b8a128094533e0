//! The names that stand in a source.
use debug_traits::AnswerWriter;
use gang_model::Mark;
use ispc_lexer::{Kind, tokens};
use prompt_texts::Page;
use source_answers::SourceFault;
use std::alloc::{AllocError, Global};

/// How many functions are named at most.
const MOST_NAMED: usize = 12;

/// Writes the names of the exported functions of a source, and says how many there are.
pub(crate) fn put_exported<O: AnswerWriter + Drop>(
    alloc: Global,
    source: &[u8],
    page: &mut Page<O>,
) -> usize {
    let Ok(tokens) = tokens(alloc, source) else {
        return 0;
    };
    let mut count = 0usize;
    let mut is_exported = false;
    for token in &tokens {
        match &token.kind {
            Kind::Mark(Mark::Export) => is_exported = true,
            Kind::Name(name) if is_exported => {
                put_listed(name, count, page);
                count = count.saturating_add(1);
                is_exported = false;
            }
            _ => {}
        }
    }
    count
}

/// Writes one of several names, or that there are more.
fn put_listed<O: AnswerWriter + Drop>(name: &[u8], before: usize, page: &mut Page<O>) {
    if before > MOST_NAMED {
        return;
    }
    page.put(if before == 0 { b"" } else { b", " });
    page.put(if before == MOST_NAMED {
        b"..".as_slice()
    } else {
        name
    });
}

/// Whether a source names anything so. One that has no tokens is refused elsewhere.
///
/// # Errors
///
/// Out of memory.
pub(crate) fn may_have_name(alloc: Global, source: &[u8], name: &[u8]) -> Result<bool, AllocError> {
    match tokens(alloc, source) {
        Ok(tokens) => Ok(
            tokens.iter().any(
                |token| matches!(&token.kind, Kind::Name(found) if found.as_slice() == name),
            ),
        ),
        Err(SourceFault::Memory) => Err(AllocError),
        Err(_) => Ok(true),
    }
}
