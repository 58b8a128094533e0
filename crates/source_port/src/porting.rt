//! A text that is ported, from the first byte to the last.
ghost use Rattle.std.specs.Prelude.{◌≡◌, ◌+◌, ◌≤◌, ◌<◌, length, MatchResult};
ghost use Rattle.port_tokens.specs.Refusals.{LiesWithin};

use crate::file::read_file;
use port_draft::Draft;
use port_settling::expand;
use port_tokens::{PortRefusal, Reason, Refused};
use std::alloc::{AllocError, Global};

/// The most bytes of a source.
pub const MOST_BYTES: usize = 65_536;

/// A source of the language that does what this one does, which is written in a larger language.
///
/// # Errors
///
/// What is not ported, and where; or out of memory.
pub fn port(alloc: Global, source: &[u8]) -> Result<Vec<u8>, PortRefusal>
    ensures { MatchResult result (λ _. length source.now ≤ 65536) (LiesWithin (length source.now)) }
{
    if source.len() > MOST_BYTES {
        return Err(PortRefusal::Source(Refused {
            at: 0,
            reason: Reason::TooLong,
        }));
    }
    match ported(alloc, source) {
        Ok(text) => Ok(text),
        Err(PortRefusal::Memory) => Err(PortRefusal::Memory),
        Err(PortRefusal::Source(refused)) => Err(PortRefusal::Source(Refused {
            at: refused.at.min(source.len()),
            reason: refused.reason,
        })),
    }
}

fn ported(alloc: Global, source: &[u8]) -> Result<Vec<u8>, PortRefusal> {
    let mut draft = Draft::new(alloc, source)?;
    read(&mut draft)?;
    Ok(rendered(&draft)?)
}

/// Reads and writes all of a source.
fn read(draft: &mut Draft) -> Result<(), PortRefusal> {
    draft.read()?;
    expand(draft)?;
    draft.find_joint()?;
    draft.find_partners()?;
    draft.find_functions()?;
    read_file(draft)
}

/// What is written, as a text.
fn rendered(draft: &Draft) -> Result<Vec<u8>, AllocError> {
    let mut text = Vec::new(draft.alloc);
    for number in 0..draft.written.len() {
        let token = draft.written.token(number);
        text.extend_from_slice(draft.pool.text(token.before))?;
        text.extend_from_slice(draft.pool.text(token.text))?;
    }
    Ok(text)
}
