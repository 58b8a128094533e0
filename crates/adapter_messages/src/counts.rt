//! The counts of breakpoints and watches.
ghost use Rattle.std.specs.Prelude.{◌≡◌, ◌+◌, ◌^◌, codes, min, option_map};
ghost use Rattle.gang_model.specs.Texts.Spellings.{behind, in_range};
ghost use Rattle.adapter_messages.specs.Counts as spec;

use adapter_requests::BreakpointFault;
use debug_words::{Radix, digits_number};

/// The largest stop at which a count lets a breakpoint stop first.
const LARGEST_COUNT: u128 = 10_000_000;

/// How many stops are passed by the text of a count; an empty one is none.
pub(crate) fn passes_said(text: &str) -> Result<u32, BreakpointFault>
    ensures { result ≡ spec.passes_said text.now }
{
    if text.is_empty() {
        return Ok(0);
    }
    match first_counted(text.as_bytes()) {
        Some(first) => Ok(first.saturating_sub(1)),
        None => Err(BreakpointFault::NoCount),
    }
}

/// The first stop that counts, by the text of a count.
fn first_counted(text: &[u8]) -> Option<u32>
    ensures { result ≡ spec.first_counted text.now }
{
    let text = stripped(text);
    match text.strip_prefix(b">=") {
        Some(rest) => counted_from(rest),
        None => counted_behind_or_from(text),
    }
}

/// The same of a text that does not begin with `>=`.
fn counted_behind_or_from(text: &[u8]) -> Option<u32>
    ensures { result ≡ in_range 1 10000000 (spec.behind_or_from (behind (codes ">") text.now) text.now) }
{
    match text.strip_prefix(b">") {
        Some(rest) => counted_behind(rest),
        None => counted_from(text),
    }
}

/// The stop of a number.
fn counted_from(text: &[u8]) -> Option<u32>
    ensures { result ≡ in_range 1 10000000 (spec.stop_said text.now) }
{
    let stop = stop_said(text)?;
    if 1 <= stop && stop <= LARGEST_COUNT {
        Some(stop as u32)
    } else {
        None
    }
}

/// The stop behind that of a number.
fn counted_behind(text: &[u8]) -> Option<u32>
    ensures { result ≡ in_range 1 10000000 (option_map (λ stop. stop + 1) (spec.stop_said text.now)) }
{
    let stop = stop_said(text)?;
    if stop < LARGEST_COUNT {
        Some(stop as u32 + 1)
    } else {
        None
    }
}

/// The decimal number that a text spells, or 2^64 if it is more.
fn stop_said(text: &[u8]) -> Option<u128>
    ensures { result ≡ option_map (min (2 ^ 64)) (spec.stop_said text.now) }
{
    digits_number(Radix::Decimal, stripped(text))
}

/// A text without the blanks around it.
fn stripped(text: &[u8]) -> &[u8]
    ensures { result.now ≡ spec.stripped text.now }
{
    text.trim_ascii()
}
