//! A script: a program's source, a line `%%`, and what comes after it.
ghost use Rattle.std.specs.Prelude.{◌≡◌, ◌+◌, ◌<◌, ℕ, length, take, drop, false, true, MatchOption, ◌⊎◌};
ghost use Rattle.ispc_script.specs.Marks.{mark_at, IsFirstMark, HasNoMark};

/// The most bytes of a script.
pub const MOST_BYTES: usize = 1_048_576;

const LINE_FEED: u8 = 10;

const PERCENT: u8 = b'%';

/// What stands before and after the first line that is exactly `%%`; nothing where there is none, and for too long a
/// script.
pub fn split_script(text: &[u8]) -> Option<(&[u8], &[u8])>
    ensures { MatchOption result ((MOST_BYTES < length text.now) ⊎ HasNoMark text.now) (λ parts.
        (length text.now < MOST_BYTES + 1) × ((i : ℕ) × IsFirstMark text.now i × (parts.0.now ≡ take i text.now) × (parts.1.now ≡ drop (i + 3) text.now))) }
{
    if text.len() > MOST_BYTES {
        return None;
    }
    for i in 0..text.len() {
        if is_mark(text, i) {
            let end = text.len().min(i + 3);
            return Some((&text[..i], &text[end..]));
        }
    }
    None
}

/// Whether a line that is exactly `%%` begins there.
fn is_mark(text: &[u8], i: usize) -> bool
    requires { length text.now < MOST_BYTES + 1 }
    ensures { result ≡ mark_at text.now i }
{
    let starts_line = i == 0 || (i <= text.len() && text[i - 1] == LINE_FEED);
    starts_line
        && i + 1 < text.len()
        && text[i] == PERCENT
        && text[i + 1] == PERCENT
        && (i + 2 == text.len() || text[i + 2] == LINE_FEED)
}
