//! Lines, and the parts of a line.
ghost use Rattle.std.specs.Prelude.{◌≡◌, ◌≤◌, ◌∷◌, ℕ, List, length};
ghost use Rattle.std.specs.List.{prefix_len};
ghost use Rattle.gang_model.specs.Debugger.Events.{Row};
ghost use Rattle.gang_model.specs.Texts.InputText as text;
ghost use Rattle.gang_model.specs.Texts.Spellings.{words_of_line};
ghost use Rattle.gang_model.specs.Texts.Transcript.{lines_of};
ghost use Rattle.debug_inputs.specs.Lines.{is_inside, left_len, lines_left, row_behind};

use debug_words::{Marks, is_blank_line, is_same, next_word};

/// How many bytes come before the first line feed.
fn line_len(text: &[u8]) -> usize
    ensures run { result ≡ prefix_len is_inside text.now }
    ensures within { result ≤ length text.now }
{
    text.iter().take_while(|byte| **byte != b'\n').count()
}

/// The first line, without its line feed, and what follows that; nothing follows the last line.
pub(crate) fn next_line(text: &[u8]) -> (&[u8], Option<&[u8]>)
    ensures lines { lines_of text.now ≡ result.0.now ∷ lines_left result.1 }
    ensures shorter { left_len result.1 ≤ length text.now }
{
    let (line, rest) = text.split_at(line_len(text));
    match rest {
        [] => (line, None),
        [_, after @ ..] => (line, Some(after)),
    }
}

/// Whether a line has no row: a blank line, or one that begins with `#`.
pub(crate) fn is_skipped(line: &[u8]) -> bool
    ensures { result ≡ text.is_skipped line.now }
{
    is_blank_line(line) || line.first() == Some(&b'#')
}

/// A line's name, and what follows the `=` behind it; none where its first two words are not these.
pub(crate) fn name_and_values(line: &[u8]) -> Option<(&[u8], &[u8])>
    ensures { (receivers : List text.Receiver) → (n : ℕ) → (rows : List Row)
        → text.row_of receivers n rows (words_of_line text.is_equals line.now) ≡ row_behind receivers n rows result }
{
    let (name, rest) = next_word(Marks::OfInputs, line)?;
    let (equals, values) = next_word(Marks::OfInputs, rest)?;
    if is_same(equals, b"=") {
        Some((name, values))
    } else {
        None
    }
}
