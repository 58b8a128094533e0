//! A line's blanks, marks and first word.
ghost use Rattle.std.specs.Prelude.{◌≡◌, ◌≤◌, length};
ghost use Rattle.std.specs.List.{prefix_len};
ghost use Rattle.gang_model.specs.Source.Names.{same_text};
ghost use Rattle.gang_model.specs.Texts.Spellings as spelling;
ghost use Rattle.debug_words.specs.LineWords as spec;

/// The bytes that are words by themselves.
#[derive(Clone, Copy, Debug, PartialEq, Eq, Drop)]
pub enum Marks {
    /// `[`, `]` and `=`.
    OfCommands,
    /// `=`.
    OfInputs,
}

/// Whether two words have the same bytes.
pub fn is_same(left: &[u8], right: &[u8]) -> bool
    ensures { result ≡ same_text left.now right.now }
{
    left == right
}

/// Whether a byte is a decimal digit.
pub fn is_digit(byte: u8) -> bool
    ensures { result ≡ spelling.is_digit byte }
{
    matches!(byte, b'0'..=b'9')
}

/// Whether a byte is a space, a tab or CR.
pub fn is_blank(byte: u8) -> bool
    ensures { result ≡ spelling.is_blank byte }
{
    matches!(byte, b' ' | b'\t' | b'\r')
}

fn is_mark(marks: Marks, byte: u8) -> bool
    ensures { result ≡ spec.is_mark_of marks byte }
{
    match marks {
        Marks::OfCommands => matches!(byte, b'[' | b']' | b'='),
        Marks::OfInputs => byte == b'=',
    }
}

/// Whether each byte is blank.
pub fn is_blank_line(line: &[u8]) -> bool
    ensures { result ≡ spelling.all_are spelling.is_blank line.now }
{
    line.iter().all(|byte| is_blank(*byte))
}

/// How many blanks the line begins with.
fn blank_len(line: &[u8]) -> usize
    ensures run { result ≡ prefix_len spelling.is_blank line.now }
    ensures within { result ≤ length line.now }
{
    line.iter().take_while(|byte| is_blank(**byte)).count()
}

/// How many bytes come before the first blank or mark.
fn plain_len(marks: Marks, line: &[u8]) -> usize
    ensures run { result ≡ prefix_len (spec.is_plain marks) line.now }
    ensures within { result ≤ length line.now }
{
    line.iter()
        .take_while(|byte| !is_blank(**byte) && !is_mark(marks, **byte))
        .count()
}

/// The first word of a line, and what follows it; none of a blank line. A mark is a word by itself, and other words are as
/// long as they can be without blanks and marks. The time is that of the blanks before the word and of the word.
pub fn next_word(marks: Marks, line: &[u8]) -> Option<(&[u8], &[u8])>
    ensures { spelling.words_of_line (spec.is_mark_of marks) line.now ≡ spec.words_from marks result }
{
    let line = &line[blank_len(line)..];
    let first = line.first()?;
    let len = if is_mark(marks, *first) {
        1
    } else {
        plain_len(marks, line)
    };
    Some(line.split_at(len))
}
