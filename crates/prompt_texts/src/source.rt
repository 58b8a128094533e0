//! The lines of a source.
ghost use Rattle.std.specs.Prelude.{◌≡◌, ◌≤◌, ◌==◌, count_by, length, not, take};
ghost use Rattle.std.specs.List.{prefix_len};
ghost use Rattle.prompt_texts.specs.SourceLines as spec;

const LINE_FEED: u8 = 10;

/// The last number of a line.
const LAST: usize = 4_294_967_295;

/// A source: the name of its file, and its text.
#[derive(Clone, Copy)]
pub struct Source<'a> {
    pub name: &'a [u8],
    pub text: &'a [u8],
}

impl<'a> Source<'a> {
    /// The line of a number, which counts from 1 on, without its line feed, and without a carriage return before that.
    pub fn line(self, number: u32) -> Option<&'a [u8]>
        ensures { spec.line_view result ≡ spec.line_of self.entry.text.now number }
    {
        line_of(self.text, number)
    }

    /// How many lines there are. The last may lack its line feed.
    pub fn lines(self) -> u32
        ensures { result ≡ spec.line_count self.entry.text.now }
    {
        line_count(self.text)
    }
}

/// The line of a number from 1 on, if there is one.
fn line_of(text: &[u8], number: u32) -> Option<&[u8]>
    ensures { spec.line_view result ≡ spec.line_of text.now number }
{
    let mut rest = text;
    for _skipped in 1..number {
        match after_line(rest) {
            Some(behind) => rest = behind,
            None => return None,
        }
    }
    first_line(rest)
}

/// What stands behind the first line feed of a text, if there is one.
fn after_line(text: &[u8]) -> Option<&[u8]>
    ensures { spec.line_view result ≡ spec.after_line text.now }
{
    let len = line_len(text);
    if len < text.len() {
        Some(&text[len + 1..])
    } else {
        None
    }
}

/// The first line of a text, if it has a byte.
fn first_line(text: &[u8]) -> Option<&[u8]>
    ensures { spec.line_view result ≡ spec.first_line text.now }
{
    match text {
        [] => None,
        _ => Some(without_return(&text[..line_len(text)])),
    }
}

/// How many bytes stand before the first line feed.
fn line_len(text: &[u8]) -> usize
    ensures run { result ≡ prefix_len (λ byte. not (byte == 10)) text.now }
    ensures within { result ≤ length text.now }
{
    text.iter().take_while(|byte| **byte != LINE_FEED).count()
}

/// A line without a carriage return at its end.
fn without_return(line: &[u8]) -> &[u8]
    ensures { result.now ≡ spec.without_return line.now }
{
    match line {
        [front @ .., b'\r'] => front,
        _ => line,
    }
}

/// How many lines there are.
fn line_count(text: &[u8]) -> u32
    ensures { result ≡ spec.line_count text.now }
{
    let ended = feeds(text);
    let lines = if is_open(text) {
        ended.saturating_add(1)
    } else {
        ended
    };
    lines.min(LAST) as u32
}

/// How many line feeds there are.
fn feeds(text: &[u8]) -> usize
    ensures { result ≡ count_by (λ byte. byte == 10) text.now }
{
    text.iter().filter(|byte| **byte == LINE_FEED).count()
}

/// Whether a text ends within a line.
fn is_open(text: &[u8]) -> bool
    ensures { result ≡ spec.is_open text.now }
{
    match text {
        [] => false,
        [.., last] => *last != LINE_FEED,
    }
}
