//! Lines and columns of a text.
ghost use Rattle.std.specs.Prelude.{◌≡◌, ◌≤◌, length};
ghost use Rattle.port_tokens.specs.Places.{IsColumn, line_at};

/// A place in a text: the number of its line, and of its byte in the line, both from 1 on.
#[derive(Clone, Copy, Debug, PartialEq, Eq)]
pub struct Place {
    pub line: usize,
    pub column: usize,
}

/// The place behind so many bytes of a text.
pub fn place_of(text: &[u8], at: usize) -> Place
    requires { at ≤ length text.now }
    ensures line { result.line ≡ line_at text.now at }
    ensures column { IsColumn text.now at result.column }
{
    let line = text[..at].iter().filter(|byte| **byte == b'\n').count() + 1;
    let mut column = 1;
    for i in 0..at {
        column = if text[i] == b'\n' { 1 } else { column + 1 };
    }
    Place { line, column }
}
