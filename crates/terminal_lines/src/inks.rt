//! Which parts of a line have a colour.
ghost use Rattle.std.specs.Prelude.{◌<◌, length};

/// What a byte of a line is written in.
#[derive(Clone, Copy, Debug, PartialEq, Eq, Drop)]
pub(crate) enum Ink {
    Plain,
    /// The mark of a lane that is active.
    Active,
    /// The mark of a lane that waits.
    Waiting,
    /// The arrow before the current line, and the mark under its column.
    Here,
    /// Values that a move changed, or that are new.
    Changed,
}

/// What a line shows.
#[derive(Clone, Copy, Debug, PartialEq, Eq, Drop)]
pub(crate) enum Shape {
    Other,
    /// The current line of the source, behind an arrow.
    Current,
    /// A mark under a column.
    Column,
    /// A place, with the lanes' marks from a byte on.
    Place(usize),
    /// A changed variable, with its new values from a byte on.
    Change(usize),
}

impl Shape {
    /// The shape of a line.
    pub(crate) fn of(line: &[u8]) -> Self {
        if line.starts_with(b"-> ") {
            Shape::Current
        } else if is_column(line) {
            Shape::Column
        } else if let Some(from) = marks_of(line) {
            Shape::Place(from)
        } else if let Some(from) = change_of(line) {
            Shape::Change(from)
        } else {
            Shape::Other
        }
    }

    /// What a byte at a place in a line of this shape is written in.
    pub(crate) fn ink(self, at: usize, byte: u8) -> Ink {
        if byte == b'\n' || byte == b' ' {
            return Ink::Plain;
        }
        let (from, to, ink) = self.coloured(byte);
        if from <= at && at < to {
            ink
        } else {
            Ink::Plain
        }
    }

    /// From which byte on up to which one a line of this shape has a colour, and which one a byte of these has.
    fn coloured(self, byte: u8) -> (usize, usize, Ink) {
        match self {
            Shape::Other => (0, 0, Ink::Plain),
            Shape::Current => (0, 2, Ink::Here),
            Shape::Column => (0, usize::MAX, Ink::Here),
            Shape::Place(from) => (from, usize::MAX, mark_ink(byte)),
            Shape::Change(from) => (from, usize::MAX, Ink::Changed),
        }
    }
}

/// What a lane's mark is written in.
fn mark_ink(byte: u8) -> Ink {
    if byte == b'#' {
        Ink::Active
    } else {
        Ink::Waiting
    }
}

/// Whether a line has nothing but a mark behind blanks.
fn is_column(line: &[u8]) -> bool {
    let text = line.strip_suffix(b"\n").unwrap_or(line);
    match text.strip_suffix(b"^") {
        Some(front) => front.iter().all(|byte| matches!(*byte, b' ' | b'\t')),
        None => false,
    }
}

/// Where the lanes' marks begin at the end of a line.
fn marks_of(line: &[u8]) -> Option<usize> {
    let text = line.strip_suffix(b"\n").unwrap_or(line);
    let marks = text.iter().rev().take_while(|byte| is_mark(**byte)).count();
    let front = text.get(..text.len().saturating_sub(marks))?;
    if marks > 0 && front.ends_with(b"lanes ") {
        Some(front.len())
    } else {
        None
    }
}

fn is_mark(byte: u8) -> bool {
    matches!(byte, b'#' | b'.')
}

/// Where the new values begin of a line that shows a changed variable behind two blanks.
fn change_of(line: &[u8]) -> Option<usize> {
    let text = line.strip_prefix(b"  ")?;
    if text.starts_with(b" ") {
        return None;
    }
    let behind = behind_part(line, b" = ")?;
    behind_part(line, b" -> ").or(Some(behind))
}

/// Where a line goes on behind the first place of a part.
fn behind_part(line: &[u8], part: &[u8]) -> Option<usize>
    requires { 0 < length part.now }
{
    let at = line.windows(part.len()).position(|other| other == part)?;
    Some(at.saturating_add(part.len()))
}
