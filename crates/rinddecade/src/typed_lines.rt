//! Lines that are typed, of a bounded length, and those that are done before another one is read.
ghost use Rattle.std.specs.Prelude.{◌≡◌, IfOk, false, true};
ghost use Rattle.prompt_stops.specs.Listed.{is_waiting, lists_of};

use debug_prompt::Dialogue;
use std::cell::RefCell;
use std::io::{self, BufRead, BufReader, Read, Stdin};

/// The most bytes of a line, without its line feed.
const MOST_BYTES: u64 = 4_096;

/// How many bytes a read of standard input has room for.
const ROOM: usize = 512;

/// What was read of standard input.
#[derive(Clone, Copy, Debug, PartialEq, Eq)]
pub(crate) enum Typed {
    Line,
    /// A line that has too many bytes, and was read past.
    TooLong,
    End,
}

/// What is done next.
#[derive(Clone, Copy, Debug, PartialEq, Eq)]
pub(crate) enum Next {
    /// A line that waits.
    Waiting,
    Read(Typed),
}

/// The lines of standard input, and what was read ahead of them. The prompt takes them, and so does a list that waits.
#[derive(Drop)]
pub(crate) struct TypedLines {
    reader: RefCell<BufReader<Stdin>>,
}

impl TypedLines {
    /// The lines of standard input, of which nothing was read.
    ///
    /// # Errors
    ///
    /// Out of memory.
    pub(crate) fn new(rt: &HostRuntime) -> io::Result<Self> {
        let reader = BufReader::with_capacity(rt.alloc(), ROOM, rt.stdin())?;
        Ok(TypedLines {
            reader: RefCell::new(reader),
        })
    }

    /// The next line of a dialogue (`next_line`).
    ///
    /// # Errors
    ///
    /// Out of memory, or the reader's fault.
    pub(crate) fn next_of(&self, dialogue: &Dialogue, line: &mut Vec<u8>) -> io::Result<Next>
        ensures next { is_waiting (lists_of dialogue.now.lists) ≡ true → IfOk result (λ next. next ≡ Next.Waiting) }
        ensures reads { is_waiting (lists_of dialogue.now.lists) ≡ false → IfOk result (λ next. (typed : Typed) × (next ≡ Next.Read typed)) }
    {
        match self.reader.try_borrow_mut() {
            Ok(mut reader) => next_line(dialogue, &mut *reader, line),
            Err(_) => Err(in_use()),
        }
    }

    /// The next line (`read_line`).
    ///
    /// # Errors
    ///
    /// Out of memory, or the reader's fault.
    pub(crate) fn next(&self, line: &mut Vec<u8>) -> io::Result<Typed> {
        match self.reader.try_borrow_mut() {
            Ok(mut reader) => read_line(&mut *reader, line),
            Err(_) => Err(in_use()),
        }
    }
}

/// The fault of one who reads while another one does.
fn in_use() -> io::Error {
    io::Error::from(io::ErrorKind::WouldBlock)
}

/// The next line: where lines of breakpoints and watches wait, the first of them, and nothing is read; else one that is read.
///
/// # Errors
///
/// Out of memory, or the reader's fault, where none waits.
pub(crate) fn next_line<R: BufRead>(
    dialogue: &Dialogue,
    reader: &mut R,
    line: &mut Vec<u8>,
) -> io::Result<Next>
    ensures next { is_waiting (lists_of dialogue.now.lists) ≡ true → result ≡ Ok Next.Waiting }
    ensures reads { is_waiting (lists_of dialogue.now.lists) ≡ false → IfOk result (λ next. (typed : Typed) × (next ≡ Next.Read typed)) }
    ensures unread { is_waiting (lists_of dialogue.now.lists) ≡ true → reader.new ≡ reader.old }
{
    if dialogue.is_waiting() {
        return Ok(Next::Waiting);
    }
    let typed = read_line(reader, line)?;
    Ok(Next::Read(typed))
}

/// Reads the next line.
///
/// # Errors
///
/// Out of memory, or the reader's fault.
pub(crate) fn read_line<R: BufRead>(reader: &mut R, line: &mut Vec<u8>) -> io::Result<Typed> {
    line.clear();
    let mut front = reader.by_ref().take(MOST_BYTES + 1);
    front.read_until(b'\n', line)?;
    if line.is_empty() {
        return Ok(Typed::End);
    }
    if line.ends_with(b"\n") || line.len() as u64 <= MOST_BYTES {
        return Ok(Typed::Line);
    }
    read_past(reader, line)?;
    Ok(Typed::TooLong)
}

/// Reads past the rest of a line.
fn read_past<R: BufRead>(reader: &mut R, line: &mut Vec<u8>) -> io::Result<()> {
    for _ in 0..u64::MAX {
        line.clear();
        reader.by_ref().take(MOST_BYTES).read_until(b'\n', line)?;
        if line.is_empty() || line.ends_with(b"\n") {
            break;
        }
    }
    Ok(())
}
