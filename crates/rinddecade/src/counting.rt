//! A writer that counts, and what is said of a page that is cut or large.
ghost use Rattle.std.specs.Prelude.{◌≡◌};

use debug_answers::Answer;
use debug_commands::Command;
use debug_session::Session;
use debug_streams::StreamWriter;
use debug_traits::{AnswerWriter, RecordedMachine, WriteFault};
use prompt_texts::Page;
use run_page::{PageEnd, Written};

/// From so many bytes on a page is large.
const LARGE: u64 = 20_000_000;

/// How many steps behind a page are counted at most.
const MOST_COUNTED: u32 = 1_000_000;

/// A writer that counts the bytes that are written.
#[derive(Drop)]
pub(crate) struct Counted<O> {
    inner: O,
    pub(crate) bytes: u64,
}

impl<O: AnswerWriter> Counted<O> {
    /// A writer to which nothing was written.
    pub(crate) fn new(inner: O) -> Self
        ensures { result.inner ≡ inner }
    {
        Counted { inner, bytes: 0 }
    }
}

impl<O: AnswerWriter> AnswerWriter for Counted<O> {
    ghost written = { λ s. O.written s.inner };

    ghost has_failed = { λ s. O.has_failed s.inner };

    fn write(&mut self, bytes: &[u8]) -> Result<usize, WriteFault> {
        let count = self.inner.write(bytes)?;
        self.bytes = self.bytes.saturating_add(count as u64);
        Ok(count)
    }
}

/// Says of a page that ends before its run does how far this goes, which is tried; and of that and of a large page what it takes, as a
/// whole and, without its viewer, for each moment.
pub(crate) fn tell_size<M: RecordedMachine>(
    rt: &HostRuntime,
    last: u64,
    written: Written,
    bytes: u64,
    viewer_bytes: u64,
    session: &mut Session<M>,
) {
    let mut page = Page::new(StreamWriter::new(rt.stderr()));
    if written.end == PageEnd::StepLimit {
        page.put(b"note: the page ends at step ");
        page.put_number(i128::from(last));
        page.put(b", and the run goes on for ");
        tell_rest(steps_left(session), &mut page);
    } else if bytes <= LARGE {
        return;
    }
    let each = bytes.saturating_sub(viewer_bytes) / (written.moments as u64).max(1);
    page.put(b"note: the page takes ");
    page.put_number(i128::from(bytes));
    page.put(b" bytes, about ");
    page.put_number(i128::from(each));
    page.put(b" for each of its ");
    page.put_number(written.moments as i128);
    page.put(
        b" moments; --most N bounds them, --from N begins later, --each N has one step of N\n",
    );
}

/// How many bytes parts have.
pub(crate) fn length_of(parts: &[&[u8]]) -> u64 {
    let mut bytes = 0u64;
    for part in parts {
        bytes = bytes.saturating_add(part.len() as u64);
    }
    bytes
}

/// Says how many steps a run has still.
fn tell_rest<O: AnswerWriter + Drop>(left: Option<u32>, page: &mut Page<O>) {
    match left {
        Some(left) => {
            page.put_number(i128::from(left));
            page.put(b" more\n");
        }
        None => {
            page.put(b"more than ");
            page.put_number(i128::from(MOST_COUNTED));
            page.put(b" more\n");
        }
    }
}

/// How many steps a session has still, all of which are done; none where there are too many to be counted.
fn steps_left<M: RecordedMachine>(session: &mut Session<M>) -> Option<u32> {
    for count in 0..MOST_COUNTED {
        let has_ended = session.machine().position().is_none();
        if has_ended || !matches!(session.do_command(Command::Step(1)), Answer::Here) {
            return Some(count);
        }
    }
    match session.machine().position() {
        Some(_) => None,
        None => Some(MOST_COUNTED),
    }
}
