//! The prompt over a session, on the standard streams.
ghost use Rattle.std.specs.Prelude.{◌≡◌};
ghost use Rattle.ispc_options.specs.Ranges.{AreInRange};
ghost use Rattle.ispc_debugger.specs.Runs.{lanes_of};

use crate::files::read_texts;
use crate::refusing::{Texts, read_fault, refuse, refuse_program, write_fault};
use crate::terminal::{Answers, Lines, Output, Screen};
use crate::typed_lines::{Next, Typed, TypedLines};
use debug_prompt::{Dialogue, Turn};
use debug_streams::StreamWriter;
use debug_traits::AnswerWriter;
use desk_options::{Debugged, Program};
use ispc_debugger::{WholeSession, open_whole_session};
use ispc_options::Width;
use ispc_refusals::Refusal;
use prompt_texts::{Page, Source};
use std::cell::Cell;
use std::io;
use std::io::IsTerminal;
use std::process::ExitCode;
use terminal_lines::{Pages, height_set_by};

/// What is shown for a line that has too many bytes.
const TOO_LONG: &[u8] =
    b"C1 BadCommand: the line has more than 4096 bytes, so nothing is done for it.\n";

/// Debugs a program by the lines of standard input. Its files are read first, the source before the input.
pub(crate) fn debug(rt: &HostRuntime, debugged: &Debugged<'_>) -> ExitCode
    requires { AreInRange debugged.now.program.options }
{
    let screen = match Screen::of(rt, debugged) {
        Ok(screen) => screen,
        Err(status) => return status,
    };
    let program = &debugged.program;
    let (source, input) = match read_texts(rt, program.source, program.input) {
        Ok(texts) => texts,
        Err(status) => return status,
    };
    let texts = Texts::new(program.source, source.as_slice(), input.as_slice());
    match program.options.width {
        Width::Four => debug_wide::<4>(rt, texts, program, screen),
        Width::Eight => debug_wide::<8>(rt, texts, program, screen),
        Width::Sixteen => debug_wide::<16>(rt, texts, program, screen),
    }
}

fn debug_wide<const W: usize>(
    rt: &HostRuntime,
    texts: Texts<'_>,
    program: &Program<'_>,
    screen: Screen,
) -> ExitCode
    requires width { W ≡ lanes_of program.now.options.width }
    requires range { AreInRange program.now.options }
{
    let (source, input) = (texts.source.text, texts.input.text);
    match open_whole_session::<W>(rt.alloc(), source, input, &program.options) {
        Err(refusal) => refuse_program(rt, &refusal, program, texts),
        Ok(mut session) => {
            let dialogue = Dialogue::new(program.options.steps);
            talk::<W>(rt, texts.source, dialogue, screen, &mut session)
        }
    }
}

/// Talks on standard output: on a terminal with the progress of a long `continue`, and in colours where they are wanted.
fn talk<const W: usize>(
    rt: &HostRuntime,
    source: Source<'_>,
    dialogue: Dialogue,
    screen: Screen,
    session: &mut WholeSession<W>,
) -> ExitCode {
    let Ok(typed) = TypedLines::new(rt) else {
        return refuse(rt, &Refusal::Memory);
    };
    let Ok(output) = Output::new(rt) else {
        return refuse(rt, &Refusal::Memory);
    };
    let streams = Streams {
        typed: &typed,
        output: &output,
    };
    let pages = Cell::new(Pages::new(screen.height));
    let shown = ShownSource::new(source, &pages, screen.height);
    if screen.is_terminal || screen.has_colours {
        let lines = Lines::new(rt, &typed, &output, &pages, screen.has_colours);
        let writer = StreamWriter::new(lines);
        let page = if screen.is_terminal {
            Page::on_terminal(writer)
        } else {
            Page::new(writer)
        };
        return talk_on::<W, _>(rt, streams, shown, dialogue, session, page);
    }
    let page = Page::new(StreamWriter::new(Answers::new(&output)));
    talk_on::<W, _>(rt, streams, shown, dialogue, session, page)
}

/// The lines that are read, and what is written out before the next one is.
#[derive(Clone, Copy)]
struct Streams<'a> {
    typed: &'a TypedLines,
    output: &'a Output,
}

/// The source, the pages of a terminal, and how many lines one of them has where nothing else is set.
#[derive(Clone, Copy)]
struct ShownSource<'a> {
    source: Source<'a>,
    pages: &'a Cell<Pages>,
    usual: u32,
}

impl<'a> ShownSource<'a> {
    fn new(source: Source<'a>, pages: &'a Cell<Pages>, usual: u32) -> Self {
        ShownSource {
            source,
            pages,
            usual,
        }
    }

    /// Begins the pages of a line, which may set how many lines one has.
    fn begin(self, line: &[u8]) {
        let pages = match height_set_by(line, self.usual) {
            Some(height) if self.usual > 0 => Pages::new(height),
            _ => self.pages.get().begun(),
        };
        self.pages.set(pages);
    }
}

/// Does the lines of standard input, up to one that quits or the end; and those of breakpoints and watches, before another one is read. What
/// was written goes out before each line is asked for.
fn talk_on<const W: usize, O: AnswerWriter + Drop>(
    rt: &HostRuntime,
    streams: Streams<'_>,
    shown: ShownSource<'_>,
    dialogue: Dialogue,
    session: &mut WholeSession<W>,
    page: Page<O>,
) -> ExitCode {
    let mut dialogue = dialogue;
    let mut page = page;
    let mut line = Vec::new(rt.alloc());
    let is_asked = rt.stdin().is_terminal();
    dialogue.begin(shown.source, session, &mut page);
    for _ in 0..u64::MAX {
        if streams.output.show().is_err() {
            return write_fault(rt);
        }
        ask(rt, is_asked, &dialogue);
        let next = match streams.typed.next_of(&dialogue, &mut line) {
            Err(fault) => return refuse_reading(rt, &fault),
            Ok(next) => next,
        };
        if next == Next::Read(Typed::End) {
            leave(rt, is_asked);
        }
        let text = without_feed(line.as_slice());
        let turn = do_next::<W, _>(rt, next, text, shown, &mut dialogue, session, &mut page);
        match turn {
            Turn::Goes => {}
            Turn::Quits => return end(rt, streams.output, &page),
            Turn::Fails => return write_fault(rt),
        }
    }
    ExitCode::SUCCESS
}

/// Does what is next: a line that was read, or one that waits.
fn do_next<const W: usize, O: AnswerWriter + Drop>(
    rt: &HostRuntime,
    next: Next,
    text: &[u8],
    shown: ShownSource<'_>,
    dialogue: &mut Dialogue,
    session: &mut WholeSession<W>,
    page: &mut Page<O>,
) -> Turn {
    match next {
        Next::Waiting => {
            shown.begin(&[]);
            dialogue.do_first(rt.alloc(), shown.source, session, page)
        }
        Next::Read(Typed::Line) => {
            shown.begin(text);
            dialogue.do_line(rt.alloc(), text, shown.source, session, page)
        }
        Next::Read(Typed::TooLong) => tell_too_long(page),
        Next::Read(Typed::End) => {
            dialogue.end(page);
            Turn::Quits
        }
    }
}

/// Ends when all that was written has gone out.
fn end<O: AnswerWriter + Drop>(rt: &HostRuntime, output: &Output, page: &Page<O>) -> ExitCode {
    if page.has_failed() || output.show().is_err() {
        write_fault(rt)
    } else {
        ExitCode::SUCCESS
    }
}

/// Tells that nothing is done for a line that has too many bytes.
fn tell_too_long<O: AnswerWriter + Drop>(page: &mut Page<O>) -> Turn {
    page.put(TOO_LONG);
    if page.has_failed() {
        Turn::Fails
    } else {
        Turn::Goes
    }
}

/// Writes the words that a terminal shows before a line that is read, or `>` before a line of a list.
fn ask(rt: &HostRuntime, is_asked: bool, dialogue: &Dialogue) {
    if !is_asked || dialogue.is_waiting() {
        return;
    }
    let _ = if dialogue.is_reading() {
        print!(rt; ">")
    } else {
        print!(rt; "(rinddecade) ")
    };
}

/// Ends the line on a terminal where no line came.
fn leave(rt: &HostRuntime, is_asked: bool) {
    if is_asked {
        let _ = println!(rt;);
    }
}

/// A line without its line feed.
fn without_feed(line: &[u8]) -> &[u8] {
    match line {
        [rest @ .., b'\n'] => rest,
        _ => line,
    }
}

fn refuse_reading(rt: &HostRuntime, fault: &io::Error) -> ExitCode {
    if fault.kind() == io::ErrorKind::OutOfMemory {
        return refuse(rt, &Refusal::Memory);
    }
    read_fault(rt)
}
