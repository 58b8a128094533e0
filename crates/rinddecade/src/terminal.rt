//! Standard output as people see it: held back until the next line is asked for, with lines in colours, and a long list that waits.
use crate::refusing::refuse_because;
use crate::typed_lines::{Typed, TypedLines};
use desk_options::Debugged;
use std::cell::{Cell, RefCell};
use std::env;
use std::io::{self, BufWriter, IsTerminal, Stdout, Write};
use std::process::ExitCode;
use terminal_lines::{MORE, Pages, height_of, put_coloured};

/// How many lines a terminal has where `LINES` does not tell.
const LINES: u32 = 24;

/// What standard output is: whether it has colours, whether it is a terminal, and how many lines one page has, 0 where no list waits.
#[derive(Clone, Copy, Debug, PartialEq, Eq)]
pub(crate) struct Screen {
    pub(crate) has_colours: bool,
    pub(crate) is_terminal: bool,
    pub(crate) height: u32,
}

impl Screen {
    /// What standard output is, by the words of the call and the environment.
    pub(crate) fn of(rt: &HostRuntime, debugged: &Debugged<'_>) -> Result<Self, ExitCode> {
        let is_terminal = rt.stdout().is_terminal();
        let has_colours = has_colours(rt, debugged.color, is_terminal)?;
        let height = if is_terminal && rt.stdin().is_terminal() {
            height(rt)
        } else {
            0
        };
        Ok(Screen {
            has_colours,
            is_terminal,
            height,
        })
    }
}

/// Whether a text has colours, by the words of the call and the environment; or the status where the words ask for something else.
pub(crate) fn has_colours(
    rt: &HostRuntime,
    color: Option<&str>,
    is_terminal: bool,
) -> Result<bool, ExitCode> {
    match color {
        Some("always") => Ok(true),
        Some("never") => Ok(false),
        None | Some("auto") => Ok(is_terminal && wants_colours(rt)),
        Some(other) => Err(refuse_because(
            rt,
            b"--color takes auto, always or never, and not ",
            other.as_bytes(),
        )),
    }
}

/// Whether the environment has nothing against colours: no `NO_COLOR`, and a terminal that knows more than lines.
fn wants_colours(rt: &HostRuntime) -> bool {
    let is_refused = match env::var(rt, "NO_COLOR") {
        Ok(text) => !text.is_empty(),
        Err(_) => false,
    };
    match env::var(rt, "TERM") {
        Ok(name) => !is_refused && !name.is_empty() && name.as_str() != "dumb",
        Err(_) => false,
    }
}

/// How many lines a page has.
fn height(rt: &HostRuntime) -> u32 {
    match env::var(rt, "LINES") {
        Ok(text) => height_of(text.as_str().as_bytes()).unwrap_or(LINES),
        Err(_) => LINES,
    }
}

/// Standard output. What is written is held back until it is to be seen, so that the answer of a line goes out at once.
#[derive(Drop)]
pub(crate) struct Output {
    held: RefCell<BufWriter<Stdout>>,
}

impl Output {
    /// Standard output, to which nothing was written.
    ///
    /// # Errors
    ///
    /// Out of memory.
    pub(crate) fn new(rt: &HostRuntime) -> io::Result<Self> {
        let held = BufWriter::new(rt.alloc(), rt.stdout())?;
        Ok(Output {
            held: RefCell::new(held),
        })
    }

    /// Takes bytes.
    ///
    /// # Errors
    ///
    /// The fault of standard output, where what is held back goes out.
    fn put(&self, bytes: &[u8]) -> io::Result<()> {
        match self.held.try_borrow_mut() {
            Ok(mut held) => held.write_all(bytes),
            Err(_) => Err(in_use()),
        }
    }

    /// Writes out what is held back.
    ///
    /// # Errors
    ///
    /// The fault of standard output.
    pub(crate) fn show(&self) -> io::Result<()> {
        match self.held.try_borrow_mut() {
            Ok(mut held) => held.flush(),
            Err(_) => Err(in_use()),
        }
    }
}

/// The fault of one who writes while another one does.
fn in_use() -> io::Error {
    io::Error::from(io::ErrorKind::WouldBlock)
}

/// A writer on standard output.
#[derive(Clone, Copy)]
pub(crate) struct Answers<'a> {
    output: &'a Output,
}

impl<'a> Answers<'a> {
    pub(crate) fn new(output: &'a Output) -> Self {
        Answers { output }
    }
}

impl Write for Answers<'_> {
    fn write(&mut self, bytes: &[u8]) -> io::Result<usize> {
        self.output.put(bytes)?;
        Ok(bytes.len())
    }

    fn flush(&mut self) -> io::Result<()> {
        self.output.show()
    }
}

/// Standard output, line after line.
#[derive(Drop)]
pub(crate) struct Lines<'a> {
    rt: &'a HostRuntime,
    typed: &'a TypedLines,
    output: &'a Output,
    pages: &'a Cell<Pages>,
    has_colours: bool,
    line: Vec<u8>,
}

impl<'a> Lines<'a> {
    pub(crate) fn new(
        rt: &'a HostRuntime,
        typed: &'a TypedLines,
        output: &'a Output,
        pages: &'a Cell<Pages>,
        has_colours: bool,
    ) -> Self {
        Lines {
            rt,
            typed,
            output,
            pages,
            has_colours,
            line: Vec::new(rt.alloc()),
        }
    }

    /// Writes the line that is whole, where the list has not been ended; waits before it where the page is full.
    fn show_line(&mut self) -> io::Result<()> {
        let pages = match self.pages.get().behind_line() {
            Some(after) => after,
            None => {
                let answered = self.wait()?;
                answered.behind_line().unwrap_or(answered)
            }
        };
        self.pages.set(pages);
        if pages.has_more() {
            self.put_line()?;
        }
        self.line.clear();
        Ok(())
    }

    fn put_line(&mut self) -> io::Result<()> {
        if !self.has_colours {
            return self.output.put(self.line.as_slice());
        }
        let mut coloured = Vec::new(self.rt.alloc());
        put_coloured(self.line.as_slice(), &mut coloured)?;
        self.output.put(coloured.as_slice())
    }

    /// Asks whether the list goes on, and waits for a line. At the end of the input the list ends.
    fn wait(&self) -> io::Result<Pages> {
        self.output.put(MORE.as_bytes())?;
        self.output.show()?;
        let mut line = Vec::new(self.rt.alloc());
        let answer = match self.typed.next(&mut line)? {
            Typed::End => b"q".as_slice(),
            Typed::Line | Typed::TooLong => line.as_slice(),
        };
        Ok(self.pages.get().answered(answer))
    }
}

impl Write for Lines<'_> {
    /// What begins with a carriage return goes out at once: it is written over. All else goes line by line.
    fn write(&mut self, bytes: &[u8]) -> io::Result<usize> {
        if bytes.first() == Some(&b'\r') {
            self.output.put(bytes)?;
            self.output.show()?;
            return Ok(bytes.len());
        }
        for byte in bytes {
            self.line.push(*byte)?;
            if *byte == b'\n' {
                self.show_line()?;
            }
        }
        Ok(bytes.len())
    }

    fn flush(&mut self) -> io::Result<()> {
        self.output.show()
    }
}
