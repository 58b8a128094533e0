//! Refusals, and what standard error is told of them.
use crate::advice::{advise, advise_verb};
use crate::wrong_values::wrong_value;
use clap::error::{Error, ErrorKind};
use debug_inputs::InputFault;
use debug_streams::StreamWriter;
use desk_options::Program;
use ispc_refusals::{Refusal, write_refusal};
use prompt_texts::{Page, Source, put_marked};
use std::process::ExitCode;

/// The source and the input of a run.
#[derive(Clone, Copy)]
pub(crate) struct Texts<'a> {
    pub(crate) source: Source<'a>,
    pub(crate) input: Source<'a>,
}

impl<'a> Texts<'a> {
    /// The texts that a program's files have.
    pub(crate) fn new(path: &'a str, source: &'a [u8], input: &'a [u8]) -> Self {
        Texts {
            source: Source {
                name: path.as_bytes(),
                text: source,
            },
            input: Source {
                name: b"input",
                text: input,
            },
        }
    }
}

/// Tells a refusal.
pub(crate) fn refuse(rt: &HostRuntime, refusal: &Refusal) -> ExitCode {
    let mut writer = StreamWriter::new(rt.stderr());
    let _ = write_refusal(refusal, &mut writer);
    ExitCode::from(2)
}

/// Tells why a program is refused, with the line that this speaks of, a mark under the place, and what to do.
pub(crate) fn refuse_program(
    rt: &HostRuntime,
    refusal: &Refusal,
    program: &Program<'_>,
    texts: Texts<'_>,
) -> ExitCode {
    let status = refuse(rt, refusal);
    show_refused(rt, refusal, program, texts);
    advise(rt, refusal, program, texts);
    status
}

/// Shows the line that a refusal speaks of.
fn show_refused(rt: &HostRuntime, refusal: &Refusal, program: &Program<'_>, texts: Texts<'_>) {
    let mut page = Page::new(StreamWriter::new(rt.stderr()));
    match refusal {
        Refusal::Source(refused) => {
            if let Some(line) = texts.source.line(refused.place.line) {
                let before = refused.place.col.saturating_sub(1) as usize;
                put_marked(refused.place.line, line, before, &mut page);
            }
        }
        Refusal::Input(fault) => {
            if let Some(number) = line_of(fault)
                && let Some(line) = texts.input.line(number)
            {
                let at = wrong_value(rt.alloc(), program, texts, fault, number, line);
                put_marked(number, line, at, &mut page);
            }
        }
        _ => {}
    }
}

/// The line of the input that a fault speaks of.
fn line_of(fault: &InputFault) -> Option<u32> {
    match fault {
        InputFault::BadLine(line) | InputFault::Range(line) => Some(*line),
        InputFault::TooLarge(line) => *line,
        InputFault::Missing(_) | InputFault::Memory => None,
    }
}

/// Refuses the words, and says why. What they name is told behind it.
pub(crate) fn refuse_because(rt: &HostRuntime, why: &[u8], named: &[u8]) -> ExitCode {
    let mut page = Page::new(StreamWriter::new(rt.stderr()));
    page.put(b"error: ");
    page.put(why);
    page.put_masked(named);
    page.put(b"\n");
    ExitCode::from(2)
}

/// Tells that a file is neither read nor written, and the reason.
pub(crate) fn refuse_file(rt: &HostRuntime, what: &[u8], path: &str, reason: &[u8]) -> ExitCode {
    let mut page = Page::new(StreamWriter::new(rt.stderr()));
    page.put(what);
    page.put_masked(path.as_bytes());
    page.put(reason);
    page.put(b"\n");
    ExitCode::from(2)
}

/// Prints a fault of the words, or the help that was asked for. Where standard output does not take the help, that is a write fault.
pub(crate) fn refuse_arguments(rt: &HostRuntime, words: &[&str], fault: &Error) -> ExitCode {
    if fault.kind() == ErrorKind::OutOfMemory {
        return refuse(rt, &Refusal::Memory);
    }
    let printed = fault.print(rt);
    if fault.kind() == ErrorKind::InvalidSubcommand {
        advise_verb(rt, words);
    }
    match printed {
        Err(_) if !fault.use_stderr() => write_fault(rt),
        _ => ExitCode::from(fault.exit_code() as u8),
    }
}

pub(crate) fn read_fault(rt: &HostRuntime) -> ExitCode {
    let _ = eprintln!(rt; "read fault");
    ExitCode::from(3)
}

pub(crate) fn write_fault(rt: &HostRuntime) -> ExitCode {
    let _ = eprintln!(rt; "write fault");
    ExitCode::from(4)
}
