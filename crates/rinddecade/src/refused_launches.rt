//! Why an editor's launch is refused, in a line.
use crate::advice::put_entries;
use crate::explaining::page_in;
use crate::files::reason;
use adapter_requests::Launch;
use debug_inputs::InputFault;
use debug_streams::StreamWriter;
use ispc_refusals::{Refusal, write_refusal};
use prompt_texts::Page;
use refusal_pages::write_page;
use std::alloc::{AllocError, Global};
use std::io;

/// The most steps that can be taken back, and the most moves of one command.
pub(crate) const MOST_HISTORY: u32 = 65_536;

pub(crate) const MOST_STEPS: u32 = 10_000_000;

/// A file of a launch that is not read.
#[derive(Clone, Copy)]
pub(crate) struct Unread<'a> {
    pub(crate) path: &'a str,
    pub(crate) kind: io::ErrorKind,
}

/// Why a file of a launch is not read.
pub(crate) fn unread_text(alloc: Global, unread: Unread<'_>) -> Result<String, AllocError> {
    if unread.kind == io::ErrorKind::OutOfMemory {
        return String::from_str(alloc, "memory");
    }
    let path = unread.path;
    let why = String::from_utf8_lossy(alloc, reason(unread.kind))?;
    format!(in alloc; "cannot read {path}{why}")
}

/// Which number of a launch is out of its range, and the range.
pub(crate) fn number_text(alloc: Global, launch: &Launch<'_>) -> Result<String, AllocError> {
    match launch.width {
        None | Some(4 | 8 | 16) => {}
        Some(width) => return format!(in alloc; "width {width}: it is 4, 8 or 16"),
    }
    match launch.history {
        Some(history) if history < 1 || history > u64::from(MOST_HISTORY) => {
            format!(in alloc; "history {history}: it is 1 to {MOST_HISTORY}")
        }
        _ => {
            let steps = launch.steps.unwrap_or(0);
            format!(in alloc; "steps {steps}: it is 1 to {MOST_STEPS}")
        }
    }
}

/// Why the program of a launch is refused: behind the path of the file that this speaks of and the place there, where it has one, the number
/// and the name of the refusal, and what it means.
pub(crate) fn refusal_text(
    alloc: Global,
    launch: &Launch<'_>,
    source: &[u8],
    refusal: &Refusal,
) -> Result<String, AllocError> {
    let mut line = Vec::new(alloc);
    let _ = write_refusal(refusal, &mut StreamWriter::new(&mut line));
    let told = String::from_utf8_lossy(alloc, line.as_slice())?;
    let told = told.trim_end();
    let program = launch.program;
    match refusal {
        Refusal::NoEntry => {
            let entries = entries_text(alloc, launch, source)?;
            format!(in alloc; "E1 NoEntry: {entries}")
        }
        Refusal::Source(_) => {
            let meaning = meaning_of(alloc, line.as_slice())?;
            format!(in alloc; "{program}:{told}:{meaning}")
        }
        Refusal::Input(fault) if !matches!(fault, InputFault::Memory) => {
            let place = input_place(alloc, launch, fault)?;
            let name = String::from_utf8_lossy(alloc, behind_place(told.as_bytes()))?;
            let meaning = meaning_of(alloc, line.as_slice())?;
            format!(in alloc; "{place}: {name}:{meaning}")
        }
        _ => String::from_str(alloc, told),
    }
}

/// The input of a launch, and the beginning of the line that a fault speaks of, where it speaks of one.
fn input_place(
    alloc: Global,
    launch: &Launch<'_>,
    fault: &InputFault,
) -> Result<String, AllocError> {
    let path = launch.input.unwrap_or("input");
    match fault {
        InputFault::BadLine(line) | InputFault::Range(line) | InputFault::TooLarge(Some(line)) =>
            format!(in alloc; "{path}:{line}:1"),
        _ => String::from_str(alloc, path),
    }
}

/// What stands in a line that tells a refusal behind the place.
fn behind_place(told: &[u8]) -> &[u8] {
    match told.iter().position(|byte| *byte == b':') {
        Some(at) => told.get(at.saturating_add(2)..).unwrap_or(&[]),
        None => told,
    }
}

/// The first sentence of what explains the refusal that a line tells, behind a blank.
fn meaning_of(alloc: Global, told: &[u8]) -> Result<String, AllocError> {
    let mut sentence = Vec::new(alloc);
    if let Some(page) = page_in(told) {
        let mut text = Vec::new(alloc);
        let _ = write_page(&page, &mut StreamWriter::new(&mut text));
        let words = text.split(|byte| matches!(*byte, b' ' | b'\n'));
        // (the number and the name of the refusal stand above)
        for word in words.filter(|word| !word.is_empty()).skip(2) {
            sentence.push(b' ')?;
            sentence.extend_from_slice(word)?;
            if word.last() == Some(&b'.') {
                break;
            }
        }
    }
    String::from_utf8_lossy(alloc, sentence.as_slice())
}

/// Which functions a run may begin with, in one line.
fn entries_text(alloc: Global, launch: &Launch<'_>, source: &[u8]) -> Result<String, AllocError> {
    let mut written = Vec::new(alloc);
    let mut page = Page::new(StreamWriter::new(&mut written));
    put_entries(alloc, launch.entry, source, &mut page);
    in_one_line(alloc, written.as_slice())
}

/// Lines with `; ` between them.
fn in_one_line(alloc: Global, text: &[u8]) -> Result<String, AllocError> {
    let mut line = Vec::new(alloc);
    for part in text.split(|byte| *byte == b'\n') {
        if !line.is_empty() && !part.is_empty() {
            line.extend_from_slice(b"; ")?;
        }
        line.extend_from_slice(part)?;
    }
    String::from_utf8_lossy(alloc, line.as_slice())
}
