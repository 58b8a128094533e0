//! A source for Intel's compiler, rewritten as one of the language: to a file or to standard output.
use crate::files::{is_one_file, read_file, reason};
use crate::refusing::{Texts, refuse, refuse_because, refuse_file, write_fault};
use debug_streams::StreamWriter;
use desk_options::Ported;
use ispc_refusals::Refusal;
use ispc_script::MOST_BYTES;
use prompt_texts::{Page, put_marked};
use source_port::{PortRefusal, Refused, place_of, port};
use std::fs;
use std::io::Write;
use std::process::ExitCode;

/// Ports a source.
pub(crate) fn port_source(rt: &HostRuntime, ported: &Ported<'_>) -> ExitCode {
    let source = match read_file(rt, ported.source, MOST_BYTES) {
        Ok(source) => source,
        Err(status) => return status,
    };
    match port(rt.alloc(), source.as_slice()) {
        Ok(text) => write_text(rt, ported, text.as_slice()),
        Err(PortRefusal::Memory) => refuse(rt, &Refusal::Memory),
        Err(PortRefusal::Source(refused)) => {
            let texts = Texts::new(ported.source, source.as_slice(), b"");
            tell_refused(rt, texts, refused);
            ExitCode::from(1)
        }
    }
}

/// Tells where and why a source is not ported, with its line and a mark under the place.
fn tell_refused(rt: &HostRuntime, texts: Texts<'_>, refused: Refused) {
    let source = texts.source;
    let place = place_of(source.text, refused.at.min(source.text.len()));
    let mut page = Page::new(StreamWriter::new(rt.stderr()));
    page.put_masked(source.name);
    page.put(b":");
    page.put_number(place.line as i128);
    page.put(b":");
    page.put_number(place.column as i128);
    page.put(b": ");
    page.put(refused.reason.words().as_bytes());
    page.put(b"\n");
    let number = u32::try_from(place.line).unwrap_or(u32::MAX);
    if let Some(line) = source.line(number) {
        put_marked(number, line, place.column.saturating_sub(1), &mut page);
    }
}

/// Writes a ported text.
fn write_text(rt: &HostRuntime, ported: &Ported<'_>, text: &[u8]) -> ExitCode {
    let Some(path) = ported.to else {
        return match rt.stdout().write_all(text) {
            Ok(()) => ExitCode::SUCCESS,
            Err(_) => write_fault(rt),
        };
    };
    if is_one_file(rt, path, ported.source) {
        return refuse_because(
            rt,
            b"the text would be written over what it is made from: ",
            path.as_bytes(),
        );
    }
    if !ported.force && holds_something(rt, path) {
        return refuse_because(
            rt,
            b"only --force writes over a file that holds something: ",
            path.as_bytes(),
        );
    }
    let mut file = match fs::create(rt, path) {
        Ok(file) => file,
        Err(fault) => return refuse_file(rt, b"cannot write ", path, reason(fault.kind())),
    };
    match file.write_all(text) {
        Ok(()) => ExitCode::SUCCESS,
        Err(_) => write_fault(rt),
    }
}

/// Whether there is a file of this path that is not empty.
pub(crate) fn holds_something(rt: &HostRuntime, path: &str) -> bool {
    match fs::metadata(rt, path) {
        Ok(metadata) => metadata.is_file() && metadata.len() > 0,
        Err(_) => false,
    }
}
