//! The path by which a program is known to a request.
ghost use Rattle.std.specs.Prelude.{◌≡◌, IfOk};
ghost use Rattle.adapter_messages.specs.Arguments.{text_of};
ghost use Rattle.adapter_server.specs.Spelling as spec;
ghost use Rattle.adapter_server.specs.Spelling.{IsPathBy, IsPathFor};

use crate::files::{FileFinder, FileNumber};
use adapter_paths::is_same_file;
use adapter_requests::Request;
use std::alloc::{AllocError, Global};

/// The path by which a program is known to a request: that of the request's source, where this is the program's, though it is spelled
/// otherwise or leads to the program's file by links.
///
/// # Errors
///
/// Out of memory.
pub(crate) fn path_for<'a, F: FileFinder>(
    alloc: Global,
    files: &F,
    program: &'a str,
    request: &Request<'a>,
) -> Result<&'a str, AllocError>
    ensures { IfOk result (λ path. IsPathFor (F.leads files.now) program.now request.now path.now) }
{
    match source_of(request) {
        None => Ok(program),
        Some(source) => path_by(alloc, files, program, source),
    }
}

/// The path of a program, or of a source that is the program's. Files are looked for only where the source is spelled otherwise.
fn path_by<'a, F: FileFinder>(
    alloc: Global,
    files: &F,
    program: &'a str,
    source: &'a str,
) -> Result<&'a str, AllocError>
    ensures { IfOk result (λ path. IsPathBy (F.leads files.now) program.now source.now path.now) }
{
    if is_same_file(alloc, program, source)? {
        return Ok(source);
    }
    if are_one(files.file_at(program), files.file_at(source)) {
        Ok(source)
    } else {
        Ok(program)
    }
}

/// Whether two paths lead to a file each, and these are one.
fn are_one(program: Option<FileNumber>, source: Option<FileNumber>) -> bool
    ensures { result ≡ spec.are_one program source }
{
    match (program, source) {
        (Some(program), Some(source)) => {
            program.device == source.device && program.number == source.number
        }
        _ => false,
    }
}

/// The path of the source that a request is about, if there is one.
fn source_of<'a>(request: &Request<'a>) -> Option<&'a str>
    ensures { text_of result ≡ spec.source_of request.now }
{
    match request {
        Request::SetBreakpoints { source, lines: _ }
        | Request::BreakpointLocations {
            source,
            first: _,
            last: _,
        }
        | Request::GotoTargets { source, line: _ } => *source,
        _ => None,
    }
}
