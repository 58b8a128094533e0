//! Files, and the fronts of them that are read.
use crate::refusing::{refuse, refuse_file};
use adapter_server::{FileFinder, FileNumber};
use debug_inputs::MOST_BYTES as MOST_INPUT;
use ispc_refusals::Refusal;
use ispc_script::MOST_BYTES;
use std::alloc::{AllocError, Global};
use std::io::Read;
use std::os::unix::fs::MetadataExt;
use std::process::ExitCode;
use std::{fs, io};

/// The front of a file, up to one byte more than there may be; or the status where it cannot be read, which standard error is
/// told with the reason.
pub(crate) fn read_file(rt: &HostRuntime, path: &str, most: usize) -> Result<Vec<u8>, ExitCode> {
    match file_front(rt, path, most) {
        Ok(text) => Ok(text),
        Err(fault) if fault.kind() == io::ErrorKind::OutOfMemory => {
            Err(refuse(rt, &Refusal::Memory))
        }
        Err(fault) => Err(refuse_file(rt, b"cannot read ", path, reason(fault.kind()))),
    }
}

pub(crate) fn file_front(rt: &HostRuntime, path: &str, most: usize) -> io::Result<Vec<u8>> {
    let file = fs::File::open(rt, path)?;
    let mut text = Vec::new(rt.alloc());
    let most = (most as u64).saturating_add(1);
    file.take(most).read_to_end(&mut text)?;
    Ok(text)
}

/// A text whose lines end by line feeds alone: without the carriage returns before them.
pub(crate) fn without_returns(alloc: Global, text: &[u8]) -> Result<Vec<u8>, AllocError> {
    let mut kept = Vec::new(alloc);
    for (at, byte) in text.iter().enumerate() {
        let is_before_feed = text.get(at.saturating_add(1)) == Some(&b'\n');
        if *byte != b'\r' || !is_before_feed {
            kept.push(*byte)?;
        }
    }
    Ok(kept)
}

/// Whether two paths lead to one file, however they are spelled: through other folders, or by links.
pub(crate) fn is_one_file(rt: &HostRuntime, one: &str, other: &str) -> bool {
    if one == other {
        return true;
    }
    match (file_at(rt, one), file_at(rt, other)) {
        (Some(one), Some(other)) => one == other,
        (Some(_), None) | (None, _) => false,
    }
}

/// The file that a path leads to; none where there is none, or it is not to be found.
fn file_at(rt: &HostRuntime, path: &str) -> Option<FileNumber> {
    match fs::metadata(rt, path) {
        Ok(metadata) => Some(FileNumber {
            device: metadata.dev(),
            number: metadata.ino(),
        }),
        Err(_) => None,
    }
}

/// The files of the system.
#[derive(Drop)]
pub(crate) struct SystemFiles<'a> {
    pub(crate) rt: &'a HostRuntime,
}

impl FileFinder for SystemFiles<'_> {
    // The system may tell any, and another one at another time.
    ghost leads = { λ files path file. Unit {0} };

    fn file_at(&self, path: &str) -> Option<FileNumber> {
        file_at(self.rt, path)
    }
}

/// Why a file is neither read nor written, where people can do something about it.
pub(crate) fn reason(kind: io::ErrorKind) -> &'static [u8] {
    match kind {
        io::ErrorKind::NotFound => b": there is no such file",
        io::ErrorKind::IsADirectory => b": it is a directory",
        io::ErrorKind::NotADirectory => b": a part of its path is no directory",
        io::ErrorKind::PermissionDenied => b": there is no permission",
        io::ErrorKind::InvalidFilename => b": its name is too long",
        io::ErrorKind::ReadOnlyFilesystem => b": nothing is written on its file system",
        io::ErrorKind::StorageFull => b": no room is left",
        _ => b"",
    }
}

/// A source, and the input if one is named, or the status where one of them cannot be read.
pub(crate) fn read_texts(
    rt: &HostRuntime,
    source: &str,
    input: Option<&str>,
) -> Result<(Vec<u8>, Vec<u8>), ExitCode> {
    let text = match read_file(rt, source, MOST_BYTES) {
        Ok(text) => text,
        Err(status) => return Err(status),
    };
    match input {
        None => Ok((text, Vec::new(rt.alloc()))),
        Some(path) => match read_file(rt, path, MOST_INPUT) {
            Ok(input) => Ok((text, input)),
            Err(status) => Err(status),
        },
    }
}
